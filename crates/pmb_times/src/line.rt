//! The time that a line tells.
//!
//! Each function computes the definition of its name.
//!
//! Its rows: `tests_bytes`, `src/times/lines.rt`.

ghost use Rattle.std.specs.Prelude.{◌≡◌, IfSome};
ghost use Rattle.std.specs.List.{list_all};
ghost use Rattle.std.specs.Option.{option_map};
ghost use Rattle.pmb_times.specs.Line.{IsTime, before_unit, begins_as, comment_time, fits_mark, is_iso_time, is_point, is_number, is_seconds_byte, is_seconds, is_time_byte, line_time, marked_time, time_if, without_return, without_sign};

/// How many bytes a time has at most.
pub const TIME: usize = 40;

/// How an ISO 8601 time begins, with 0 for each digit.
const DATE_AND_HOUR: &[u8] = b"0000-00-00T00";

#[inline]
fn is_point(byte: u8) -> bool
    ensures { result ≡ is_point byte }
{
    byte == b'.'
}

#[inline]
fn is_seconds_byte(byte: u8) -> bool
    ensures { result ≡ is_seconds_byte byte }
{
    byte.is_ascii_digit() || is_point(byte)
}

#[inline]
fn is_time_byte(byte: u8) -> bool
    ensures { result ≡ is_time_byte byte }
{
    is_seconds_byte(byte) || matches!(byte, b':' | b'-' | b'+' | b'T' | b'Z')
}

/// Whether a text is digits, at least one, with at most one point, and a sign before them or none.
fn is_seconds(text: &[u8]) -> bool
    ensures { result ≡ is_seconds text.now }
{
    is_number(without_sign(text))
}

/// A number without its sign.
fn without_sign(text: &[u8]) -> &[u8]
    ensures { result.now ≡ without_sign text.now }
{
    match text {
        [b'-' | b'+', number @ ..] => number,
        _ => text,
    }
}

/// Whether a text is digits, at least one, with at most one point.
fn is_number(text: &[u8]) -> bool
    ensures { result ≡ is_number text.now }
{
    let mut digits: usize = 0;
    let mut points: usize = 0;
    for byte in text {
        if byte.is_ascii_digit() {
            digits += 1;
        } else if is_point(*byte) {
            points += 1;
        } else {
            return false;
        }
    }
    digits >= 1 && points <= 1
}

/// Whether a byte fits a mark of [`DATE_AND_HOUR`].
#[inline]
fn fits_mark(mark: u8, byte: u8) -> bool
    ensures { result ≡ fits_mark mark byte }
{
    if mark == b'0' {
        byte.is_ascii_digit()
    } else {
        byte == mark
    }
}

/// Whether a text begins with a byte that fits for each mark.
fn begins_as(marks: &[u8], text: &[u8]) -> bool
    ensures { result ≡ begins_as marks.now text.now }
{
    if text.len() < marks.len() {
        return false;
    }
    for (i, mark) in marks.iter().enumerate() {
        if !fits_mark(*mark, text[i]) {
            return false;
        }
    }
    true
}

/// Whether a text has bytes of times alone.
fn are_time_bytes(text: &[u8]) -> bool
    ensures { result ≡ list_all is_time_byte text.now }
{
    text.iter().all(|byte| is_time_byte(*byte))
}

/// Whether a text is an ISO 8601 time.
fn is_iso_time(text: &[u8]) -> bool
    ensures { result ≡ is_iso_time text.now }
{
    begins_as(DATE_AND_HOUR, text) && are_time_bytes(text)
}

/// What stands before ` s` at the end of a text.
fn before_unit(text: &[u8]) -> Option<&[u8]>
    ensures { option_map (λ front. front.now) result ≡ before_unit text.now }
{
    text.strip_suffix(b" s")
}

/// A time, if it is one and not too long.
fn time_if(is: bool, time: &[u8]) -> Option<&[u8]>
    ensures { option_map (λ time. time.now) result ≡ time_if is time.now }
{
    if is && time.len() <= TIME {
        Some(time)
    } else {
        None
    }
}

/// The time that a comment says after `# `.
fn comment_time(text: &[u8]) -> Option<&[u8]>
    ensures { option_map (λ time. time.now) result ≡ comment_time text.now }
{
    match before_unit(text) {
        Some(time) => time_if(is_seconds(time), time),
        None => time_if(is_iso_time(text), text),
    }
}

/// A line without the one CR at its end, if it has one.
fn without_return(line: &[u8]) -> &[u8]
    ensures { result.now ≡ without_return line.now }
{
    match line.strip_suffix(b"\r") {
        Some(before) => before,
        None => line,
    }
}

/// The time that a line says, given without its CR.
fn marked_time(line: &[u8]) -> Option<&[u8]>
    ensures { option_map (λ time. time.now) result ≡ marked_time line.now }
{
    match line.strip_prefix(b"# ") {
        Some(text) => comment_time(text),
        None => None,
    }
}

/// The time that a line tells, given without its LF.
pub(crate) fn line_time(line: &[u8]) -> Option<&[u8]>
    ensures time { option_map (λ time. time.now) result ≡ line_time line.now }
    ensures is { IfSome result (λ time. IsTime time.now) }
{
    marked_time(without_return(line))
}
