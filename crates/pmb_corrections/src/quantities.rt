//! What would be right in place of a text that spells no quantity.
//!
//! Its rows: `tests/rows/explanations.txt`.

ghost use Rattle.std.specs.Prelude.{◌≡◌, ◌≤◌, length};
ghost use Rattle.std.specs.List.{prefix_len};
ghost use Rattle.std.specs.Char.{is_ascii_digit};
ghost use Rattle.pmb_corrections.specs.Marks.{end_mark, number_mark, quantity_mark};

use crate::marked::{Correction, append_marked, push};
use arrayvec::ArrayVec;
use pmb_quantity::Quantity;

/// A text that may be right.
type Candidate = ArrayVec<u8, 48>;

/// Where a text stops being that of a quantity: the byte that none has after those before it, or the end
/// of a text in which more is needed.
pub fn quantity_mark(text: &[u8]) -> usize
    ensures mark { result ≡ quantity_mark text.now }
    ensures within { result ≤ length text.now }
{
    match text {
        [b'-', rest @ ..] => 1 + number_mark(rest),
        _ => number_mark(text),
    }
}

/// The same of a quantity without its sign.
fn number_mark(text: &[u8]) -> usize
    ensures mark { result ≡ number_mark text.now }
    ensures within { result ≤ length text.now }
{
    let whole = digits(text);
    if whole == 0 {
        0
    } else {
        whole + end_mark(&text[whole..])
    }
}

/// The same of what follows the first digits.
fn end_mark(text: &[u8]) -> usize
    ensures mark { result ≡ end_mark text.now }
    ensures within { result ≤ length text.now }
{
    match text {
        [b'.' | b'/', rest @ ..] => 1 + digits(rest),
        _ => 0,
    }
}

/// How many decimal digits a text begins with.
fn digits(text: &[u8]) -> usize
    ensures count { result ≡ prefix_len is_ascii_digit text.now }
    ensures within { result ≤ length text.now }
{
    text.iter().take_while(|byte| byte.is_ascii_digit()).count()
}

/// What would be right in place of a text that is no quantity's: the text with a mark, what is wrong there,
/// and the quantity that may have been meant.
pub fn quantity_correction(text: &[u8]) -> Correction {
    let mut lines = Correction::new();
    let mark = quantity_mark(text);
    append_marked(&mut lines, text, mark);
    push(&mut lines, wrong_at(text, mark));
    append_meant(text, &mut lines);
    push(&mut lines, "\n");
    lines
}

/// What is wrong at a byte.
fn wrong_at(text: &[u8], mark: usize) -> &'static str {
    let Some(byte) = text.get(mark) else {
        return "a digit is missing";
    };
    match *byte {
        b',' => "a point, not a comma",
        b'.' if mark == 0 || text.first() == Some(&b'-') && mark == 1 =>
            "a digit comes before the point",
        b'+' => "no +: without a sign a quantity is positive",
        b'e' | b'E' => "no powers of ten: the number is written out",
        b'x' | b'X' => "a quantity is decimal; pmb decode takes codes",
        b' ' | b'\t' | b'\r' => "no blanks",
        b'%' => "no unit: % are hundredths, so 5% is 0.05",
        b'_' | b'\'' => "no marks between digits",
        0xe2 if text.get(mark..mark.saturating_add(3)) == Some(&[0xe2, 0x88, 0x92]) => {
            "a minus sign of another sort: write - from the keyboard"
        }
        0x80..=0xff => "no character outside ASCII",
        byte if byte.is_ascii_alphabetic() && mark > 0 => "a number without its unit",
        _ => "digits alone, with a point or a slash between them",
    }
}

/// Writes the quantity that may have been meant, if there is one.
fn append_meant(text: &[u8], lines: &mut Correction) {
    let Some(meant) = meant(text) else {
        return;
    };
    push(lines, ": ");
    for byte in meant.as_slice() {
        let _ = lines.try_push(char::from(*byte & 0x7f));
    }
}

/// The quantity that may have been meant by a text, if there is one: without blanks around it, `+` and a unit,
/// with a point for a comma or for the V in 3V3, with a digit before its point, and as a fraction for the
/// thousandths of mV. Of several commas, a power of ten or a per cent sign nothing is known.
fn meant(text: &[u8]) -> Option<Candidate> {
    let (number, unit) = split_at_unit(without_blanks(text));
    let mut made = Candidate::new();
    append_number(number, &mut made)?;
    match without_blanks(unit) {
        [] | [b'V' | b'A' | b'W' | b'C' | b's'] => {}
        [b'm', b'V' | b'A' | b'W' | b's'] if are_decimal(made.as_slice()) => {
            made.try_extend_from_slice(b"/1000").ok()?;
        }
        [b'k', b'W' | b'V' | b'A'] if are_decimal(made.as_slice()) => {
            made.try_extend_from_slice(b"000").ok()?;
        }
        [b'V', rest @ ..] if are_decimal(made.as_slice()) && are_decimal(rest) => {
            made.try_push(b'.').ok()?;
            made.try_extend_from_slice(rest).ok()?;
        }
        _ => return None,
    }
    if Quantity::parse(made.as_slice()).is_err() {
        return None;
    }
    Some(made)
}

/// A text without the blanks around it.
fn without_blanks(text: &[u8]) -> &[u8] {
    let start = text.iter().take_while(|byte| is_blank(**byte)).count();
    let rest = text.get(start..).unwrap_or(&[]);
    let mut end: usize = 0;
    for (place, byte) in rest.iter().enumerate() {
        if !is_blank(*byte) {
            end = place.saturating_add(1);
        }
    }
    rest.get(..end).unwrap_or(rest)
}

/// Whether a byte is a blank, or a CR at the end of a line.
fn is_blank(byte: u8) -> bool {
    byte == b' ' || byte == b'\t' || byte == b'\r'
}

/// A text up to its first letter, and from there on.
fn split_at_unit(text: &[u8]) -> (&[u8], &[u8]) {
    let mut end: usize = 0;
    for byte in text {
        if byte.is_ascii_alphabetic() {
            break;
        }
        end = end.saturating_add(1);
    }
    (
        text.get(..end).unwrap_or(text),
        text.get(end..).unwrap_or(&[]),
    )
}

/// Appends a number: without `+` in front, with a point for one comma, and with a digit on both sides of it.
fn append_number(number: &[u8], made: &mut Candidate) -> Option<()> {
    let number = match without_blanks(number) {
        [b'+', rest @ ..] => rest,
        other => other,
    };
    let mut has_point = false;
    for byte in number {
        let byte = if *byte == b',' { b'.' } else { *byte };
        if byte == b'.' {
            if has_point {
                return None;
            }
            has_point = true;
            if !made.last().unwrap_or(&b'-').is_ascii_digit() {
                made.try_push(b'0').ok()?;
            }
        }
        made.try_push(byte).ok()?;
    }
    if made.last() == Some(&b'.') {
        let _ = made.pop();
    }
    Some(())
}

/// Whether all bytes are decimal digits, and there are some.
fn are_decimal(text: &[u8]) -> bool {
    for byte in text {
        if !byte.is_ascii_digit() {
            return false;
        }
    }
    !text.is_empty()
}
