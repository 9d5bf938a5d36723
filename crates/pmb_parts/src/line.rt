//! A line of a TOML text.
//!
//! Its rows: `.ci/boards`.

ghost use Rattle.std.specs.Prelude.{◌<◌, ◌≤◌, length, IfSome};

/// Whether a byte is a blank, or the CR of a line's end.
fn is_blank(byte: u8) -> bool {
    byte == b' ' || byte == b'\t' || byte == b'\r'
}

/// How many bytes the first line of a text has, with its LF.
pub(crate) fn line_length(text: &[u8]) -> usize
    ensures within { result ≤ length text.now }
    ensures some { 0 < length text.now → 0 < result }
{
    for (i, byte) in text.iter().enumerate() {
        if *byte == b'\n' {
            return i + 1;
        }
    }
    text.len()
}

/// A line without the blanks in front.
pub(crate) fn without_blanks(line: &[u8]) -> &[u8]
    ensures { length result.now ≤ length line.now }
{
    for (i, byte) in line.iter().enumerate() {
        if !is_blank(*byte) {
            return &line[i..];
        }
    }
    &[]
}

/// Whether a line is nothing but blanks and a comment.
pub(crate) fn is_comment(line: &[u8]) -> bool {
    match without_blanks(line) {
        [] | [b'\n', ..] | [b'#', ..] => true,
        _ => false,
    }
}

/// Whether a line is nothing but blanks.
pub(crate) fn is_empty(line: &[u8]) -> bool {
    match without_blanks(line) {
        [] | [b'\n', ..] => true,
        _ => false,
    }
}

/// What follows a word and blanks after it, where a line begins so.
fn after_word<'l>(line: &'l [u8], word: &[u8]) -> Option<&'l [u8]>
    ensures { IfSome result (λ rest. length rest.now ≤ length line.now) }
{
    let rest = line.strip_prefix(word)?;
    Some(without_blanks(rest))
}

/// Whether a line is the head of a device's table.
pub(crate) fn is_head(line: &[u8]) -> bool {
    let Some(name) = after_word(without_blanks(line), b"[[") else {
        return false;
    };
    let Some(end) = after_word(name, b"device") else {
        return false;
    };
    match after_word(end, b"]]") {
        Some(rest) => is_comment(rest),
        None => false,
    }
}

/// Whether a line begins another table.
pub(crate) fn begins_table(line: &[u8]) -> bool {
    matches!(without_blanks(line), [b'[', ..])
}

/// What follows the `=` of a line for the key `address`, where it is one.
pub(crate) fn after_address(line: &[u8]) -> Option<&[u8]>
    ensures { IfSome result (λ rest. length rest.now ≤ length line.now) }
{
    let value = after_word(without_blanks(line), b"address")?;
    value.strip_prefix(b"=")
}

/// The comment at the end of a value, with the blanks before it; empty where there is none.
pub(crate) fn comment_of(value: &[u8]) -> &[u8]
    ensures { length result.now ≤ length value.now }
{
    // (where the blanks so far begin)
    let mut start = 0;
    for (i, byte) in value.iter().enumerate() {
        if *byte == b'#' {
            return without_line_end(&value[start..]);
        }
        if *byte != b' ' && *byte != b'\t' {
            start = i + 1;
        }
    }
    &[]
}

/// A text without the CR and the LF at its end.
pub(crate) fn without_line_end(line: &[u8]) -> &[u8]
    ensures { length result.now ≤ length line.now }
{
    match line {
        [front @ .., b'\r', b'\n'] | [front @ .., b'\n'] | [front @ .., b'\r'] => front,
        _ => line,
    }
}
