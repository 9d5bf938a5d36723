//! What would be right in place of a text that is no code.
//!
//! Its rows: `tests/rows/explanations.txt`.

ghost use Rattle.std.specs.Prelude.{◌≡◌};
ghost use Rattle.std.specs.Char.{is_ascii_hexdigit};
ghost use Rattle.std.specs.List.{prefix_len};
ghost use Rattle.pmb_corrections.specs.Marks.{code_mark};

use crate::marked::{Correction, append_marked, push};
use std::fmt::Write;

/// Where a text stops being four hexadecimal digits: the first byte that is none, the fifth, or the end
/// of a text that has fewer.
pub fn code_mark(text: &[u8]) -> usize
    ensures { result ≡ code_mark text.now }
{
    digits(text).min(4)
}

/// How many hexadecimal digits a text begins with.
fn digits(text: &[u8]) -> usize
    ensures { result ≡ prefix_len is_ascii_hexdigit text.now }
{
    text.iter()
        .take_while(|byte| byte.is_ascii_hexdigit())
        .count()
}

/// What would be right in place of a text that is no code: the text with a mark, what is wrong there, and
/// the code that may have been meant.
pub fn code_correction(text: &[u8]) -> Correction {
    let mut lines = Correction::new();
    append_marked(&mut lines, text, code_mark(text));
    if text.is_empty() {
        push(
            &mut lines,
            "a code is four hexadecimal digits, such as d300\n",
        );
    } else if let Some(digits) = digits_with_radix(text) {
        append_of_radix(digits, &mut lines);
    } else if let Some(digits) = digits_around_gap(text) {
        append_of_bytes(digits, &mut lines);
    } else if are_digits(text) {
        append_of_length(text, &mut lines);
    } else if text.contains(&b' ') || text.contains(&b'\t') {
        push(
            &mut lines,
            "one code a line, four hexadecimal digits without blanks\n",
        );
    } else {
        push(
            &mut lines,
            "a code is four hexadecimal digits; for quantities there is pmb encode\n",
        );
    }
    lines
}

/// The digits of two bytes with something between them.
fn digits_around_gap(text: &[u8]) -> Option<[u8; 4]> {
    match text {
        [a, b, gap, c, d] if is_gap(*gap) && are_digits(&[*a, *b, *c, *d]) => {
            Some([*a, *b, *c, *d])
        }
        _ => None,
    }
}

/// Whether two bytes may have this between them.
fn is_gap(byte: u8) -> bool {
    byte == b' ' || byte == b'\t' || byte == b'-' || byte == b':' || byte == b','
}

/// Whether all bytes are hexadecimal digits, and there are some.
fn are_digits(text: &[u8]) -> bool {
    for byte in text {
        if !byte.is_ascii_hexdigit() {
            return false;
        }
    }
    !text.is_empty()
}

/// The digits of a text with `0x` before or `h` after them.
fn digits_with_radix(text: &[u8]) -> Option<&[u8]> {
    let digits = match text {
        [b'0', b'x' | b'X', rest @ ..] => rest,
        [rest @ .., b'h' | b'H'] => rest,
        _ => return None,
    };
    if are_digits(digits) {
        Some(digits)
    } else {
        None
    }
}

/// What is said of digits that had `0x` or `h`.
fn append_of_radix(digits: &[u8], lines: &mut Correction) {
    push(lines, "four hexadecimal digits, without 0x and h");
    if digits.len() == 4 {
        push(lines, ": ");
        append_digits(digits, lines);
    }
    push(lines, "\n");
}

/// What is said of two bytes, which may stand as on the wire.
fn append_of_bytes(digits: [u8; 4], lines: &mut Correction) {
    let [a, b, c, d] = digits;
    push(lines, "a code has its high byte first: ");
    append_digits(&[c, d, a, b], lines);
    push(lines, " if these are bytes as on the wire, else ");
    append_digits(&[a, b, c, d], lines);
    push(lines, "\n");
}

/// What is said of digits that are not four.
fn append_of_length(text: &[u8], lines: &mut Correction) {
    let count = text.len();
    let _ = write!(lines, "four digits are needed, and here are {count}");
    if count == 1 || count == 2 || count == 3 {
        push(lines, ": ");
        for _ in count..4 {
            push(lines, "0");
        }
        append_digits(text, lines);
        push(lines, "?");
    }
    push(lines, "\n");
}

/// Adds digits as they are.
fn append_digits(digits: &[u8], lines: &mut Correction) {
    for digit in digits {
        let _ = lines.try_push(char::from(*digit & 0x7f));
    }
}
