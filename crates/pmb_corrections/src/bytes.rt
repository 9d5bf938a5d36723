//! What would be right in place of a word that is to be a byte.
//!
//! Its rows: `tests/rows/explanations.txt`.

use crate::likeness::distance;
use crate::marked::{Correction, push};
use pmb_command::{by_name, standard};
use std::alloc::Global;
use std::fmt::Write;

/// Two hexadecimal digits with `0x` before or `h` after them.
pub fn byte_with_radix(word: &[u8]) -> Option<[u8; 2]> {
    match word {
        [b'0', b'x' | b'X', high, low] | [high, low, b'h' | b'H']
            if high.is_ascii_hexdigit() && low.is_ascii_hexdigit() => { Some([*high, *low]) }
        _ => None,
    }
}

/// Writes what may have been meant by a word that is no byte, if that is known.
pub fn append_of_byte(word: &[u8], lines: &mut Correction) -> bool {
    if let Some(digits) = byte_with_radix(word) {
        push(lines, "two hexadecimal digits, without 0x and h: ");
        append_digits(&digits, lines);
        return true;
    }
    match word {
        [digit] if digit.is_ascii_hexdigit() => {
            push(lines, "a byte has two digits: 0");
            append_digits(&[*digit], lines);
            true
        }
        [a, b, c, d] if are_digits(word) => {
            push(
                lines,
                "a byte is two digits, and the low byte comes first: ",
            );
            append_digits(&[*c, *d], lines);
            push(lines, " ");
            append_digits(&[*a, *b], lines);
            true
        }
        [_, _, b',' | b';', ..] | [_, _, b'+' | b':', ..] => {
            push(lines, "blanks between words, and nothing else");
            true
        }
        _ => false,
    }
}

/// Writes which code a name has that stands in place of a code, or one that is like it, if a standard command
/// has it.
pub(crate) fn append_of_code(alloc: Global, word: &[u8], lines: &mut Correction) -> bool {
    let Ok(name) = std::str::from_utf8(word) else {
        return false;
    };
    let found = match code_of(name) {
        Some(code) => Some(code),
        None => nearest_code(alloc, name),
    };
    match found {
        Some(code) => {
            push(lines, "write the code: ");
            append_entry(code, lines);
            true
        }
        None => false,
    }
}

/// The code of the standard command whose name is most like a text of four bytes or more, if one is.
fn nearest_code(alloc: Global, name: &str) -> Option<u8> {
    if name.len() < 4 {
        return None;
    }
    let mut best: usize = 4;
    let mut found = None;
    for code in 0u16..256 {
        if let Some(entry) = standard(code as u8) {
            if let Some(distance) = distance(alloc, name, entry.name.as_str()) {
                if distance < best {
                    best = distance;
                    found = Some(code as u8);
                }
            }
        }
    }
    found
}

/// The code of a standard command by its name, in either case.
fn code_of(name: &str) -> Option<u8> {
    if let Some(code) = by_name(name) {
        return Some(code);
    }
    for code in 0u16..256 {
        if let Some(entry) = standard(code as u8) {
            if entry.name.as_str().eq_ignore_ascii_case(name) {
                return Some(code as u8);
            }
        }
    }
    None
}

/// Writes the name and the code of a standard command.
fn append_entry(code: u8, lines: &mut Correction) {
    if let Some(entry) = standard(code) {
        push(lines, entry.name.as_str());
        let _ = write!(lines, " is {code:02x}");
    }
}

/// Whether all bytes are hexadecimal digits.
fn are_digits(word: &[u8]) -> bool {
    for byte in word {
        if !byte.is_ascii_hexdigit() {
            return false;
        }
    }
    true
}

/// Adds digits as they are.
fn append_digits(digits: &[u8], lines: &mut Correction) {
    for digit in digits {
        let _ = lines.try_push(char::from(*digit & 0x7f));
    }
}
