//! What would be right in place of words of the command line.
//!
//! Its rows: `tests/rows/explanations.txt`.

use crate::bytes::byte_with_radix;
use crate::likeness::nearest;
use crate::marked::{Correction, append_word, push};
use pmb_line::{Token, token_of};
use std::alloc::Global;
use std::fmt::Write;

/// The words of `--fail-on`.
const FAILS: &[&str] = &[
    "refusals",
    "bad-tokens",
    "nacks",
    "alerts",
    "faults",
    "none-read",
];

/// The sources of `import`.
const SOURCES: &[&str] = &["sigrok", "saleae", "beagle", "kernel", "smbus"];

/// Names that others have for sources, and what they are here.
#[rattlefmt::skip]
const OTHER_SOURCES: &[(&str, &str)] = &[
    ("logic", "saleae"), ("logic2", "saleae"), ("saleae2", "saleae"), ("pulseview", "sigrok"),
    ("sigrok-cli", "sigrok"), ("totalphase", "beagle"), ("aardvark", "beagle"), ("linux", "kernel"),
    ("ftrace", "kernel"), ("trace", "kernel"), ("trace-cmd", "kernel"), ("perf", "kernel"), ("i2c", "kernel"),
];

/// How a line begins: the word that is wrong.
fn of_word(word: &str) -> Correction {
    let mut lines = Correction::new();
    push(&mut lines, "  ");
    append_word(&mut lines, word.as_bytes());
    push(&mut lines, ": ");
    lines
}

/// What would be right in place of N of `--digits`.
pub fn digits_correction(word: &str) -> Correction {
    let mut lines = of_word(word);
    push(
        &mut lines,
        "N is how many digits a number may have after its point, from 0 to 12\n",
    );
    lines
}

/// What would be right in place of HH of `--device`.
pub fn address_correction(word: &str) -> Correction {
    let mut lines = of_word(word);
    push(
        &mut lines,
        "an address of 7 bits, in two hexadecimal digits from 00 to 7f",
    );
    append_address(word.as_bytes(), &mut lines);
    push(&mut lines, "\n");
    lines
}

/// Writes which address may have been meant, if that is known.
fn append_address(word: &[u8], lines: &mut Correction) {
    if let Some(digits) = byte_with_radix(word) {
        let [high, low] = digits;
        if high < b'8' {
            push(lines, ", without 0x and h: --device ");
            let _ = lines.try_push(char::from(high & 0x7f));
            let _ = lines.try_push(char::from(low & 0x7f));
        }
        return;
    }
    if let Some(byte) = byte_of(word) {
        let seven = byte / 2;
        let _ = write!(
            lines,
            "; {byte:02x} is the 8-bit form of {seven:02x}: --device {seven:02x}"
        );
    }
}

/// The byte of two hexadecimal digits, if the highest bit of it is set.
fn byte_of(word: &[u8]) -> Option<u8> {
    match token_of(word) {
        Some(Token::Byte(byte)) if byte >= 0x80 => Some(byte),
        _ => None,
    }
}

/// What would be right in place of WHAT of `--fail-on`: of its first word that is none.
pub fn fail_correction(alloc: Global, what: &str) -> Correction {
    for word in what.split(',') {
        if !FAILS.contains(&word) {
            let mut lines = of_word(word);
            if word.is_empty() {
                push(&mut lines, "a word is missing beside a comma");
            } else if word.contains(' ') {
                push(&mut lines, "commas between words, without blanks");
            } else {
                match nearest(alloc, word, FAILS) {
                    Some(meant) => {
                        push(&mut lines, "did you mean ");
                        push(&mut lines, meant);
                        push(&mut lines, "?");
                    }
                    None => push(&mut lines, "this is no word of --fail-on"),
                }
            }
            push(
                &mut lines,
                "\n  WHAT is some of refusals, bad-tokens, nacks, alerts, faults and none-read, with commas between \
                 them\n",
            );
            return lines;
        }
    }
    Correction::new()
}

/// What would be right in place of SOURCE.
pub fn source_correction(alloc: Global, word: &str) -> Correction {
    let mut lines = of_word(word);
    match source_meant(alloc, word) {
        Some(meant) => {
            push(&mut lines, "did you mean ");
            push(&mut lines, meant);
            push(&mut lines, "?");
        }
        None => push(&mut lines, "this is no source"),
    }
    push(
        &mut lines,
        "\n  SOURCE is sigrok, saleae, beagle, kernel or smbus: what made the recording\n",
    );
    lines
}

fn source_meant(alloc: Global, word: &str) -> Option<&'static str> {
    for (name, meant) in OTHER_SOURCES {
        if word.eq_ignore_ascii_case(*name) {
            return Some(*meant);
        }
    }
    nearest(alloc, word, SOURCES)
}

/// What would be right in place of HZ of `--rate`.
pub fn rate_correction(word: &str) -> Correction {
    let mut lines = of_word(word);
    push(
        &mut lines,
        "samples a second, in digits alone, from 1 to 18446744073",
    );
    if let Some((digits, zeros)) = with_prefix(word) {
        push(&mut lines, ": --rate ");
        push(&mut lines, digits);
        push(&mut lines, zeros);
    }
    push(&mut lines, "\n");
    lines
}

/// A whole number of kHz or MHz: its digits, and the zeros after them.
fn with_prefix(word: &str) -> Option<(&str, &'static str)> {
    let bare = word.strip_suffix("Hz").unwrap_or(word);
    let (digits, zeros) = if let Some(digits) = bare.strip_suffix("M") {
        (digits, "000000")
    } else if let Some(digits) = bare.strip_suffix("k") {
        (digits, "000")
    } else if let Some(digits) = bare.strip_suffix("G") {
        (digits, "000000000")
    } else {
        (bare, "")
    };
    if digits.is_empty() || digits.len() > 11 || digits.len() == word.len() {
        return None;
    }
    for byte in digits.as_bytes() {
        if !byte.is_ascii_digit() {
            return None;
        }
    }
    Some((digits, zeros))
}
