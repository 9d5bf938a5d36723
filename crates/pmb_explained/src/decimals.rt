//! Numbers of a profile that stand in decimal where people mean hexadecimal ones.
//!
//! Its rows: `tests/rows/explanations.txt`.

use crate::explanation::{Explanation, add};
use arrayvec::ArrayString;
use pmb_io::without_return;
use pmb_words::{decimal, hexadecimal};
use std::fmt::Write;

/// How many such numbers are told.
const MOST: usize = 4;

/// A key of a device whose number is a byte, and the greatest that it may have.
#[derive(Clone, Copy)]
struct ByteKey {
    name: &'static str,
    greatest: u64,
}

/// The keys that are looked at.
const KEYS: [ByteKey; 2] = [
    ByteKey {
        name: "address",
        greatest: 0x77,
    },
    ByteKey {
        name: "vout_mode",
        greatest: 0xff,
    },
];

/// Writes a line for each address and each VOUT_MODE that has a line of its own in a profile and stands there in
/// decimal, the first four: `address = 40` is 28h. A number below 10 is the same in both.
pub(crate) fn explain_decimals(profile: &[u8], text: &mut Explanation) {
    let mut number: u64 = 0;
    let mut count: usize = 0;
    for line in profile.split(|byte| *byte == b'\n') {
        number = number.saturating_add(1);
        for key in &KEYS {
            if count < MOST {
                if let Some((column, digits)) = digits_of(without_return(line), key.name) {
                    if add_decimal(*key, number, column, digits, text) {
                        count = count.saturating_add(1);
                    }
                }
            }
        }
    }
}

/// The decimal digits that a line has as the number of a key, and the column of the key, from 1.
fn digits_of<'a>(line: &'a [u8], key: &str) -> Option<(usize, &'a str)> {
    let line = std::str::from_utf8(line).ok()?;
    let trimmed = line.trim_ascii_start();
    let column = line.len().saturating_sub(trimmed.len()).saturating_add(1);
    let value = trimmed
        .strip_prefix(key)?
        .trim_ascii_start()
        .strip_prefix("=")?;
    let digits = match value.split_once("#") {
        Some((digits, _)) => digits.trim_ascii(),
        None => value.trim_ascii(),
    };
    Some((column, digits))
}

/// Adds what a number of decimal digits is in hexadecimal, and returns whether it did.
fn add_decimal(
    key: ByteKey,
    number: u64,
    column: usize,
    digits: &str,
    text: &mut Explanation,
) -> bool {
    let digits = digits.as_bytes();
    if digits.len() > 3 {
        return false;
    }
    let Some(value) = decimal(digits) else {
        return false;
    };
    if value < 10 {
        return false;
    }
    let name = key.name;
    let mut line = ArrayString::<160>::new();
    let _ = write!(
        line,
        "  line {number}, column {column}: {name} = {value} is decimal, and so {value:02x}h"
    );
    match hexadecimal(digits) {
        Some(meant) if meant <= key.greatest => {
            let _ = write!(line, ": 0x{value} is {value}h");
        }
        _ => {}
    }
    let _ = line.try_push_str("\n");
    add(text, line.as_str());
    true
}
