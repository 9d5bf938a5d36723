//! The least and the greatest value of a format.
//!
//! Its rows: `tests/rows/explanations.txt`.

use crate::marked::{Correction, append_word, push};
use pmb_convert::{NumberFormat, parse_format};
use pmb_quantity::Quantity;

/// Codes among which are those of the least and the greatest value of each format but the VID tables: of
/// LINEAR11 and half precision, of words with a sign and of words without one.
const ENDS: [u16; 8] = [
    0x0000, 0xffff, 0x7fff, 0x8000, 0x7bff, 0x7c00, 0xfbff, 0x0400,
];

/// What would be right in place of a quantity that is out of the range of FORMAT, if that is one.
pub fn range_correction(format: &str, quantity: &[u8]) -> Option<Correction> {
    match parse_format(format) {
        Ok(format) => Some(correction_in(&format, quantity)),
        Err(_) => None,
    }
}

/// The same in a format.
fn correction_in(format: &NumberFormat, quantity: &[u8]) -> Correction {
    let mut lines = Correction::new();
    push(&mut lines, "  ");
    append_word(&mut lines, quantity);
    push(&mut lines, ": ");
    match range_of(format) {
        Some((least, greatest)) => {
            push(&mut lines, "this format goes from ");
            push(&mut lines, least.text().as_str());
            push(&mut lines, " to ");
            push(&mut lines, greatest.text().as_str());
            push(&mut lines, "\n");
        }
        None => push(&mut lines, "this format has no such value\n"),
    }
    lines
}

/// The least and the greatest value of a format.
fn range_of(format: &NumberFormat) -> Option<(Quantity, Quantity)> {
    match format {
        NumberFormat::Vid(_) => range_of_table(format),
        NumberFormat::Linear11Fixed(fixed) => {
            let exponent = exponent_bits(fixed.exponent());
            let least = wider(None, format, exponent | 0x0400);
            wider(least, format, exponent | 0x03ff)
        }
        NumberFormat::Linear11 | NumberFormat::Word(_) | NumberFormat::Half => range_at_ends(
            format,
        ),
    }
}

/// The same of a VID table, whose codes are single bytes.
fn range_of_table(format: &NumberFormat) -> Option<(Quantity, Quantity)> {
    let mut range = None;
    for code in 0u16..256 {
        range = wider(range, format, code);
    }
    range
}

/// The same of a format one of whose least and one of whose greatest codes are among [`ENDS`].
fn range_at_ends(format: &NumberFormat) -> Option<(Quantity, Quantity)> {
    let mut range = None;
    for code in &ENDS {
        range = wider(range, format, *code);
    }
    range
}

/// The bits 15:11 of a word of LINEAR11 with an exponent.
fn exponent_bits(exponent: i8) -> u16 {
    let mut bits: u16 = 0;
    for candidate in 0u16..32 {
        if (i32::from(candidate) + 16) % 32 - 16 == i32::from(exponent) {
            bits = candidate << 11;
        }
    }
    bits
}

/// A range, and the value of a code.
fn wider(
    range: Option<(Quantity, Quantity)>,
    format: &NumberFormat,
    code: u16,
) -> Option<(Quantity, Quantity)> {
    let Ok(value) = format.value(code) else {
        return range;
    };
    match range {
        None => Some((value, value)),
        Some((least, greatest)) => Some((
            if is_less(&value, &least) {
                value
            } else {
                least
            },
            if is_less(&greatest, &value) {
                value
            } else {
                greatest
            },
        )),
    }
}

/// Whether a quantity is less than another.
fn is_less(one: &Quantity, other: &Quantity) -> bool {
    let left = i128::from(one.num()).saturating_mul(i128::from(other.den()));
    let right = i128::from(other.num()).saturating_mul(i128::from(one.den()));
    left < right
}
