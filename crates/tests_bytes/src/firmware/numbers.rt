//! Codes and quantities in half precision, in a VID table and in DIRECT without a sign, as C names
//! these formats: kinds 7, 8 and 9.

use crate::compare::same;
use pmb_firmware::{PmbFormat, PmbQuantity, decode, encode};

/// A format of a kind, with a number in its field `mode`, and with the coefficients 1, 0 and 0.
fn format_of(kind: u8, mode: u8) -> PmbFormat {
    PmbFormat {
        kind,
        exponent: 0,
        mode,
        r: 0,
        m: 1,
        b: 0,
    }
}

/// A name, a kind, its field `mode`, a code, the status, and the whole number that is left where
/// -7 stood.
#[rattlefmt::skip]
static DECODED: [(&str, u8, u8, u16, i32, i64); 10] = [
    ("half", 7, 0, 0x4a00, 0, 12),
    ("half, field 31", 7, 0, 0x7c00, 22, -7),
    ("vr12", 8, 2, 0x0097, 0, 1),
    ("vr12, no code", 8, 2, 0x0100, 23, -7),
    ("vr12, off", 8, 2, 0x0000, 24, -7),
    ("vr11, which has no code for off", 8, 1, 0x0000, 23, -7),
    ("nvidia195mv", 8, 6, 0x00a2, 0, 1),
    ("no table", 8, 7, 0x0097, 3, -7),
    ("direct, unsigned", 9, 0, 0xffff, 0, 65535),
    ("no kind", 10, 0, 0xffff, 3, -7),
];

#[test]
fn codes_without_a_value_have_a_status(rt: HostRuntime) {
    for &(name, kind, mode, code, status, left) in &DECODED {
        let mut quantity = PmbQuantity {
            numerator: -7,
            denominator: 1,
        };
        let found = decode(&format_of(kind, mode), code, &mut quantity);
        same(&rt, name, found, status);
        same(&rt, name, quantity.numerator, left);
        same(&rt, name, quantity.denominator, 1);
    }
}

/// A name, a kind, its field `mode`, a whole number, the status, and the code that is left where 7
/// stood.
#[rattlefmt::skip]
static ENCODED: [(&str, u8, u8, i64, i32, u16); 8] = [
    ("half", 7, 0, 12, 0, 0x4a00),
    ("half, above", 7, 0, 65505, 2, 7),
    ("vr12", 8, 2, 1, 0, 0x0097),
    ("vr12, below: off is not written", 8, 2, 0, 1, 7),
    ("no table", 8, 0, 1, 3, 7),
    ("direct, unsigned", 9, 0, 65535, 0, 0xffff),
    ("direct, unsigned, below", 9, 0, -1, 1, 7),
    ("no kind", 255, 0, 1, 3, 7),
];

#[test]
fn quantities_have_codes(rt: HostRuntime) {
    for &(name, kind, mode, numerator, status, left) in &ENCODED {
        let mut code = 7;
        let quantity = PmbQuantity {
            numerator,
            denominator: 1,
        };
        let found = encode(&format_of(kind, mode), quantity, &mut code);
        same(&rt, name, found, status);
        same(&rt, name, code, left);
    }
}
