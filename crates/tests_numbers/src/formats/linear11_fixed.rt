//! LINEAR11 with one exponent: its ends, ties, and words with other exponents.
use crate::compare::same;
use crate::formats::checks::{ABOVE, BELOW, check_code, check_text};
use pmb_value::{BadExponent, Linear11Fixed, RangeFault};

/// A name, an exponent, a text, and its code or fault.
#[rattlefmt::skip]
static CODES: [(&str, i8, &str, Result<u16, RangeFault>); 22] = [
    ("exact", -3, "12", Ok(0xe860)),
    ("zero has the exponent", -3, "0", Ok(0xe800)),
    ("a tie at zero", -3, "1/16", Ok(0xe800)),
    ("a tie next to zero", -3, "3/16", Ok(0xe802)),
    ("a tie below zero", -3, "-1/16", Ok(0xe800)),
    ("the next tie below zero", -3, "-3/16", Ok(0xeffe)),
    ("greatest", -3, "127.875", Ok(0xebff)),
    ("a little over", -3, "127.9", ABOVE),
    ("least", -3, "-128", Ok(0xec00)),
    ("a little under", -3, "-128.1", BELOW),
    ("minus one", 0, "-1", Ok(0x07ff)),
    ("less than a half under", 0, "-1024.25", BELOW),
    ("under, nearer to none", 0, "-1024.75", BELOW),
    ("nearest below zero", 0, "-1.6", Ok(0x07fe)),
    ("least exponent, least", -16, "-1/64", Ok(0x8400)),
    ("least exponent, a tie", -16, "-3/131072", Ok(0x87fe)),
    ("greatest exponent, greatest", 15, "33521664", Ok(0x7bff)),
    ("greatest exponent, over", 15, "33521665", ABOVE),
    ("greatest exponent, a tie", 15, "16384", Ok(0x7800)),
    ("greatest exponent, the next tie", 15, "49152", Ok(0x7802)),
    ("62 bits over 62 bits", -9, "4611686018427387903/4611686018427387902", Ok(0xba00)),
    ("62 bits over 62 bits, below zero", -9, "-4611686018427387903/4611686018427387902", Ok(0xbe00)),
];

#[test]
fn linear11_fixed_codes(rt: HostRuntime) {
    for (name, exponent, text, wanted) in CODES {
        let format = Linear11Fixed::new(exponent).expect(&rt, "an exponent");
        check_code(&rt, name, &format, text, wanted);
    }
}

#[test]
fn linear11_fixed_texts(rt: HostRuntime) {
    let format = Linear11Fixed::new(-3).expect(&rt, "an exponent");
    check_text(&rt, "another exponent", &format, 0xd300, "12");
    check_text(&rt, "its own", &format, 0xe801, "0.125");
}

#[test]
fn exponents_out_of_range(rt: HostRuntime) {
    for exponent in [-128, -17, 16, 127] {
        same(
            &rt,
            exponent,
            Linear11Fixed::new(exponent),
            Err(BadExponent),
        );
    }
}
