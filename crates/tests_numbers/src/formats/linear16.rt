//! ULINEAR16 and SLINEAR16: the ends of their ranges at several exponents.
use crate::compare::same;
use crate::formats::checks::{ABOVE, BELOW, check_code, check_round_trip};
use pmb_value::{BadExponent, RangeFault, Slinear16, Ulinear16};

/// A name, an exponent, a text, and its code or fault.
type Row = (&'static str, i8, &'static str, Result<u16, RangeFault>);

/// A little over one, of numbers as long as they come.
const NEAR_ONE: &str = "4611686018427387903/4611686018427387902";

/// A little under minus one.
const NEAR_MINUS_ONE: &str = "-4611686018427387903/4611686018427387902";

#[rattlefmt::skip]
static UNSIGNED: [Row; 12] = [
    ("fine, greatest", -16, "0.9999847412109375", Ok(0xffff)),
    ("fine, least", -16, "0", Ok(0)),
    ("fine, a step over", -16, "1", ABOVE),
    ("fine, a little over", -16, "0.9999857412109375", ABOVE),
    ("fine, a step under", -16, "-0.0000152587890625", BELOW),
    ("fine, a little under", -16, "-0.000001", BELOW),
    ("coarse, greatest", 15, "2147450880", Ok(0xffff)),
    ("coarse, a tie goes down to an even code", 15, "16384", Ok(0)),
    ("coarse, a tie goes up to an even code", 15, "49152", Ok(2)),
    ("coarse, a step over", 15, "2147483648", ABOVE),
    ("coarse, a little over", 15, "2147450880.000001", ABOVE),
    ("62 bits over 62 bits", -9, NEAR_ONE, Ok(0x0200)),
];

#[test]
fn ulinear16_codes(rt: HostRuntime) {
    for &(name, exponent, text, wanted) in &UNSIGNED {
        let format = Ulinear16::new(exponent).expect(&rt, "an exponent");
        check_code(&rt, name, &format, text, wanted);
    }
}

#[rattlefmt::skip]
static SIGNED: [Row; 16] = [
    ("fine, greatest", -16, "0.4999847412109375", Ok(0x7fff)),
    ("fine, least", -16, "-0.5", Ok(0x8000)),
    ("fine, a tie goes up to zero", -16, "-1/131072", Ok(0)),
    ("fine, a tie goes down to -2", -16, "-3/131072", Ok(0xfffe)),
    ("fine, a tie goes down to zero", -16, "1/131072", Ok(0)),
    ("fine, a tie goes up to 2", -16, "3/131072", Ok(2)),
    ("fine, a step over", -16, "0.5", ABOVE),
    ("fine, a little over", -16, "0.4999857412109375", ABOVE),
    ("fine, a step under", -16, "-0.5000152587890625", BELOW),
    ("fine, a little under", -16, "-0.500001", BELOW),
    ("coarse, greatest", 15, "1073709056", Ok(0x7fff)),
    ("coarse, least", 15, "-1073741824", Ok(0x8000)),
    ("coarse, a step under", 15, "-1073774592", BELOW),
    ("coarse, a little under", 15, "-1073741824.000001", BELOW),
    ("62 bits over 62 bits", -9, NEAR_ONE, Ok(0x0200)),
    ("62 bits over 62 bits, below zero", -9, NEAR_MINUS_ONE, Ok(0xfe00)),
];

#[test]
fn slinear16_codes(rt: HostRuntime) {
    for &(name, exponent, text, wanted) in &SIGNED {
        let format = Slinear16::new(exponent).expect(&rt, "an exponent");
        check_code(&rt, name, &format, text, wanted);
    }
}

/// A name and an exponent.
static EXPONENTS: [(&str, i8); 4] = [
    ("least", -16),
    ("below zero", -9),
    ("zero", 0),
    ("greatest", 15),
];

#[test]
fn ulinear16_round_trip(rt: HostRuntime) {
    for &(name, exponent) in &EXPONENTS {
        check_round_trip(
            &rt,
            name,
            &Ulinear16::new(exponent).expect(&rt, "an exponent"),
        );
    }
}

#[test]
fn slinear16_round_trip(rt: HostRuntime) {
    for &(name, exponent) in &EXPONENTS {
        check_round_trip(
            &rt,
            name,
            &Slinear16::new(exponent).expect(&rt, "an exponent"),
        );
    }
}

#[test]
fn exponents_out_of_range(rt: HostRuntime) {
    for (name, exponent) in [("over the greatest", 16), ("under the least", -17)] {
        same(&rt, name, Ulinear16::new(exponent), Err(BadExponent));
        same(&rt, name, Slinear16::new(exponent), Err(BadExponent));
    }
}
