//! DIRECT, with rising and falling slopes, and words with a sign or without.
use crate::compare::same;
use crate::formats::checks::{ABOVE, BELOW, check_code, check_round_trip, check_text};
use pmb_value::{Direct, DirectFault, RangeFault};

/// Coefficients m, b and R.
type Coefficients = (i16, i16, i8);

const RISING: Coefficients = (3, 2, 1);

const FALLING: Coefficients = (-1, 0, -1);

const FINEST: Coefficients = (-32768, 32767, 9);

const COARSEST: Coefficients = (-32768, 32767, -9);

/// A little over one, of numbers as long as they come.
const NEAR_ONE: &str = "4611686018427387903/4611686018427387902";

/// A name, coefficients, a text, and its code or fault.
#[rattlefmt::skip]
static CODES: [(&str, Coefficients, &str, Result<u16, RangeFault>); 23] = [
    ("rising, exact", RISING, "1", Ok(0x0032)),
    ("rising, a tie goes to the even code", RISING, "1/60", Ok(0x0014)),
    ("rising, greatest", RISING, "32747/30", Ok(0x7fff)),
    ("rising, least", RISING, "-16394/15", Ok(0x8000)),
    ("falling, a tie goes to the even code", FALLING, "5", Ok(0x0000)),
    ("rising, the next tie", RISING, "-37/60", Ok(0x0002)),
    ("rising, a tie below zero", RISING, "-41/60", Ok(0x0000)),
    ("rising, the next below", RISING, "-43/60", Ok(0xfffe)),
    ("rising, 62 bits over 62 bits", RISING, NEAR_ONE, Ok(0x0032)),
    ("falling, the next tie", FALLING, "15", Ok(0xfffe)),
    ("falling, a tie below zero", FALLING, "-5", Ok(0x0000)),
    ("falling, the next below", FALLING, "-15", Ok(0x0002)),
    ("least slope, a tie", FINEST, "65533999999999/65536000000000", Ok(0x0000)),
    ("least slope, the next", FINEST, "13106800000001/13107200000000", Ok(0xfffe)),
    ("least slope, over", FINEST, "1", ABOVE),
    ("least slope, coarse", COARSEST, "-1499967233/32768", Ok(0x0002)),
    ("coarse, 62 bits over 62 bits", COARSEST, NEAR_ONE, Ok(0x0000)),
    ("falling, least", FALLING, "-327670", Ok(0x7fff)),
    ("falling, greatest", FALLING, "327680", Ok(0x8000)),
    ("falling, a step over", FALLING, "327690", ABOVE),
    ("falling, a little over", FALLING, "327680.000001", ABOVE),
    ("falling, a step under", FALLING, "-327680", BELOW),
    ("falling, a little under", FALLING, "-327670.000001", BELOW),
];

#[test]
fn direct_codes(rt: HostRuntime) {
    for &(name, (m, b, r), text, wanted) in &CODES {
        let format = Direct::new(m, b, r).expect(&rt, "coefficients");
        check_code(&rt, name, &format, text, wanted);
    }
}

#[test]
fn direct_text(rt: HostRuntime) {
    let format = Direct::new(3, 2, 1).expect(&rt, "coefficients");
    check_text(&rt, "a value with no decimal", &format, 0x0000, "-2/3");
}

/// The word itself is the value.
const PLAIN: Coefficients = (1, 0, 0);

/// The value is the word below zero.
const BELOW_ZERO: Coefficients = (-1, 0, 0);

/// The same for words without a sign.
#[rattlefmt::skip]
static UNSIGNED_CODES: [(&str, Coefficients, &str, Result<u16, RangeFault>); 11] = [
    ("no sign, upper half", PLAIN, "40000", Ok(0x9c40)),
    ("no sign, least", PLAIN, "0", Ok(0x0000)),
    ("no sign, greatest", PLAIN, "65535", Ok(0xffff)),
    ("no sign, over", PLAIN, "65536", ABOVE),
    ("no sign, a little over", PLAIN, "65535.000001", ABOVE),
    ("no sign, under", PLAIN, "-1", BELOW),
    ("no sign, a tie goes to the even code", PLAIN, "65533.5", Ok(0xfffe)),
    ("no sign, falling, least", BELOW_ZERO, "-65535", Ok(0xffff)),
    ("no sign, falling, greatest", BELOW_ZERO, "0", Ok(0x0000)),
    ("no sign, falling, over", BELOW_ZERO, "1", ABOVE),
    ("no sign, falling, under", BELOW_ZERO, "-65536", BELOW),
];

#[test]
fn unsigned_codes(rt: HostRuntime) {
    for &(name, (m, b, r), text, wanted) in &UNSIGNED_CODES {
        let format = Direct::new(m, b, r).expect(&rt, "coefficients").unsigned();
        check_code(&rt, name, &format, text, wanted);
    }
}

/// A name, coefficients, a word without a sign, and the text of its value.
#[rattlefmt::skip]
static UNSIGNED_TEXTS: [(&str, Coefficients, u16, &str); 4] = [
    ("no sign, least", PLAIN, 0x0000, "0"),
    ("no sign, upper half", PLAIN, 0x8000, "32768"),
    ("no sign, greatest", PLAIN, 0xffff, "65535"),
    ("no sign, falling", BELOW_ZERO, 0xffff, "-65535"),
];

#[test]
fn unsigned_texts(rt: HostRuntime) {
    for &(name, (m, b, r), code, wanted) in &UNSIGNED_TEXTS {
        let direct = Direct::new(m, b, r).expect(&rt, "coefficients");
        check_text(&rt, name, &direct.unsigned(), code, wanted);
        same(&rt, name, direct.unsigned().is_unsigned(), true);
        same(&rt, name, direct.unsigned().signed(), direct);
    }
}

/// A name and coefficients.
static FORMATS: [(&str, Coefficients); 4] = [
    ("rising", RISING),
    ("falling", FALLING),
    ("least slope", (-32768, 32767, 9)),
    ("greatest slope", (32767, -32768, -9)),
];

#[test]
fn direct_round_trip(rt: HostRuntime) {
    for &(name, (m, b, r)) in &FORMATS {
        let format = Direct::new(m, b, r).expect(&rt, "coefficients");
        same(&rt, name, (format.m(), format.b(), format.r()), (m, b, r));
        check_round_trip(&rt, name, &format);
        check_round_trip(&rt, name, &format.unsigned());
    }
}

/// A name, coefficients, and their fault.
#[rattlefmt::skip]
static FAULTS: [(&str, Coefficients, DirectFault); 3] = [
    ("no slope, before the scale", (0, 0, 10), DirectFault::ZeroSlope),
    ("scale 10", (1, 0, 10), DirectFault::BadScale),
    ("scale -10", (1, 0, -10), DirectFault::BadScale),
];

#[test]
fn direct_faults(rt: HostRuntime) {
    for &(name, (m, b, r), fault) in &FAULTS {
        same(&rt, name, Direct::new(m, b, r), Err(fault));
    }
}
