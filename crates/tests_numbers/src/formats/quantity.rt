//! Quantities of two numbers, and their texts.
use crate::compare::same;
use pmb_quantity::{Quantity, QuantityFault};

/// A name, two numbers, and the numerator and denominator in lowest terms, or the fault.
#[rattlefmt::skip]
static QUOTIENTS: [(&str, i64, i64, Result<(i64, i64), QuantityFault>); 7] = [
    ("no denominator", 1, 0, Err(QuantityFault::ZeroDenominator)),
    ("halved, still too large", i64::MIN, 2, Err(QuantityFault::TooLarge)),
    ("least i64 by 4", i64::MIN, 4, Ok((-2_305_843_009_213_693_952, 1))),
    ("least i64 by itself", i64::MIN, i64::MIN, Ok((1, 1))),
    ("the sign goes to the numerator", 2, -6, Ok((-1, 3))),
    ("the denominator is too large", 1, i64::MIN, Err(QuantityFault::TooLarge)),
    ("2^62", 4_611_686_018_427_387_904, 1, Err(QuantityFault::TooLarge)),
];

#[test]
fn quotients(rt: HostRuntime) {
    for &(name, numerator, denominator, wanted) in &QUOTIENTS {
        let found = Quantity::new(numerator, denominator).map(|it| (it.num(), it.den()));
        same(&rt, name, found, wanted);
    }
}

/// A name, a text, and its fault.
#[rattlefmt::skip]
static FAULTS: [(&str, &str, QuantityFault); 29] = [
    ("nothing", "", QuantityFault::Empty),
    ("no digit after the point", "1.", QuantityFault::BadDigit),
    ("no digit before the point", ".5", QuantityFault::BadDigit),
    ("a plus", "+1", QuantityFault::BadDigit),
    ("an exponent", "1e3", QuantityFault::BadDigit),
    ("a space before", " 1", QuantityFault::BadDigit),
    ("a space after", "1 ", QuantityFault::BadDigit),
    ("a sign alone", "-", QuantityFault::BadDigit),
    ("no denominator", "1/", QuantityFault::BadDigit),
    ("no numerator", "/2", QuantityFault::BadDigit),
    ("two points", "1.2.3", QuantityFault::BadDigit),
    ("two slashes", "1/2/3", QuantityFault::BadDigit),
    ("a point and a slash", "1.5/2", QuantityFault::BadDigit),
    ("two signs", "--1", QuantityFault::BadDigit),
    ("a sign behind the slash", "1/-2", QuantityFault::BadDigit),
    ("a letter", "x", QuantityFault::BadDigit),
    ("one by zero", "1/0", QuantityFault::ZeroDenominator),
    ("zero by zero", "0/0", QuantityFault::ZeroDenominator),
    ("zero in three digits", "-1/000", QuantityFault::ZeroDenominator),
    ("zero before too large", "9223372036854775808/0", QuantityFault::ZeroDenominator),
    ("2^62", "4611686018427387904", QuantityFault::TooLarge),
    ("-2^62", "-4611686018427387904", QuantityFault::TooLarge),
    ("25 digits after the point", "0.1234567890123456789012345", QuantityFault::TooLarge),
    ("2^-25 in 25 digits", "0.0000000298023223876953125", QuantityFault::TooLarge),
    ("2^63 before the slash", "9223372036854775808/3", QuantityFault::TooLarge),
    ("-2^63 before the slash", "-9223372036854775808/3", QuantityFault::TooLarge),
    ("2^63 behind the slash", "1/9223372036854775808", QuantityFault::TooLarge),
    ("44 digits", "99999999999999999999999999999999999999999999", QuantityFault::TooLarge),
    ("24 digits after the point, too large in lowest terms", "0.123456789012345678901234", QuantityFault::TooLarge),
];

#[test]
fn faults_of_texts(rt: HostRuntime) {
    for &(name, text, fault) in &FAULTS {
        same(&rt, name, Quantity::parse(text.as_bytes()), Err(fault));
    }
}

/// A name, a text, and how its quantity is written.
#[rattlefmt::skip]
static TEXTS: [(&str, &str, &str); 15] = [
    ("a fraction with a decimal", "-6/4", "-1.5"),
    ("zero has no sign", "-0", "0"),
    ("zero has no places", "-0.000", "0"),
    ("zeros in front", "00012", "12"),
    ("a zero at the end", "0.50", "0.5"),
    ("no decimal", "1/3", "1/3"),
    ("greatest", "4611686018427387903", "4611686018427387903"),
    ("least", "-4611686018427387903", "-4611686018427387903"),
    ("greatest denominator", "1/4611686018427387903", "1/4611686018427387903"),
    ("numbers below 2^63", "9223372036854775806/9223372036854775806", "1"),
    ("zeros at the end don't count", "1.50000000000000000000000000000000", "1.5"),
    ("24 places read", "0.000000059604644775390625", "0.000000059604644775390625"),
    ("24 places written", "1/16777216", "0.000000059604644775390625"),
    ("25 places are too many", "1/33554432", "1/33554432"),
    ("the longest decimal", "4611686018427387903/16777216", "274877906943.999999940395355224609375"),
];

#[test]
fn texts(rt: HostRuntime) {
    for &(name, text, written) in &TEXTS {
        let quantity = Quantity::parse(text.as_bytes()).expect(&rt, "a quantity");
        let again = quantity.text();
        same(&rt, name, again.as_str(), written);
        same(
            &rt,
            name,
            Quantity::parse(again.as_str().as_bytes()),
            Ok(quantity),
        );
    }
}
