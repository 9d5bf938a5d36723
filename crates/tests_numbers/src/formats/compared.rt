//! The encoders against the plain one: on the value of every 61st code, and on the middle between
//! it and the next greater value.
use crate::compare::same;
use crate::formats::plain::Definition;
use pmb_value::{Direct, Format, Linear11, Linear11Fixed, Quantity, Steps};
use std::process::Abort;

/// Checks the quantity `twice / (2 * denominator)`.
fn check<F: Format>(rt: &impl Abort, name: &str, format: &F, plain: &Definition, twice: i64) {
    let denominator = plain.denominator().wrapping_mul(2);
    let quantity = Quantity::new(twice, denominator).expect(rt, "a quantity");
    let found = format.encode(&quantity, &mut Steps::new());
    same(
        rt,
        (name, "at", twice, "/", denominator),
        found,
        plain.encode(twice),
    );
}

/// Checks every 61st word.
fn check_all<F: Format>(rt: &impl Abort, name: &str, format: &F, plain: Definition) {
    for step in 0..1075u16 {
        let numerator = plain.numerator(step * 61);
        check(rt, name, format, &plain, numerator.wrapping_mul(2));
        if let Some(next) = plain.next(numerator) {
            check(rt, name, format, &plain, numerator.wrapping_add(next));
        }
    }
}

#[test]
fn linear11_is_the_plain_one(rt: HostRuntime) {
    check_all(&rt, "LINEAR11", &Linear11, Definition::Linear11);
}

#[test]
fn linear11_fixed_is_the_plain_one(rt: HostRuntime) {
    let format = Linear11Fixed::new(-3).expect(&rt, "an exponent");
    check_all(
        &rt,
        "LINEAR11 at -3",
        &format,
        Definition::Linear11Fixed(13),
    );
}

#[test]
fn direct_is_the_plain_one(rt: HostRuntime) {
    let format = Direct::new(-3, 2, 1).expect(&rt, "coefficients");
    check_all(&rt, "DIRECT", &format, Definition::Direct(-3, 2, 1, 10));
}
