//! The decimal that is nearest to a fraction whose numbers have more than 62 bits: by long division,
//! digit by digit.
//!
//! Its rows: `tests_numbers`, `src/means.rt`.

ghost use Rattle.std.specs.Prelude.{◌≡◌, ◌+◌, ◌*◌, ◌-◌, ◌/◌, ◌%◌, ◌^◌, ◌<◌, ◌≤◌, ◌++◌, length, unsigned_abs};
ghost use Rattle.pmb_json_text.specs.Json.{IsNumber};
ghost use Rattle.pmb_decimal.specs.Decimal.{half_even, rounded_text};

use crate::decimal::{append_sign, append_units, unit_of};
use arrayvec::ArrayVec;
use pmb_decimal::Digits;

/// Appends the decimal that is nearest to a fraction, with at most that many digits after the point.
/// Of two that are equally near, it is the one whose last digit is even.
pub(crate) fn append_fraction<const N: usize>(
    numerator: i128,
    denominator: u128,
    digits: Digits,
    out: &mut ArrayVec<u8, N>,
)
    requires some { 0 < denominator }
    requires fits { denominator < 2 ^ 110 }
    requires small { unsigned_abs numerator ≤ denominator * (2 ^ 62 - 1) }
    requires room { length out.old.items + 33 ≤ N }
    ensures text { out.new.items ≡ out.old.items ++ rounded_text digits (record { numerator = numerator; denominator = denominator }) }
    ensures short { length out.new.items ≤ length out.old.items + 33 }
    ensures number { IsNumber (rounded_text digits (record { numerator = numerator; denominator = denominator })) }
{
    let units = nearest_units(numerator.unsigned_abs(), denominator, digits.count());
    append_sign(numerator, units, out);
    append_units(units, unit_of(digits), digits, out);
}

/// A fraction in units of its last digit, rounded half to even: its whole part, and then a digit in
/// each turn.
fn nearest_units(numerator: u128, denominator: u128, digits: u8) -> u128
    requires some { 0 < denominator }
    requires fits { denominator < 2 ^ 110 }
    requires small { numerator ≤ denominator * (2 ^ 62 - 1) }
    requires few { digits ≤ 12 }
    ensures value { result ≡ half_even (numerator * 10 ^ digits) denominator }
    ensures whole { result / 10 ^ digits < 2 ^ 62 }
{
    let mut units = numerator / denominator;
    let mut rest = numerator % denominator;
    'digits: for place in 0..digits {
        let _ = place;
        rest *= 10;
        units = units * 10 + rest / denominator;
        rest %= denominator;
    }
    rounded(units, rest, denominator)
}

/// A quotient with a rest, to the nearest whole number, half to even.
fn rounded(quotient: u128, rest: u128, divisor: u128) -> u128
    requires below { rest < divisor }
    requires small { quotient < 2 ^ 110 }
    ensures { result ≡ half_even (quotient * divisor + rest) divisor }
{
    let lacking = divisor - rest;
    if rest < lacking {
        quotient
    } else if rest > lacking {
        quotient + 1
    } else {
        quotient + quotient % 2
    }
}
