//! Which quantity a text spells.
//!
//! Its rows: `tests_numbers`, `src/formats/quantity.rt`; `tests/rows/numbers.txt`.
ghost use Rattle.std.specs.Prelude.{◌≡◌, pos, ◌^◌, ◌+◌, ◌*◌, ◌<◌, ◌≤◌, ◌++◌, length};
ghost use Rattle.std.specs.Str.Parse.{AllDigits, digits_value, digits_value_after};
ghost use Rattle.pmb_quantity.specs.Fraction.{lowest_terms};
ghost use Rattle.pmb_quantity.specs.machine.Numeral.{view, HasDigits};
ghost use Rattle.pmb_quantity.specs.Reading.{numeral_of, numeral_value, point_value, reading, slash_value, without_last_zeros};
ghost use Rattle.pmb_quantity.specs.machine.Below.{below};
ghost use Rattle.pmb_quantity.specs.Quantity.{fitted};

use crate::numeral::{Numeral, numeral_of};
use crate::quantity::{LIMIT, Quantity, QuantityFault, gcd};
use crate::text::{PLACES, power_of_ten};

/// A number before or after a slash is below this one.
const SLASH_LIMIT: u128 = 1 << 63;

/// At most this many digits write a number below 2^62, and ten to this power is below it too.
const SHORT_LEN: usize = 18;

impl Quantity {
    /// Reads an optional `-`, digits, and then nothing, a point and digits, or a slash and digits.
    /// The fault is the first of `Empty`, `BadDigit` (any other text), `ZeroDenominator` and
    /// `TooLarge` (more than 24 digits after a point, zeros at the end not counted; a number before
    /// or after a slash of 2^63 or more; or lowest terms that are out of range).
    pub fn parse(text: &[u8]) -> Result<Quantity, QuantityFault>
        ensures { result ≡ reading text.now }
    {
        let Some((first, rest)) = text.split_first() else {
            return Err(QuantityFault::Empty);
        };
        if *first == b'-' {
            match magnitude_of(rest) {
                Ok(magnitude) => Ok(magnitude.negated()),
                Err(fault) => Err(fault),
            }
        } else {
            magnitude_of(text)
        }
    }
}

/// The quantity of a text without a sign.
fn magnitude_of(text: &[u8]) -> Result<Quantity, QuantityFault>
    ensures { result ≡ numeral_value (numeral_of text.now) }
{
    let Some(numeral) = numeral_of(text) else {
        return Err(QuantityFault::BadDigit);
    };
    value_of(numeral)
}

/// The quantity of a numeral.
fn value_of(numeral: Numeral<'_>) -> Result<Quantity, QuantityFault>
    requires { HasDigits numeral }
    ensures { result ≡ numeral_value (Some (view numeral.entry)) }
{
    match numeral {
        Numeral::Point(front, back) => point_value(front, back),
        Numeral::Slash(front, back) => slash_value(front, back),
    }
}

/// The quantity of digits around a point. Most are few, and make numbers of 64 bits.
fn point_value(front: &[u8], back: &[u8]) -> Result<Quantity, QuantityFault>
    requires front { AllDigits 10 front.now }
    requires back { AllDigits 10 back.now }
    ensures { result ≡ point_value front.now back.now }
{
    let back = without_last_zeros(back);
    let len = front.len() + back.len();
    if len <= SHORT_LEN {
        return Ok(short_value(front, back));
    }
    if back.len() > PLACES as usize {
        return Err(QuantityFault::TooLarge);
    }
    long_value(front, back)
}

/// The quantity of few digits around a point.
fn short_value(front: &[u8], back: &[u8]) -> Quantity
    requires front { AllDigits 10 front.now }
    requires back { AllDigits 10 back.now }
    requires few { length front.now + length back.now ≤ 18 }
    ensures { result
        ≡ lowest_terms (pos (digits_value 10 (front.now ++ back.now))) (10 ^ length back.now) }
{
    let number = digits_after(digits_after(0, front), back);
    Quantity::from_decimal(number, back.len() as u32)
}

/// The quantity of digits around a point, up to 24 of them after it.
fn long_value(front: &[u8], back: &[u8]) -> Result<Quantity, QuantityFault>
    requires front { AllDigits 10 front.now }
    requires back { AllDigits 10 back.now }
    requires few { length back.now ≤ 24 }
    ensures { result ≡ fitted (lowest_terms
        (pos (digits_value 10 front.now * 10 ^ length back.now + digits_value 10 back.now))
        (10 ^ length back.now)) }
{
    let scale = power_of_ten(back.len() as u32);
    let Some(whole) = number(front, LIMIT) else {
        return Err(QuantityFault::TooLarge);
    };
    let Some(rest) = number(back, scale) else {
        unreachable!()
    };
    mixed(whole, rest, scale)
}

/// The quantity of digits around a slash.
fn slash_value(front: &[u8], back: &[u8]) -> Result<Quantity, QuantityFault>
    requires front { AllDigits 10 front.now }
    requires back { AllDigits 10 back.now }
    ensures { result ≡ slash_value front.now back.now }
{
    let Some(denominator) = number(back, SLASH_LIMIT) else {
        return Err(QuantityFault::TooLarge);
    };
    if denominator == 0 {
        return Err(QuantityFault::ZeroDenominator);
    }
    let Some(numerator) = number(front, SLASH_LIMIT) else {
        return Err(QuantityFault::TooLarge);
    };
    Quantity::from_words(numerator as u64, denominator as u64)
}

/// A whole number and a fraction below 1 with this denominator.
fn mixed(whole: u128, rest: u128, scale: u128) -> Result<Quantity, QuantityFault>
    requires whole_fits { whole < 2 ^ 62 }
    requires rest_fits { rest < scale }
    ensures { result ≡ fitted (lowest_terms (pos (whole * scale + rest)) scale) }
{
    let divisor = gcd(rest, scale);
    let denominator = scale / divisor;
    if denominator >= LIMIT {
        return Err(QuantityFault::TooLarge);
    }
    Quantity::from_parts(whole * denominator + rest / divisor, denominator)
}

/// Digits without the zeros at their end.
fn without_last_zeros(digits: &[u8]) -> &[u8]
    requires { AllDigits 10 digits.now }
    ensures value { result.now ≡ without_last_zeros digits.now }
    ensures digits { AllDigits 10 result.now }
{
    let mut end = digits.len();
    while end > 0 {
        if digits[end - 1] != b'0' {
            return &digits[..end];
        }
        end -= 1;
    }
    &[]
}

/// The number that digits write, if it is below the limit.
fn number(digits: &[u8], limit: u128) -> Option<u128>
    requires digits { AllDigits 10 digits.now }
    requires limit { limit ≤ 2 ^ 80 }
    ensures { result ≡ below limit (digits_value 10 digits.now) }
{
    if digits.len() > SHORT_LEN {
        return long_number(digits, limit);
    }
    let number = u128::from(digits_after(0, digits));
    if number < limit { Some(number) } else { None }
}

/// The same of any number of digits.
fn long_number(digits: &[u8], limit: u128) -> Option<u128>
    requires digits { AllDigits 10 digits.now }
    requires limit { limit ≤ 2 ^ 80 }
    ensures { result ≡ below limit (digits_value 10 digits.now) }
{
    let mut number = 0;
    for digit in digits {
        number = number * 10 + u128::from(*digit - b'0');
        if number >= limit {
            return None;
        }
    }
    if number < limit { Some(number) } else { None }
}

/// The number that digits write when they follow those of another number.
fn digits_after(first: u64, digits: &[u8]) -> u64
    requires digits { AllDigits 10 digits.now }
    requires fits { digits_value_after 10 first digits.now < 2 ^ 64 }
    ensures { result ≡ digits_value_after 10 first digits.now }
{
    let mut number = first;
    for digit in digits {
        number = number * 10 + u64::from(*digit - b'0');
    }
    number
}
