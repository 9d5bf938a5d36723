//! What a number says, exactly.

ghost use Rattle.std.specs.Prelude.{◌≡◌, ◌+◌, ◌-◌, ◌^◌, ◌≤◌, ◌++◌, IfSome, length, min};
ghost use Rattle.pmb_sample_fields.specs.Scaled.{down, most, scaled_of, up};
ghost use Rattle.pmb_sample_fields.specs.machine.Digits.{all_taken, by_digits, digit_taken, grown, in_front, start};
ghost use Rattle.pmb_sample_fields.specs.machine.Parts.{exponent_in, number_in};

use crate::numbers::{Exponent, Number, read_number};

/// What a number says without its sign, in parts of its unit.
#[derive(Clone, Copy, Debug)]
pub struct Scaled {
    /// It is below 0.
    pub is_negative: bool,
    /// The whole parts, at most 10^24.
    pub whole: u128,
    /// There is more behind these.
    pub has_rest: bool,
}

/// What was taken of a number's digits.
#[derive(Clone, Copy, Debug)]
pub(crate) struct Taken {
    /// How many more digits stand in front of the point.
    pub left: u128,
    /// The number of those so far, at most 10^24.
    pub whole: u128,
    /// A digit behind the point is not 0.
    pub has_rest: bool,
}

/// The most whole parts.
pub(crate) const MOST: u128 = 1_000_000_000_000_000_000_000_000;

/// The number that a text writes, in parts of which 10^places are one of its unit.
pub fn scaled_number(places: u32, text: &[u8]) -> Option<Scaled>
    ensures value { result ≡ scaled_of places text.now }
    ensures small { IfSome result (λ s. s.whole ≤ most) }
{
    match read_number(text) {
        Some(number) => Some(scale(places, &number)),
        None => None,
    }
}

fn scale(places: u32, number: &Number<'_>) -> Scaled
    ensures value { result ≡ by_digits places (number_in number.now) }
    ensures small { result.whole ≤ most }
{
    let taken = take_number(places, number);
    Scaled {
        is_negative: number.is_negative,
        whole: grow(taken.whole, taken.left),
        has_rest: taken.has_rest,
    }
}

/// Takes all digits of a number.
fn take_number(places: u32, number: &Number<'_>) -> Taken
    ensures value { result ≡ all_taken most (all_taken most (start places (number_in number.now)) number.now.whole.now) number.now.fraction.now }
    ensures small { result.whole ≤ most }
{
    let none = Taken {
        left: digits_in_front(places, number),
        whole: 0,
        has_rest: false,
    };
    take_digits(take_digits(none, number.whole), number.fraction)
}

/// How many of its digits, and of zeros behind them, stand in front of the point.
fn digits_in_front(places: u32, number: &Number<'_>) -> u128
    ensures { result ≡ in_front places (number_in number.now) }
{
    let front = number.whole.len() as u128 + places as u128 + power_up(number.exponent);
    front.saturating_sub(power_down(number.exponent))
}

fn power_up(exponent: Exponent) -> u128
    ensures value { result ≡ up (exponent_in exponent) }
    ensures small { result ≤ 2 ^ 64 }
{
    if exponent.is_negative {
        0
    } else {
        exponent.size as u128
    }
}

fn power_down(exponent: Exponent) -> u128
    ensures { result ≡ down (exponent_in exponent) }
{
    if exponent.is_negative {
        exponent.size as u128
    } else {
        0
    }
}

fn take_digits(taken: Taken, digits: &[u8]) -> Taken
    requires small { taken.whole ≤ most }
    ensures value { result ≡ all_taken most taken digits.now }
    ensures small { result.whole ≤ most }
{
    let mut now = taken;
    let mut left = digits;
    while let [digit, rest @ ..] = left {
        now = take_digit(now, digit.saturating_sub(b'0'));
        left = rest;
    }
    now
}

fn take_digit(taken: Taken, value: u8) -> Taken
    requires small { taken.whole ≤ most }
    ensures value { result ≡ digit_taken most taken value }
    ensures small { result.whole ≤ most }
{
    if taken.left == 0 {
        return Taken {
            left: 0,
            whole: taken.whole,
            has_rest: taken.has_rest || value != 0,
        };
    }
    Taken {
        left: taken.left - 1,
        whole: capped(taken.whole * 10 + value as u128),
        has_rest: taken.has_rest,
    }
}

/// A number with so many zeros behind it.
fn grow(whole: u128, zeros: u128) -> u128
    requires small { whole ≤ most }
    ensures value { result ≡ grown most whole zeros }
    ensures small { result ≤ most }
{
    let mut now = whole;
    let mut left = zeros;
    while left > 0 {
        if now == 0 || now == MOST {
            return now;
        }
        now = capped(now * 10);
        left -= 1;
    }
    now
}

fn capped(number: u128) -> u128
    ensures { result ≡ min number most }
{
    if number > MOST { MOST } else { number }
}
