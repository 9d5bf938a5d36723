//! Times of samples.

ghost use Rattle.std.specs.Prelude.{◌≡◌, ◌+◌, ◌*◌, ◌^◌, ◌<◌, ◌≤◌, false};
ghost use Rattle.pmb_sample_fields.specs.Scaled.{from_least as from_least_of, most, one_if};
ghost use Rattle.pmb_sample_fields.specs.Times.{at_samples, if_samples, if_within, places_of, time_at_rate, time_in as time_in_unit};
ghost use Rattle.pmb_sigrok_line.specs.Shown.{hertz_of};

use crate::scaled::{MOST, Scaled, scaled_number};
use pmb_sigrok_line::Rate;

/// A unit of times.
#[derive(Clone, Copy, Debug, PartialEq, Eq)]
pub enum Unit {
    /// Seconds.
    Seconds,
    /// Thousandths of a second.
    Milliseconds,
    /// Millionths of a second.
    Microseconds,
    /// Billionths of a second.
    Nanoseconds,
}

/// Femtoseconds of a second.
const SECOND: u128 = 1_000_000_000_000_000;

/// The femtoseconds from a time 10^9 s before 0 to a time that a text writes in a unit, rounded down.
/// `None` where the text is no number, or one of 10^9 s or more before or after 0.
pub fn time_in(unit: Unit, text: &[u8]) -> Option<u128>
    ensures { result ≡ time_in_unit unit text.now }
{
    match scaled_number(places(unit), text) {
        Some(number) => within(&number),
        None => None,
    }
}

fn within(number: &Scaled) -> Option<u128>
    requires small { number.now.whole ≤ most }
    ensures { result ≡ if_within number.now }
{
    if number.whole >= MOST {
        return None;
    }
    Some(from_least(number))
}

fn places(unit: Unit) -> u32
    ensures { result ≡ places_of unit }
{
    match unit {
        Unit::Seconds => 15,
        Unit::Milliseconds => 12,
        Unit::Microseconds => 9,
        Unit::Nanoseconds => 6,
    }
}

/// The same of a text that writes a whole number of samples.
pub fn time_at(rate: Rate, text: &[u8]) -> Option<u128>
    ensures { result ≡ time_at_rate (hertz_of rate) text.now }
{
    match scaled_number(0, text) {
        Some(number) => time_of_number(rate, &number),
        None => None,
    }
}

fn time_of_number(rate: Rate, number: &Scaled) -> Option<u128>
    ensures { result ≡ if_samples (hertz_of rate) number.now }
{
    if number.has_rest || number.whole >= 1_000_000_000 * rate.hertz() as u128 {
        return None;
    }
    Some(time_of_count(rate, number.is_negative, number.whole))
}

/// The same of the row behind so many others.
pub fn time_of_row(rate: Rate, row: u64) -> u128
    ensures { result ≡ at_samples (hertz_of rate) false row }
{
    time_of_count(rate, false, row as u128)
}

fn time_of_count(rate: Rate, is_negative: bool, count: u128) -> u128
    requires few { count < 2 ^ 64 }
    ensures { result ≡ at_samples (hertz_of rate) is_negative count }
{
    let parts = count * SECOND;
    let hertz = rate.hertz() as u128;
    from_least(&Scaled {
        is_negative,
        whole: parts / hertz,
        has_rest: parts % hertz != 0,
    })
}

/// A number with its sign, rounded down: 0 is 10^24.
pub(crate) fn from_least(number: &Scaled) -> u128
    requires fits { number.now.whole ≤ 2 ^ 64 * 10 ^ 15 }
    ensures { result ≡ from_least_of number.now }
{
    if number.is_negative {
        MOST.saturating_sub(number.whole + one_more(number.has_rest))
    } else {
        MOST + number.whole
    }
}

fn one_more(has_rest: bool) -> u128
    ensures { result ≡ one_if has_rest }
{
    if has_rest { 1 } else { 0 }
}
