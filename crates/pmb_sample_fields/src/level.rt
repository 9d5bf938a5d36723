//! Levels of samples.

ghost use Rattle.std.specs.Prelude.{◌≡◌, ◌≤◌};
ghost use Rattle.pmb_sample_fields.specs.Levels.{digital_of, if_exact, level_at as level_in, threshold_of, usual_volts, volts_level as level_of_volts, volts_of, volts_with};
ghost use Rattle.pmb_sample_fields.specs.Scaled.{most};

use crate::scaled::{MOST, Scaled, scaled_number};
use crate::time::from_least;
use pmb_wires::Level;

/// Volts at which a wire has a level, in femtovolts from -10^9 V on.
#[derive(Clone, Copy, Debug, PartialEq, Eq)]
pub struct Volts {
    /// So much or less is 0.
    pub low: u128,
    /// So much or more is 1.
    pub high: u128,
}

impl Volts {
    ghost use Rattle.std.specs.Prelude.{◌≡◌};
    ghost use Rattle.pmb_sample_fields.specs.Levels.{usual_volts, volts_of};

    /// 0.8 V and 1.35 V, those of SMBus.
    pub fn usual() -> Volts
        ensures { result ≡ usual_volts }
    {
        Volts {
            low: MOST + 800_000_000_000_000,
            high: MOST + 1_350_000_000_000_000,
        }
    }

    /// Two numbers of volts. `None` where one is no number, is 10^9 V or more, or has more than 15
    /// digits behind its point that count; and where `high` is below `low`.
    pub fn new(low: &[u8], high: &[u8]) -> Option<Volts>
        ensures { result ≡ volts_of low.now high.now }
    {
        both(threshold(low), threshold(high))
    }
}

fn both(low: Option<u128>, high: Option<u128>) -> Option<Volts>
    ensures { result ≡ volts_with low high }
{
    match (low, high) {
        (Some(low), Some(high)) if low <= high => Some(Volts { low, high }),
        _ => None,
    }
}

fn threshold(text: &[u8]) -> Option<u128>
    ensures { result ≡ threshold_of text.now }
{
    match scaled_number(15, text) {
        Some(number) => exactly(&number),
        None => None,
    }
}

fn exactly(number: &Scaled) -> Option<u128>
    requires small { number.now.whole ≤ most }
    ensures { result ≡ if_exact number.now }
{
    if number.has_rest || number.whole >= MOST {
        return None;
    }
    Some(from_least(number))
}

/// The level that `0` or `1` is.
pub fn digital_level(text: &[u8]) -> Option<Level>
    ensures { result ≡ digital_of text.now }
{
    match text {
        b"0" => Some(Level::Low),
        b"1" => Some(Level::High),
        _ => None,
    }
}

/// The level at so many volts: between both it is what it was before. `None` where the text is no
/// number.
pub fn volts_level(volts: &Volts, before: Level, text: &[u8]) -> Option<Level>
    ensures { result ≡ level_of_volts volts.now before text.now }
{
    match scaled_number(15, text) {
        Some(number) => Some(level_at(volts, before, &number)),
        None => None,
    }
}

fn level_at(volts: &Volts, before: Level, number: &Scaled) -> Level
    requires small { number.now.whole ≤ most }
    ensures { result ≡ level_in volts.now before number.now }
{
    let parts = from_least(number);
    if parts < volts.low || (parts == volts.low && !number.has_rest) {
        return Level::Low;
    }
    if parts >= volts.high {
        Level::High
    } else {
        before
    }
}
