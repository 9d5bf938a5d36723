//! The LINEAR11 format.
//!
//! Its rows: `tests_numbers`, `src/formats/linear11.rt`, `compared.rt`; `tests/rows/numbers.txt`.
ghost use Rattle.std.specs.Prelude.{◌≡◌, ◌↔◌, ◌+◌, ◌*◌, ◌-◌, ◌%◌, ◌^◌, ◌<◌, ◌≤◌, ◌⊎◌, IsTrue, MatchBool, pos, negsuc, ◌+ℤ◌, ◌*ℤ◌, ◌≤ℤ◌, min, unsigned_abs};
ghost use Rattle.pmb_format.specs.Coding.{IsInRange, IsNearest};
ghost use Rattle.pmb_linear.specs.Linear.{exponent, mantissa, linear11, linear11_numerator};
ghost use Rattle.pmb_format.specs.Steps.{TakesSteps, steps_counted};
ghost use Rattle.pmb_linear.specs.machine.Fields.{Holds, IsFarther, Reaches, word_at};
ghost use Rattle.pmb_format.specs.Written.{IsWritten};

use crate::linear::{self, DENOMINATOR};
use pmb_format::codes::{self, Codes};
use pmb_format::rounding::rounded_quotient;
use pmb_format::{Format, RangeFault, Steps, twos_complement};
use pmb_quantity::Quantity;

/// LINEAR11: bits 15:11 are the exponent of two, bits 10:0 the mantissa, both in two's complement.
/// Zero is written as 0000h, and every other value with the least exponent that holds it.
#[derive(Clone, Copy, Debug, PartialEq, Eq)]
pub struct Linear11;

/// The code of the least value, -1024 * 2^15.
const LEAST_CODE: u16 = 0x7c00;

/// The code of the greatest value, 1023 * 2^15.
const GREATEST_CODE: u16 = 0x7bff;

/// The greatest power of two of a value, over 2^16.
const GREATEST_POWER: u32 = 31;

impl Codes for Linear11 {
    ghost coding = { λ _. linear11 };

    fn numerator(&self, code: u16) -> i64 {
        numerator(code)
    }

    fn denominator(&self) -> u64 {
        DENOMINATOR
    }

    fn least(&self) -> u16 {
        LEAST_CODE
    }

    fn greatest(&self) -> u16 {
        GREATEST_CODE
    }
}

impl Format for Linear11 {
    ghost coding = { λ _. linear11 };

    fn decode(&self, code: u16) -> Quantity {
        codes::decode(self, code)
    }

    fn encode(&self, quantity: &Quantity, steps: &mut Steps) -> Result<u16, RangeFault> {
        match codes::fault_of(self, quantity) {
            Some(fault) => Err(fault),
            None => Ok(nearest(quantity, steps)),
        }
    }

    fn obeys_laws(&self) {}
}

/// The code nearest to a quantity in range.
fn nearest(quantity: &Quantity, steps: &mut Steps) -> u16
    requires { IsInRange linear11 quantity.now }
    ensures nearest { IsNearest linear11 quantity.now result }
    ensures steps { TakesSteps 1 33 steps.old steps.new }
{
    let target = codes::scaled(&Linear11, quantity);
    let denominator = u128::from(quantity.den().unsigned_abs());
    let power = least_power(target, denominator, steps);
    let spacing = spacing_at(denominator, power);
    let index = rounded_quotient(from_least(target, spacing), spacing, steps);
    code_at(index as u32, power)
}

/// The least power of two at which the mantissas reach the target, from -1024 of the spacings to
/// less than 1024. Each power that is compared is a turn, and ticks: all from 0 up to the result, but
/// the greatest, which needs no comparison.
fn least_power(target: i128, denominator: u128, steps: &mut Steps) -> u32
    requires denominator_is_small { denominator < 2 ^ 62 }
    requires in_range { Reaches target (denominator * 2 ^ 31) }
    ensures power { result ≤ 31 }
    ensures reaches { Reaches target (denominator * 2 ^ result) }
    ensures least { 0 < result → IsFarther target (denominator * 2 ^ (result - 1)) }
    ensures steps { steps.new ≡ steps_counted steps.old (min (result + 1) 31) }
{
    for power in 0..GREATEST_POWER {
        steps.tick();
        if reaches(target, spacing_at(denominator, power)) {
            return power;
        }
    }
    GREATEST_POWER
}

/// How far neighbours are apart, times both denominators.
fn spacing_at(denominator: u128, power: u32) -> u128
    requires denominator_is_small { denominator < 2 ^ 62 }
    requires power_is_small { power ≤ 31 }
    ensures value { result ≡ denominator * 2 ^ power }
    ensures small { result < 2 ^ 93 }
{
    denominator << power
}

/// Whether the target is from -1024 spacings to less than 1024.
fn reaches(target: i128, spacing: u128) -> bool
    requires { spacing < 2 ^ 93 }
    ensures { MatchBool result (Reaches target spacing) (IsFarther target spacing) }
{
    let limit = 1024 * spacing as i128;
    -limit <= target && target < limit
}

/// How far the target is from -1024 spacings.
fn from_least(target: i128, spacing: u128) -> u128
    requires small { spacing < 2 ^ 93 }
    requires reached { Reaches target spacing }
    ensures value { pos result ≡ target +ℤ pos (1024 * spacing) }
    ensures below { result < 2048 * spacing }
{
    (target + 1024 * spacing as i128) as u128
}

/// The code of the mantissa `index - 1024`, from -1024 to 1024, at a power of two. Zero has a code
/// of its own. 1024 is written 512 at the next power, and -512 is written -1024 at the one before.
fn code_at(index: u32, power: u32) -> u16
    requires index_fits { index ≤ 2048 }
    requires power_fits { power ≤ 31 }
    requires room { index ≡ 2048 → power < 31 }
    requires large { 0 < power → (index ≤ 512) ⊎ (1536 ≤ index) }
    ensures written { IsWritten linear11 result }
    ensures value { linear11_numerator result ≡ (negsuc 1023 +ℤ pos index) *ℤ pos (2 ^ power) }
    ensures parity { result % 2 ≡ index % 2 }
{
    match index {
        1024 => 0,
        2048 => word(1536, power + 1),
        512 if power > 0 => word(0, power - 1),
        _ => word(index, power),
    }
}

/// The numerator of the value of a word, over 2^16.
pub(crate) fn numerator(code: u16) -> i64
    ensures value { result ≡ linear11_numerator code }
    ensures small { unsigned_abs result < 2 ^ 62 }
{
    i64::from(mantissa(code)) * i64::from(linear::power(exponent(code)))
}

/// The word of the mantissa `index - 1024`, from -1024 to 1023, at a power of two.
pub(crate) fn word(index: u32, power: u32) -> u16
    requires index_fits { index < 2048 }
    requires power_fits { power ≤ 31 }
    ensures value { result ≡ word_at power index }
    ensures holds { Holds result (negsuc 1023 +ℤ pos index) power }
    ensures parity { result % 2 ≡ index % 2 }
{
    let exponent = (power + 16) & 0x1f;
    let mantissa = (index + 1024) & 0x7ff;
    (exponent * 2048 + mantissa) as u16
}

/// Bits 15:11.
fn exponent(code: u16) -> i8
    ensures value { result ≡ exponent code }
    ensures least { negsuc 15 ≤ℤ result }
    ensures greatest { result ≤ℤ pos 15 }
{
    linear::exponent_of(code >> 11)
}

/// Bits 10:0.
fn mantissa(code: u16) -> i32
    ensures value { result ≡ mantissa code }
    ensures least { negsuc 1023 ≤ℤ result }
    ensures greatest { result ≤ℤ pos 1023 }
{
    twos_complement(11, code & 0x7ff)
}
