//! The half-precision format.
//!
//! The magnitudes of the codes rise with their lower 15 bits: from one code to the next by a power
//! of two, over 2^24. It is 1 for the first 2048 codes, and twice as much for each 1024 after them. So
//! the encoder seeks the least power at which fewer than 2048 spacings reach a quantity, and rounds
//! there.
//!
//! Its rows: `tests_numbers`, `src/formats/half.rt`.
ghost use Rattle.std.specs.Prelude.{◌≡◌, ◌+◌, ◌*◌, ◌-◌, ◌%◌, ◌^◌, ◌<◌, ◌≤◌, pos, neg_ℤ, ◌<ℤ◌, ◌≤ℤ◌, min, unsigned_abs};
ghost use Rattle.pmb_format.specs.Coding.{IsInRange, IsNearest};
ghost use Rattle.pmb_half.specs.Half.{exponent_field, fraction, half, half_numerator, has_no_value, magnitude};
ghost use Rattle.pmb_format.specs.Steps.{TakesSteps, steps_counted};
ghost use Rattle.pmb_format.specs.Written.{IsWritten};

use pmb_format::codes::{self, Codes};
use pmb_format::rounding::rounded_quotient;
use pmb_format::{Format, RangeFault, Steps};
use pmb_quantity::Quantity;

/// Half precision, binary16: bit 15 is the sign, bits 14:10 are the exponent field, bits 9:0 the
/// fraction. Zero is written as 0000h, and -0, 8000h, is read as zero. A word with exponent field 31
/// is no code: a quantity over 65504 or under -65504 is out of range.
#[derive(Clone, Copy, Debug, PartialEq, Eq)]
pub struct Half;

/// The denominator of every value.
const DENOMINATOR: u64 = 1 << 24;

/// The code of the least value, -65504.
const LEAST_CODE: u16 = 0xfbff;

/// The code of the greatest value, 65504.
const GREATEST_CODE: u16 = 0x7bff;

/// The greatest power of two that neighbours are apart, over 2^24.
const GREATEST_POWER: u32 = 29;

impl Codes for Half {
    ghost coding = { λ _. half };

    fn numerator(&self, code: u16) -> i64 {
        numerator(code)
    }

    fn denominator(&self) -> u64 {
        DENOMINATOR
    }

    fn least(&self) -> u16 {
        LEAST_CODE
    }

    fn greatest(&self) -> u16 {
        GREATEST_CODE
    }
}

impl Format for Half {
    ghost coding = { λ _. half };

    fn decode(&self, code: u16) -> Quantity {
        codes::decode(self, code)
    }

    fn encode(&self, quantity: &Quantity, steps: &mut Steps) -> Result<u16, RangeFault> {
        match codes::fault_of(self, quantity) {
            Some(fault) => Err(fault),
            None => Ok(nearest(quantity, steps)),
        }
    }

    fn obeys_laws(&self) {}
}

/// Whether a word is an infinity, or no number: its exponent field is 31.
pub const fn has_no_value(code: u16) -> bool
    ensures { result ≡ has_no_value code }
{
    exponent_field(code) == 31
}

/// The code nearest to a quantity in range.
fn nearest(quantity: &Quantity, steps: &mut Steps) -> u16
    requires { IsInRange half quantity.now }
    ensures nearest { IsNearest half quantity.now result }
    ensures steps { TakesSteps 1 33 steps.old steps.new }
{
    let target = codes::scaled(&Half, quantity);
    let size = target.unsigned_abs();
    let denominator = u128::from(quantity.den().unsigned_abs());
    let power = least_power(size, denominator, steps);
    let count = rounded_quotient(size, spacing_at(denominator, power), steps);
    with_sign_of(target, code_at(count as u16, power as u16))
}

/// The least power of two at which fewer than 2048 spacings reach a size. Each power that is
/// compared is a turn, and ticks: all from 0 up to the result, but the greatest, which needs no
/// comparison.
fn least_power(size: u128, denominator: u128, steps: &mut Steps) -> u32
    requires denominator_is_small { denominator < 2 ^ 62 }
    requires in_range { size < 2048 * (denominator * 2 ^ 29) }
    ensures power { result ≤ 29 }
    ensures reaches { size < 2048 * (denominator * 2 ^ result) }
    ensures least { 0 < result → 2048 * (denominator * 2 ^ (result - 1)) ≤ size }
    ensures steps { steps.new ≡ steps_counted steps.old (min (result + 1) 29) }
{
    for power in 0..GREATEST_POWER {
        steps.tick();
        if size < 2048 * spacing_at(denominator, power) {
            return power;
        }
    }
    GREATEST_POWER
}

/// How far neighbours are apart, times both denominators.
fn spacing_at(denominator: u128, power: u32) -> u128
    requires denominator_is_small { denominator < 2 ^ 62 }
    requires power_is_small { power ≤ 29 }
    ensures value { result ≡ denominator * 2 ^ power }
    ensures small { result < 2 ^ 91 }
{
    denominator << power
}

/// The code of so many spacings at a power of two. A count of 2048 runs over into the next exponent
/// field by itself; the bit that the fraction leaves out counts as one of the field.
fn code_at(count: u16, power: u16) -> u16
    requires count_fits { count ≤ 2048 }
    requires power_fits { power ≤ 29 }
    requires room { power ≡ 29 → count < 2048 }
    requires large { 0 < power → 1024 ≤ count }
    ensures value { magnitude result ≡ count * 2 ^ power }
    ensures small { result < 31744 }
    ensures parity { result % 2 ≡ count % 2 }
{
    power * 1024 + count
}

/// The code of a magnitude with the sign of a number. Zero has none.
fn with_sign_of(number: i128, code: u16) -> u16
    requires { code < 31744 }
    ensures written { IsWritten half result }
    ensures positive { pos 0 ≤ℤ number → half_numerator result ≡ pos (magnitude code) }
    ensures negative { number <ℤ pos 0 → half_numerator result ≡ neg_ℤ (pos (magnitude code)) }
    ensures parity { result % 2 ≡ code % 2 }
{
    if number < 0 && code != 0 {
        0x8000 + code
    } else {
        code
    }
}

/// The numerator of the value of a word, over 2^24.
fn numerator(code: u16) -> i64
    ensures value { result ≡ half_numerator code }
    ensures small { unsigned_abs result < 2 ^ 62 }
{
    let magnitude = magnitude(code) as i64;
    if code >> 15 == 1 {
        -magnitude
    } else {
        magnitude
    }
}

/// The value of a word without its sign, over 2^24.
fn magnitude(code: u16) -> u64
    ensures value { result ≡ magnitude code }
    ensures small { result < 2 ^ 41 }
{
    match exponent_field(code) {
        0 => u64::from(fraction(code)),
        field => u64::from(1024 + fraction(code)) << (field - 1),
    }
}

/// Bits 14:10.
const fn exponent_field(code: u16) -> u16
    ensures value { result ≡ exponent_field code }
    ensures small { result < 32 }
{
    code >> 10 & 0x1f
}

/// Bits 9:0.
const fn fraction(code: u16) -> u16
    ensures value { result ≡ fraction code }
    ensures small { result < 1024 }
{
    code & 0x3ff
}
