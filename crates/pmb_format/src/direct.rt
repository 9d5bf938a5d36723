//! The DIRECT format.
//!
//! Its rows: `tests_numbers`, `src/formats/direct.rt`; `tests/rows/numbers.txt`.
ghost use Rattle.std.specs.Prelude.{◌≡◌, ◌≢◌, ◌^◌, ◌*◌, ◌<◌, ◌≤◌, pos, ◌*ℤ◌, ◌≤ℤ◌, unsigned_abs};
ghost use Rattle.pmb_format.specs.Direct.{direct_word, positive_part, sign_of};
ghost use Rattle.pmb_format.specs.machine.DirectRow.{direct_at};

use crate::codes::{self, Codes};
use crate::evenly_spaced::{self, EvenlySpaced};
use crate::format::{Format, RangeFault};
use crate::steps::Steps;
use crate::word::{SignedWord, UnsignedWord, Word};
use pmb_coefficients::Direct;
use pmb_quantity::Quantity;

impl Codes for Direct {
    ghost use Rattle.pmb_format.specs.Direct.{direct};

    ghost coding = { direct };

    fn numerator(&self, code: u16) -> i64 {
        let word = times(number_of(self, code), ten_to(-self.r()));
        let offset = times(i32::from(self.b()), ten_to(self.r()));
        with_sign_of(self.m(), word - offset)
    }

    fn denominator(&self) -> u64 {
        u64::from(self.m().unsigned_abs()) * u64::from(ten_to(self.r()))
    }

    fn least(&self) -> u16 {
        let index = if self.m() < 0 { 0xffff } else { 0 };
        word_at(self, index)
    }

    fn greatest(&self) -> u16 {
        let index = if self.m() < 0 { 0 } else { 0xffff };
        word_at(self, index)
    }
}

impl EvenlySpaced for Direct {
    ghost use Rattle.pmb_format.specs.machine.DirectRow.{direct_row};

    ghost row = { direct_row };

    fn spacing(&self) -> u64 {
        u64::from(ten_to(-self.r()))
    }

    fn code_at(&self, index: u16) -> u16 {
        word_at(self, index)
    }
}

impl Format for Direct {
    ghost use Rattle.pmb_format.specs.Direct.{direct};

    ghost coding = { direct };

    fn decode(&self, code: u16) -> Quantity {
        codes::decode(self, code)
    }

    fn encode(&self, quantity: &Quantity, steps: &mut Steps) -> Result<u16, RangeFault> {
        evenly_spaced::encode(self, quantity, steps)
    }

    fn obeys_laws(&self) {
        evenly_spaced::obeys_laws(self);
    }
}

/// The number that a word is.
fn number_of(direct: &Direct, code: u16) -> i32
    ensures value { result ≡ direct_word direct.now.unsigned code }
    ensures small { unsigned_abs result < 2 ^ 16 }
{
    if direct.is_unsigned() {
        UnsignedWord::number(code)
    } else {
        SignedWord::number(code)
    }
}

/// The word of an index, from the least number upwards.
fn word_at(direct: &Direct, index: u16) -> u16
    ensures { result ≡ direct_at direct.now.unsigned index }
{
    if direct.is_unsigned() {
        UnsignedWord::at(index)
    } else {
        SignedWord::at(index)
    }
}

/// Ten to an exponent, and 1 where it is negative.
fn ten_to(exponent: i8) -> u32
    requires { exponent ≤ℤ pos 9 }
    ensures value { result ≡ 10 ^ positive_part exponent }
    ensures small { result ≤ 1_000_000_000 }
{
    if exponent < 0 {
        return 1;
    }
    10u32.pow(exponent as u32)
}

/// A number of at most 16 bits and a sign, times a power of ten.
fn times(word: i32, power: u32) -> i64
    requires word_is_small { unsigned_abs word < 2 ^ 16 }
    requires power_is_small { power ≤ 1_000_000_000 }
    ensures value { result ≡ word *ℤ pos power }
    ensures small { unsigned_abs result ≤ 2 ^ 16 * 1_000_000_000 }
{
    i64::from(word) * i64::from(power)
}

/// A number times the sign of `m`, which is not 0.
fn with_sign_of(m: i16, number: i64) -> i64
    requires m_is_some { m ≢ pos 0 }
    requires number_is_small { unsigned_abs number < 2 ^ 62 }
    ensures value { result ≡ sign_of m *ℤ number }
    ensures small { unsigned_abs result < 2 ^ 62 }
{
    if m < 0 { -number } else { number }
}
