//! LINEAR11 with an exponent that a data sheet fixes.
//!
//! Its rows: `tests_numbers`, `src/formats/linear11_fixed.rt`; `tests/rows/numbers.txt`.
ghost use Rattle.std.specs.Prelude.{◌≡◌, ◌↔◌, ◌≤◌, ◌+ℤ◌, pos, unsigned_abs, IfOk, IsOk};
ghost use Rattle.pmb_linear.specs.Linear.{IsExponent, linear11_fixed};
ghost use Rattle.pmb_linear.specs.machine.Row.{linear11_row};

use crate::linear::{self, BadExponent, DENOMINATOR, GREATEST_EXPONENT, LEAST_EXPONENT};
use crate::linear11;
use pmb_format::codes::{self, Codes};
use pmb_format::evenly_spaced::{self, EvenlySpaced};
use pmb_format::{Format, RangeFault, Steps};
use pmb_quantity::Quantity;
use std::marker::Model;

/// The index of the greatest mantissa, 1023, over the least.
const LAST_INDEX: u32 = 2047;

/// LINEAR11 with one exponent. Its codes are the 2,048 words with that exponent, and each value has
/// one. Other words are read as LINEAR11 reads them.
#[derive(Clone, Copy, Debug, PartialEq, Eq)]
pub struct Linear11Fixed {
    exponent: i8,
}

impl Model for Linear11Fixed {
    ghost use Rattle.std.specs.Prelude.{ℤ};
    ghost use Rattle.pmb_linear.specs.Linear.{IsExponent};

    ghost Value = { ℤ };

    ghost view = { λ f. f.exponent };

    ghost invariant = { λ f. IsExponent f.exponent };

    ghost inverse = { λ e. record { exponent = e } };
}

impl Linear11Fixed {
    /// The format with this exponent, from -16 to 15. Its values are those from
    /// `-1024 * 2^exponent` to `1023 * 2^exponent`.
    pub fn new(exponent: i8) -> Result<Linear11Fixed, BadExponent>
        ensures in_range { IsOk result ↔ IsExponent exponent }
        ensures value { IfOk result (λ f. f ≡ exponent) }
    {
        if exponent < LEAST_EXPONENT || exponent > GREATEST_EXPONENT {
            return Err(BadExponent);
        }
        Ok(Linear11Fixed { exponent })
    }

    /// The exponent, from -16 to 15.
    pub const fn exponent(&self) -> i8
        ensures value { result ≡ self.now }
        ensures kept { IsExponent self.now }
    {
        self.exponent
    }

    /// The exponent over -16.
    fn power(&self) -> u32
        ensures value { result ≡ unsigned_abs (self.now +ℤ pos 16) }
        ensures small { result ≤ 31 }
        ensures in_range { IsExponent self.now }
    {
        (self.exponent - LEAST_EXPONENT) as u32
    }
}

impl Codes for Linear11Fixed {
    ghost coding = { linear11_fixed };

    fn numerator(&self, code: u16) -> i64 {
        linear11::numerator(code)
    }

    fn denominator(&self) -> u64 {
        DENOMINATOR
    }

    fn least(&self) -> u16 {
        linear11::word(0, self.power())
    }

    fn greatest(&self) -> u16 {
        linear11::word(LAST_INDEX, self.power())
    }
}

impl EvenlySpaced for Linear11Fixed {
    ghost row = { linear11_row };

    fn spacing(&self) -> u64 {
        u64::from(linear::power(self.exponent))
    }

    fn code_at(&self, index: u16) -> u16 {
        linear11::word(u32::from(index), self.power())
    }
}

impl Format for Linear11Fixed {
    ghost coding = { linear11_fixed };

    fn decode(&self, code: u16) -> Quantity {
        codes::decode(self, code)
    }

    fn encode(&self, quantity: &Quantity, steps: &mut Steps) -> Result<u16, RangeFault> {
        evenly_spaced::encode(self, quantity, steps)
    }

    fn obeys_laws(&self) {
        evenly_spaced::obeys_laws(self);
    }
}
