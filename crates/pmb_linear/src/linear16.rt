//! The linear formats of VOUT: ULINEAR16 and SLINEAR16.
//!
//! One body stands for both. What differs is which number a word is, and that is what a [`Word`]
//! tells.
//!
//! Its rows: `tests_numbers`, `src/formats/linear16.rt`; `tests/rows/numbers.txt`.
ghost use Rattle.std.specs.Prelude.{◌≡◌, ◌↔◌, ◌^◌, ◌<◌, ℕ, ℤ, pos, negsuc, unsigned_abs, IfOk, IsOk};
ghost use Rattle.pmb_linear.specs.Linear.{IsExponent, linear16};
ghost use Rattle.pmb_format.specs.Words.{twos_complement};
ghost use Rattle.pmb_format.specs.Words.{CountsUp, signed_at};
ghost use Rattle.pmb_linear.specs.machine.Row.{linear16_row};

use crate::linear::{self, BadExponent, DENOMINATOR, GREATEST_EXPONENT, LEAST_EXPONENT};
use pmb_format::codes::{self, Codes};
use pmb_format::evenly_spaced::{self, EvenlySpaced};
use pmb_format::{Format, RangeFault, SignedWord, Steps, UnsignedWord, Word};
use pmb_quantity::Quantity;
use std::marker::{Model, PhantomData};

/// ULINEAR16: an unsigned word, times two to an exponent that VOUT_MODE gives.
pub type Ulinear16 = Linear16<UnsignedWord>;

/// SLINEAR16: a signed word, times two to an exponent that VOUT_MODE gives.
pub type Slinear16 = Linear16<SignedWord>;

/// A word, times two to an exponent.
#[derive(Clone, Copy, Debug, PartialEq, Eq)]
pub struct Linear16<W: Word> {
    exponent: i8,
    word: PhantomData<W>,
}

impl<W: Word> Model for Linear16<W> {
    ghost use Rattle.std.specs.Prelude.{ℤ};
    ghost use Rattle.pmb_linear.specs.Linear.{IsExponent};

    ghost Value = { ℤ };

    ghost view = { λ f. f.exponent };

    ghost invariant = { λ f. IsExponent f.exponent };

    ghost inverse = { λ e. record { exponent = e; word = record {} } };
}

impl<W: Word> Linear16<W> {
    /// The format with this exponent, from -16 to 15. ULINEAR16 has the values from 0 to `65535 *
    /// 2^exponent`, and SLINEAR16 those from `-32768 * 2^exponent` to `32767 * 2^exponent`.
    pub fn new(exponent: i8) -> Result<Linear16<W>, BadExponent>
        ensures in_range { IsOk result ↔ IsExponent exponent }
        ensures value { IfOk result (λ f. f ≡ exponent) }
    {
        if exponent < LEAST_EXPONENT || exponent > GREATEST_EXPONENT {
            return Err(BadExponent);
        }
        Ok(Linear16::of(exponent))
    }

    /// The exponent, from -16 to 15.
    pub const fn exponent(&self) -> i8
        ensures value { result ≡ self.now }
        ensures kept { IsExponent self.now }
    {
        self.exponent
    }

    /// The format with an exponent in range.
    pub fn of(exponent: i8) -> Linear16<W>
        requires { IsExponent exponent }
        ensures { result ≡ exponent }
    {
        Linear16 {
            exponent,
            word: PhantomData,
        }
    }
}

impl<W: Word> Codes for Linear16<W> {
    ghost coding = { linear16 W.number };

    fn numerator(&self, code: u16) -> i64 {
        i64::from(W::number(code)) * i64::from(linear::power(self.exponent))
    }

    fn denominator(&self) -> u64 {
        DENOMINATOR
    }

    fn least(&self) -> u16 {
        W::counts();
        W::at(0)
    }

    fn greatest(&self) -> u16 {
        W::counts();
        W::at(u16::MAX)
    }
}

impl<W: Word> EvenlySpaced for Linear16<W> {
    ghost row = { λ exponent. linear16_row W.at W.least_number exponent };

    fn spacing(&self) -> u64 {
        W::counts();
        u64::from(linear::power(self.exponent))
    }

    fn code_at(&self, index: u16) -> u16 {
        W::at(index)
    }
}

impl<W: Word> Format for Linear16<W> {
    ghost coding = { linear16 W.number };

    fn decode(&self, code: u16) -> Quantity {
        codes::decode(self, code)
    }

    fn encode(&self, quantity: &Quantity, steps: &mut Steps) -> Result<u16, RangeFault> {
        evenly_spaced::encode(self, quantity, steps)
    }

    fn obeys_laws(&self) {
        evenly_spaced::obeys_laws(self);
    }
}
