//! The value of a word, and what it is a fraction over.
//!
//! Its rows: `tests_numbers`, `src/means.rt`.

ghost use Rattle.std.specs.Prelude.{Bool};
ghost use Rattle.pmb_value.specs.declared.number_format.NumberFormat.{NumberFormat};
ghost use Rattle.pmb_mean.specs.Numbers.{FitsKind};
ghost use Rattle.pmb_mean.specs.machine.Formats.{coded_number};

use crate::denominators::Denominators;
use pmb_format::codes::Codes;
use pmb_value::{Half, NumberFormat, Quantity, VoutFormat};
use std::marker::Model;

/// A value of a command, and whether the VOUT_MODE by which it was read is assumed.
#[derive(Clone, Copy, Debug, PartialEq, Eq)]
pub struct Number {
    value: Quantity,
    over: Denominators,
    assumed: bool,
}

impl Model for Number {
    ghost use Rattle.pmb_mean.specs.Numbers.{FitsKind, NumberData};

    ghost Value = { NumberData };

    ghost view = { λ n. record { value = n.value; over = n.over; assumed = n.assumed } };

    ghost invariant = { λ n. FitsKind (record { value = n.value; over = n.over; assumed = n.assumed }) };

    ghost inverse = { λ n. record { value = n.value; over = n.over; assumed = n.assumed } };
}

impl Number {
    ghost use Rattle.std.specs.Prelude.{◌≡◌, ◌^◌, ◌<◌, unsigned_abs};
    ghost use Rattle.pmb_mean.specs.Numbers.{FitsKind, numerator};
    ghost use Rattle.pmb_mean.specs.Words.{word_number};

    /// The value of a word in a format, and whether the VOUT_MODE that named the format is assumed.
    /// `None` where the word has no value: in half precision an infinity or no number, in a VID table
    /// a code without a voltage.
    pub fn of_word(format: &NumberFormat, word: u16, assumed: bool) -> Option<Number>
        ensures { result ≡ word_number format.now word assumed }
    {
        fits_kind(format, word);
        match format.value(word) {
            Ok(value) => Some(Number {
                value,
                over: Denominators::of(format),
                assumed,
            }),
            Err(_) => None,
        }
    }

    /// The exact value.
    pub fn value(&self) -> Quantity
        ensures value { result ≡ self.now.value }
        ensures holds { FitsKind self.now }
    {
        self.value
    }

    /// What it is a fraction over.
    pub fn over(&self) -> Denominators
        ensures { result ≡ self.now.over }
    {
        self.over
    }

    /// Whether the VOUT_MODE by which it was read is assumed.
    pub fn is_assumed(&self) -> bool
        ensures { result ≡ self.now.assumed }
    {
        self.assumed
    }

    /// The numerator over that denominator.
    pub(crate) fn numerator(&self) -> i64
        ensures value { result ≡ numerator self.now }
        ensures small { unsigned_abs result < 2 ^ 62 }
    {
        let times = self.over.denominator() / self.value.den().unsigned_abs();
        self.value.num() * times as i64
    }
}

/// The numerator of each word is small, over a denominator that is not 0. It does nothing.
fn fits_kind(format: &NumberFormat, word: u16)
    ensures { (assumed : Bool) → FitsKind (coded_number format.now word assumed) }
{
    match format {
        NumberFormat::Linear11 => {}
        NumberFormat::Linear11Fixed(_) => {}
        NumberFormat::Word(format) => vout_fits_kind(format, word),
        NumberFormat::Half => {
            let _numerator = Half.numerator(word);
        }
        NumberFormat::Vid(_) => {}
    }
}

/// The same in a format of output voltages.
fn vout_fits_kind(format: &VoutFormat, word: u16)
    ensures { (assumed : Bool) → FitsKind (coded_number (NumberFormat.Word format.now) word assumed) }
{
    format.keeps_ranges();
    match format {
        VoutFormat::Unsigned(_) => {}
        VoutFormat::Signed(_) => {}
        VoutFormat::Direct(direct) => {
            let _numerator = direct.numerator(word);
            let _denominator = direct.denominator();
        }
    }
}
