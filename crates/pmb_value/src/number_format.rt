//! A number format of two bytes, whichever it is.
//!
//! Its rows: `tests/rows/numbers.txt`.
ghost use Rattle.std.specs.Prelude.{◌≡◌};
ghost use Rattle.pmb_value.specs.NumberFormat.{IsFormat, IsVoutFormat};
ghost use Rattle.pmb_value.specs.WordFault.{vid_fault, word_fault, value_in};

use crate::vout::VoutFormat;
use pmb_format::{Format, RangeFault, Steps};
use pmb_half::{Half, has_no_value};
use pmb_linear::{Linear11, Linear11Fixed};
use pmb_quantity::Quantity;
use pmb_vid::VidTable;

/// A number format of two bytes.
#[derive(Clone, Copy, Debug, PartialEq, Eq)]
pub enum NumberFormat {
    /// LINEAR11.
    Linear11,
    /// LINEAR11, written with one exponent.
    Linear11Fixed(Linear11Fixed),
    /// ULINEAR16, SLINEAR16 or DIRECT.
    Word(VoutFormat),
    /// IEEE 754 half precision.
    Half,
    /// A VID table.
    Vid(VidTable),
}

/// Why a word has no value.
#[derive(Clone, Copy, Debug, PartialEq, Eq)]
pub enum WordFault {
    /// In half precision it is an infinity, or no number.
    NotANumber,
    /// The VID table has no voltage for it.
    NoCode,
    /// In the VID table it stands for an output that is off.
    Off,
}

impl VoutFormat {
    /// Its exponent or its coefficients are in their ranges. It does nothing.
    pub fn keeps_ranges(&self)
        ensures { IsVoutFormat self.now }
    {
        match self {
            VoutFormat::Unsigned(format) => {
                let _exponent = format.exponent();
            }
            VoutFormat::Signed(format) => {
                let _exponent = format.exponent();
            }
            VoutFormat::Direct(format) => {
                let _slope = format.m();
            }
        }
    }
}

impl NumberFormat {
    /// Its exponent or its coefficients are in their ranges. It does nothing.
    pub fn keeps_ranges(&self)
        ensures { IsFormat self.now }
    {
        match self {
            NumberFormat::Linear11 | NumberFormat::Half | NumberFormat::Vid(_) => {}
            NumberFormat::Linear11Fixed(format) => {
                let _exponent = format.exponent();
            }
            NumberFormat::Word(format) => format.keeps_ranges(),
        }
    }

    /// The exact value of a word, or why it has none. In the linear formats and in DIRECT each word
    /// has a value.
    pub fn value(&self, word: u16) -> Result<Quantity, WordFault>
        ensures { result ≡ value_in self.now word }
    {
        match self.word_fault(word) {
            None => Ok(self.decode(word)),
            Some(fault) => Err(fault),
        }
    }

    /// Why a word has no value, if it has none.
    fn word_fault(&self, word: u16) -> Option<WordFault>
        ensures { result ≡ word_fault self.now word }
    {
        match self {
            NumberFormat::Linear11 | NumberFormat::Linear11Fixed(_) | NumberFormat::Word(_) => None,
            NumberFormat::Half => {
                if has_no_value(word) {
                    Some(WordFault::NotANumber)
                } else {
                    None
                }
            }
            NumberFormat::Vid(table) => vid_fault(*table, word),
        }
    }
}

/// Why a word has no voltage in a VID table, if it has none.
fn vid_fault(table: VidTable, word: u16) -> Option<WordFault>
    ensures { result ≡ vid_fault table word }
{
    if table.is_off(word) {
        Some(WordFault::Off)
    } else if table.has_voltage(word) {
        None
    } else {
        Some(WordFault::NoCode)
    }
}

impl Format for NumberFormat {
    ghost use Rattle.pmb_value.specs.NumberFormat.{number_coding};

    ghost coding = { number_coding };

    fn decode(&self, code: u16) -> Quantity {
        match self {
            NumberFormat::Linear11 => Linear11.decode(code),
            NumberFormat::Linear11Fixed(format) => format.decode(code),
            NumberFormat::Word(format) => format.decode(code),
            NumberFormat::Half => Half.decode(code),
            NumberFormat::Vid(table) => table.decode(code),
        }
    }

    fn encode(&self, quantity: &Quantity, steps: &mut Steps) -> Result<u16, RangeFault> {
        match self {
            NumberFormat::Linear11 => Linear11.encode(quantity, steps),
            NumberFormat::Linear11Fixed(format) => format.encode(quantity, steps),
            NumberFormat::Word(format) => format.encode(quantity, steps),
            NumberFormat::Half => Half.encode(quantity, steps),
            NumberFormat::Vid(table) => table.encode(quantity, steps),
        }
    }

    fn obeys_laws(&self) {
        match self {
            NumberFormat::Linear11 => Linear11.obeys_laws(),
            NumberFormat::Linear11Fixed(format) => format.obeys_laws(),
            NumberFormat::Word(format) => format.obeys_laws(),
            NumberFormat::Half => Half.obeys_laws(),
            NumberFormat::Vid(table) => table.obeys_laws(),
        }
    }
}
