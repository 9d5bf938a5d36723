//! What a line is converted to.
//!
//! Its rows: `tests/rows/numbers.txt`.

ghost use Rattle.std.specs.Prelude.{◌≡◌};
ghost use Rattle.pmb_io.specs.Lines.{line_text};
ghost use Rattle.pmb_value.specs.Reading.{reading};
ghost use Rattle.pmb_convert.specs.Answer.{EncodesQuantity, EncodesRead, code_of, decoded_answer, word_answer};
ghost use Rattle.pmb_value.specs.NumberFormat.{number_coding};
ghost use Rattle.pmb_value.specs.WordFault.{value_in};
ghost use Rattle.pmb_convert.specs.machine.Converting.{answer_of};

use crate::answer::Converted;
use crate::convert_fault::ConvertFault;
use pmb_io::{InputLine, without_return};
use pmb_value::{Format, NumberFormat, Quantity, QuantityFault, RangeFault, Steps, WordFault};

/// What is done with each line.
#[derive(Clone, Copy, Debug, PartialEq, Eq)]
pub enum Conversion {
    /// A quantity to its code.
    Encode(NumberFormat),
    /// A code to its quantity.
    Decode(NumberFormat),
}

impl Conversion {
    ghost use Rattle.pmb_convert.specs.Answer.{AnswersLine, AnswersText};

    /// The answer to a line.
    pub(crate) fn answer(&self, line: InputLine<'_>) -> Result<Converted, ConvertFault>
        ensures { AnswersLine self.now (line_text line.entry) (answer_of result) }
    {
        match line {
            InputLine::Ended(text) => self.answer_text(without_return(text)),
            InputLine::Last(text) => self.answer_text(text),
            InputLine::TooLong => Err(ConvertFault::TooLong),
        }
    }

    /// The answer to what a line says.
    fn answer_text(&self, text: &[u8]) -> Result<Converted, ConvertFault>
        ensures { AnswersText self.now text.now (answer_of result) }
    {
        match self {
            Conversion::Encode(format) => encoded(format, text),
            Conversion::Decode(format) => decoded(format, text),
        }
    }
}

/// The code nearest to the quantity that a text spells.
fn encoded(format: &NumberFormat, text: &[u8]) -> Result<Converted, ConvertFault>
    ensures { EncodesRead (number_coding format.now) (reading text.now) (answer_of result) }
{
    match Quantity::parse(text) {
        Ok(quantity) => encoded_quantity(format, &quantity),
        Err(QuantityFault::Empty) => Err(ConvertFault::Empty),
        Err(QuantityFault::BadDigit) => Err(ConvertFault::BadDigit),
        Err(QuantityFault::ZeroDenominator) => Err(ConvertFault::ZeroDenominator),
        Err(QuantityFault::TooLarge) => Err(ConvertFault::TooLarge),
    }
}

/// The code nearest to a quantity.
fn encoded_quantity(format: &NumberFormat, quantity: &Quantity) -> Result<Converted, ConvertFault>
    ensures { EncodesQuantity (number_coding format.now) quantity.now (answer_of result) }
{
    match format.encode(quantity, &mut Steps::new()) {
        Ok(code) => Ok(Converted::Code(code)),
        Err(RangeFault::Below) => Err(ConvertFault::Below),
        Err(RangeFault::Above) => Err(ConvertFault::Above),
    }
}

/// The value of the code that a text writes.
fn decoded(format: &NumberFormat, text: &[u8]) -> Result<Converted, ConvertFault>
    ensures { answer_of result ≡ decoded_answer format.now (code_of text.now) }
{
    match code(text) {
        Some(code) => word_value(format, code),
        None => Err(ConvertFault::BadCode),
    }
}

/// The value of a word, or why it has none.
fn word_value(format: &NumberFormat, word: u16) -> Result<Converted, ConvertFault>
    ensures { answer_of result ≡ word_answer (value_in format.now word) }
{
    match format.value(word) {
        Ok(quantity) => Ok(Converted::Value(quantity)),
        Err(WordFault::NotANumber) => Err(ConvertFault::NotANumber),
        Err(WordFault::NoCode) => Err(ConvertFault::NoCode),
        Err(WordFault::Off) => Err(ConvertFault::Off),
    }
}

/// The code that a text writes in four hexadecimal digits.
fn code(text: &[u8]) -> Option<u16>
    ensures { result ≡ code_of text.now }
{
    let mut bytes = [0; 2];
    match hex::decode_to_slice(text, &mut bytes) {
        Ok(()) => Some(u16::from_be_bytes(bytes)),
        Err(_) => None,
    }
}
