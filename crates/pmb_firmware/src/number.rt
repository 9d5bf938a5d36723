//! Codes and quantities, in every number format (PMBus Part II revision 1.3, sections 7 and 8).
//!
//! Its rows: `tests_bytes`, `src/firmware/doc.rt`.
ghost use Rattle.std.specs.Prelude.{Ok};
ghost use Rattle.pmb_quantity.specs.Reading.{reading};
ghost use Rattle.pmb_value.specs.NumberFormat.{number_coding};
ghost use Rattle.pmb_value.specs.WordFault.{value_in};
ghost use Rattle.pmb_firmware.specs.Format.{named};
ghost use Rattle.pmb_firmware.specs.Quantity.{quantity_of};
ghost use Rattle.pmb_firmware.specs.Number.{Decodes, DecodesWord, Encodes, EncodesQuantity, Parses};

use crate::call_status::CallStatus;
use crate::format::PmbFormat;
use crate::quantity::PmbQuantity;
use pmb_value::{Format, NumberFormat, Quantity, RangeFault, Steps};

/// Writes the code nearest to a quantity, the even one at a tie. A quantity outside the range is
/// refused, however little it is outside.
///
/// The status is what is wrong with the format, or else with the quantity, or else on which side of
/// the range it is; then the code stays as it was.
pub fn encode(format: &PmbFormat, quantity: PmbQuantity, code: &mut u16) -> i32
    ensures { Encodes (named format.now) (quantity_of quantity) code.old result code.new }
{
    match format.named() {
        Ok(format) => encode_fraction(&format, quantity, code),
        Err(fault) => CallStatus::Format(fault).number(),
    }
}

/// Writes the code nearest to a fraction.
fn encode_fraction(format: &NumberFormat, quantity: PmbQuantity, code: &mut u16) -> i32
    ensures { Encodes (Ok format.now) (quantity_of quantity) code.old result code.new }
{
    match quantity.value() {
        Ok(quantity) => encode_quantity(format, &quantity, code),
        Err(fault) => CallStatus::Quantity(fault).number(),
    }
}

/// Writes the code nearest to a quantity.
fn encode_quantity(format: &NumberFormat, quantity: &Quantity, code: &mut u16) -> i32
    ensures { EncodesQuantity (number_coding format.now) quantity.now code.old result code.new }
{
    match format.encode(quantity, &mut Steps::new()) {
        Ok(nearest) => {
            *code = nearest;
            CallStatus::Done.number()
        }
        Err(RangeFault::Below) => CallStatus::Range(RangeFault::Below).number(),
        Err(RangeFault::Above) => CallStatus::Range(RangeFault::Above).number(),
    }
}

/// Writes the exact value of a code, in lowest terms.
///
/// The status is what is wrong with the format, or else why the code has no value: in half precision
/// or in a VID table. Then the quantity stays as it was.
pub fn decode(format: &PmbFormat, code: u16, quantity: &mut PmbQuantity) -> i32
    ensures { Decodes (named format.now) code quantity.old result quantity.new }
{
    match format.named() {
        Ok(format) => decode_word(&format, code, quantity),
        Err(fault) => CallStatus::Format(fault).number(),
    }
}

/// Writes the exact value of a word, where it has one.
fn decode_word(format: &NumberFormat, word: u16, quantity: &mut PmbQuantity) -> i32
    ensures { DecodesWord (value_in format.now word) quantity.old result quantity.new }
{
    match format.value(word) {
        Ok(value) => {
            *quantity = PmbQuantity::of(&value);
            CallStatus::Done.number()
        }
        Err(fault) => CallStatus::Word(fault).number(),
    }
}

/// Writes the quantity that a text spells: an optional `-`, digits, and then nothing, a point and
/// digits, or a slash and digits.
///
/// The status is the text's fault, as `Quantity::parse` has it; then the quantity stays as it was.
pub fn parse(text: &[u8], quantity: &mut PmbQuantity) -> i32
    ensures { Parses (reading text.now) quantity.old result quantity.new }
{
    match Quantity::parse(text) {
        Ok(parsed) => {
            *quantity = PmbQuantity::of(&parsed);
            CallStatus::Done.number()
        }
        Err(fault) => CallStatus::Quantity(fault).number(),
    }
}
