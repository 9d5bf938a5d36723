//! Quantities in and codes out, or codes in and quantities out.
//!
//! Its rows: `tests_tasks`, `src/numbers.rt`; `tests/rows/numbers.txt`.

ghost use Rattle.pmb_io.specs.Runs.{AsTool, Ran};
ghost use Rattle.pmb_convert.specs.declared.conversion.Conversion.TheVariants.{Encode, Decode};
ghost use Rattle.pmb_convert.specs.Lines.{converting};

use crate::conversion::Conversion;
use crate::converter::Converter;
use pmb_io::{Sink, Source, Tally, ToolFault, each_line};
use pmb_value::NumberFormat;

/// Writes the code of each quantity that stands on a line of the text that is `first` and what the
/// reader gives.
///
/// A line is written for each line that an LF ends, and for what follows the last LF, where there is
/// something; a CR before an LF is left out. What is written is the code nearest to the quantity in four
/// hexadecimal digits, the even one at a tie; or `! ` and why there is none: `TooLong` for a line over
/// 256 bytes, `Empty`, `BadDigit`, `ZeroDenominator` or `TooLarge` for a text that spells no quantity,
/// `Below` or `Above` for one outside the format's range.
///
/// The answers to the lines of a piece are written before the next is read. The tally counts a text as
/// a packet and a fault as a refusal.
///
/// # Errors
///
/// `Read` where the reader failed: the answers to the lines that had ended are written. `Write` where
/// the writer failed. `TooManyReads` where 2^32 reads gave bytes and the reader had not ended.
pub fn encode_lines<R: Source, W: Sink>(
    format: NumberFormat,
    first: &[u8],
    reader: &mut R,
    writer: &mut W,
) -> Result<Tally, ToolFault>
    ensures { AsTool (Ran R.told W.told (converting (Encode format)) first.now (reader.old, writer.old) (reader.new, writer.new)) result }
{
    convert_lines(Conversion::Encode(format), first, reader, writer)
}

/// Writes the value of each code that stands on a line of the text that is `first` and what the reader
/// gives.
///
/// The lines are those of `encode_lines`. The answer is the exact value of the code as
/// [`Quantity::text`](pmb_value::Quantity::text) writes it; or `! ` and why there is none: `TooLong`
/// for a line over 256 bytes, `BadCode` for a text that is not four hexadecimal digits, and for a
/// code without a value `NotANumber` in half precision, `NoCode` or `Off` in a VID table.
///
/// The answers to the lines of a piece are written before the next is read. The tally counts a text as
/// a packet and a fault as a refusal.
///
/// # Errors
///
/// `Read` where the reader failed: the answers to the lines that had ended are written. `Write` where
/// the writer failed. `TooManyReads` where 2^32 reads gave bytes and the reader had not ended.
pub fn decode_lines<R: Source, W: Sink>(
    format: NumberFormat,
    first: &[u8],
    reader: &mut R,
    writer: &mut W,
) -> Result<Tally, ToolFault>
    ensures { AsTool (Ran R.told W.told (converting (Decode format)) first.now (reader.old, writer.old) (reader.new, writer.new)) result }
{
    convert_lines(Conversion::Decode(format), first, reader, writer)
}

/// Writes the answer to each line of the text that is `first` and what the reader gives, as
/// [`encode_lines`] or [`decode_lines`] do.
///
/// # Errors
///
/// As theirs.
pub fn convert_lines<R: Source, W: Sink>(
    conversion: Conversion,
    first: &[u8],
    reader: &mut R,
    writer: &mut W,
) -> Result<Tally, ToolFault>
    ensures { AsTool (Ran R.told W.told (converting conversion) first.now (reader.old, writer.old) (reader.new, writer.new)) result }
{
    each_line::<Converter, R, W, 256>(Converter::new(conversion), first, reader, writer)
}
