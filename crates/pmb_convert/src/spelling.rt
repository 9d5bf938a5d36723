//! What a FORMAT and its parts spell.
//!
//! Its rows: `tests_tasks`, `src/numbers.rt`; `tests/rows/numbers.txt`.

ghost use Rattle.std.specs.Int.{w8, w16};
ghost use Rattle.pmb_convert.specs.Spelling.{Answers, Names};
ghost use Rattle.pmb_convert.specs.machine.Parts.{IsDirect, IsFixed, IsSigned, IsUnsigned, IsVid, IsVout, ReadsInteger, ReadsMode, SplitsAtComma, StripsPrefix};

use crate::format_fault::FormatFault;
use crate::numbers::{fixed, of_coefficients, of_mode, signed, unsigned};
use pmb_value::{NumberFormat, VidTable};

/// Reads a FORMAT: `linear11`, `linear11:E`, `ulinear16:E`, `slinear16:E`, `vout:HH`, `half`,
/// `vid:TABLE`, `direct:M,B,R` or `udirect:M,B,R`, whose words have no sign. E, M, B and R are decimal
/// numbers, with or without a `-`; E and R are from -128 to 127, M and B from -32768 to 32767. HH is
/// a VOUT_MODE in two hexadecimal digits, for a command whose linear words are unsigned, without
/// coefficients. TABLE is the name of a VID table.
///
/// # Errors
///
/// `BadFormat` for every other text, also where only a number is out of its range; then what is
/// wrong with the numbers, in the order of [`FormatFault`].
pub fn parse_format(text: &str) -> Result<NumberFormat, FormatFault>
    ensures { Names text.now result }
{
    if text == "linear11" {
        return Ok(NumberFormat::Linear11);
    }
    if let Some(exponent) = without_prefix(text, "linear11:") {
        return linear11_fixed(exponent);
    }
    if let Some(exponent) = without_prefix(text, "ulinear16:") {
        return ulinear16(exponent);
    }
    if let Some(exponent) = without_prefix(text, "slinear16:") {
        return slinear16(exponent);
    }
    if let Some(mode) = without_prefix(text, "vout:") {
        return vout(mode);
    }
    if text == "half" {
        return Ok(NumberFormat::Half);
    }
    if let Some(name) = without_prefix(text, "vid:") {
        return vid(name);
    }
    if let Some(numbers) = without_prefix(text, "direct:") {
        return direct(false, numbers);
    }
    if let Some(numbers) = without_prefix(text, "udirect:") {
        return direct(true, numbers);
    }
    Err(FormatFault::BadFormat)
}

/// What follows a prefix.
fn without_prefix<'a>(text: &'a str, prefix: &str) -> Option<&'a str>
    ensures { StripsPrefix prefix.now text.now result }
{
    text.strip_prefix(prefix)
}

/// LINEAR11 with the one exponent that a text writes.
fn linear11_fixed(exponent: &str) -> Result<NumberFormat, FormatFault>
    ensures { Answers (IsFixed exponent.now) result }
{
    match small_integer(exponent) {
        Some(exponent) => fixed(exponent),
        None => Err(FormatFault::BadFormat),
    }
}

/// ULINEAR16 with the exponent that a text writes.
fn ulinear16(exponent: &str) -> Result<NumberFormat, FormatFault>
    ensures { Answers (IsUnsigned exponent.now) result }
{
    match small_integer(exponent) {
        Some(exponent) => unsigned(exponent),
        None => Err(FormatFault::BadFormat),
    }
}

/// SLINEAR16 with the exponent that a text writes.
fn slinear16(exponent: &str) -> Result<NumberFormat, FormatFault>
    ensures { Answers (IsSigned exponent.now) result }
{
    match small_integer(exponent) {
        Some(exponent) => signed(exponent),
        None => Err(FormatFault::BadFormat),
    }
}

/// The format that the VOUT_MODE of a text names for unsigned words, without coefficients.
fn vout(mode: &str) -> Result<NumberFormat, FormatFault>
    ensures { Answers (IsVout mode.now) result }
{
    match byte(mode) {
        Some(mode) => of_mode(mode),
        None => Err(FormatFault::BadFormat),
    }
}

/// The VID table that a text names.
fn vid(name: &str) -> Result<NumberFormat, FormatFault>
    ensures { Answers (IsVid name.now) result }
{
    match VidTable::named(name) {
        Some(table) => Ok(NumberFormat::Vid(table)),
        None => Err(FormatFault::BadFormat),
    }
}

/// The DIRECT format of three numbers between two commas, for words without a sign or in two's
/// complement.
fn direct(unsigned: bool, numbers: &str) -> Result<NumberFormat, FormatFault>
    ensures { Answers (IsDirect unsigned numbers.now) result }
{
    let Some((m, rest)) = around_comma(numbers) else {
        return Err(FormatFault::BadFormat);
    };
    let Some((b, r)) = around_comma(rest) else {
        return Err(FormatFault::BadFormat);
    };
    let Some(m) = integer(m) else {
        return Err(FormatFault::BadFormat);
    };
    let Some(b) = integer(b) else {
        return Err(FormatFault::BadFormat);
    };
    let Some(r) = small_integer(r) else {
        return Err(FormatFault::BadFormat);
    };
    of_coefficients(unsigned, m, b, r)
}

/// A text before and after its first comma.
fn around_comma(text: &str) -> Option<(&str, &str)>
    ensures { SplitsAtComma text.now result }
{
    text.split_once(',')
}

/// The number from -128 to 127 that a text writes in decimal.
fn small_integer(text: &str) -> Option<i8>
    ensures { ReadsInteger w8 text.now result }
{
    if text.starts_with('+') {
        return None;
    }
    text.parse::<i8>().ok()
}

/// The number from -32768 to 32767 that a text writes in decimal.
fn integer(text: &str) -> Option<i16>
    ensures { ReadsInteger w16 text.now result }
{
    if text.starts_with('+') {
        return None;
    }
    text.parse::<i16>().ok()
}

/// The byte that a text writes in two hexadecimal digits.
fn byte(text: &str) -> Option<u8>
    ensures { ReadsMode text.now result }
{
    let mut bytes = [0; 1];
    match hex::decode_to_slice(text, &mut bytes) {
        Ok(()) => Some(bytes[0]),
        Err(_) => None,
    }
}
