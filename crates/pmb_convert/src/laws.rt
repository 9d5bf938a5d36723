//! Laws over the definitions alone.

ghost use Rattle.std.specs.Prelude.{◌≡◌, ℕ, List, ◌++◌, Result, Ok};
ghost use Rattle.pmb_convert.specs.declared.conversion.Conversion.TheVariants.{Encode, Decode};
ghost use Rattle.pmb_convert.specs.declared.format_fault.FormatFault.{FormatFault};
ghost use Rattle.pmb_value.specs.Reading.{reading};
ghost use Rattle.pmb_value.specs.declared.number_format.NumberFormat.{NumberFormat};
ghost use Rattle.pmb_value.specs.NumberFormat.{IsFormat};
ghost use Rattle.pmb_convert.specs.Laws.{ComesFirst, HasPositive, HasText, IsDetermined};
ghost use Rattle.pmb_convert.specs.Spelling.{Names, Saying, SpellsFormat};

use pmb_io::laws::ended_lines_stay;
use pmb_quantity::laws::lowest_terms;
use pmb_value::laws::{
    direct_has_one_nearest, half_has_one_nearest, linear11_fixed_has_codes,
    linear11_fixed_has_one_nearest, linear11_has_one_nearest, quantities_have_answers,
    slinear16_has_one_nearest, ulinear16_has_one_nearest, vid_has_one_nearest,
};

/// A text spells at most one FORMAT, so that it names one format or has one fault. The format's
/// numbers are in the range of its type.
pub fn one_format()
    ensures spelled { (text : List ℕ) (a b : Saying) → SpellsFormat text a → SpellsFormat text b → a ≡ b }
    ensures named { (text : List ℕ) (a b : Result NumberFormat FormatFault) → Names text a → Names text b → a ≡ b }
    ensures in_range { (text : List ℕ) (format : NumberFormat) → Names text (Ok format) → IsFormat format }
{}

/// What `encode_lines` and `decode_lines` write is a function of the bytes of their input.
pub fn one_text()
    ensures encode { (format : NumberFormat) → IsFormat format → IsDetermined (Encode format) }
    ensures decode { (format : NumberFormat) → IsDetermined (Decode format) }
{
    lowest_terms();
    linear11_has_one_nearest();
    linear11_fixed_has_one_nearest();
    linear11_fixed_has_codes();
    ulinear16_has_one_nearest();
    slinear16_has_one_nearest();
    direct_has_one_nearest();
    half_has_one_nearest();
    vid_has_one_nearest();
}

/// What is written for the lines that have ended in some bytes is a function of these bytes, and a
/// front of what is written for them and whatever follows.
pub fn ended_lines_come_first()
    ensures encode { (format : NumberFormat) → IsFormat format → ComesFirst (Encode format) }
    ensures decode { (format : NumberFormat) → ComesFirst (Decode format) }
{
    ended_lines_stay();
    lowest_terms();
    linear11_has_one_nearest();
    linear11_fixed_has_one_nearest();
    linear11_fixed_has_codes();
    ulinear16_has_one_nearest();
    slinear16_has_one_nearest();
    direct_has_one_nearest();
    half_has_one_nearest();
    vid_has_one_nearest();
}

/// Some text, with its tally, is what `encode_lines` and `decode_lines` write for any bytes.
pub fn some_text()
    ensures encode { (format : NumberFormat) → IsFormat format → HasText (Encode format) }
    ensures decode { (format : NumberFormat) → HasText (Decode format) }
{
    lowest_terms();
    quantities_have_answers();
}

/// A text that spells a quantity is read as one with a denominator above 0.
pub fn readings_have_denominators()
    ensures { (text : List ℕ) → HasPositive (reading text) }
{
    lowest_terms();
}
