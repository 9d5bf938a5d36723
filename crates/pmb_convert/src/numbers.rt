//! The number format of a kind and its numbers.
//!
//! Its rows: `tests/rows/numbers.txt`.

ghost use Rattle.std.specs.Prelude.{◌≡◌};
ghost use Rattle.pmb_value.specs.declared.vout.VoutFormat.TheVariants.{Unsigned, Signed};
ghost use Rattle.pmb_value.specs.declared.number_format.NumberFormat.TheVariants.{Word};
ghost use Rattle.pmb_convert.specs.Spelling.{named_direct, named_linear, vout_of};

use crate::format_fault::FormatFault;
use pmb_value::{
    Direct, DirectFault, Linear11Fixed, ModeFault, NumberFormat, Slinear16, Ulinear16, VoutFormat,
    vout_format,
};

/// LINEAR11 with one exponent.
pub(crate) fn fixed(exponent: i8) -> Result<NumberFormat, FormatFault>
    ensures { result ≡ named_linear (λ e. NumberFormat.Linear11Fixed e) exponent }
{
    match Linear11Fixed::new(exponent) {
        Ok(format) => Ok(NumberFormat::Linear11Fixed(format)),
        Err(_) => Err(FormatFault::BadExponent),
    }
}

/// ULINEAR16 with an exponent.
pub(crate) fn unsigned(exponent: i8) -> Result<NumberFormat, FormatFault>
    ensures { result ≡ named_linear (λ e. Word (Unsigned e)) exponent }
{
    match Ulinear16::new(exponent) {
        Ok(format) => Ok(NumberFormat::Word(VoutFormat::Unsigned(format))),
        Err(_) => Err(FormatFault::BadExponent),
    }
}

/// SLINEAR16 with an exponent.
pub(crate) fn signed(exponent: i8) -> Result<NumberFormat, FormatFault>
    ensures { result ≡ named_linear (λ e. Word (Signed e)) exponent }
{
    match Slinear16::new(exponent) {
        Ok(format) => Ok(NumberFormat::Word(VoutFormat::Signed(format))),
        Err(_) => Err(FormatFault::BadExponent),
    }
}

/// The format that a VOUT_MODE names for unsigned words, without coefficients.
pub(crate) fn of_mode(mode: u8) -> Result<NumberFormat, FormatFault>
    ensures { result ≡ vout_of mode }
{
    match vout_format(mode, false, None) {
        Ok(format) => Ok(NumberFormat::Word(format)),
        Err(ModeFault::Relative) => Err(FormatFault::Relative),
        Err(ModeFault::Vid) => Err(FormatFault::Vid),
        Err(ModeFault::Ieee) => Err(FormatFault::Ieee),
        Err(ModeFault::NoCoefficients) => Err(FormatFault::NoCoefficients),
    }
}

/// The DIRECT format of three coefficients, for words without a sign or in two's complement.
pub(crate) fn of_coefficients(
    unsigned: bool,
    m: i16,
    b: i16,
    r: i8,
) -> Result<NumberFormat, FormatFault>
    ensures { result ≡ named_direct unsigned m b r }
{
    match Direct::new(m, b, r) {
        Ok(direct) => Ok(NumberFormat::Word(VoutFormat::Direct(with_words(unsigned, direct)))),
        Err(DirectFault::ZeroSlope) => Err(FormatFault::ZeroSlope),
        Err(DirectFault::BadScale) => Err(FormatFault::BadScale),
    }
}

/// Coefficients for words without a sign or in two's complement.
fn with_words(unsigned: bool, direct: Direct) -> Direct
    ensures { result ≡ record direct { unsigned = unsigned } }
{
    if unsigned {
        direct.unsigned()
    } else {
        direct.signed()
    }
}
