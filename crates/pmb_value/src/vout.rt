//! The format that VOUT_MODE names.
//!
//! Its rows: `tests_numbers`, `src/formats/vout.rt`; `tests/rows/numbers.txt`.
ghost use Rattle.std.specs.Prelude.{◌≡◌, ◌%◌, ◌^◌, ◌<◌};
ghost use Rattle.pmb_value.specs.Vout.{direct_words, format_of, linear_of};
ghost use Rattle.pmb_format.specs.Words.{twos_complement};

use pmb_coefficients::Direct;
use pmb_format::{Format, RangeFault, Steps};
use pmb_linear::{Slinear16, Ulinear16, exponent_of};
use pmb_quantity::Quantity;

/// Why a VOUT_MODE names none of the formats of a [`VoutFormat`].
#[derive(Clone, Copy, Debug, PartialEq, Eq)]
pub enum ModeFault {
    /// Bit 7 is 1: values are relative to VOUT_COMMAND.
    Relative,
    /// Bits 6:5 are 01: VID codes.
    Vid,
    /// Bits 6:5 are 11: IEEE half precision.
    Ieee,
    /// Bits 6:5 are 10, DIRECT, and there are no coefficients.
    NoCoefficients,
}

/// The formats that [`vout_format`] tells by a VOUT_MODE. Commands may have them too, with an exponent
/// or coefficients of their own.
#[derive(Clone, Copy, Debug, PartialEq, Eq)]
pub enum VoutFormat {
    /// ULINEAR16, for most commands.
    Unsigned(Ulinear16),
    /// SLINEAR16, for VOUT_TRIM and VOUT_CAL_OFFSET.
    Signed(Slinear16),
    /// DIRECT.
    Direct(Direct),
}

/// The format that a VOUT_MODE names, for a command whose linear words are signed or not. The
/// coefficients are those of DIRECT: where they count words without a sign, that is for a command
/// whose words are not signed. The first fault in the order of [`ModeFault`] is answered.
pub fn vout_format(
    mode: u8,
    signed: bool,
    coefficients: Option<Direct>,
) -> Result<VoutFormat, ModeFault>
    ensures { result ≡ format_of mode signed coefficients }
{
    if mode >> 7 == 1 {
        return Err(ModeFault::Relative);
    }
    match mode >> 5 {
        0 => Ok(linear_format(mode, signed)),
        1 => Err(ModeFault::Vid),
        2 => match coefficients {
            Some(direct) => Ok(VoutFormat::Direct(direct_words(direct, signed))),
            None => Err(ModeFault::NoCoefficients),
        },
        _ => Err(ModeFault::Ieee),
    }
}

/// The coefficients for signed words or for the others.
fn direct_words(direct: Direct, signed: bool) -> Direct
    ensures { result ≡ direct_words signed direct }
{
    if signed { direct.signed() } else { direct }
}

/// The linear format whose exponent is in bits 4:0.
fn linear_format(mode: u8, signed: bool) -> VoutFormat
    ensures { result ≡ linear_of signed (twos_complement 5 (mode % 2 ^ 5)) }
{
    let exponent = exponent_of(u16::from(mode % 32));
    if signed {
        VoutFormat::Signed(Slinear16::of(exponent))
    } else {
        VoutFormat::Unsigned(Ulinear16::of(exponent))
    }
}

impl Format for VoutFormat {
    ghost use Rattle.pmb_value.specs.Vout.{vout_coding};

    ghost coding = { vout_coding };

    fn decode(&self, code: u16) -> Quantity {
        match self {
            VoutFormat::Unsigned(format) => format.decode(code),
            VoutFormat::Signed(format) => format.decode(code),
            VoutFormat::Direct(format) => format.decode(code),
        }
    }

    fn encode(&self, quantity: &Quantity, steps: &mut Steps) -> Result<u16, RangeFault> {
        match self {
            VoutFormat::Unsigned(format) => format.encode(quantity, steps),
            VoutFormat::Signed(format) => format.encode(quantity, steps),
            VoutFormat::Direct(format) => format.encode(quantity, steps),
        }
    }

    fn obeys_laws(&self) {
        match self {
            VoutFormat::Unsigned(format) => format.obeys_laws(),
            VoutFormat::Signed(format) => format.obeys_laws(),
            VoutFormat::Direct(format) => format.obeys_laws(),
        }
    }
}
