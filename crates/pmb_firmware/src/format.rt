//! A number format as C names it.
//!
//! Its rows: `tests_bytes`, `src/firmware/numbers.rt`.
ghost use Rattle.std.specs.Prelude.{◌≡◌, false, true};
ghost use Rattle.pmb_value.specs.declared.number_format.NumberFormat.{NumberFormat as Number};
ghost use Rattle.pmb_value.specs.declared.vout.VoutFormat.TheVariants.{Unsigned, Signed};
ghost use Rattle.pmb_value.specs.declared.number_format.NumberFormat.TheVariants.{Word};
ghost use Rattle.pmb_convert.specs.Spelling.{named_direct, named_linear};
ghost use Rattle.pmb_firmware.specs.Format.{named, some_direct, vid_named, vout_named};

use pmb_convert::FormatFault;
use pmb_value::{
    Direct, DirectFault, Linear11Fixed, ModeFault, NumberFormat, Slinear16, Ulinear16, VidTable,
    VoutFormat, vout_format,
};

/// A number format: its kind, and the fields that the kind asks for. Other fields are ignored.
#[repr(C)]
#[derive(Clone, Copy)]
pub struct PmbFormat {
    /// 0 for LINEAR11, 1 for LINEAR11 with one exponent, 2 for ULINEAR16, 3 for SLINEAR16, 4 for
    /// DIRECT, 5 and 6 for the format that a VOUT_MODE names, for a command whose linear words are
    /// unsigned (5) or signed (6), 7 for half precision, 8 for a VID table, 9 for DIRECT whose words
    /// have no sign.
    pub kind: u8,
    /// The exponent of two, from -16 to 15, of kinds 1, 2 and 3.
    pub exponent: i8,
    /// VOUT_MODE, of kinds 5 and 6. The VID table of kind 8: 1 for `vr11`, 2 for `vr12`, 3 for `vr13`,
    /// 4 for `imvp9`, 5 for `amd625mv`, 6 for `nvidia195mv`.
    pub mode: u8,
    /// The exponent of ten of DIRECT, from -9 to 9.
    pub r: i8,
    /// The slope of DIRECT, which is not 0; 0 with kinds 5 and 6 where there are no coefficients.
    pub m: i16,
    /// The offset of DIRECT.
    pub b: i16,
}

impl PmbFormat {
    /// The format that it names. The fault is `BadFormat` for a kind above 9 and for a VID table that
    /// is not 1 to 6, and otherwise what is wrong with the numbers.
    pub fn named(&self) -> Result<NumberFormat, FormatFault>
        ensures { result ≡ named self.now }
    {
        match self.kind {
            0 => Ok(NumberFormat::Linear11),
            1 => linear11_fixed(self.exponent),
            2 => ulinear16(self.exponent),
            3 => slinear16(self.exponent),
            4 => direct(false, self.m, self.b, self.r),
            5 => vout(self, false),
            6 => vout(self, true),
            7 => Ok(NumberFormat::Half),
            8 => vid(self.mode),
            9 => direct(true, self.m, self.b, self.r),
            _ => Err(FormatFault::BadFormat),
        }
    }
}

/// LINEAR11 with one exponent.
fn linear11_fixed(exponent: i8) -> Result<NumberFormat, FormatFault>
    ensures { result ≡ named_linear (λ e. Number.Linear11Fixed e) exponent }
{
    match Linear11Fixed::new(exponent) {
        Ok(format) => Ok(NumberFormat::Linear11Fixed(format)),
        Err(_) => Err(FormatFault::BadExponent),
    }
}

/// ULINEAR16 with an exponent.
fn ulinear16(exponent: i8) -> Result<NumberFormat, FormatFault>
    ensures { result ≡ named_linear (λ e. Word (Unsigned e)) exponent }
{
    match Ulinear16::new(exponent) {
        Ok(format) => Ok(NumberFormat::Word(VoutFormat::Unsigned(format))),
        Err(_) => Err(FormatFault::BadExponent),
    }
}

/// SLINEAR16 with an exponent.
fn slinear16(exponent: i8) -> Result<NumberFormat, FormatFault>
    ensures { result ≡ named_linear (λ e. Word (Signed e)) exponent }
{
    match Slinear16::new(exponent) {
        Ok(format) => Ok(NumberFormat::Word(VoutFormat::Signed(format))),
        Err(_) => Err(FormatFault::BadExponent),
    }
}

/// The DIRECT format of three coefficients, for words without a sign or in two's complement.
fn direct(unsigned: bool, m: i16, b: i16, r: i8) -> Result<NumberFormat, FormatFault>
    ensures { result ≡ named_direct unsigned m b r }
{
    match Direct::new(m, b, r) {
        Ok(direct) => Ok(NumberFormat::Word(VoutFormat::Direct(with_words(unsigned, direct)))),
        Err(DirectFault::ZeroSlope) => Err(FormatFault::ZeroSlope),
        Err(DirectFault::BadScale) => Err(FormatFault::BadScale),
    }
}

/// Coefficients for words without a sign or in two's complement.
fn with_words(unsigned: bool, direct: Direct) -> Direct
    ensures { result ≡ record direct { unsigned = unsigned } }
{
    if unsigned {
        direct.unsigned()
    } else {
        direct.signed()
    }
}

/// The VID table of a number.
fn vid(table: u8) -> Result<NumberFormat, FormatFault>
    ensures { result ≡ vid_named table }
{
    match table {
        1 => Ok(NumberFormat::Vid(VidTable::Vr11)),
        2 => Ok(NumberFormat::Vid(VidTable::Vr12)),
        3 => Ok(NumberFormat::Vid(VidTable::Vr13)),
        4 => Ok(NumberFormat::Vid(VidTable::Imvp9)),
        5 => Ok(NumberFormat::Vid(VidTable::Amd625mv)),
        6 => Ok(NumberFormat::Vid(VidTable::Nvidia195mv)),
        _ => Err(FormatFault::BadFormat),
    }
}

/// The format that VOUT_MODE names, for a command whose linear words are signed or not.
fn vout(format: &PmbFormat, signed: bool) -> Result<NumberFormat, FormatFault>
    ensures { result ≡ vout_named signed format.now }
{
    match vout_format(format.mode, signed, None) {
        Ok(format) => Ok(NumberFormat::Word(format)),
        Err(ModeFault::Relative) => Err(FormatFault::Relative),
        Err(ModeFault::Vid) => Err(FormatFault::Vid),
        Err(ModeFault::Ieee) => Err(FormatFault::Ieee),
        Err(ModeFault::NoCoefficients) => coefficients(format),
    }
}

/// The DIRECT format of the coefficients, where there are some.
fn coefficients(format: &PmbFormat) -> Result<NumberFormat, FormatFault>
    ensures { result ≡ some_direct format.now }
{
    if format.m == 0 {
        return Err(FormatFault::NoCoefficients);
    }
    direct(false, format.m, format.b, format.r)
}
