//! The format that an output voltage is in.
//!
//! Its rows: `tests_json`, `src/fields/voltages.rt`.

ghost use Rattle.std.specs.Prelude.{◌≡◌};
ghost use Rattle.pmb_voltage.specs.Voltage.{format_under, is_open, is_ratio, is_relative_code, is_signed, is_unknown_format, named_format, vid_format, voltage_format, voltages_data};

use crate::tables::vid_table;
use pmb_keys::VidTables;
use pmb_unknown_start::KnownMode;
use pmb_value::{Direct, ModeFault, NumberFormat, Sign, VoutFormat, vout_format};

/// The code of VOUT_COMMAND, which is never a factor.
const VOUT_COMMAND: u8 = 0x21;

/// Why the words of an output voltage have no value.
#[derive(Debug, Clone, Copy, PartialEq, Eq)]
pub enum NoVoltage {
    /// VOUT_MODE is not known, or PAGE, where the VID tables of the pages differ.
    Unknown,
    /// All pages are selected, and they share no format; or the device has no such page.
    Page,
    /// VOUT_MODE names VID, and the profile tells no table; or the command is a correction of the
    /// output voltage, which has no VID code.
    Vid,
    /// VOUT_MODE names VID, and is relative: VID has no factors.
    Relative,
    /// VOUT_MODE names DIRECT, and there are no coefficients.
    Coefficients,
}

/// The format of an output voltage's words.
#[derive(Debug, Clone, Copy, PartialEq, Eq)]
pub struct VoltageFormat {
    /// The format.
    pub number: NumberFormat,
    /// Whether the numbers are factors of VOUT_COMMAND, and not volts.
    pub is_ratio: bool,
}

/// What the format of an output voltage depends on.
#[derive(Clone, Copy)]
pub struct Voltages<'a> {
    /// VOUT_MODE, as far as it is known.
    pub mode: KnownMode,
    /// PAGE, where it is known.
    pub page: Option<u8>,
    /// The coefficients for a VOUT_MODE that names DIRECT.
    pub coefficients: Option<Direct>,
    /// The VID tables.
    pub vid: Option<&'a VidTables>,
}

impl Voltages<'_> {
    /// The format of the words of the command with a code, which are signed in the linear formats and in
    /// DIRECT, or not.
    pub fn format(&self, code: u8, sign: Sign) -> Result<VoltageFormat, NoVoltage>
        ensures { result ≡ voltage_format (voltages_data self.now) code sign }
    {
        match self.mode {
            KnownMode::Known(mode) => self.format_under(mode, code, sign),
            KnownMode::Unknown => Err(NoVoltage::Unknown),
            KnownMode::NoPage => Err(NoVoltage::Page),
        }
    }

    /// Whether the format of output voltages is not known: VOUT_MODE isn't, or, where it names VID, the table.
    pub fn is_open(&self) -> bool
        ensures { result ≡ is_open (voltages_data self.now) }
    {
        is_unknown(self.format(VOUT_COMMAND, Sign::Unsigned))
    }

    /// The format under a VOUT_MODE, in place of the one that is known.
    pub fn format_under(&self, mode: u8, code: u8, sign: Sign) -> Result<VoltageFormat, NoVoltage>
        ensures { result ≡ format_under (voltages_data self.now) mode code sign }
    {
        let is_ratio = is_ratio(mode, code);
        let named = vout_format(mode % 0x80, is_signed(sign), self.coefficients);
        let number = self.named_format(mode, is_ratio, sign, named)?;
        Ok(VoltageFormat { number, is_ratio })
    }

    /// What bits 6:0 of a mode name.
    fn named_format(
        &self,
        mode: u8,
        is_ratio: bool,
        sign: Sign,
        named: Result<VoutFormat, ModeFault>,
    ) -> Result<NumberFormat, NoVoltage>
        ensures { result ≡ named_format (voltages_data self.now) mode is_ratio sign named }
    {
        match named {
            Ok(format) => Ok(NumberFormat::Word(format)),
            Err(ModeFault::Relative) => Err(NoVoltage::Relative),
            Err(ModeFault::Vid) => self.vid_format(mode, is_ratio, sign),
            Err(ModeFault::Ieee) => Ok(NumberFormat::Half),
            Err(ModeFault::NoCoefficients) => Err(NoVoltage::Coefficients),
        }
    }

    /// A VID table: there are no factors in one, and no corrections.
    fn vid_format(&self, mode: u8, is_ratio: bool, sign: Sign) -> Result<NumberFormat, NoVoltage>
        ensures { result ≡ vid_format (voltages_data self.now) mode is_ratio sign }
    {
        if is_ratio {
            return Err(NoVoltage::Relative);
        }
        match sign {
            Sign::Signed => Err(NoVoltage::Vid),
            Sign::Unsigned => Ok(NumberFormat::Vid(vid_table(self.vid, mode, self.page)?)),
        }
    }
}

/// Whether a format is not known.
fn is_unknown(format: Result<VoltageFormat, NoVoltage>) -> bool
    ensures { result ≡ is_unknown_format format }
{
    match format {
        Err(NoVoltage::Unknown) => true,
        Ok(_)
        | Err(NoVoltage::Page | NoVoltage::Vid | NoVoltage::Relative | NoVoltage::Coefficients) =>
            false,
    }
}

/// Whether words are signed.
const fn is_signed(sign: Sign) -> bool
    ensures { result ≡ is_signed sign }
{
    match sign {
        Sign::Unsigned => false,
        Sign::Signed => true,
    }
}

/// Whether the command may be a factor of VOUT_COMMAND.
const fn is_relative_code(code: u8) -> bool
    ensures { result ≡ is_relative_code code }
{
    matches!(code, 0x25 | 0x26 | 0x40 | 0x42 | 0x43 | 0x44 | 0x5e | 0x5f)
}

/// Whether it is one under a mode.
const fn is_ratio(mode: u8, code: u8) -> bool
    ensures { result ≡ is_ratio mode code }
{
    mode >> 7 == 1 && is_relative_code(code)
}
