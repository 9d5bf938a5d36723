//! What a device answers to COEFFICIENTS (PMBus Part II 1.3 section 14.1).
//!
//! Its rows: `tests_devices`, `src/registers/answers.rt`, `src/devices/sessions.rt`.

ghost use Rattle.std.specs.Prelude.{◌≡◌};
ghost use Rattle.pmb_registers.specs.Answer.{answer_coefficients, coefficient_bytes, coefficients_of};
ghost use Rattle.pmb_registers.specs.Answer.{coefficients_of_format, coefficients_of_word};

use crate::cml_bit::CmlBit;
use pmb_coefficients::Direct;
use pmb_command::Kind;
use pmb_table::DeviceProfile;
use pmb_value::{NumberFormat, VoutFormat};

/// The coefficients of a command's numbers, where they are in DIRECT, or an output voltage that may
/// be.
fn coefficients_of(device: &DeviceProfile, code: u8) -> Option<Direct>
    ensures { result ≡ coefficients_of device.now code }
{
    let entry = device.entry(code)?;
    match &entry.kind {
        Kind::Number(format) => coefficients_of_format(format),
        Kind::Vout | Kind::VoutSigned => device.vout_direct(),
        Kind::Raw | Kind::Status | Kind::Text => None,
    }
}

/// The coefficients of a format, where it is DIRECT.
fn coefficients_of_format(format: &NumberFormat) -> Option<Direct>
    ensures { result ≡ coefficients_of_format format.now }
{
    match format {
        NumberFormat::Word(format) => coefficients_of_word(format),
        NumberFormat::Linear11
        | NumberFormat::Linear11Fixed(_)
        | NumberFormat::Half
        | NumberFormat::Vid(_) => None,
    }
}

/// The coefficients of a format for output voltages, where it is DIRECT.
fn coefficients_of_word(format: &VoutFormat) -> Option<Direct>
    ensures { result ≡ coefficients_of_word format.now }
{
    match format {
        VoutFormat::Direct(direct) => Some(*direct),
        VoutFormat::Unsigned(_) | VoutFormat::Signed(_) => None,
    }
}

/// m and b as words, low byte first, and R.
fn coefficient_bytes(direct: Direct) -> [u8; 5]
    ensures { result ≡ coefficient_bytes direct }
{
    let m = direct.m().cast_unsigned().to_le_bytes();
    let b = direct.b().cast_unsigned().to_le_bytes();
    [m[0], m[1], b[0], b[1], direct.r().cast_unsigned()]
}

/// The answer to what is after the code of COEFFICIENTS: a count, a command's code and a byte.
pub(crate) fn answer_coefficients(device: &DeviceProfile, behind: &[u8]) -> Result<[u8; 5], CmlBit>
    ensures { result ≡ answer_coefficients device.now behind.now }
{
    let [_, code, _] = behind else {
        return Err(CmlBit::BadValue);
    };
    match coefficients_of(device, *code) {
        Some(direct) => Ok(coefficient_bytes(direct)),
        None => Err(CmlBit::BadValue),
    }
}
