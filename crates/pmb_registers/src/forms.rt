//! What a device's profile says of a command.

ghost use Rattle.std.specs.Prelude.{◌≡◌, is_some};
ghost use Rattle.pmb_command.specs.Fitting.{is_form, register_form};
ghost use Rattle.pmb_command.specs.Parts.{command_with};
ghost use Rattle.pmb_command.specs.declared.form.Form.{Form};
ghost use Rattle.pmb_transaction.specs.Body.{forms};
ghost use Rattle.pmb_registers.specs.Answer.{is_paged};
ghost use Rattle.pmb_registers.specs.Apply.{is_status};
ghost use Rattle.pmb_registers.specs.machine.StatusCodes.{AreStatusCodes};

use arrayvec::ArrayVec;
use pmb_command::{Form, Kind, Shape};
use pmb_table::DeviceProfile;
use pmb_table::laws::accepted_device;

/// The form of a command's register, where it has one: it is read, or written with data.
pub fn register_form(shape: Shape) -> Option<Form>
    ensures { result ≡ register_form shape }
{
    let form = if shape.read.is_some() {
        shape.read
    } else {
        shape.write
    };
    match form {
        Some(Form::Zero) => None,
        _ => form,
    }
}

/// Whether the command of a code has status bits.
pub(crate) fn is_status(device: &DeviceProfile, code: u8) -> bool
    ensures { result ≡ is_status device.now code }
{
    match device.entry(code) {
        Some(entry) => matches!(entry.kind, Kind::Status),
        None => false,
    }
}

/// The codes of the commands that have status bits.
pub(crate) fn status_codes(device: &DeviceProfile) -> ArrayVec<u8, 256>
    ensures { AreStatusCodes device.now result.items }
{
    accepted_device(device);
    let mut codes = ArrayVec::new();
    for i in 0..256usize {
        let code = i as u8;
        if is_status(device, code) {
            codes.push(code);
        }
    }
    codes
}

/// Whether it has a register for each page.
pub(crate) fn is_paged(device: &DeviceProfile, code: u8) -> bool
    ensures { result ≡ is_paged (command_with code device.now.commands) }
{
    match device.entry(code) {
        Some(entry) => entry.paged && register_form(entry.shape).is_some(),
        None => false,
    }
}

/// Whether it is written without data.
pub(crate) fn is_sent_alone(device: &DeviceProfile, code: u8) -> bool
    ensures { result ≡ is_form Form.Zero (forms device.now code).write }
{
    match device.entry(code) {
        Some(entry) => matches!(entry.shape.write, Some(Form::Zero)),
        None => false,
    }
}

/// Whether it is read.
pub(crate) fn is_read(device: &DeviceProfile, code: u8) -> bool
    ensures { result ≡ is_some (forms device.now code).read }
{
    match device.entry(code) {
        Some(entry) => entry.shape.read.is_some(),
        None => false,
    }
}
