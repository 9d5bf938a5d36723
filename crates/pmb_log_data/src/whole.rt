//! Whether bytes are all the data of a command, and the packet error code of what was sent.
//!
//! Its rows: `tests/rows/log.txt`; `tests_json`, `src/log_lines/`.

ghost use Rattle.std.specs.Prelude.{◌≡◌, option_map};
ghost use Rattle.pmb_json_objects.specs.Packets.{is_whole_in, is_whole_write};
ghost use Rattle.pmb_transaction.specs.Body.{forms};
ghost use Rattle.pmb_log_data.specs.Whole.{leg_code, reply_form};

use pmb_bus::{pec_next, write_address};
use pmb_command::Form;
use pmb_table::DeviceProfile;

/// Whether bytes are a whole write to a device but for its error code.
pub fn is_whole_write(device: Option<&DeviceProfile>, front: &[u8]) -> bool
    ensures { result ≡ is_whole_write (option_map (λ d. d.now) device.entry) front.now }
{
    let Some(device) = device else {
        return false;
    };
    let Some((code, bytes)) = front.split_first() else {
        return false;
    };
    device.pec().may_carry() && is_whole_in(write_form(device, *code), bytes)
}

/// The form in which a device is written a command.
fn write_form(device: &DeviceProfile, code: u8) -> Option<Form>
    ensures { result ≡ (forms device.now code).write }
{
    match device.entry(code) {
        Some(entry) => entry.shape.write,
        None => None,
    }
}

/// Whether bytes are all the data of a form.
pub fn is_whole_in(form: Option<Form>, bytes: &[u8]) -> bool
    ensures { result ≡ is_whole_in form bytes.now }
{
    match form {
        Some(form) => form.wire_length(bytes) == bytes.len(),
        None => false,
    }
}

/// The packet error code of these bytes sent to an address.
pub fn leg_code(addr: u8, bytes: &[u8]) -> u8
    ensures { result ≡ leg_code addr bytes.now }
{
    let mut code = pec_next(0, write_address(addr));
    for byte in bytes {
        code = pec_next(code, *byte);
    }
    code
}

/// The form of a reply: that of a call where data were sent, else that of a read.
pub fn reply_form(device: &DeviceProfile, sent: &[u8]) -> Option<Form>
    ensures { result ≡ reply_form device.now sent.now }
{
    match sent {
        [] => None,
        [code] => read_form(device, *code),
        [code, ..] => call_form(device, *code),
    }
}

/// The form in which a device is read.
fn read_form(device: &DeviceProfile, code: u8) -> Option<Form>
    ensures { result ≡ (forms device.now code).read }
{
    match device.entry(code) {
        Some(entry) => entry.shape.read,
        None => None,
    }
}

/// The form in which it replies to a call.
fn call_form(device: &DeviceProfile, code: u8) -> Option<Form>
    ensures { result ≡ (forms device.now code).call }
{
    match device.entry(code) {
        Some(entry) => entry.shape.call,
        None => None,
    }
}
