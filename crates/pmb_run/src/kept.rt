//! What the types of a profile's parts say of them. Each function ensures it, and changes nothing.

ghost use Rattle.std.specs.Prelude.{◌<◌, ℕ, slice_get, IfSome};
ghost use Rattle.std.specs.List.{AllByRecursion};
ghost use Rattle.std.specs.Option.{option_and_then};
ghost use Rattle.pmb_coefficients.specs.Coefficients.{MakeFormat};
ghost use Rattle.pmb_command.specs.Bus.{KeepsRanges};
ghost use Rattle.pmb_command.specs.Parts.{command_with, initial_on};
ghost use Rattle.pmb_command.specs.Wire.{AreByteValues};
ghost use Rattle.pmb_run.specs.Kept.{AreKeptDevices, IsKeptCommand, IsKeptDevice};

use pmb_coefficients::Direct;
use pmb_command::Kind;
use pmb_table::laws::accepted_device;
use pmb_table::{DeviceProfile, Profile};

/// Bytes are below 256.
fn bytes_are_small(bytes: &[u8])
    ensures { AreByteValues bytes.now }
{
    let _ = bytes.len();
}

/// The format of a kind has an exponent or coefficients in their ranges.
fn kind_keeps_ranges(kind: &Kind)
    ensures { KeepsRanges kind.now }
{
    match kind {
        Kind::Number(format) => format.keeps_ranges(),
        Kind::Raw | Kind::Vout | Kind::VoutSigned | Kind::Status | Kind::Text => {}
    }
}

/// What the register of a code begins with on a page, where the profile says, is below 256.
fn initial_is_small(device: &DeviceProfile, code: u8, page: u8)
    ensures { IfSome (option_and_then (λ c. initial_on page c.initial) (command_with code device.now.commands)) AreByteValues }
{
    match device.initial(code, page) {
        Some(bytes) => bytes_are_small(bytes),
        None => {}
    }
}

/// What it begins with on each page is.
fn initials_are_small(device: &DeviceProfile, code: u8)
    ensures { (page : ℕ) → page < 32
        → IfSome (option_and_then (λ c. initial_on page c.initial) (command_with code device.now.commands)) AreByteValues }
{
    for page in 0u8..32 {
        initial_is_small(device, code, page);
    }
}

/// What is kept of the command at an index.
fn command_is_kept(device: &DeviceProfile, index: usize)
    ensures { IfSome (slice_get device.now.commands index) IsKeptCommand }
{
    accepted_device(device);
    match device.entry_at(index) {
        Some(entry) => {
            kind_keeps_ranges(&entry.kind);
            initials_are_small(device, entry.code);
        }
        None => {}
    }
}

/// What is kept of each command of a device.
fn commands_are_kept(device: &DeviceProfile)
    ensures { AllByRecursion IsKeptCommand device.now.commands }
{
    for index in 0..device.len() {
        command_is_kept(device, index);
    }
}

/// Coefficients, where there are some, make a format.
fn coefficients_make_format(coefficients: Option<Direct>)
    ensures { IfSome coefficients MakeFormat }
{
    match coefficients {
        Some(coefficients) => {
            let _ = coefficients.m();
        }
        None => {}
    }
}

/// What is kept of a device.
fn device_is_kept(device: &DeviceProfile)
    ensures { IsKeptDevice device.now }
{
    commands_are_kept(device);
    coefficients_make_format(device.vout_direct());
}

/// What is kept of the device at an index.
fn device_at_is_kept(profile: &Profile, index: usize)
    ensures { IfSome (slice_get profile.now index) IsKeptDevice }
{
    match profile.device_at(index) {
        Some(device) => device_is_kept(device),
        None => {}
    }
}

/// What is kept of each device of a profile.
pub(crate) fn profile_is_kept(profile: &Profile)
    ensures { AreKeptDevices profile.now }
{
    for index in 0..profile.len() {
        device_at_is_kept(profile, index);
    }
}
