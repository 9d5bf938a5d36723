//! The devices of a profile, as its tables tell of them.
//!
//! Its rows: `tests/rows/profiles.txt`.

ghost use Rattle.std.specs.Prelude.{◌≡◌, ◌⊎◌, ◌<◌, ◌≤◌, [], false, Some, map, length, Ok, Err, IfOk, IfErr};
ghost use Rattle.std.specs.List.{AllByRecursion};
ghost use Rattle.toml.specs.View.{view, items_view};
ghost use Rattle.pmb_command.specs.Bus.{AreOfDevices, IsDevice};
ghost use Rattle.pmb_command.specs.Parts.{HaveOwnAddresses, HaveOwnCodes, IsNew};
ghost use Rattle.pmb_keys.specs.Addresses.{named_address};
ghost use Rattle.pmb_keys.specs.DeviceKeysView.{keys_parts};
ghost use Rattle.pmb_keys.specs.machine.Addresses.{AreAmong};
ghost use Rattle.pmb_table.specs.machine.CommandMap.{IsCommandOf};
ghost use Rattle.pmb_table.specs.Profile.{AreApart, at_device, at_top, device_of, device_commands, device_parts, devices_of, keys_of, array_needs_memory, placed, together};
ghost use Rattle.pmb_keys.specs.Rules.{bind};

use crate::command_map::CommandMap;
use crate::device_commands::{first_commands, read_commands};
use crate::device_profile::DeviceProfile;
use crate::fault::ProfileFault;
use crate::modes::{are_bytes, check_modes};
use crate::place;
use crate::protection::check_protection;
use crate::standard_commands::StandardCommands;
use arrayvec::ArrayVec;
use pmb_keys::{Addresses, DeviceKeys, FaultKind, named_addresses, read_device_keys};
use std::alloc::Global;
use toml::Value;

/// The addresses of devices, in their order.
fn addresses_of(devices: &[DeviceProfile]) -> ArrayVec<u8, 64>
    requires { length devices.now ≤ 64 }
    ensures { result.items ≡ map (λ d. d.address) devices.now }
{
    let mut addresses = ArrayVec::new();
    for device in devices {
        addresses.push(device.address());
    }
    addresses
}

/// The commands of a device, which begin with the standard ones where its keys say so.
fn commands_of(
    alloc: Global,
    standard: &mut StandardCommands,
    number: u8,
    keys: &DeviceKeys,
) -> Result<CommandMap, ProfileFault>
    ensures read { (result ≡ Err (at_top FaultKind.OutOfMemory)) ⊎ (result ≡ device_commands number (keys_parts keys.now)) }
    ensures own_codes { IfOk result HaveOwnCodes }
    ensures accepted { IfOk result (λ commands. AllByRecursion (IsCommandOf keys.now.pages) commands) }
{
    let first = match first_commands(alloc, standard, keys.standard) {
        Ok(first) => first,
        Err(error) => return Err(place::no_memory(error)),
    };
    read_commands(alloc, number, keys.pages, first, keys.commands)
}

/// Refuses keys and commands of a device that do not go together.
fn check_together(keys: &DeviceKeys, commands: &CommandMap) -> Result<(), FaultKind>
    ensures { result ≡ together (keys_parts keys.now) commands.now }
{
    check_modes(commands, keys.modes.as_slice())?;
    check_protection(commands, keys.protect)
}

/// The device of these keys and commands, if they go together. No memory is taken.
fn device_from(
    number: u8,
    keys: DeviceKeys,
    commands: CommandMap,
) -> Result<DeviceProfile, ProfileFault>
    requires { together (keys_parts keys) commands ≡ Ok tt → IsDevice (device_parts (keys_parts keys) commands) }
    ensures read { result ≡ bind (placed (at_device number) (together (keys_parts keys.entry) commands)) (λ _. Ok (device_parts (keys_parts keys.entry) commands)) }
    ensures device { IfOk result IsDevice }
    ensures address { IfOk result (λ d. d.address ≡ keys.entry.address) }
    ensures also { IfOk result (λ d. d.also ≡ keys.entry.also) }
{
    match check_together(&keys, &commands) {
        Ok(()) => Ok(DeviceProfile::new(keys, commands)),
        Err(what) => Err(place::in_device(number, what)),
    }
}

/// Reads the device of a value that comes after other devices, where some addresses are ignored, and some
/// are those that the tables of all devices name. A fault of its keys is told before memory is taken.
fn read_device(
    alloc: Global,
    standard: &mut StandardCommands,
    ignored: &Addresses,
    named: &Addresses,
    before: &[DeviceProfile],
    value: &Value,
) -> Result<DeviceProfile, ProfileFault>
    requires { length before.now ≤ 64 }
    ensures read { (result ≡ Err (at_top FaultKind.OutOfMemory)) ⊎ (result ≡ device_of ignored.now named.now before.now (view value.now)) }
    ensures keys { IfErr (keys_of ignored.now named.now before.now (view value.now)) (λ what. result ≡ Err (at_device (length before.now) what)) }
    ensures device { IfOk result IsDevice }
    ensures own_address { IfOk result (λ d. IsNew d.address (map (λ x. x.address) before.now)) }
    ensures not_ignored { IfOk result (λ d. IsNew d.address ignored.now) }
    ensures named { IfOk result (λ d. named_address (view value.now) ≡ Some d.address) }
    ensures also { IfOk result (λ d. AreAmong named.now d.also) }
{
    let addresses = addresses_of(before);
    let number = before.len() as u8;
    let keys = match read_device_keys(value, addresses.as_slice(), ignored, named) {
        Ok(keys) => keys,
        Err(what) => return Err(place::in_device(number, what)),
    };
    let commands = match commands_of(alloc, standard, number, &keys) {
        Ok(commands) => commands,
        Err(fault) => return Err(fault),
    };
    are_bytes(keys.modes.as_slice());
    device_from(number, keys, commands)
}

/// Reads the devices of an array's values, where some addresses are ignored.
pub(crate) fn read_devices(
    alloc: Global,
    ignored: &Addresses,
    values: &[Value],
) -> Result<Vec<DeviceProfile>, ProfileFault>
    requires { length values.now ≤ 64 }
    ensures read { (result ≡ Err (at_top FaultKind.OutOfMemory)) ⊎ (bind result (λ devices. Ok devices.items) ≡ devices_of ignored.now (items_view values.now)) }
    ensures no_memory { array_needs_memory ignored.now (items_view values.now) ≡ false → bind result (λ devices. Ok devices.items) ≡ devices_of ignored.now (items_view values.now) }
    ensures few { IfOk result (λ devices. length devices.items ≤ 64) }
    ensures own_addresses { IfOk result (λ devices. HaveOwnAddresses devices.items) }
    ensures devices { IfOk result (λ devices. AllByRecursion IsDevice devices.items) }
    ensures apart { IfOk result (λ devices. AreApart ignored.now devices.items) }
    ensures also { IfOk result (λ devices. AllByRecursion (λ d. AreOfDevices devices.items d.also) devices.items) }
{
    let named = named_addresses(values);
    let mut devices = Vec::new(alloc);
    let mut standard = StandardCommands::new(alloc);
    for value in values {
        let before = devices.as_slice();
        let device = match read_device(alloc, &mut standard, ignored, &named, before, value) {
            Ok(device) => device,
            Err(fault) => return Err(fault),
        };
        match devices.push(device) {
            Ok(()) => {}
            Err(failed) => return Err(place::no_memory(failed.into())),
        }
    }
    Ok(devices)
}
