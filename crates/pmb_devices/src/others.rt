//! What devices take that was written at other addresses than their own.
//!
//! A device keeps the bytes of a complete write that it took until its own next leg. So after a STOP,
//! when each device has done what its own leg asks for, each one that has other addresses goes through
//! them, and takes a copy of what the devices there took. No memory is needed for that.
//!
//! Its rows: `tests_devices`, `src/devices/others.rt`, `compared.rt`.

ghost use Rattle.std.specs.Prelude.{◌≡◌, ◌∷◌, ◌++◌, ◌<◌, ◌≤◌, ℕ, List, length, map, option_map};
ghost use Rattle.pmb_command.specs.Parts.{DeviceParts};
ghost use Rattle.pmb_transaction.specs.Transaction.{part_data};
ghost use Rattle.pmb_registers.specs.State.{DeviceState, InState};
ghost use Rattle.pmb_device.specs.Legs.{Legs};
ghost use Rattle.pmb_device.specs.Device.{DeviceStanding, DeviceStandsAt, Remembers};
ghost use Rattle.pmb_device.specs.Ends.{Took};
ghost use Rattle.pmb_devices.specs.Stops.{IsWrittenAt, TakesAt, TakesEach};
ghost use Rattle.pmb_devices.specs.machine.Others.{AllEnded, HaveTaken, IsAt, Went, devices_of, listens, some_listens};

use arrayvec::ArrayVec;
use pmb_device::Device;
use pmb_leg::WriteContent;
use pmb_table::{DeviceProfile, Profile};
use pmb_transaction::Part;

/// Whether a device takes what is written at other addresses.
fn listens(device: &DeviceProfile) -> bool
    ensures { result ≡ listens device.now }
{
    !device.also().addresses().is_empty()
}

/// Whether some device of a profile does.
pub(crate) fn some_listens(profile: &Profile) -> bool
    ensures { result ≡ some_listens profile.now }
{
    for i in 0..profile.len() {
        if let Some(device) = profile.device_at(i) {
            if listens(device) {
                return true;
            }
        }
    }
    false
}

/// A copy of what was written at an address.
fn copy_of(address: u8, content: &WriteContent<'_>) -> Part
    requires { length content.now.bytes.now ≤ 255 }
    ensures { part_data result ≡ record {
      addr = address;
      code = content.now.code;
      bytes = content.now.bytes.now;
      pec = content.now.pec;
    } }
{
    let mut bytes = ArrayVec::new();
    let _ = bytes.try_extend_from_slice(content.bytes);
    Part {
        addr: address,
        code: content.code,
        bytes,
        pec: content.pec,
    }
}

/// A copy of what a device took that has the address.
fn written_to(device: &Device<'_>, address: u8) -> Option<Part>
    ensures { (parts : DeviceParts) (legs : Legs) → Remembers device.now parts legs → parts.address ≡ address
        → Took parts legs (option_map part_data result) }
{
    match device.written() {
        Some(content) => Some(copy_of(address, &content)),
        None => None,
    }
}

/// A copy of what was written at an address: of the complete write that the device there took.
fn written_at(devices: &[Device<'_>], address: u8) -> Option<Part>
    ensures { (legs : Legs) (members : List InState) → AllEnded legs devices.now members
        → IsWrittenAt (devices_of members) legs address (option_map part_data result) }
{
    for device in devices {
        if device.address() == address {
            return written_to(device, address);
        }
    }
    None
}

/// The device at a place takes what was written at an address, if that isn't its own.
fn take_at(devices: &mut [Device<'_>], i: usize, address: u8)
    requires { i < length devices.old }
    ensures { (bus : List DeviceParts) (legs : Legs) (before : List InState) (member : InState) (behind : List InState)
        → IsAt bus legs devices.old i before member behind
        → Went legs devices.new before member behind (TakesAt bus legs member.device address member.state) }
{
    let written = written_at(devices, address);
    if devices[i].address() == address {
        return;
    }
    if let Some(part) = written {
        devices[i].take(part.code, part.bytes.as_slice());
    }
}

/// The other addresses at which a device takes what is written.
fn others_of(device: &Device<'_>) -> ArrayVec<u8, 128>
    ensures { (standing : DeviceStanding) → DeviceStandsAt device.now standing → result.items ≡ standing.device.also }
{
    device.profile().also().addresses()
}

/// The device at a place takes what was written at its other addresses, in their order.
fn take_each(devices: &mut [Device<'_>], i: usize)
    requires { i < length devices.old }
    ensures { (bus : List DeviceParts) (legs : Legs) (before : List InState) (member : InState) (behind : List InState)
        → IsAt bus legs devices.old i before member behind
        → Went legs devices.new before member behind (TakesEach bus legs member.device member.device.also member.state) }
{
    let also = others_of(&devices[i]);
    for address in also.as_slice() {
        take_at(devices, i, *address);
    }
}

/// Each device takes what was written at its other addresses.
pub(crate) fn take_others(devices: &mut [Device<'_>])
    ensures { (legs : Legs) (members : List InState) → AllEnded legs devices.old members
        → HaveTaken (devices_of members) legs members devices.new }
{
    for i in 0..devices.len() {
        take_each(devices, i);
    }
}
