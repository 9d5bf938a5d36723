//! The keys of a device, without VOUT_MODE.
//!
//! Its rows: `tests/rows/profile_text.txt`.

ghost use Rattle.std.specs.Prelude.{◌≡◌, ◌+◌, ◌≤◌, ◌<◌, ◌++◌, codes, decimal, length};
ghost use Rattle.pmb_profile_text.specs.Table.{address_text, device_end, device_head, field, name_line, phases_line, protect_line};
ghost use Rattle.pmb_profile_text.specs.Words.{digits};

use crate::addresses::append_also;
use crate::row::{Row, append, append_byte, append_cell, append_number};
use crate::vid::append_vid;
use crate::words::{pec_word, vout_direct_word};
use pmb_table::DeviceProfile;
use pmb_table::laws::accepted_device;

/// The width of the column of keys.
pub(crate) const KEYS: usize = 12;

/// The first keys of a device that has a place in the profile.
pub(crate) fn device_head(place: usize, device: &DeviceProfile) -> Row
    ensures { result.items ≡ device_head place device.now }
{
    let mut head = Row::new();
    append(&mut head, b"\n");
    append_count(&mut head, b"device", place);
    append_name(&mut head, device);
    append_address(&mut head, device.address());
    append_field(&mut head, b"pec", pec_word(device.pec()));
    append_count(&mut head, b"pages", device.pages() as usize);
    head
}

/// The last keys of a device.
pub(crate) fn device_end(device: &DeviceProfile) -> Row
    ensures { result.items ≡ device_end device.now }
{
    let mut end = Row::new();
    let vout_direct = vout_direct_word(device.vout_direct());
    append_field(&mut end, b"vout_direct", vout_direct.as_slice());
    append_vid(&mut end, device);
    append_phases(&mut end, device);
    append_protect(&mut end, device);
    append_also(&mut end, device.also().addresses().as_slice());
    append_count(&mut end, b"commands", device.len());
    end
}

/// Appends the line of a device's name, where it has one.
fn append_name(head: &mut Row, device: &DeviceProfile)
    requires { length head.old.items + 45 ≤ 2048 }
    ensures text { head.new.items ≡ head.old.items ++ name_line device.now.name }
    ensures short { length head.new.items ≤ length head.old.items + 45 }
{
    accepted_device(device);
    match device.name() {
        Some(name) => append_field(head, b"name", name.as_bytes()),
        None => {}
    }
}

/// Appends the line of a device's phases, where the profile tells how many: at most 45 bytes.
fn append_phases(end: &mut Row, device: &DeviceProfile)
    requires { length end.old.items + 45 ≤ 2048 }
    ensures text { end.new.items ≡ end.old.items ++ phases_line device.now.phases }
    ensures short { length end.new.items ≤ length end.old.items + 45 }
{
    match device.phases() {
        Some(phases) => append_count(end, b"phases", usize::from(phases)),
        None => {}
    }
}

/// Appends the line of a device that keeps to WRITE_PROTECT: at most 45 bytes.
fn append_protect(end: &mut Row, device: &DeviceProfile)
    requires { length end.old.items + 45 ≤ 2048 }
    ensures text { end.new.items ≡ end.old.items ++ protect_line device.now.protect }
    ensures short { length end.new.items ≤ length end.old.items + 45 }
{
    if device.protects() {
        append_field(end, b"protect", b"yes");
    }
}

/// Appends a key and its value: at most 45 bytes.
pub(crate) fn append_field(head: &mut Row, key: &[u8], value: &[u8])
    requires key { length key.now ≤ 12 }
    requires value { length value.now ≤ 32 }
    requires room { length head.old.items + 45 ≤ 2048 }
    ensures text { head.new.items ≡ head.old.items ++ field key.now value.now }
    ensures short { length head.new.items ≤ length head.old.items + 45 }
{
    append_cell(head, key, KEYS);
    append(head, value);
    append(head, b"\n");
}

/// Appends a key whose value is a number: at most 45 bytes.
pub(crate) fn append_count(head: &mut Row, key: &[u8], count: usize)
    requires key { length key.now ≤ 12 }
    requires room { length head.old.items + 45 ≤ 2048 }
    ensures text { head.new.items ≡ head.old.items ++ field key.now (decimal count) }
    ensures short { length head.new.items ≤ length head.old.items + 45 }
{
    append_cell(head, key, KEYS);
    append_number(head, count);
    append(head, b"\n");
}

/// Appends the line of an address, with the bytes in which the direction follows it.
fn append_address(head: &mut Row, address: u8)
    requires seven_bits { address < 128 }
    requires room { length head.old.items + 60 ≤ 2048 }
    ensures text { head.new.items ≡ head.old.items ++ field (codes "address") (address_text address) }
    ensures short { length head.new.items ≤ length head.old.items + 60 }
{
    append_cell(head, b"address", KEYS);
    append_byte(head, address);
    append(head, b", as a byte ");
    append_byte(head, 2 * address);
    append(head, b" to write and ");
    append_byte(head, 2 * address + 1);
    append(head, b" to read");
    append(head, b"\n");
}
