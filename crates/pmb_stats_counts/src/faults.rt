//! Status bits that tell of faults.
//!
//! Its rows: `tests/rows/stats.txt`.

ghost use Rattle.std.specs.Prelude.{◌≡◌, ◌<◌, ◌≤◌, map, option_map};
ghost use Rattle.pmb_command.specs.Parts.{device_with};
ghost use Rattle.pmb_command_data.specs.Bits.{bit_text_in};
ghost use Rattle.pmb_facts.specs.Fact.{WhatData};
ghost use Rattle.pmb_facts.specs.Stands.{Stands};
ghost use Rattle.pmb_json_objects.specs.Seen.{command_of};
ghost use Rattle.pmb_keys.specs.CommandView.{bit_parts, command_parts};
ghost use Rattle.pmb_note.specs.Note.{is_set};
ghost use Rattle.pmb_stats_counts.specs.Faults.{finds_fault, has_fault_bit, is_fault, is_fault_set, is_harmless, is_status, reads_fault, register_has_fault};

use pmb_command::Kind;
use pmb_command_data::bit_name;
use pmb_facts::What;
use pmb_keys::{Command, NamedBit};
use pmb_table::Profile;

/// Whether a fact is a read of a status register in which a bit is set that tells of a fault.
pub(crate) fn reads_fault(profile: &Profile, what: What<'_>) -> bool
    ensures { (known : WhatData) → Stands what.entry known → result ≡ reads_fault profile.now known }
{
    match what {
        What::Read {
            addr,
            code,
            reply,
            ..
        } => finds_fault(command(profile, addr, code), code, reply),
        What::Write { .. }
        | What::Call { .. }
        | What::Refused { .. }
        | What::Alert { .. }
        | What::NoAlert
        | What::Other { .. }
        | What::Refusal { .. }
        | What::BadToken { .. } => false,
    }
}

/// The command with a code of the device with an address.
fn command(profile: &Profile, addr: u8, code: u8) -> Option<&Command>
    ensures { option_map (λ c. command_parts c.now) result ≡ command_of (device_with addr profile.now) code }
{
    match profile.device(addr) {
        Some(device) => device.command(code),
        None => None,
    }
}

/// Whether a command, which has this code, is a status register, and a bit is set in it that tells
/// of a fault.
fn finds_fault(command: Option<&Command>, code: u8, bytes: &[u8]) -> bool
    ensures { result ≡ finds_fault (option_map (λ c. command_parts c.now) command.entry) code bytes.now }
{
    match command {
        Some(command) => {
            is_status(command.entry.kind) && register_has_fault(command.bits(), code, bytes)
        }
        None => false,
    }
}

/// Whether a command of this kind is a status register.
fn is_status(kind: Kind) -> bool
    ensures { result ≡ is_status kind }
{
    matches!(kind, Kind::Status)
}

/// Whether a bit is set that tells of a fault, in a register of one byte or two, of which the
/// profile gives bits these names.
fn register_has_fault(names: &[NamedBit], code: u8, bytes: &[u8]) -> bool
    ensures { result ≡ register_has_fault (map bit_parts names.now) code bytes.now }
{
    match bytes {
        [byte] => has_fault_bit(names, code, u16::from(*byte), 8),
        [low, high] => has_fault_bit(names, code, u16::from_le_bytes([*low, *high]), 16),
        _ => false,
    }
}

/// Whether one of the lowest bits, that many, is set and tells of a fault.
fn has_fault_bit(names: &[NamedBit], code: u8, value: u16, bits: u8) -> bool
    requires { bits ≤ 16 }
    ensures { result ≡ has_fault_bit (map bit_parts names.now) code value bits }
{
    if bits == 0 {
        false
    } else {
        is_fault_set(names, code, value, bits - 1) || has_fault_bit(names, code, value, bits - 1)
    }
}

/// Whether a bit is set and tells of a fault.
fn is_fault_set(names: &[NamedBit], code: u8, value: u16, bit: u8) -> bool
    requires { bit < 16 }
    ensures { result ≡ is_fault_set (map bit_parts names.now) code value bit }
{
    is_set(value, bit) && is_fault(bit_name(names, code, bit))
}

#[inline]
fn is_set(value: u16, bit: u8) -> bool
    requires { bit < 16 }
    ensures { result ≡ is_set value bit }
{
    (value >> bit) % 2 == 1
}

/// Whether a bit tells of a fault, by its name, if it has one.
fn is_fault(name: Option<&str>) -> bool
    ensures { result ≡ is_fault (option_map (λ name. name.now) name.entry) }
{
    match name {
        Some(name) => !is_harmless(name),
        None => true,
    }
}

/// Whether a bit with this name tells of no fault.
fn is_harmless(name: &str) -> bool
    ensures { result ≡ is_harmless name.now }
{
    name == "BUSY"
        || name == "OFF"
        || name == "POWER_GOOD_N"
        || name.as_bytes().ends_with(b"_WARN")
        || name.as_bytes().ends_with(b"_OVERRIDE")
}
