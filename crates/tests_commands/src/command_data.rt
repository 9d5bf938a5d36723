//! What a profile makes of a command's data, by hand from the rules in `docs/profiles.md`.
use crate::compare::same;
use crate::parts::profile_of;
use pmb_command_data::{bit_name, has_phases, is_plain_standard, text};
use pmb_table::{DeviceProfile, Form, Profile};
use std::process::Abort;

/// A device with phases, whose bits and texts are in part its own, and one like it without phases.
const DEVICES: &str = "
[[device]]
address = 0x10
pec = 'off'
phases = 4
command = [
    { name = 'STATUS_WORD', bits = { 15 = 'RAIL', 0 = 'WATCHDOG' } },
    { code = 0xd0, read = 'two', kind = 'status', bits = { 3 = 'FUSE' } },
    { code = 0xd1, read = 'four', kind = 'text' },
    { code = 0x9a, read = 'block' },
    { name = 'MFR_SERIAL', read = 'four', write = 'none' },
    { code = 0xd2, read = 'two', phased = true },
    { code = 0x8c, name = 'CURRENT', read = 'two' },
    { name = 'OPERATION', kind = 'status' },
]
[[device]]
address = 0x11
pec = 'off'
command = [{ code = 0xd2, read = 'two', phased = true }]
";

fn device<'p>(rt: &impl Abort, profile: &'p Profile, address: u8) -> &'p DeviceProfile {
    profile.device(address).expect(rt, "a device")
}

/// A code, and whether the command is plainly the standard's.
static STANDARD: [(u8, bool); 6] = [
    (0x02, true),
    (0x01, false),
    (0x99, true),
    (0x9a, false),
    (0x88, false),
    (0xd2, false),
];

#[test]
fn plain_standard_commands(rt: HostRuntime) {
    let profile = profile_of(&rt, rt.alloc(), DEVICES);
    let device = device(&rt, &profile, 0x10);
    for (code, is_standard) in &STANDARD {
        let entry = device.entry(*code).expect(&rt, "a command");
        same(&rt, ("code", *code), is_plain_standard(entry), *is_standard);
    }
}

/// A code, a bit, and its name.
static BITS: [(u8, u8, Option<&str>); 7] = [
    (0x79, 15, Some("RAIL")),
    (0x79, 14, Some("IOUT_POUT")),
    (0x79, 0, Some("WATCHDOG")),
    (0xd0, 3, Some("FUSE")),
    (0xd0, 2, None),
    (0x7a, 7, Some("VOUT_OV_FAULT")),
    (0x7e, 2, None),
];

#[test]
fn names_of_bits(rt: HostRuntime) {
    let profile = profile_of(&rt, rt.alloc(), DEVICES);
    let device = device(&rt, &profile, 0x10);
    for (code, bit, name) in &BITS {
        let found = bit_name(device.bits(*code), *code, *bit);
        same(&rt, ("bit", *code, *bit), found, *name);
    }
}

/// A code, the form in which its data go, the data, and their text.
#[rattlefmt::skip]
static TEXTS: [(u8, Option<Form>, &[u8], Option<&[u8]>); 12] = [
    (0x99, Some(Form::Block), b"ACME", Some(b"ACME")),
    (0x99, Some(Form::Block), b"", Some(b"")),
    (0x99, Some(Form::Block), b" ~", Some(b" ~")),
    (0x99, Some(Form::Block), b"A\x1f", None),
    (0x99, Some(Form::Block), b"A\x7f", None),
    (0x99, None, b"ACME", None),
    (0xae, Some(Form::Block), b"2", Some(b"2")),
    (0xb0, Some(Form::Block), b"2", None),
    (0x9a, Some(Form::Block), b"ACME", None),
    (0x9e, Some(Form::Four), b"ACME", None),
    (0xd1, Some(Form::Four), b"ACME", Some(b"ACME")),
    (0xd1, Some(Form::Four), b"ACM\0", None),
];

#[test]
fn texts(rt: HostRuntime) {
    let profile = profile_of(&rt, rt.alloc(), DEVICES);
    let device = device(&rt, &profile, 0x10);
    for (code, form, bytes, wanted) in &TEXTS {
        let entry = device.entry(*code).expect(&rt, "a command");
        same(
            &rt,
            ("text", *code, *bytes),
            text(entry, *form, bytes),
            *wanted,
        );
    }
}

/// A device, a code, and whether its command has a value for each phase.
static PHASES: [(u8, u8, bool); 9] = [
    (0x10, 0x38, true),
    (0x10, 0x39, true),
    (0x10, 0x8c, false),
    (0x10, 0x8b, false),
    (0x10, 0xd0, false),
    (0x10, 0xd2, true),
    (0x11, 0x38, false),
    (0x11, 0x8c, false),
    (0x11, 0xd2, false),
];

#[test]
fn phases(rt: HostRuntime) {
    let profile = profile_of(&rt, rt.alloc(), DEVICES);
    for (address, code, wanted) in &PHASES {
        let device = device(&rt, &profile, *address);
        let command = device.command(*code).expect(&rt, "a command");
        same(
            &rt,
            ("phases", *address, *code),
            has_phases(device, command),
            *wanted,
        );
    }
    same(
        &rt,
        "of the first",
        device(&rt, &profile, 0x10).phases(),
        Some(4),
    );
    same(
        &rt,
        "of the second",
        device(&rt, &profile, 0x11).phases(),
        None,
    );
}
