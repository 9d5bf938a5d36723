//! What the sample and other accepted profiles say of their devices, by hand from the rules in
//! `docs/profiles.md`.
use crate::compare::same;
use crate::meanings::Meaning::Direct;
use crate::parts::{PAGE, Parts, READ_VIN, check_entry, code_of, profile_of};
use crate::shapes::WORD;
use crate::standard_commands::rows;
use Place::{After, At, Standard};
use pmb_table::{DeviceProfile, PecMode, SAMPLE, laws};

/// The place of a command in a device.
#[derive(Clone, Copy)]
enum Place {
    /// Counted from the first command.
    At(usize),
    /// That of the standard command with this code, in a device that has all of them.
    Standard(u8),
    /// Counted from the end of the standard commands.
    After(u8),
}

/// A place as a number, by the table of the standard's commands.
fn index_of(place: Place) -> usize {
    match place {
        At(index) => index,
        Standard(code) => rows().iter().filter(|row| row.0 < code).count(),
        After(index) => rows().len() + usize::from(index),
    }
}

/// The address of a device.
fn address_of(device: Option<&DeviceProfile>) -> Option<u8> {
    match device {
        Some(device) => Some(device.address()),
        None => None,
    }
}

/// RATIO as the sample has it.
const RATIO: Parts = Parts(0xd0, "RATIO", WORD, Direct(3, 2, 1), false);

/// Two devices, the one with each key at its greatest or its least, and the other with as few keys
/// as may be.
const TWO_DEVICES: &str = "device = [{ address = 0x08, pec = 'on', pages = 32, vout_mode = 255, \
     vout_direct = { m = -5, b = 7, r = -9 } }, { address = 0x77, pec = 'optional', standard = false }]";

/// The name of a row, a text, the place of a device in it, its address, pec, pages, vout_mode, m, b
/// and r, and the place after its last command.
struct Device(
    &'static str,
    &'static str,
    usize,
    u8,
    PecMode,
    u8,
    u8,
    Option<(i16, i16, i8)>,
    Place,
);

static DEVICES: [Device; 5] = [
    Device(
        "the sample's first",
        SAMPLE,
        0,
        0x58,
        PecMode::Optional,
        2,
        0x17,
        None,
        After(1),
    ),
    Device(
        "the sample's second",
        SAMPLE,
        1,
        0x59,
        PecMode::Off,
        1,
        0x17,
        None,
        After(0),
    ),
    Device(
        "the sample's last",
        SAMPLE,
        2,
        0x5a,
        PecMode::On,
        1,
        0x17,
        None,
        After(0),
    ),
    Device(
        "each key",
        TWO_DEVICES,
        0,
        0x08,
        PecMode::On,
        32,
        0xff,
        Some((-5, 7, -9)),
        After(0),
    ),
    Device(
        "few keys",
        TWO_DEVICES,
        1,
        0x77,
        PecMode::Optional,
        1,
        0x17,
        None,
        At(0),
    ),
];

#[test]
fn devices(rt: HostRuntime) {
    for Device(name, text, index, address, pec, pages, vout_mode, direct, end) in &DEVICES {
        let profile = profile_of(&rt, rt.alloc(), text);
        same(
            &rt,
            name,
            address_of(profile.device_at(*index)),
            Some(*address),
        );
        laws::accepted_bus(&profile);
        let device = profile.device(*address).expect(&rt, name);
        laws::accepted_device(device);
        let coefficients = match direct {
            Some((m, b, r)) => Some(pmb_value::Direct::new(*m, *b, *r).expect(&rt, name)),
            None => None,
        };
        let found = (device.address(), device.pec(), device.pages());
        same(&rt, name, found, (*address, *pec, *pages));
        let modes = device.modes();
        let found = (device.vout_mode(), modes.len(), device.vout_direct());
        same(
            &rt,
            name,
            found,
            (*vout_mode, usize::from(*pages), coefficients),
        );
        same(&rt, name, modes.last(), Some(vout_mode));
        let end = index_of(*end);
        let behind = code_of(device.entry_at(end));
        let found = (device.len(), behind, code_of(device.entry(0xc8)));
        same(&rt, name, found, (end, None, None));
    }
}

/// Addresses of no device of the sample.
static NO_ADDRESSES: [u8; 5] = [0x00, 0x20, 0x57, 0x5b, 0xff];

#[test]
fn no_device(rt: HostRuntime) {
    let profile = profile_of(&rt, rt.alloc(), SAMPLE);
    same(&rt, "devices", profile.len(), 3);
    same(
        &rt,
        "behind the last",
        address_of(profile.device_at(3)),
        None,
    );
    for address in &NO_ADDRESSES {
        same(&rt, address, address_of(profile.device(*address)), None);
    }
}

/// The name of a row, a device of the sample, the place of a command in it, and its parts and first
/// bytes.
struct SampleRow(&'static str, u8, Place, Parts, Option<&'static [u8]>);

static SAMPLE_COMMANDS: [SampleRow; 7] = [
    SampleRow("PAGE of the first", 0x58, At(0), PAGE, None),
    SampleRow("PAGE of the second", 0x59, At(0), PAGE, None),
    SampleRow("PAGE of the last", 0x5a, At(0), PAGE, None),
    SampleRow(
        "READ_VIN of the first",
        0x58,
        Standard(0x88),
        READ_VIN,
        Some(b"\x00\xd3"),
    ),
    SampleRow(
        "READ_VIN of the second",
        0x59,
        Standard(0x88),
        READ_VIN,
        None,
    ),
    SampleRow("READ_VIN of the last", 0x5a, Standard(0x88), READ_VIN, None),
    SampleRow("RATIO of the first", 0x58, After(0), RATIO, None),
];

#[test]
fn sample_commands(rt: HostRuntime) {
    let profile = profile_of(&rt, rt.alloc(), SAMPLE);
    for SampleRow(name, address, place, parts, initial) in &SAMPLE_COMMANDS {
        let device = profile.device(*address).expect(&rt, name);
        check_entry(&rt, name, device.entry_at(index_of(*place)), parts);
        check_entry(&rt, name, device.entry(parts.0), parts);
        same(&rt, name, device.initial(parts.0, 1), *initial);
        let found = (device.initial(0x21, 0), device.initial(0xc8, 0));
        same(&rt, name, found, (None, None));
    }
}

// The standard commands come first, in the order of their codes. READ_VIN, which the sample's first
// device changes, keeps its place.
#[test]
fn order_of_the_sample(rt: HostRuntime) {
    let profile = profile_of(&rt, rt.alloc(), SAMPLE);
    let first = profile.device(0x58).expect(&rt, "a device");
    let last = profile.device(0x5a).expect(&rt, "a device");
    for (index, row) in rows().iter().enumerate() {
        let found = (
            code_of(first.entry_at(index)),
            code_of(last.entry_at(index)),
        );
        same(&rt, ("at", index), found, (Some(row.0), Some(row.0)));
    }
    same(&rt, "RATIO", code_of(last.entry(0xd0)), None);
}

/// Two devices whose commands are tables in the order d1h, 88h, d0h.
const ORDER: &str = "device = [{ address = 0x10, pec = 'off', command = [ \
     { code = 0xd1, read = 'one' }, { name = 'READ_VIN', initial = '0102' }, { code = 0xd0, read = 'two' }] }, \
     { address = 0x11, pec = 'off', standard = false, command = [ \
     { code = 0xd1, read = 'one' }, { name = 'READ_VIN', initial = '0304' }, { code = 0xd0, read = 'two' }] }]";

/// The name of a row, a device, the place of a command in it, and the command's code if there is
/// one.
static PLACES: [(&str, u8, Place, Option<u8>); 9] = [
    ("READ_VIN keeps its place", 0x10, Standard(0x88), Some(0x88)),
    ("and so do those above it", 0x10, Standard(0xc2), Some(0xc2)),
    ("the first new one", 0x10, After(0), Some(0xd1)),
    ("the second new one", 0x10, After(1), Some(0xd0)),
    ("behind the last", 0x10, After(2), None),
    ("without the standard, the first", 0x11, At(0), Some(0xd1)),
    ("without the standard, the second", 0x11, At(1), Some(0x88)),
    ("without the standard, the last", 0x11, At(2), Some(0xd0)),
    ("without the standard, behind the last", 0x11, At(3), None),
];

#[test]
fn order_of_commands(rt: HostRuntime) {
    let profile = profile_of(&rt, rt.alloc(), ORDER);
    for (name, address, place, code) in &PLACES {
        let device = profile.device(*address).expect(&rt, name);
        let found = code_of(device.entry_at(index_of(*place)));
        same(&rt, name, found, *code);
    }
}

/// The name of a row, a device, the place after its last command, and what READ_VIN begins with.
static ORDERED: [(&str, u8, Place, &[u8]); 2] = [
    ("with the standard", 0x10, After(2), b"\x01\x02"),
    ("without the standard", 0x11, At(3), b"\x03\x04"),
];

#[test]
fn ordered_devices(rt: HostRuntime) {
    let profile = profile_of(&rt, rt.alloc(), ORDER);
    for (name, address, end, initial) in &ORDERED {
        let device = profile.device(*address).expect(&rt, name);
        same(&rt, name, device.len(), index_of(*end));
        same(&rt, name, device.initial(0x88, 0), Some(*initial));
    }
}
