//! What an accepted profile says of a command, by hand from the rules in `docs/profiles.md`.
use crate::compare::same;
use crate::meanings::Meaning::{
    Direct, Half, Linear11, Linear11Fixed, Raw, Slinear16, Status, Ulinear16, UnsignedDirect, Vid,
    Vout, VoutSigned,
};
use crate::meanings::{Meaning, kind_of};
use crate::shapes::{
    BLOCK, BYTE, CALL_WORD, FOUR, MASK, READ_BLOCK, READ_BYTE, READ_EIGHT, READ_WORD,
    SEND_AND_READ_BYTE, SNAPSHOT, WORD, WRITE_BLOCK, WRITE_EIGHT, WRITE_WORD,
};
use pmb_command::is_protection;
use pmb_table::{Entry, Profile, Shape};
use pmb_value::VidTable;
use std::alloc::Global;
use std::process::Abort;

/// The profile of a text.
pub(crate) fn profile_of(rt: &impl Abort, alloc: Global, text: &str) -> Profile {
    Profile::from_toml(alloc, text.as_bytes()).expect(rt, "a profile")
}

/// The code of an entry.
pub(crate) fn code_of(entry: Option<&Entry>) -> Option<u8> {
    match entry {
        Some(entry) => Some(entry.code),
        None => None,
    }
}

/// What is told of a command: its code, its name, its forms, what its data stand for, and whether
/// each page has a value.
#[derive(Clone, Copy)]
pub(crate) struct Parts(pub u8, pub &'static str, pub Shape, pub Meaning, pub bool);

/// Whether the entry of a row has these parts.
pub(crate) fn check_entry(rt: &impl Abort, row: &str, entry: Option<&Entry>, parts: &Parts) {
    let Parts(code, name, shape, meaning, paged) = *parts;
    let entry = entry.expect(rt, row);
    same(
        rt,
        ("at", row),
        (entry.code, entry.name.as_str()),
        (code, name),
    );
    same(
        rt,
        ("at", row),
        (entry.shape, entry.kind, entry.paged),
        (shape, kind_of(rt, meaning), paged),
    );
}

/// PAGE and READ_VIN as the standard has them.
pub(crate) const PAGE: Parts = Parts(0x00, "PAGE", BYTE, Raw, false);

pub(crate) const READ_VIN: Parts = Parts(0x88, "READ_VIN", READ_WORD, Linear11, true);

/// The keys of a command, which name the row, and the parts and the first bytes that they give it.
struct Row(&'static str, Parts, Option<&'static [u8]>);

// With a name a key replaces a part of the standard command; with a code nothing is taken from it,
// not even where it has one.
#[rattlefmt::skip]
static COMMANDS: [Row; 31] = [
    Row("name = 'READ_VIN'", READ_VIN, None),
    Row("name = 'PAGE'", PAGE, None),
    Row("name = 'READ_VIN', write = 'two', initial = 'Ff0a'", Parts(0x88, "READ_VIN", WORD, Linear11, true), Some(b"\xff\x0a")),
    Row("name = 'READ_VIN', kind = 'direct', m = -32768, b = 32767, r = 9, paged = false", Parts(0x88, "READ_VIN", READ_WORD, Direct(-32768, 32767, 9), false), None),
    Row("name = 'VOUT_COMMAND', kind = 'vout_signed', read = 'none', call = 'block'", Parts(0x21, "VOUT_COMMAND", MASK, VoutSigned, true), None),
    Row("name = 'SMBALERT_MASK', call = 'none'", Parts(0x1b, "SMBALERT_MASK", WRITE_WORD, Raw, false), None),
    Row("name = 'MFR_ID', initial = '504d42'", Parts(0x99, "MFR_ID", BLOCK, Raw, false), Some(b"PMB")),
    Row("name = 'STATUS_WORD', paged = false, initial = '4088'", Parts(0x79, "STATUS_WORD", WORD, Status, false), Some(b"\x40\x88")),
    Row("code = 0x20, read = 'one'", Parts(0x20, "CMD_20", READ_BYTE, Raw, false), None),
    Row("code = 0x88, name = 'READ_VIN', read = 'one'", Parts(0x88, "READ_VIN", READ_BYTE, Raw, false), None),
    Row("code = 10, call = 'two'", Parts(0x0a, "CMD_0a", CALL_WORD, Raw, false), None),
    Row("code = 255, read = 'block', kind = 'raw', paged = true, initial = ''", Parts(0xff, "CMD_ff", READ_BLOCK, Raw, true), Some(b"")),
    Row("initial = 'a5', kind = 'status', read = 'one', write = 'zero', name = 'A_1', code = 0xd0", Parts(0xd0, "A_1", SEND_AND_READ_BYTE, Status, false), Some(b"\xa5")),
    Row("code = 0xd0, write = 'two', call = 'block', kind = 'vout'", Parts(0xd0, "CMD_d0", MASK, Vout, false), None),
    Row("code = 0xaf, write = 'block'", Parts(0xaf, "CMD_af", WRITE_BLOCK, Raw, false), None),
    Row("code = 0xd0, name = 'RATIO', write = 'two', read = 'two', kind = 'direct', m = 3, b = 2, r = 1, paged = true, initial = '0102'", Parts(0xd0, "RATIO", WORD, Direct(3, 2, 1), true), Some(b"\x01\x02")),
    Row("code = 0xe0, write = 'four', read = 'four', initial = '01020304'", Parts(0xe0, "CMD_e0", FOUR, Raw, false), Some(b"\x01\x02\x03\x04")),
    Row("code = 0xe1, read = 'eight', paged = true, initial = '0102030405060708'", Parts(0xe1, "CMD_e1", READ_EIGHT, Raw, true), Some(b"\x01\x02\x03\x04\x05\x06\x07\x08")),
    Row("code = 0xe2, name = 'SNAPSHOT', write = 'zero', read = 'four', call = 'block'", Parts(0xe2, "SNAPSHOT", SNAPSHOT, Raw, false), None),
    Row("name = 'READ_VIN', write = 'eight', read = 'none', kind = 'raw'", Parts(0x88, "READ_VIN", WRITE_EIGHT, Raw, true), None),
    Row("name = 'VIN_ON', exponent = -3", Parts(0x35, "VIN_ON", WORD, Linear11Fixed(-3), true), None),
    Row("name = 'VIN_ON', exponent = -16, paged = false, initial = '0080'", Parts(0x35, "VIN_ON", WORD, Linear11Fixed(-16), false), Some(b"\x00\x80")),
    Row("code = 0xd0, read = 'two', kind = 'linear11', exponent = 15", Parts(0xd0, "CMD_d0", READ_WORD, Linear11Fixed(15), false), None),
    Row("exponent = 0, name = 'VOUT_COMMAND', kind = 'linear11'", Parts(0x21, "VOUT_COMMAND", WORD, Linear11Fixed(0), true), None),
    Row("name = 'READ_VIN', kind = 'half'", Parts(0x88, "READ_VIN", READ_WORD, Half, true), None),
    Row("name = 'READ_VIN', kind = 'ulinear16', exponent = -9", Parts(0x88, "READ_VIN", READ_WORD, Ulinear16(-9), true), None),
    Row("code = 0xd0, read = 'two', kind = 'slinear16', exponent = 15", Parts(0xd0, "CMD_d0", READ_WORD, Slinear16(15), false), None),
    Row("name = 'READ_VOUT', kind = 'vid:vr13'", Parts(0x8b, "READ_VOUT", READ_WORD, Vid(VidTable::Vr13), true), None),
    Row("code = 0xd0, read = 'two', kind = 'vid:nvidia195mv'", Parts(0xd0, "CMD_d0", READ_WORD, Vid(VidTable::Nvidia195mv), false), None),
    Row("code = 0xd0, read = 'two', kind = 'direct', m = 3, b = 2, r = 1, unsigned = true", Parts(0xd0, "CMD_d0", READ_WORD, UnsignedDirect(3, 2, 1), false), None),
    Row("unsigned = false, code = 0xd0, read = 'two', kind = 'direct', m = 3, b = 2, r = 1", Parts(0xd0, "CMD_d0", READ_WORD, Direct(3, 2, 1), false), None),
];

#[test]
fn commands(rt: HostRuntime) {
    for Row(keys, parts, initial) in &COMMANDS {
        let text = format!(in rt.alloc();
            "device = [{{ address = 0x10, pec = 'off', standard = false, command = [{{ {keys} }}] }}]"
        ).expect(&rt, "memory");
        let profile = profile_of(&rt, rt.alloc(), text.as_str());
        let device = profile.device(0x10).expect(&rt, "a device");
        check_entry(&rt, keys, device.entry(parts.0), parts);
        check_entry(&rt, keys, device.entry_at(0), parts);
        let found = (device.len(), device.initial(parts.0, 0));
        same(&rt, ("at", keys), found, (1, *initial));
    }
}

/// Keys of a device, which name the row, and whether it keeps to WRITE_PROTECT.
static PROTECTED: [(&str, bool); 4] = [
    ("standard = true", false),
    ("protect = false", false),
    ("protect = true", true),
    (
        "protect = true, standard = false, command = [{ name = 'WRITE_PROTECT', initial = '40' }]",
        true,
    ),
];

#[test]
fn protected_devices(rt: HostRuntime) {
    for (keys, protects) in &PROTECTED {
        let text = format!(in rt.alloc();
            "device = [{{ address = 0x10, pec = 'off', {keys} }}]"
        ).expect(&rt, "memory");
        let profile = profile_of(&rt, rt.alloc(), text.as_str());
        let device = profile.device(0x10).expect(&rt, "a device");
        same(&rt, ("at", *keys), device.protects(), *protects);
    }
}

/// Bytes, and whether WRITE_PROTECT may hold them.
static PROTECTIONS: [(&[u8], bool); 9] = [
    (b"\x80", true),
    (b"\x40", true),
    (b"\x20", true),
    (b"\x00", true),
    (b"\x01", false),
    (b"\xc0", false),
    (b"\xff", false),
    (b"", false),
    (b"\x80\x00", false),
];

#[test]
fn protections(rt: HostRuntime) {
    for (bytes, is_one) in &PROTECTIONS {
        same(&rt, *bytes, is_protection(bytes), *is_one);
    }
}
