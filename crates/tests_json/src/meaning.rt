//! What the fields of data say: the rows at the end of `docs/meaning.md` (PMBus Part II 1.3; its sections are
//! there).

use crate::compare::same;
use arrayvec::ArrayVec;
use pmb_meaning::{Payload, SAYS_MEMBER, SAYS_WORDS, says_member, says_words};
use pmb_table::{DeviceProfile, Profile};
use std::test::Fail;

/// 58h has the standard's commands as they are. The profile names bits of two status registers of 59h,
/// and gives OPERATION another name, PMBUS_REVISION another kind.
static PROFILE: &str = r#"[[device]]
address = 0x58
pec = "off"

[[device]]
address = 0x59
pec = "off"

[[device.command]]
name = "STATUS_TEMPERATURE"
bits = { 1 = "FUSE", 7 = "A_NAME_THAT_HAS_32_CHARACTERS_OK" }

[[device.command]]
code = 0xd9
name = "STATUS_PHASES"
read = "two"
kind = "status"
bits = { 3 = "PHASE_3_OC", 8 = "IN_THE_HIGH_BYTE" }

[[device.command]]
code = 0x01
name = "ENABLE"
write = "one"
read = "one"

[[device.command]]
code = 0x10
name = "WRITE_PROTECT"
write = "one"
read = "one"

[[device.command]]
name = "PMBUS_REVISION"
kind = "text"
"#;

/// The data of a row: what is written or read, or what is sent in a call and the reply.
#[derive(Clone, Copy)]
enum Data {
    Written(&'static [u8]),
    Read(&'static [u8]),
    Called(&'static [u8], &'static [u8]),
}

fn payload<'a>(data: Data) -> Payload<'a> {
    match data {
        Data::Written(bytes) => Payload::Written(bytes),
        Data::Read(bytes) => Payload::Read(bytes),
        Data::Called(sent, reply) => Payload::Called { sent, reply },
    }
}

/// A command's code, data, and the fields of the object.
type Row = (u8, Data, &'static str);

/// The member, with its comma; nothing where there are no fields.
static MEMBERS: [Row; 34] = [
    (
        0x01,
        Data::Written(&[0x80]),
        ",\"says\":{\"output\":\"on\",\"turn_off\":\"immediate\",\"voltage_source\":\"VOUT_COMMAND\",\"transition\":\"keep\"}",
    ),
    (
        0x01,
        Data::Written(&[0xa4]),
        ",\"says\":{\"output\":\"on\",\"turn_off\":\"immediate\",\"voltage_source\":\"VOUT_MARGIN_HIGH\",\"margin_faults\":\"ignore\",\"transition\":\"keep\"}",
    ),
    (
        0x01,
        Data::Written(&[0x98]),
        ",\"says\":{\"output\":\"on\",\"turn_off\":\"immediate\",\"voltage_source\":\"VOUT_MARGIN_LOW\",\"margin_faults\":\"act\",\"transition\":\"keep\"}",
    ),
    (
        0x01,
        Data::Written(&[0x5e]),
        ",\"says\":{\"output\":\"off\",\"turn_off\":\"soft\",\"voltage_source\":\"VOUT_MARGIN_LOW\",\"margin_faults\":\"reserved\",\"transition\":\"copy\"}",
    ),
    (0x01, Data::Written(&[0x80, 0x00]), ""),
    (
        0x02,
        Data::Written(&[0x16]),
        ",\"says\":{\"power_up\":\"commanded\",\"operation\":\"ignored\",\"control_pin\":\"required\",\"control_polarity\":\"active_high\",\"control_off\":\"soft\"}",
    ),
    (
        0x05,
        Data::Written(&[0x00, 0x21, 0x00, 0x18]),
        ",\"says\":{\"page\":0,\"code\":\"21\",\"data\":\"0018\"}",
    ),
    (
        0x05,
        Data::Written(&[0xff, 0x03]),
        ",\"says\":{\"page\":\"all\",\"code\":\"03\",\"data\":\"\"}",
    ),
    (
        0x06,
        Data::Called(&[0x01, 0x8b], &[0x00, 0x1a]),
        ",\"says\":{\"page\":1,\"code\":\"8b\",\"data\":\"001a\"}",
    ),
    (
        0x10,
        Data::Written(&[0x40]),
        ",\"says\":{\"writable\":[\"WRITE_PROTECT\",\"OPERATION\",\"PAGE\"]}",
    ),
    (
        0x10,
        Data::Written(&[0x03]),
        ",\"says\":{\"writable\":\"reserved\"}",
    ),
    (
        0x19,
        Data::Read(&[0xb0]),
        ",\"says\":{\"pec\":true,\"bus_speed\":\"400 kHz\",\"smbalert\":true,\"numeric_format\":\"linear_or_direct\",\"avsbus\":false}",
    ),
    (
        0x19,
        Data::Read(&[0xe8]),
        ",\"says\":{\"pec\":true,\"bus_speed\":\"reserved\",\"smbalert\":false,\"numeric_format\":\"half\",\"avsbus\":false}",
    ),
    (
        0x1a,
        Data::Called(&[0x8b], &[0xac]),
        ",\"says\":{\"code\":\"8b\",\"supported\":true,\"write\":false,\"read\":true,\"format\":\"direct\"}",
    ),
    (
        0x1a,
        Data::Called(&[0x8b], &[0xc8]),
        ",\"says\":{\"code\":\"8b\",\"supported\":true,\"write\":true,\"read\":false,\"format\":\"reserved\"}",
    ),
    (
        0x1a,
        Data::Called(&[0xc0], &[0x7c]),
        ",\"says\":{\"code\":\"c0\",\"supported\":false}",
    ),
    (
        0x1b,
        Data::Written(&[0x7a, 0x40]),
        ",\"says\":{\"register\":\"7a\",\"mask\":[\"VOUT_OV_WARN\"]}",
    ),
    (
        0x1b,
        Data::Called(&[0x7d], &[0x82]),
        ",\"says\":{\"register\":\"7d\",\"mask\":[\"OT_FAULT\",\"bit1\"]}",
    ),
    (
        0x1b,
        Data::Called(&[0x7e], &[0x00]),
        ",\"says\":{\"register\":\"7e\",\"mask\":[]}",
    ),
    (
        0x20,
        Data::Written(&[0x17]),
        ",\"says\":{\"relative\":false,\"mode\":\"linear\",\"exponent\":-9}",
    ),
    (
        0x20,
        Data::Written(&[0xa1]),
        ",\"says\":{\"relative\":true,\"mode\":\"vid\",\"vid_type\":1}",
    ),
    (
        0x20,
        Data::Written(&[0x40]),
        ",\"says\":{\"relative\":false,\"mode\":\"direct\",\"parameter\":0}",
    ),
    (
        0x20,
        Data::Written(&[0x65]),
        ",\"says\":{\"relative\":false,\"mode\":\"half\",\"parameter\":\"reserved\"}",
    ),
    (
        0x30,
        Data::Called(&[0x8b, 0x01], &[0x01, 0x00, 0xfe, 0xff, 0xff]),
        ",\"says\":{\"code\":\"8b\",\"direction\":\"read\",\"m\":1,\"b\":-2,\"r\":-1}",
    ),
    (
        0x30,
        Data::Called(&[0x21, 0x02], &[0x00, 0x80, 0xff, 0x7f, 0x7f]),
        ",\"says\":{\"code\":\"21\",\"direction\":\"reserved\",\"m\":-32768,\"b\":32767,\"r\":127}",
    ),
    (
        0x3a,
        Data::Written(&[0x90]),
        ",\"says\":{\"fan_1_installed\":true,\"fan_1_command\":\"duty\",\"fan_1_pulses\":2,\"fan_2_installed\":false,\"fan_2_command\":\"duty\",\"fan_2_pulses\":1}",
    ),
    (
        0x3d,
        Data::Written(&[0xff]),
        ",\"says\":{\"fan_3_installed\":true,\"fan_3_command\":\"rpm\",\"fan_3_pulses\":4,\"fan_4_installed\":true,\"fan_4_command\":\"rpm\",\"fan_4_pulses\":4}",
    ),
    (
        0x41,
        Data::Written(&[0xb8]),
        ",\"says\":{\"response\":\"shut_down\",\"retries\":\"unlimited\",\"delay_units\":0}",
    ),
    (
        0x50,
        Data::Written(&[0x5a]),
        ",\"says\":{\"response\":\"continue_for_delay\",\"retries\":3,\"delay_units\":2}",
    ),
    (
        0x47,
        Data::Written(&[0xc0]),
        ",\"says\":{\"response\":\"shut_down\",\"retries\":\"none\",\"delay_units\":0}",
    ),
    (
        0x47,
        Data::Written(&[0x7f]),
        ",\"says\":{\"response\":\"limit_to_low_voltage\",\"retries\":\"unlimited\",\"delay_units\":7}",
    ),
    (
        0x86,
        Data::Read(&[0x34, 0x12, 0x05, 0x01, 0x02, 0x03]),
        ",\"says\":{\"accumulator\":4660,\"rollovers\":5,\"samples\":197121}",
    ),
    (
        0x98,
        Data::Read(&[0x33]),
        ",\"says\":{\"part_i\":\"1.3\",\"part_ii\":\"1.3\"}",
    ),
    (
        0x98,
        Data::Read(&[0x42]),
        ",\"says\":{\"part_i\":4,\"part_ii\":\"1.2\"}",
    ),
];

/// The same in words.
static WORDS: [Row; 8] = [
    (
        0x01,
        Data::Written(&[0x40]),
        "output off, turn_off soft, voltage_source VOUT_COMMAND, transition keep",
    ),
    (
        0x05,
        Data::Written(&[0x00, 0x21, 0x00, 0x18]),
        "page 0, code 21, data 00 18",
    ),
    (
        0x05,
        Data::Written(&[0xff, 0x03]),
        "page all, code 03, data none",
    ),
    (
        0x10,
        Data::Written(&[0x40]),
        "writable WRITE_PROTECT OPERATION PAGE",
    ),
    (
        0x1a,
        Data::Called(&[0xc0], &[0x7c]),
        "code c0, supported false",
    ),
    (
        0x1b,
        Data::Called(&[0x7d], &[0x82]),
        "register 7d, mask OT_FAULT bit1",
    ),
    (
        0x1b,
        Data::Called(&[0x7e], &[0x00]),
        "register 7e, mask none",
    ),
    (
        0x20,
        Data::Written(&[0x17]),
        "relative false, mode linear, exponent -9",
    ),
];

/// Of 59h: a mask has the profile's names, then the standard's, then numbers; only a command that has the
/// standard's name and is bytes says something.
#[rattlefmt::skip]
static NAMED_MEMBERS: [Row; 9] = [
    (0x1b, Data::Written(&[0x7d, 0xc2]), ",\"says\":{\"register\":\"7d\",\"mask\":[\"A_NAME_THAT_HAS_32_CHARACTERS_OK\",\"OT_WARN\",\"FUSE\"]}"),
    (0x1b, Data::Called(&[0x7d], &[0x05]), ",\"says\":{\"register\":\"7d\",\"mask\":[\"bit2\",\"bit0\"]}"),
    (0x1b, Data::Called(&[0xd9], &[0x09]), ",\"says\":{\"register\":\"d9\",\"mask\":[\"PHASE_3_OC\",\"bit0\"]}"),
    (0x1b, Data::Written(&[0x7a, 0x40]), ",\"says\":{\"register\":\"7a\",\"mask\":[\"VOUT_OV_WARN\"]}"),
    (0x01, Data::Written(&[0x80]), ""),
    (0x10, Data::Written(&[0x03]), ",\"says\":{\"writable\":\"reserved\"}"),
    (0x98, Data::Read(&[0x33]), ""),
    (0xd9, Data::Read(&[0x01, 0x00]), ""),
    (0x20, Data::Read(&[0x14]), ",\"says\":{\"relative\":false,\"mode\":\"linear\",\"exponent\":-12}"),
];

/// The same in words.
#[rattlefmt::skip]
static NAMED_WORDS: [Row; 2] = [
    (0x1b, Data::Called(&[0x7d], &[0x82]), "register 7d, mask A_NAME_THAT_HAS_32_CHARACTERS_OK FUSE"),
    (0x1b, Data::Called(&[0xd9], &[0x00]), "register d9, mask none"),
];

fn members() -> &'static [Row] {
    &MEMBERS
}

fn words() -> &'static [Row] {
    &WORDS
}

fn named_members() -> &'static [Row] {
    &NAMED_MEMBERS
}

fn named_words() -> &'static [Row] {
    &NAMED_WORDS
}

/// What is appended for a row; nothing where the device has no such command.
fn member(device: &DeviceProfile, row: &Row) -> Option<ArrayVec<u8, SAYS_MEMBER>> {
    let mut out = ArrayVec::new();
    says_member(&mut out, device, device.entry(row.0)?, &payload(row.1));
    Some(out)
}

/// The words, and whether there are some.
fn in_words(device: &DeviceProfile, row: &Row) -> Option<(bool, ArrayVec<u8, SAYS_WORDS>)> {
    let mut out = ArrayVec::new();
    let told = says_words(&mut out, device, device.entry(row.0)?, &payload(row.1));
    Some((told, out))
}

#[test]
fn member_rows(rt: HostRuntime) -> Result<(), Fail> {
    let profile = Profile::from_toml(rt.alloc(), PROFILE.as_bytes())?;
    for (address, rows) in [(0x58, members()), (0x59, named_members())] {
        let device = profile.device(address).ok_or("a device")?;
        for (number, row) in rows.iter().enumerate() {
            let out = member(device, row).ok_or("a command")?;
            same(
                &rt,
                (address, "row", number),
                out.as_slice(),
                row.2.as_bytes(),
            );
        }
    }
    Ok(())
}

#[test]
fn word_rows(rt: HostRuntime) -> Result<(), Fail> {
    let profile = Profile::from_toml(rt.alloc(), PROFILE.as_bytes())?;
    for (address, rows) in [(0x58, words()), (0x59, named_words())] {
        let device = profile.device(address).ok_or("a device")?;
        for (number, row) in rows.iter().enumerate() {
            let (told, out) = in_words(device, row).ok_or("a command")?;
            same(
                &rt,
                (address, "row", number),
                (told, out.as_slice()),
                (true, row.2.as_bytes()),
            );
        }
    }
    Ok(())
}
