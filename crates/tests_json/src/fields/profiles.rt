//! Units of numbers, names of bits, and texts, of commands as a profile tells them, told by hand.

use crate::compare::same;
use crate::fields::says::{joined, said_of, under};
use pmb_json_fields::Access::{Read, Write};
use pmb_json_fields::Basis::{Assumed, Told};
use pmb_json_fields::{Access, Basis};
use pmb_table::Profile;
use pmb_unknown_start::KnownMode;
use std::test::Fail;

/// VOUT_MODE and what it rests on, whether data are read or written, the command's code, the bytes, and
/// what is said.
type Row = (u8, Basis, Access, u8, &'static [u8], &'static str);

/// The rows of the table. A call keeps the proof of a loop over them from carrying the table.
fn rows() -> &'static [Row] {
    &ROWS
}

/// The unit of d2h and the first name of d0h are as long as they may be.
static PROFILE: &str = r#"[[device]]
address = 0x10
pec = "off"
vout_mode = 0x17
command = [
    { name = "READ_VIN", unit = "mV" },
    { code = 0x89, read = "two", kind = "linear11" },
    { name = "READ_IOUT", kind = "linear11" },
    { code = 0xd2, read = "two", kind = "half", unit = 'a"b\c d/e~f 1234' },
    { code = 0xd3, read = "two", kind = "vout", unit = "rail" },
    { name = "STATUS_WORD", bits = { 15 = "RAIL", 0 = "WATCHDOG" } },
    { code = 0xd0, write = "one", read = "one", kind = "status", bits = { 7 = "A_NAME_OF_32_CHARACTERS_FOR_BIT7", 3 = "FUSE" } },
    { code = 0x7b, read = "one", kind = "status", bits = { 6 = "LOW" } },
    { code = 0xd1, write = "four", read = "four", kind = "text" },
    { code = 0x9a, read = "block" },
    { name = "MFR_SERIAL", write = "zero" },
    { name = "MFR_DATE", write = "none", read = "four" },
]
"#;

#[rattlefmt::skip]
static ROWS: [Row; 41] = [
    // the unit of a number: the standard's, the profile's, or none
    (0x17, Told, Read, 0x8d, &[0x1a, 0x00], r#","value":"26","number":26,"unit":"degC""#),
    (0x17, Told, Write, 0x33, &[0x64, 0x00], r#","value":"100","number":100,"unit":"kHz""#),
    (0x17, Told, Read, 0x88, &[0x01, 0x00], r#","value":"1","number":1,"unit":"mV""#),
    (0x17, Told, Read, 0x89, &[0x01, 0x00], r#","value":"1","number":1"#),
    (0x17, Told, Read, 0x8c, &[0x01, 0x00], r#","value":"1","number":1"#),
    (0x17, Told, Read, 0xd2, &[0x00, 0x3c], r#","value":"1","number":1,"unit":"a\u0022b\u005cc d/e~f 1234""#),
    (0x17, Told, Read, 0x88, &[0x01], ""),
    (0x17, Told, Read, 0xd2, &[0x00, 0x7c], r#","raw":"nan""#),
    // .. of an output voltage, after the mark of its VOUT_MODE; never of a factor, nor where there is no value
    (0x17, Told, Read, 0x8b, &[0x00, 0x18], r#","value":"12","number":12,"unit":"V""#),
    (0x17, Assumed, Read, 0x8b, &[0x00, 0x18], r#","value":"12","number":12,"mode":"assumed","unit":"V""#),
    (0x17, Assumed, Read, 0xd3, &[0x00, 0x18], r#","value":"12","number":12,"mode":"assumed","unit":"rail""#),
    (0x17, Told, Write, 0x22, &[0x00, 0xe8], r#","value":"-12","number":-12,"unit":"V""#),
    (0x17, Told, Write, 0x25, &[0x00, 0x01], r#","value":"0.5","number":0.5,"unit":"V""#),
    (0x97, Told, Write, 0x25, &[0x00, 0x01], r#","ratio":"0.5""#),
    (0x97, Assumed, Write, 0x25, &[0x00, 0x01], r#","ratio":"0.5","mode":"assumed""#),
    (0x97, Told, Write, 0x21, &[0x00, 0x01], r#","value":"0.5","number":0.5,"unit":"V""#),
    (0x20, Told, Read, 0x8b, &[0x00, 0x18], r#","raw":"vid""#),
    (0x60, Assumed, Read, 0x8b, &[0x00, 0x7c], r#","raw":"nan""#),
    // bits: the profile's names, else the standard's, else numbers
    (0x17, Told, Read, 0x79, &[0x01, 0xc0], r#","bits":["RAIL","IOUT_POUT","WATCHDOG"]"#),
    (0x17, Told, Write, 0x79, &[0x01, 0xc0], r#","clears":["RAIL","IOUT_POUT","WATCHDOG"]"#),
    (0x17, Told, Read, 0x78, &[0x81], r#","bits":["BUSY","NONE_OF_THE_ABOVE"]"#),
    (0x17, Told, Read, 0xd0, &[0x8c], r#","bits":["A_NAME_OF_32_CHARACTERS_FOR_BIT7","FUSE","bit2"]"#),
    (0x17, Told, Write, 0xd0, &[0x00], r#","clears":[]"#),
    (0x17, Told, Read, 0x7b, &[0xc0], r#","bits":["IOUT_OC_FAULT","LOW"]"#),
    // texts: of the kind, and blocks of the standard's commands
    (0x17, Told, Read, 0xd1, b"ACME", r#","text":"ACME""#),
    (0x17, Told, Write, 0xd1, b" ~}|", r#","text":" ~}|""#),
    (0x17, Told, Read, 0xd1, b"ACM\0", ""),
    (0x17, Told, Read, 0xd1, b"ACM\x7f", ""),
    (0x17, Told, Read, 0x99, b"ACME", r#","text":"ACME""#),
    (0x17, Told, Write, 0x99, b"A\"B\\C", r#","text":"A\u0022B\u005cC""#),
    (0x17, Told, Read, 0x99, b"", r#","text":"""#),
    (0x17, Told, Read, 0x99, b"A\x1f", ""),
    (0x17, Told, Read, 0xad, b"2", r#","text":"2""#),
    // an own command with the code of one, and those of another form
    (0x17, Told, Read, 0x9a, b"ACME", ""),
    (0x17, Told, Read, 0x9d, b"2026", ""),
    (0x17, Told, Read, 0x9e, b"", r#","text":"""#),
    (0x17, Told, Write, 0x9e, b"", ""),
    // printable bytes of other commands
    (0x17, Told, Read, 0xb0, b"ACME", ""),
    (0x17, Told, Read, 0x88, b"AC", r#","value":"213248","number":213248,"unit":"mV""#),
    (0x17, Told, Read, 0x78, b"A", r#","bits":["OFF","NONE_OF_THE_ABOVE"]"#),
    (0x17, Told, Write, 0x01, b"@", ""),
];

#[test]
fn commands_of_a_profile(rt: HostRuntime) -> Result<(), Fail> {
    let profile = Profile::from_toml(rt.alloc(), PROFILE.as_bytes())?;
    let device = profile.device(0x10).ok_or("a device")?;
    for &(mode, basis, access, code, bytes, members) in rows() {
        let command = device.command(code).ok_or("a command")?;
        let mut case = under(KnownMode::Known(mode), None);
        case.basis = basis;
        case.access = access;
        let text = said_of(&case, None, command, bytes);
        let wanted = joined(&[members]);
        same(
            &rt,
            (access, code, bytes),
            text.as_slice(),
            wanted.as_slice(),
        );
    }
    Ok(())
}
