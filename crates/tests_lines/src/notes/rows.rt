//! Each kind of transaction and of command, written and read, and output voltages by VOUT_MODE.

use crate::compare::ensure;
use crate::notes::says::{Row, rows_of, said};
use pmb_table::{Profile, SAMPLE};
use std::test::Fail;

/// A device with commands of each kind, which are read with two bytes and written without data; one
/// with coefficients for output voltages; one whose VOUT_MODE is not paged.
const KINDS: &str = r#"
[[device]]
address = 0x10
pec = "optional"
command = [
    { code = 0xe0, write = "four", read = "four" },
    { code = 0xe1, read = "eight" },
    { code = 0xe2, write = "zero", read = "two" },
    { code = 0xe3, write = "zero", read = "two", kind = "linear11" },
    { code = 0xe4, write = "zero", read = "two", kind = "linear11", exponent = -3 },
    { code = 0xe5, write = "zero", read = "two", kind = "vout" },
    { code = 0xe6, write = "zero", read = "two", kind = "vout_signed" },
    { code = 0xe7, write = "zero", read = "two", kind = "direct", m = 3, b = 2, r = 1 },
    { code = 0xe8, write = "zero", read = "two", kind = "status" },
    { code = 0xe9, write = "zero", read = "one", kind = "status" },
    { name = "VIN_ON", exponent = -3 },
]

[[device]]
address = 0x11
pec = "off"
vout_mode = 0x40
vout_direct = { m = 3, b = 2, r = 1 }

[[device]]
address = 0x12
pec = "off"
pages = 2
command = [{ name = "VOUT_MODE", paged = false }]
"#;

#[rattlefmt::skip]
static SAMPLES: [Row; 59] = [
    // Each kind of transaction.
    (&[], "write 58 21 00 18 pec", "VOUT_COMMAND 12"),
    (&[], "write 58 21 00 18", "VOUT_COMMAND 12"),
    (&[], "read 58 88 : 00 d3 pec", "READ_VIN 12"),
    (&[], "refused 58 03 47", "byte refused"),
    (&[], "refused 58 21 00 18 00", "byte refused"),
    (&[], "refused 58 03", "code refused"),
    (&[], "refused 20", "address refused"),
    (&[], "refused 58", "address refused"),
    (&[], "refused 58 88 read", "read address refused"),
    (&[], "refused 59 03 + 58 03 47", "CLEAR_FAULTS + byte refused"),
    (&[], "refused 58 21 00 18 + 5a 21 00 18 pec + 59", "VOUT_COMMAND 12 + VOUT_COMMAND 12 + address refused"),
    (&[], "write 58 03 + 59 03", "CLEAR_FAULTS + CLEAR_FAULTS"),
    (&[], "write 58 22 ff ff + 59 7e 00 + 5a 10 80 pec", "VOUT_TRIM -0.001953125 + STATUS_CML none + WRITE_PROTECT"),
    (&[], "write 5a 03 pec", "CLEAR_FAULTS"),
    (&[], "read 58 99 :", "MFR_ID"),
    (&[], "read 58 99 : pec", "MFR_ID"),
    (&[], "read 58 99 : 41 42", "MFR_ID"),
    (&[], "write 58 1b 01 7a", "SMBALERT_MASK"),
    (&[], "call 58 1b 7a : 10", "SMBALERT_MASK"),
    (&[], "call 58 30 d0 01 : 03 00 02 00 01", "COEFFICIENTS"),
    (&[], "alert b0", "device 58"),
    (&[], "alert b1 pec", "device 58"),
    (&[], "alert 00", "device 00"),
    (&[], "alert ff", "device 7f"),
    (&[], "alert 15", "device 0a"),
    (&[], "alert none", "no device"),
    // Status registers.
    (&[], "read 58 79 : 40 88", "STATUS_WORD VOUT POWER_GOOD_N OFF"),
    (&[], "read 58 7e : 26", "STATUS_CML PEC_FAILED bit2 OTHER_COMM"),
    (&[], "write 58 7e 40", "STATUS_CML BAD_VALUE"),
    // Numbers that are exact.
    (&[], "write 58 d0 32 00", "RATIO 1"),
    (&[], "read 58 d0 : 00 00", "RATIO -2/3"),
    (&[], "read 58 d0 : 01 00", "RATIO -19/30"),
    (&[], "read 58 88 : 01 00", "READ_VIN 1"),
    (&[], "read 58 88 : 01 80", "READ_VIN 0.0000152587890625"),
    (&[], "read 58 88 : ff 7b", "READ_VIN 33521664"),
    (&[], "read 58 88 : 00 04", "READ_VIN -1024"),
    (&[], "write 58 22 ff ff", "VOUT_TRIM -0.001953125"),
    (&[], "read 58 8b : ff ff", "READ_VOUT 127.998046875"),
    // By VOUT_MODE, once it is told.
    (&[], "write 58 20 14", "VOUT_MODE"),
    (&["write 58 20 14"], "write 58 21 00 18", "VOUT_COMMAND 1.5"),
    (&["write 58 20 14"], "read 58 8b : 00 18", "READ_VOUT 1.5"),
    (&["write 58 20 14"], "write 59 21 00 18", "VOUT_COMMAND 12"),
    (&["read 58 20 : 14"], "write 58 21 00 18", "VOUT_COMMAND 1.5"),
    (&["write 58 20 14"], "write 58 22 ff ff", "VOUT_TRIM -0.000244140625"),
    (&["write 58 20 0f"], "write 58 21 01 00", "VOUT_COMMAND 32768"),
    // Under each fault of VOUT_MODE.
    (&["write 58 20 97"], "write 58 21 00 18", "VOUT_COMMAND raw"),
    (&["write 58 20 37"], "write 58 21 00 18", "VOUT_COMMAND raw"),
    (&["write 58 20 77"], "write 58 21 00 18", "VOUT_COMMAND raw"),
    (&["write 58 20 40"], "write 58 21 00 18", "VOUT_COMMAND raw"),
    (&["write 58 20 97"], "write 58 22 ff ff", "VOUT_TRIM raw"),
    // By the VOUT_MODE of the selected page, where it has one.
    (&[], "write 58 00 01 + 59 21 00 18", "PAGE + VOUT_COMMAND 12"),
    (&["write 58 20 14", "write 58 00 01"], "write 58 21 00 18", "VOUT_COMMAND 12"),
    (&["write 58 00 ff"], "write 58 21 00 18", "VOUT_COMMAND 12"),
    (&["write 58 20 14", "write 58 00 ff"], "write 58 21 00 18", "VOUT_COMMAND raw"),
    (&["write 59 20 14", "write 59 00 ff"], "write 59 21 00 18", "VOUT_COMMAND 1.5"),
    (&["write 58 00 05"], "write 58 21 00 18", "VOUT_COMMAND raw"),
    (&["refused 58 00 05"], "write 58 21 00 18", "VOUT_COMMAND 12"),
    // Another number is not read by VOUT_MODE.
    (&["write 58 20 97"], "read 58 88 : 00 d3", "READ_VIN 12"),
    (&["write 58 20 97"], "write 58 20 17", "VOUT_MODE"),
];

#[test]
fn notes_of_the_sample(rt: HostRuntime) -> Result<(), Fail> {
    let profile = Profile::from_toml(rt.alloc(), SAMPLE.as_bytes())?;
    for row in rows_of(&SAMPLES) {
        let note = said(&profile, row.0, row.1.as_bytes());
        ensure(&rt, ("at", row.1), note.as_slice() == row.2.as_bytes());
    }
    Ok(())
}

#[rattlefmt::skip]
static OTHERS: [Row; 32] = [
    // Each kind of command, with two bytes, and with none.
    (&[], "write 10 e0 01 02 03 04 pec", "CMD_e0"),
    (&[], "read 10 e1 : 01 02 03 04 05 06 07 08", "CMD_e1"),
    (&[], "read 10 e2 : 00 d3", "CMD_e2"),
    (&[], "write 10 e2", "CMD_e2"),
    (&[], "read 10 e3 : 00 d3", "CMD_e3 12"),
    (&[], "write 10 e3", "CMD_e3"),
    (&[], "read 10 e4 : 60 e8", "CMD_e4 12"),
    (&[], "read 10 e4 : 00 d3", "CMD_e4 12"),
    (&[], "write 10 e4", "CMD_e4"),
    (&[], "write 10 35 60 e8", "VIN_ON 12"),
    (&[], "read 10 35 : 01 e8", "VIN_ON 0.125"),
    (&[], "read 10 e5 : ff ff", "CMD_e5 127.998046875"),
    (&[], "write 10 e5", "CMD_e5"),
    (&["write 10 20 97"], "read 10 e5 : ff ff", "CMD_e5 raw"),
    (&["write 10 20 97"], "write 10 e5", "CMD_e5"),
    (&[], "read 10 e6 : ff ff", "CMD_e6 -0.001953125"),
    (&[], "write 10 e6", "CMD_e6"),
    (&[], "read 10 e7 : 32 00", "CMD_e7 1"),
    (&[], "write 10 e7", "CMD_e7"),
    (&[], "read 10 e8 : 01 80", "CMD_e8 bit15 bit0"),
    (&[], "read 10 e8 : 00 00", "CMD_e8 none"),
    (&[], "write 10 e8", "CMD_e8"),
    (&[], "read 10 e9 : 81", "CMD_e9 bit7 bit0"),
    (&[], "read 10 e9 : 00", "CMD_e9 none"),
    (&[], "write 10 e9", "CMD_e9"),
    // DIRECT by VOUT_MODE.
    (&[], "write 11 21 32 00", "VOUT_COMMAND 1"),
    (&[], "write 11 22 32 00", "VOUT_TRIM 1"),
    (&["write 11 20 5f"], "write 11 21 32 00", "VOUT_COMMAND 1"),
    (&["write 11 20 14"], "write 11 21 00 18", "VOUT_COMMAND 1.5"),
    // One VOUT_MODE for all pages.
    (&["write 12 00 01", "write 12 20 14", "write 12 00 00"], "write 12 21 00 18", "VOUT_COMMAND 1.5"),
    (&["write 12 00 05", "write 12 20 14", "write 12 00 00"], "write 12 21 00 18", "VOUT_COMMAND 1.5"),
    (&["write 12 20 14", "write 12 00 05"], "write 12 21 00 18", "VOUT_COMMAND raw"),
];

#[test]
fn notes_of_each_kind(rt: HostRuntime) -> Result<(), Fail> {
    let profile = Profile::from_toml(rt.alloc(), KINDS.as_bytes())?;
    for row in rows_of(&OTHERS) {
        let note = said(&profile, row.0, row.1.as_bytes());
        ensure(&rt, ("at", row.1), note.as_slice() == row.2.as_bytes());
    }
    Ok(())
}
