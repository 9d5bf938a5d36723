//! What registers begin with, and what writes and notes make of them.

use crate::compare::{ensure, same};
use crate::registers::written::Step::{Holds, Lacks, Note, Page, Write};
use pmb_registers::{CmlBit, Registers};
use pmb_table::{Profile, SAMPLE};
use std::test::Fail;

/// Something is written or noted, or looked at: what a register holds on a page, that there is none,
/// and the selected page.
enum Step {
    Write(u8, &'static [u8]),
    Note(CmlBit),
    Holds(u8, u8, &'static [u8]),
    Lacks(u8, u8),
    Page(u8),
}

/// A name, a profile, the address of a device, and steps from its first state.
type Row = (&'static str, &'static str, u8, &'static [Step]);

/// The rows of the table. A call keeps the proof of a loop over them from carrying the table.
fn rows() -> &'static [Row] {
    &ROWS
}

/// A device with registers of other forms: of four and eight bytes, with status bits, and some that are
/// not read, or not written with data.
const OWN: &str = r#"[[device]]
address = 0x20
pec = "off"
pages = 2
standard = false
command = [
    { name = "PAGE" },
    { name = "CLEAR_FAULTS" },
    { name = "STATUS_CML", read = "none" },
    { code = 0xe0, write = "four", read = "four", initial = "01020304" },
    { code = 0xe1, write = "eight", read = "eight" },
    { code = 0xe2, write = "two", read = "two", kind = "status", paged = true, initial = "ffff" },
    { code = 0xe3, write = "one", read = "one", kind = "status", initial = "ff" },
    { code = 0xe4, write = "zero", read = "two", initial = "0102" },
    { code = 0xe5, write = "two" },
    { code = 0xe6, write = "zero", call = "two" },
    { code = 0xe7, write = "block", read = "block", paged = true, initial = "4142" },
    { code = 0xe8, read = "four", paged = true },
]
"#;

/// A device whose pages begin with values of their own.
const EACH: &str = r#"[[device]]
address = 0x20
pec = "off"
pages = 2
vout_mode = [0x13, 0x14]
standard = false
command = [
    { name = "PAGE" },
    { name = "VOUT_MODE" },
    { name = "VOUT_COMMAND" },
    { name = "READ_VOUT", initial = ["0018", "0010"] },
    { code = 0xe0, read = "block", paged = true, initial = ["41", ""] },
    { code = 0xe1, read = "two", initial = "0102" },
]
"#;

/// A device that keeps to WRITE_PROTECT.
const PROTECTED: &str = r#"[[device]]
address = 0x20
pec = "off"
pages = 2
protect = true
standard = false
command = [
    { name = "PAGE" },
    { name = "OPERATION" },
    { name = "ON_OFF_CONFIG" },
    { name = "CLEAR_FAULTS" },
    { name = "WRITE_PROTECT" },
    { name = "VOUT_COMMAND" },
    { name = "VOUT_MARGIN_HIGH" },
    { name = "STATUS_CML" },
]
"#;

#[rattlefmt::skip]
static ROWS: [Row; 15] = [
    ("the first values of the sample", SAMPLE, 0x58, &[
        Holds(0, 0x00, b"\x00"), Lacks(0, 0x03), Holds(0, 0x20, b"\x17"), Holds(1, 0x20, b"\x17"),
        Holds(0, 0x21, b"\x00\x00"), Lacks(2, 0x21), Lacks(0, 0x30), Holds(0, 0x88, b"\x00\xd3"),
        Holds(1, 0x88, b"\x00\xd3"), Holds(0, 0x99, b""), Lacks(0, 0xc8),
        Holds(0, 0xd0, b"\x00\x00"),
    ]),
    ("the first values of other forms", OWN, 0x20, &[
        Holds(1, 0x7e, b"\x00"), Holds(0, 0xe0, b"\x01\x02\x03\x04"),
        Holds(1, 0xe0, b"\x01\x02\x03\x04"), Lacks(2, 0xe0), Lacks(0xff, 0xe0),
        Holds(0, 0xe1, b"\x00\x00\x00\x00\x00\x00\x00\x00"), Holds(1, 0xe2, b"\xff\xff"),
        Holds(0, 0xe3, b"\xff"), Holds(0, 0xe4, b"\x01\x02"), Holds(0, 0xe5, b"\x00\x00"),
        Lacks(0, 0xe6), Holds(1, 0xe7, b"AB"), Holds(0, 0xe8, b"\x00\x00\x00\x00"),
        Holds(1, 0xe8, b"\x00\x00\x00\x00"),
    ]),
    ("the first values of each page", EACH, 0x20, &[
        Holds(0, 0x20, b"\x13"), Holds(1, 0x20, b"\x14"), Lacks(2, 0x20),
        Holds(1, 0x21, b"\x00\x00"), Holds(0, 0x8b, b"\x00\x18"), Holds(1, 0x8b, b"\x00\x10"),
        Holds(0, 0xe0, b"A"), Holds(1, 0xe0, b""), Holds(1, 0xe1, b"\x01\x02"),
        Write(0x00, b"\x01"), Write(0x20, b"\x15"), Holds(0, 0x20, b"\x13"),
        Holds(1, 0x20, b"\x15"),
    ]),
    ("a register that is not paged is written for each page", OWN, 0x20, &[
        Write(0x00, b"\x01"), Write(0xe0, b"\x05\x06\x07\x08"),
        Holds(0, 0xe0, b"\x05\x06\x07\x08"), Holds(1, 0xe0, b"\x05\x06\x07\x08"),
        Write(0xe1, b"\x01\x02\x03\x04\x05\x06\x07\x08"),
        Holds(0, 0xe1, b"\x01\x02\x03\x04\x05\x06\x07\x08"), Write(0xe7, b"C"),
        Holds(0, 0xe7, b"AB"), Holds(1, 0xe7, b"C"),
    ]),
    ("some writes and notes change nothing", OWN, 0x20, &[
        Write(0xe4, b""), Holds(0, 0xe4, b"\x01\x02"), Write(0xe6, b""), Lacks(0, 0xe6),
        Note(CmlBit::BadCommand), Holds(0, 0x7e, b"\x00"),
    ]),
    ("status bits are cleared where 1 is written", OWN, 0x20, &[
        Write(0xe2, b"\x0f\x01"), Write(0xe3, b"\x80"), Holds(0, 0xe2, b"\xf0\xfe"),
        Holds(1, 0xe2, b"\xff\xff"), Holds(1, 0xe3, b"\x7f"), Write(0x03, b""),
        Holds(0, 0xe2, b"\x00\x00"), Holds(1, 0xe2, b"\xff\xff"), Holds(1, 0xe3, b"\x00"),
        Write(0x00, b"\xff"), Write(0x03, b""), Holds(1, 0xe2, b"\x00\x00"),
        Holds(0, 0xe0, b"\x01\x02\x03\x04"),
    ]),
    ("a write is of the selected page", SAMPLE, 0x58, &[
        Write(0x21, b"\x00\x18"), Holds(0, 0x21, b"\x00\x18"), Holds(1, 0x21, b"\x00\x00"),
        Write(0x00, b"\x01"), Page(1), Holds(0, 0x00, b"\x01"), Write(0x21, b"\x00\x19"),
        Holds(0, 0x21, b"\x00\x18"), Holds(1, 0x21, b"\x00\x19"), Write(0x00, b"\xff"),
        Write(0x21, b"\x00\x1a"), Holds(0, 0x21, b"\x00\x1a"), Holds(1, 0x21, b"\x00\x1a"),
    ]),
    ("a block may be empty", SAMPLE, 0x5a, &[
        Write(0x99, b"A"), Holds(0, 0x99, b"A"), Write(0x99, b""), Holds(0, 0x99, b""),
    ]),
    ("a bit that is noted is cleared by writing it", SAMPLE, 0x58, &[
        Note(CmlBit::PecFailed), Holds(0, 0x7e, b"\x20"), Note(CmlBit::BadCommand),
        Holds(0, 0x7e, b"\xa0"), Write(0x7e, b"\x20"), Holds(0, 0x7e, b"\x80"),
        Holds(1, 0x7e, b"\x00"),
    ]),
    ("CLEAR_FAULTS is of the selected page", SAMPLE, 0x58, &[
        Write(0x00, b"\xff"), Write(0x21, b"\x00\x18"), Note(CmlBit::BadValue),
        Holds(0, 0x7e, b"\x40"), Holds(1, 0x7e, b"\x40"), Write(0x00, b"\x01"), Write(0x03, b""),
        Holds(0, 0x7e, b"\x40"), Holds(1, 0x7e, b"\x00"), Holds(1, 0x21, b"\x00\x18"),
    ]),
    ("80h leaves WRITE_PROTECT alone to be written", PROTECTED, 0x20, &[
        Write(0x10, b"\x80"), Holds(1, 0x10, b"\x80"), Write(0x01, b"\x80"),
        Holds(0, 0x01, b"\x00"), Holds(0, 0x7e, b"\x40"), Holds(1, 0x7e, b"\x00"),
        Write(0x00, b"\x01"), Page(0), Holds(0, 0x00, b"\x00"), Write(0x7e, b"\x40"),
        Write(0x03, b""), Holds(0, 0x7e, b"\x40"), Write(0x10, b"\x00"), Holds(0, 0x10, b"\x00"),
        Write(0x7e, b"\x40"), Holds(0, 0x7e, b"\x00"), Write(0x01, b"\x80"),
        Holds(0, 0x01, b"\x80"),
    ]),
    ("40h leaves OPERATION and PAGE too", PROTECTED, 0x20, &[
        Write(0x10, b"\x40"), Write(0x00, b"\x01"), Page(1), Write(0x01, b"\x80"),
        Holds(1, 0x01, b"\x80"), Holds(1, 0x7e, b"\x00"), Write(0x02, b"\x1f"),
        Holds(1, 0x02, b"\x00"), Holds(1, 0x7e, b"\x40"), Holds(0, 0x7e, b"\x00"),
        Write(0x21, b"\x00\x18"), Holds(1, 0x21, b"\x00\x00"),
    ]),
    ("20h leaves ON_OFF_CONFIG and VOUT_COMMAND too", PROTECTED, 0x20, &[
        Write(0x10, b"\x20"), Write(0x02, b"\x1f"), Holds(0, 0x02, b"\x1f"),
        Write(0x21, b"\x00\x18"), Holds(0, 0x21, b"\x00\x18"), Holds(0, 0x7e, b"\x00"),
        Write(0x25, b"\x00\x1a"), Holds(0, 0x25, b"\x00\x00"), Holds(0, 0x7e, b"\x40"),
    ]),
    ("WRITE_PROTECT takes its four values alone", PROTECTED, 0x20, &[
        Write(0x10, b"\x01"), Holds(0, 0x10, b"\x00"), Holds(0, 0x7e, b"\x40"),
        Write(0x10, b"\x20"), Write(0x10, b"\xc0"), Write(0x10, b""), Holds(0, 0x10, b"\x20"),
    ]),
    ("a device that is not asked to keeps to nothing", SAMPLE, 0x58, &[
        Write(0x10, b"\x80"), Write(0x21, b"\x00\x18"), Holds(0, 0x21, b"\x00\x18"),
        Write(0x10, b"\x01"), Holds(0, 0x10, b"\x01"), Holds(0, 0x7e, b"\x00"),
    ]),
];

/// Takes a step; false where registers hold something else than it says, and for a write of more bytes
/// than a packet has.
fn take(registers: &mut Registers<'_>, step: &Step) -> bool {
    match step {
        Write(code, bytes) => {
            let fits = bytes.len() <= 255;
            if fits {
                registers.write(*code, bytes);
            }
            fits
        }
        Note(bit) => {
            registers.note(*bit);
            true
        }
        Holds(page, code, held) => registers.register(*page, *code) == Some(*held),
        Lacks(page, code) => registers.register(*page, *code).is_none(),
        Page(page) => registers.page() == *page,
    }
}

#[test]
fn each_row_takes_its_steps(rt: HostRuntime) -> Result<(), Fail> {
    for &(name, text, address, steps) in rows() {
        let profile = Profile::from_toml(rt.alloc(), text.as_bytes()).map_err(|_| "profile")?;
        let device = profile.device(address).ok_or("no device")?;
        let mut registers = Registers::new(rt.alloc(), device)?;
        for (number, step) in steps.iter().enumerate() {
            ensure(&rt, (name, "step", number), take(&mut registers, step));
        }
    }
    Ok(())
}

#[test]
fn each_bit_has_its_value(rt: HostRuntime) -> Result<(), Fail> {
    same(&rt, "BadCommand", CmlBit::BadCommand.value(), 0x80);
    same(&rt, "BadValue", CmlBit::BadValue.value(), 0x40);
    same(&rt, "PecFailed", CmlBit::PecFailed.value(), 0x20);
    Ok(())
}
