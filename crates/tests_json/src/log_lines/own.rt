//! The lines of packets to a device of which the profile says what its data mean.

use crate::compare::same;
use crate::facts::last_fact;
use crate::object_lines::seen::{head, seen};
use arrayvec::ArrayVec;
use pmb_facts::Fact;
use pmb_line::parse_line;
use pmb_log_lines::{LINE, Layout, append_log_line};
use pmb_places::Place;
use pmb_table::Profile;
use pmb_unknown_start::{Late, Start};
use std::test::Fail;

/// A device of six phases, with a unit, names of bits, a text of its own, and commands that are the
/// standard's.
const OWN: &str = r#"[[device]]
address = 0x60
pec = "off"
phases = 6
standard = false
command = [
    { name = "OPERATION" },
    { name = "PHASE" },
    { name = "SMBALERT_MASK" },
    { name = "STATUS_MFR_SPECIFIC", bits = { 0 = "FUSE", 7 = "WATCHDOG" } },
    { name = "READ_VIN", kind = "direct", m = 1, b = 0, r = 0, unit = "mV" },
    { name = "READ_IOUT" },
    { name = "MFR_SERIAL" },
    { code = 0xd0, name = "NICKNAME", write = "block", kind = "text", phased = true },
]
"#;

/// A line of what came before, a line of a transaction, and the line of its last part.
type Row = (&'static str, &'static str, &'static str);

/// The rows of the table. A call keeps the proof of a loop over them from carrying the table.
fn rows() -> &'static [Row] {
    &ROWS
}

#[rattlefmt::skip]
static ROWS: [Row; 14] = [
    ("write 60 04 03", "read 60 88 : 10 00",
        "            60  READ_VIN             16 mV\n"),
    ("write 60 04 03", "read 60 80 : 83",
        "            60  STATUS_MFR_SPECIFIC  WATCHDOG bit1 FUSE\n"),
    ("write 60 04 03", "write 60 80 81",
        "            60  STATUS_MFR_SPECIFIC  clear WATCHDOG FUSE\n"),
    ("write 60 04 03", "write 60 9e 53 4e 22 5c",
        "            60  MFR_SERIAL           write \"SN\\u0022\\u005c\"\n"),
    ("write 60 04 03", "read 60 9e :",
        "            60  MFR_SERIAL           \"\"\n"),
    ("write 60 04 03", "read 60 9e : 00 41",
        "            60  MFR_SERIAL           00 41\n"),
    ("write 60 04 03", "write 60 01 80",
        "            60  OPERATION            write 80 (output on, turn_off immediate, voltage_source VOUT_COMMAND, transition keep)\n"),
    ("write 60 04 03", "call 60 1b 80 : 81",
        "            60  SMBALERT_MASK        call 80, reply 81 (register 80, mask WATCHDOG FUSE)\n"),
    ("read 60 88 : 10 00", "read 60 8c : 01 00",
        "            60  READ_IOUT            1 A (phase unknown)\n"),
    ("write 60 04 03", "read 60 8c : 01 00",
        "            60  READ_IOUT            1 A (phase 3)\n"),
    ("read 60 04 : 09", "read 60 8c : 01 00",
        "            60  READ_IOUT            1 A (phase 9)\n"),
    ("write 60 04 ff", "read 60 8c : 01 00",
        "            60  READ_IOUT            1 A (all phases)\n"),
    ("write 60 04 03", "write 60 d0 41 42",
        "            60  NICKNAME             write \"AB\" (phase 3)\n"),
    ("write 60 04 03", "write 60 d0",
        "            60  NICKNAME             sent\n"),
];

#[test]
fn each_is_told(rt: HostRuntime) -> Result<(), Fail> {
    let profile = Profile::from_toml(rt.alloc(), OWN.as_bytes())?;
    let layout = Layout::of(&profile);
    let place = Place { line: 4, column: 5 };
    for &(before, line, wanted) in rows() {
        let mut late = Late::new(&profile, Start::AllKnown);
        late.observe(&parse_line(&profile, before.as_bytes())?);
        let transaction = parse_line(&profile, line.as_bytes())?;
        let fact = Fact {
            head: head(3, place, None),
            what: last_fact(&transaction),
        };
        let mut out = ArrayVec::<u8, LINE>::new();
        append_log_line(&mut out, layout, &seen(&profile, &late), fact);
        same(&rt, (line, before), out.as_slice(), wanted.as_bytes());
    }
    Ok(())
}
