//! The lines of packets.

use crate::compare::same;
use crate::facts::last_fact;
use crate::object_lines::seen::{NAMED, head};
use arrayvec::ArrayVec;
use pmb_decimal::Digits;
use pmb_facts::Fact;
use pmb_json_objects::Seen;
use pmb_line::parse_line;
use pmb_log_lines::{LINE, Layout, append_log_line};
use pmb_places::Place;
use pmb_table::Profile;
use pmb_unknown_start::{Late, Start};
use std::test::Fail;

/// What is known at first, a line of what came before, a line of a transaction, its time, and the line of
/// its last part.
type Row = (
    Start,
    &'static str,
    &'static str,
    Option<&'static str>,
    &'static str,
);

/// The rows of the table. A call keeps the proof of a loop over them from carrying the table.
fn rows() -> &'static [Row] {
    &ROWS
}

// The widest name has 9 characters, the widest standard command 25 (IOUT_OC_LV_FAULT_RESPONSE), and
// of the devices only 58 has two pages.
#[rattlefmt::skip]
static ROWS: [Row; 30] = [
    (Start::AllKnown, "write 58 03", "write 58 21 00 18 pec", Some("0.25"),
        "      0.25  58  VDD_CORE   0  VOUT_COMMAND               write 12 V (VOUT_MODE 17 assumed)\n"),
    // Which page has this VOUT_MODE was not told
    (Start::AllKnown, "write 58 20 17", "write 58 21 00 18 pec", Some("0.25"),
        "      0.25  58  VDD_CORE   0  VOUT_COMMAND               write 12 V (VOUT_MODE 17 assumed)\n"),
    (Start::AllKnown, "write 58 00 01", "write 58 21 00 18", None,
        "            58  VDD_CORE   1  VOUT_COMMAND               write 1.5 V (VOUT_MODE 14 assumed)\n"),
    (Start::AllKnown, "write 58 00 ff", "write 58 21 00 18", None,
        "            58  VDD_CORE   *  VOUT_COMMAND               write 00 18 (pages differ)\n"),
    (Start::AllKnown, "write 58 00 02", "write 58 21 00 18", None,
        "            58  VDD_CORE   2  VOUT_COMMAND               write 00 18 (no such page)\n"),
    (Start::Late, "write 59 03", "write 58 21 00 18", None,
        "            58  VDD_CORE   ?  VOUT_COMMAND               write 00 18 (VOUT_MODE unknown)\n"),
    (Start::AllKnown, "write 58 20 97", "read 58 8b : 00 18", None,
        "            58  VDD_CORE   0  READ_VOUT                  12 V (VOUT_MODE 97 assumed)\n"),
    (Start::AllKnown, "write 58 20 97", "read 58 25 : cd 01", None,
        "            58  VDD_CORE   0  VOUT_MARGIN_HIGH           0.9004 of VOUT_COMMAND (VOUT_MODE 97 assumed)\n"),
    (Start::AllKnown, "write 58 20 a0", "read 58 25 : 01 00", None,
        "            58  VDD_CORE   0  VOUT_MARGIN_HIGH           01 00 (VOUT_MODE a0 relative)\n"),
    (Start::AllKnown, "write 58 20 21", "read 58 8b : 00 18", None,
        "            58  VDD_CORE   0  READ_VOUT                  00 18 (VOUT_MODE 21 VID)\n"),
    (Start::AllKnown, "write 58 20 60", "read 58 8b : 00 18", None,
        "            58  VDD_CORE   0  READ_VOUT                  0.002 V (VOUT_MODE 60 assumed)\n"),
    (Start::AllKnown, "write 58 20 60", "read 58 8b : 00 7c", None,
        "            58  VDD_CORE   0  READ_VOUT                  00 7c (not a number)\n"),
    (Start::AllKnown, "write 58 20 40", "read 58 8b : 00 18", None,
        "            58  VDD_CORE   0  READ_VOUT                  00 18 (VOUT_MODE 40 DIRECT, no coefficients)\n"),
    (Start::AllKnown, "write 59 03", "read 58 79 : 40 88", Some("12345678.125"),
        "12345678.125  58  VDD_CORE   0  STATUS_WORD                VOUT POWER_GOOD_N OFF\n"),
    (Start::AllKnown, "write 59 03", "read 58 7d : 00", None,
        "            58  VDD_CORE   0  STATUS_TEMPERATURE         no bits\n"),
    (Start::AllKnown, "write 59 03", "read 58 7d : 8f", None,
        "            58  VDD_CORE   0  STATUS_TEMPERATURE         OT_FAULT bit3 bit2 bit1 bit0\n"),
    (Start::AllKnown, "write 59 03", "write 5a 7d c0", None,
        "            5a                STATUS_TEMPERATURE         clear OT_FAULT OT_WARN\n"),
    (Start::AllKnown, "write 59 03", "write 5a 7d 00", None,
        "            5a                STATUS_TEMPERATURE         clear no bits\n"),
    (Start::AllKnown, "write 59 03", "read 5a 88 : 00 d3", Some("1"),
        "         1  5a                READ_VIN                   12 V\n"),
    (Start::AllKnown, "write 59 03", "read 5a 8d : 01 e0", None,
        "            5a                READ_TEMPERATURE_1         0.0625 degC\n"),
    (Start::AllKnown, "write 59 03", "write 5a 29 01 c0", None,
        "            5a                VOUT_SCALE_LOOP            write 0.0039\n"),
    (Start::AllKnown, "write 59 03", "read 5a 99 : 41 42", None,
        "            5a                MFR_ID                     \"AB\"\n"),
    (Start::AllKnown, "write 59 03", "read 5a 99 :", None,
        "            5a                MFR_ID                     \"\"\n"),
    (Start::AllKnown, "write 59 03", "write 5a 03 + 58 03", Some("7"),
        "         7  58  VDD_CORE      CLEAR_FAULTS               sent (part 2 of 2)\n"),
    (Start::AllKnown, "write 59 03", "call 58 1b 7a : 10", None,
        "            58  VDD_CORE      SMBALERT_MASK              call 7a, reply 10 (register 7a, mask VOUT_UV_FAULT)\n"),
    (Start::AllKnown, "write 59 03", "refused 58 03 47", Some("0.001075"),
        "  0.001075  58  VDD_CORE      CLEAR_FAULTS               refused at its error code 47: 46 is right\n"),
    (Start::AllKnown, "write 59 03", "refused 58 03 46", None,
        "            58  VDD_CORE      CLEAR_FAULTS               refused at its error code 46, which is right\n"),
    (Start::AllKnown, "write 59 03", "refused 58 21 00 18", None,
        "            58  VDD_CORE   0  VOUT_COMMAND               refused at byte 18 after 00\n"),
    (Start::AllKnown, "write 59 03", "refused 59 03 + 20", None,
        "            20                                           refused at its address (part 2 of 2)\n"),
    (Start::AllKnown, "write 59 03", "refused 58 88 read", None,
        "            58  VDD_CORE   0  READ_VIN                   refused at its read address\n"),
];

#[test]
fn each_is_told(rt: HostRuntime) -> Result<(), Fail> {
    let profile = Profile::from_toml(rt.alloc(), NAMED.as_bytes())?;
    let layout = Layout::of(&profile);
    let place = Place { line: 4, column: 5 };
    let digits = Digits::new(4).ok_or("digits")?;
    for &(start, before, line, time, wanted) in rows() {
        let mut late = Late::new(&profile, start);
        late.observe(&parse_line(&profile, before.as_bytes())?);
        let seen = Seen {
            digits,
            profile: &profile,
            late: &late,
        };
        let transaction = parse_line(&profile, line.as_bytes())?;
        let fact = Fact {
            head: head(3, place, time),
            what: last_fact(&transaction),
        };
        let mut out = ArrayVec::<u8, LINE>::new();
        append_log_line(&mut out, layout, &seen, fact);
        same(&rt, (line, before), out.as_slice(), wanted.as_bytes());
    }
    Ok(())
}
