//! What is known of VOUT_MODE after writes that set it unseen, and whether it is assumed.

use crate::compare::{ensure, same};
use pmb_line::parse_line;
use pmb_table::Profile;
use pmb_unknown_start::KnownMode::{Known, NoPage, Unknown};
use pmb_unknown_start::Start::{AllKnown, Late, LateFixedMode};
use pmb_unknown_start::{KnownMode, Start};
use std::test::Fail;

/// What is known at first, lines, an address, what is known of its VOUT_MODE after them, and whether
/// that is assumed.
type Row = (Start, &'static str, u8, KnownMode, bool);

/// The rows of the table. A call keeps the proof of a loop over them from carrying the table.
fn rows() -> &'static [Row] {
    &ROWS
}

/// 58h has two pages, 59h one, and 5ah two with one VOUT_MODE for both. At 5bh a command of the maker
/// has the code 12h, and 13h the name of a restore.
static PROFILE: &str = r#"[[device]]
address = 0x58
pec = "optional"
pages = 2
vout_mode = 0x17

[[device]]
address = 0x59
pec = "off"
vout_mode = 0x13

[[device]]
address = 0x5a
pec = "off"
pages = 2
vout_mode = 0x14

[[device.command]]
name = "VOUT_MODE"
paged = false

[[device]]
address = 0x5b
pec = "off"
vout_mode = 0x13

[[device.command]]
name = "MFR_12"
code = 0x12
write = "two"
read = "two"
paged = false

[[device.command]]
name = "RESTORE_ALL"
code = 0x13
write = "zero"
paged = false
"#;

/// Lines under the profile.
#[rattlefmt::skip]
static ROWS: [Row; 60] = [
    // Each restore, on a device with one page.
    (Late, "write 59 20 14\nwrite 59 12", 0x59, Unknown, true),
    (Late, "write 59 20 14\nwrite 59 14 20", 0x59, Unknown, true),
    (Late, "write 59 20 14\nwrite 59 16", 0x59, Unknown, true),
    (Late, "write 59 20 14\nwrite 59 18 8b", 0x59, Unknown, true),
    (AllKnown, "write 59 20 14\nwrite 59 12", 0x59, Known(0x14), true),
    (AllKnown, "write 59 20 14\nwrite 59 14 20", 0x59, Known(0x14), true),
    (AllKnown, "write 59 20 14\nwrite 59 16", 0x59, Known(0x14), true),
    (AllKnown, "write 59 20 14\nwrite 59 18 8b", 0x59, Known(0x14), true),
    (LateFixedMode, "write 59 20 14\nwrite 59 12", 0x59, Known(0x14), true),
    (LateFixedMode, "write 59 12", 0x59, Known(0x13), true),
    (LateFixedMode, "write 59 18 8b", 0x59, Known(0x13), true),
    // VOUT_MODE is told again afterwards.
    (Late, "write 59 12\nwrite 59 20 14", 0x59, Known(0x14), false),
    (AllKnown, "write 59 12\nread 59 20 : 14", 0x59, Known(0x14), false),
    // The commands between these codes, and a STORE, restore nothing.
    (Late, "write 59 20 14\nwrite 59 11", 0x59, Known(0x14), false),
    (Late, "write 59 20 14\nwrite 59 15", 0x59, Known(0x14), false),
    (Late, "write 59 20 14\nwrite 59 17 20", 0x59, Known(0x14), false),
    (Late, "write 59 20 14\nwrite 59 03", 0x59, Known(0x14), false),
    // Each page of that device, and no other device. PAGE stays known.
    (Late, "write 58 00 ff\nwrite 58 20 14\nwrite 58 12", 0x58, Unknown, true),
    (Late, "write 58 00 ff\nwrite 58 20 14\nwrite 58 00 01\nwrite 58 12", 0x58, Unknown, true),
    (Late, "write 58 00 ff\nwrite 58 20 14\nwrite 58 12\nwrite 58 00 01", 0x58, Unknown, true),
    (Late, "write 58 00 01\nwrite 58 12\nwrite 58 20 14", 0x58, Known(0x14), false),
    (Late, "write 58 00 02\nwrite 58 12", 0x58, NoPage, false),
    (Late, "write 5a 20 13\nwrite 5a 16", 0x5a, Unknown, true),
    (Late, "write 59 20 14\nwrite 58 12", 0x59, Known(0x14), false),
    (AllKnown, "write 59 20 14\nwrite 58 12", 0x59, Known(0x14), false),
    // By the code, whatever its name.
    (Late, "write 5b 20 14\nwrite 5b 12 00 01", 0x5b, Unknown, true),
    (Late, "write 5b 20 14\nwrite 5b 13", 0x5b, Known(0x14), false),
    // A read with a code of these restores nothing.
    (Late, "write 5b 20 14\nread 5b 12 : 00 01", 0x5b, Known(0x14), false),
    (AllKnown, "write 5b 20 14\nread 5b 12 : 00 01", 0x5b, Known(0x14), false),
    // PAGE_PLUS_WRITE of VOUT_MODE, and of another command.
    (Late, "write 59 20 14\nwrite 59 05 00 20 17", 0x59, Unknown, true),
    (AllKnown, "write 59 20 14\nwrite 59 05 00 20 17", 0x59, Known(0x14), true),
    (LateFixedMode, "write 59 05 00 20 17", 0x59, Known(0x13), true),
    (Late, "write 58 00 ff\nwrite 58 20 14\nwrite 58 05 01 20 17\nwrite 58 00 00", 0x58, Unknown, true),
    (Late, "write 59 20 14\nwrite 59 05 00 21 00 20", 0x59, Known(0x14), false),
    (Late, "write 59 20 14\nwrite 59 05 20 21 00 20", 0x59, Known(0x14), false),
    (Late, "write 59 20 14\nwrite 59 05 20 00 17", 0x59, Known(0x14), false),
    (Late, "write 59 20 14\nwrite 59 05 20", 0x59, Known(0x14), false),
    (Late, "write 59 20 14\nwrite 59 05 00 20", 0x59, Unknown, true),
    // .. or a restore by it.
    (Late, "write 59 20 14\nwrite 59 05 00 12", 0x59, Unknown, true),
    (AllKnown, "write 59 20 14\nwrite 59 05 00 14 20", 0x59, Known(0x14), true),
    (LateFixedMode, "write 59 05 ff 16", 0x59, Known(0x13), true),
    (Late, "write 59 20 14\nwrite 59 05 01 18 20", 0x59, Unknown, true),
    (Late, "write 59 20 14\nwrite 59 05 00 13", 0x59, Known(0x14), false),
    (Late, "write 59 20 14\nwrite 59 05 12 21 00 18", 0x59, Known(0x14), false),
    // In a group, and before a leg that was refused; not in that leg.
    (Late, "write 59 20 14\nwrite 58 00 01 + 59 12", 0x59, Unknown, true),
    (Late, "write 59 20 14\nwrite 59 12 + 58 00 01", 0x59, Unknown, true),
    (Late, "write 59 20 14\nrefused 59 12 + 58 00 01", 0x59, Unknown, true),
    (Late, "write 59 20 14\nrefused 59 12", 0x59, Known(0x14), false),
    (AllKnown, "write 59 20 14\nrefused 59 12", 0x59, Known(0x14), false),
    // What is assumed is what would not be known, had the capture begun in the middle.
    (AllKnown, "", 0x59, Known(0x13), true),
    (AllKnown, "", 0x20, NoPage, false),
    (AllKnown, "write 59 20 14", 0x59, Known(0x14), false),
    (AllKnown, "write 58 20 14", 0x58, Known(0x14), true),
    (AllKnown, "write 58 00 01\nwrite 58 20 14", 0x58, Known(0x14), false),
    (AllKnown, "write 58 00 01\nwrite 58 20 14\nwrite 58 00 00", 0x58, Known(0x17), true),
    (AllKnown, "write 58 20 14\nwrite 58 00 ff", 0x58, NoPage, true),
    (AllKnown, "write 58 00 05", 0x58, NoPage, false),
    (AllKnown, "write 5a 20 13", 0x5a, Known(0x13), false),
    (LateFixedMode, "", 0x58, Known(0x17), true),
    (Late, "", 0x58, Unknown, true),
];

/// Takes the transactions that lines spell; false where one has none.
fn observe(profile: &Profile, known: &mut pmb_unknown_start::Late<'_>, lines: &str) -> bool {
    for line in lines.lines() {
        match parse_line(profile, line.as_bytes()) {
            Ok(transaction) => known.observe(&transaction),
            Err(_) => return false,
        }
    }
    true
}

#[test]
fn what_is_untold(rt: HostRuntime) -> Result<(), Fail> {
    let profile = Profile::from_toml(rt.alloc(), PROFILE.as_bytes())?;
    for &(start, lines, address, mode, assumed) in rows() {
        let mut known = pmb_unknown_start::Late::new(&profile, start);
        ensure(
            &rt,
            ("a line of", lines),
            observe(&profile, &mut known, lines),
        );
        let found = (known.mode(address), known.is_assumed(address));
        same(
            &rt,
            ("of", address, "after", lines, start),
            found,
            (mode, assumed),
        );
    }
    Ok(())
}
