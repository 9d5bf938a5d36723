//! What is known of PHASE after transactions.

use crate::compare::{ensure, same};
use pmb_line::parse_line;
use pmb_table::Profile;
use pmb_unknown_start::Start;
use pmb_unknown_start::Start::{AllKnown, Late, LateFixedMode};
use std::test::Fail;

/// What is known at first, lines, an address, and what is known of its PHASE after them.
type Row = (Start, &'static str, u8, Option<u8>);

/// The rows of the table. A call keeps the proof of a loop over them from carrying the table.
fn rows() -> &'static [Row] {
    &ROWS
}

/// 58h has two pages and three phases, 59h one phase, and of 5ah the profile says none.
static PROFILE: &str = r#"[[device]]
address = 0x58
pec = "optional"
pages = 2
phases = 3

[[device]]
address = 0x59
pec = "off"
phases = 1

[[device]]
address = 0x5a
pec = "off"
"#;

/// Lines under the profile.
#[rattlefmt::skip]
static ROWS: [Row; 26] = [
    // It is not known at first, whatever else is.
    (AllKnown, "", 0x58, None),
    (Late, "", 0x58, None),
    (LateFixedMode, "", 0x58, None),
    // What was written or read last.
    (AllKnown, "write 58 04 00", 0x58, Some(0)),
    (Late, "write 58 04 02", 0x58, Some(2)),
    (LateFixedMode, "write 58 04 ff", 0x58, Some(0xff)),
    (Late, "read 58 04 : 01", 0x58, Some(1)),
    (Late, "write 58 04 02\nread 58 04 : 01", 0x58, Some(1)),
    (Late, "read 58 04 : 01\nwrite 58 04 02", 0x58, Some(2)),
    // .. also of a phase that the device doesn't have.
    (Late, "write 58 04 03", 0x58, Some(3)),
    (Late, "write 59 04 80", 0x59, Some(0x80)),
    // A write of PAGE leaves it, and so does a restore.
    (Late, "write 58 04 02\nwrite 58 00 01", 0x58, Some(2)),
    (AllKnown, "write 58 00 01\nwrite 58 04 02\nwrite 58 00 ff", 0x58, Some(2)),
    (Late, "write 58 04 02\nwrite 58 12", 0x58, Some(2)),
    // Each device has its own.
    (Late, "write 58 04 02", 0x59, None),
    (Late, "write 58 04 02\nwrite 59 04 00", 0x58, Some(2)),
    (Late, "write 58 04 02\nwrite 59 04 00", 0x59, Some(0)),
    // None of a device that has no phases, and where there is no device.
    (Late, "write 5a 04 00", 0x5a, None),
    (Late, "write 58 04 00", 0x20, None),
    (Late, "write 58 04 00", 0xff, None),
    // Groups, and complete parts of a refused packet.
    (Late, "write 58 04 01 + 59 04 00", 0x58, Some(1)),
    (Late, "write 58 04 01 + 59 04 00", 0x59, Some(0)),
    (Late, "refused 59 04 00 + 58 00 01", 0x59, Some(0)),
    // What tells nothing: a leg that was refused, and other registers.
    (Late, "refused 58 04 01", 0x58, None),
    (Late, "refused 59 00 00 + 58 04 01", 0x58, None),
    (Late, "write 58 20 14\nread 58 8c : 01 02\nwrite 58 03", 0x58, None),
];

/// Takes the transactions that lines spell; false where one has none.
fn observe(profile: &Profile, known: &mut pmb_unknown_start::Late<'_>, lines: &str) -> bool {
    for line in lines.lines() {
        match parse_line(profile, line.as_bytes()) {
            Ok(transaction) => known.observe(&transaction),
            Err(_) => return false,
        }
    }
    true
}

#[test]
fn phases(rt: HostRuntime) -> Result<(), Fail> {
    let profile = Profile::from_toml(rt.alloc(), PROFILE.as_bytes())?;
    for &(start, lines, address, phase) in rows() {
        let mut known = pmb_unknown_start::Late::new(&profile, start);
        ensure(
            &rt,
            ("a line of", lines),
            observe(&profile, &mut known, lines),
        );
        let found = known.phase(address);
        same(&rt, ("of", address, "after", lines, start), found, phase);
    }
    Ok(())
}
