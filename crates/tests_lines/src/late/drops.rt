//! What is known of PAGE, VOUT_MODE and PHASE after a line that was dropped, and what is assumed then.

use crate::compare::{ensure, same};
use pmb_line::parse_line;
use pmb_table::Profile;
use pmb_unknown_start::KnownMode::{Known, NoPage, Unknown};
use pmb_unknown_start::Start::{AllKnown, Late, LateFixedMode};
use pmb_unknown_start::{KnownMode, Start};
use std::test::Fail;

/// What is known at first; lines, of which `-` was dropped; an address; and of its device what is known
/// of PAGE and VOUT_MODE after them, whether VOUT_MODE is assumed, and what is known of PHASE.
type Row = (
    Start,
    &'static str,
    u8,
    (Option<u8>, KnownMode, bool, Option<u8>),
);

/// The rows of the table. A call keeps the proof of a loop over them from carrying the table.
fn rows() -> &'static [Row] {
    &ROWS
}

/// 58h has two pages and three phases, 59h one page, and 5ah two with one VOUT_MODE for both.
static PROFILE: &str = r#"[[device]]
address = 0x58
pec = "optional"
pages = 2
phases = 3
vout_mode = 0x17

[[device]]
address = 0x59
pec = "off"
vout_mode = 0x13

[[device]]
address = 0x5a
pec = "off"
pages = 2
vout_mode = 0x14

[[device.command]]
name = "VOUT_MODE"
paged = false
"#;

/// Lines under the profile.
#[rattlefmt::skip]
static ROWS: [Row; 36] = [
    // One page: late nothing is known, and else VOUT_MODE goes on, and is assumed.
    (Late, "write 59 20 14\n-", 0x59, (None, Unknown, true, None)),
    (LateFixedMode, "write 59 20 14\n-", 0x59, (None, Known(0x14), true, None)),
    (AllKnown, "write 59 20 14\n-", 0x59, (Some(0), Known(0x14), true, None)),
    (LateFixedMode, "-", 0x59, (None, Known(0x13), true, None)),
    (AllKnown, "-", 0x59, (Some(0), Known(0x13), true, None)),
    (AllKnown, "write 59 20 14\n-\n-", 0x59, (Some(0), Known(0x14), true, None)),
    (AllKnown, "write 59 20 14\nwrite 59 12\n-", 0x59, (Some(0), Known(0x14), true, None)),
    // It is told again afterwards.
    (Late, "write 59 20 14\n-\nwrite 59 20 17", 0x59, (None, Known(0x17), false, None)),
    (LateFixedMode, "write 59 20 14\n-\nwrite 59 20 17", 0x59, (None, Known(0x17), false, None)),
    (AllKnown, "write 59 20 14\n-\nread 59 20 : 17", 0x59, (Some(0), Known(0x17), false, None)),
    (Late, "write 59 20 14\n-\nwrite 59 20 17\n-", 0x59, (None, Unknown, true, None)),
    // Two pages: PAGE is not known either.
    (Late, "write 58 00 01\nwrite 58 20 14\n-", 0x58, (None, Unknown, true, None)),
    (LateFixedMode, "write 58 00 01\nwrite 58 20 14\n-", 0x58, (None, Unknown, true, None)),
    (LateFixedMode, "write 58 00 01\nwrite 58 20 14\n-\nwrite 58 00 01", 0x58, (Some(1), Known(0x14), true, None)),
    (LateFixedMode, "write 58 00 01\n-", 0x58, (None, Known(0x17), true, None)),
    (AllKnown, "write 58 00 01\nwrite 58 20 14\n-", 0x58, (Some(1), Known(0x14), true, None)),
    (AllKnown, "write 58 00 01\n-\nwrite 58 20 14", 0x58, (Some(1), Known(0x14), true, None)),
    (Late, "-\nwrite 58 20 14", 0x58, (None, Unknown, true, None)),
    (Late, "-\nwrite 58 00 01\nwrite 58 20 14", 0x58, (Some(1), Known(0x14), false, None)),
    (Late, "write 58 00 ff\nwrite 58 20 14\n-\nwrite 58 00 00", 0x58, (Some(0), Unknown, true, None)),
    // .. with one VOUT_MODE for both.
    (Late, "write 5a 20 13\n-", 0x5a, (None, Unknown, true, None)),
    (Late, "-\nwrite 5a 20 13", 0x5a, (None, Known(0x13), false, None)),
    // A page that the device lacks: it is one of its pages again, or ffh, with any start.
    (Late, "write 59 00 05\n-", 0x59, (None, Unknown, true, None)),
    (Late, "write 59 00 05\n-\nwrite 59 20 14", 0x59, (None, Known(0x14), false, None)),
    (AllKnown, "write 59 00 05\n-", 0x59, (None, Known(0x13), true, None)),
    (AllKnown, "write 59 00 05\n-\nwrite 59 20 14", 0x59, (None, Known(0x14), false, None)),
    (AllKnown, "write 58 00 02\n-", 0x58, (None, Known(0x17), true, None)),
    (AllKnown, "write 58 00 02\n-\nwrite 58 20 14", 0x58, (None, Unknown, true, None)),
    (AllKnown, "write 58 00 ff\n-", 0x58, (Some(0xff), Known(0x17), true, None)),
    // Where there is no device.
    (Late, "write 59 20 14\n-", 0x20, (None, NoPage, false, None)),
    // PHASE is not known, with any start, until it is told again.
    (Late, "write 58 04 02\n-", 0x58, (None, Unknown, true, None)),
    (LateFixedMode, "write 58 04 02\n-", 0x58, (None, Known(0x17), true, None)),
    (AllKnown, "write 58 04 02\n-", 0x58, (Some(0), Known(0x17), true, None)),
    (AllKnown, "write 58 04 02\n-\nread 58 04 : 01", 0x58, (Some(0), Known(0x17), true, Some(1))),
    (Late, "-\nwrite 58 04 02", 0x58, (None, Unknown, true, Some(2))),
    (Late, "write 58 04 02\n-\nwrite 58 00 01", 0x58, (Some(1), Unknown, true, None)),
];

/// Takes the transactions that lines spell, and drops; false where a line has none.
fn observe(profile: &Profile, known: &mut pmb_unknown_start::Late<'_>, lines: &str) -> bool {
    for line in lines.lines() {
        if line == "-" {
            known.drop_line();
        } else {
            match parse_line(profile, line.as_bytes()) {
                Ok(transaction) => known.observe(&transaction),
                Err(_) => return false,
            }
        }
    }
    true
}

#[test]
fn what_is_known_after_a_drop(rt: HostRuntime) -> Result<(), Fail> {
    let profile = Profile::from_toml(rt.alloc(), PROFILE.as_bytes())?;
    for &(start, lines, address, wanted) in rows() {
        let mut known = pmb_unknown_start::Late::new(&profile, start);
        ensure(
            &rt,
            ("a line of", lines),
            observe(&profile, &mut known, lines),
        );
        let found = (
            known.page(address),
            known.mode(address),
            known.is_assumed(address),
            known.phase(address),
        );
        same(&rt, ("of", address, "after", lines, start), found, wanted);
    }
    Ok(())
}
