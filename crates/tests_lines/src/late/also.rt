//! What is known of devices that take what is written at other addresses, their keys `also`.

use crate::compare::{ensure, same};
use pmb_line::parse_line;
use pmb_table::Profile;
use pmb_unknown_start::KnownMode::{Known, Unknown};
use pmb_unknown_start::Start::{AllKnown, Late, LateFixedMode};
use pmb_unknown_start::{KnownMode, Start};
use std::test::Fail;

/// What is known at first, lines, an address, and what is known of its PAGE, VOUT_MODE and PHASE after
/// them.
type Row = (Start, &'static str, u8, Option<u8>, KnownMode, Option<u8>);

/// The rows of the table. A call keeps the proof of a loop over them from carrying the table.
fn rows() -> &'static [Row] {
    &ROWS
}

/// 58h has two pages and phases, and listens at 5bh and 5ch; 59h has one page, and listens at 5bh and,
/// which says nothing more, at 59h; 5bh and 5ch are the tables of these addresses.
static PROFILE: &str = r#"[[device]]
address = 0x58
pec = "optional"
pages = 2
phases = 3
also = [0x5c, 0x5b]

[[device]]
address = 0x59
pec = "off"
vout_mode = 0x13
also = [0x5b, 0x59]

[[device]]
address = 0x5b
pec = "off"
pages = 4
phases = 1

[[device]]
address = 0x5c
pec = "off"
pages = 2
"#;

/// Lines under the profile.
#[rattlefmt::skip]
static ROWS: [Row; 46] = [
    // What is written there both take, and the device of the table itself.
    (Late, "write 5b 20 14", 0x59, None, Known(0x14), None),
    (Late, "write 5b 00 00", 0x59, Some(0), Unknown, None),
    (Late, "write 5b 00 01", 0x58, Some(1), Unknown, None),
    (Late, "write 5b 00 01", 0x5b, Some(1), Unknown, None),
    (Late, "write 5b 00 01", 0x5c, None, Unknown, None),
    (Late, "write 5b 00 01\nwrite 5b 20 16", 0x58, Some(1), Known(0x16), None),
    (AllKnown, "write 5b 00 01\nwrite 5b 20 16", 0x58, Some(1), Known(0x16), None),
    (LateFixedMode, "write 5b 00 01", 0x58, Some(1), Known(0x17), None),
    // .. also by writes at both of its addresses in turn.
    (Late, "write 58 00 01\nwrite 5b 20 16", 0x58, Some(1), Known(0x16), None),
    (Late, "write 5b 00 01\nwrite 58 20 16", 0x58, Some(1), Known(0x16), None),
    (Late, "write 5b 00 01\nwrite 58 00 00", 0x58, Some(0), Unknown, None),
    (Late, "write 58 00 00\nwrite 5b 00 01", 0x58, Some(1), Unknown, None),
    (Late, "write 58 00 00\nwrite 5b 00 ff", 0x59, Some(255), Unknown, None),
    // A write that a device lacks it doesn't take: a page that is none of its own, or a command.
    (Late, "write 5b 00 00\nwrite 5b 00 01", 0x59, Some(0), Unknown, None),
    (Late, "write 5b 00 02", 0x58, None, Unknown, None),
    (Late, "write 5b 00 02", 0x5b, Some(2), Unknown, None),
    // What is written at its own address the others don't take.
    (Late, "write 58 00 01", 0x5b, None, Unknown, None),
    (Late, "write 58 00 01", 0x59, None, Unknown, None),
    (Late, "write 59 20 14", 0x59, None, Known(0x14), None),
    (Late, "write 59 20 14", 0x5b, None, Unknown, None),
    // Of two such addresses, each.
    (Late, "write 5c 00 00", 0x58, Some(0), Unknown, None),
    (Late, "write 5c 00 00", 0x59, None, Unknown, None),
    (Late, "write 5c 00 00\nwrite 5b 00 01", 0x58, Some(1), Unknown, None),
    // PHASE of those that have phases.
    (Late, "write 5b 04 02", 0x58, None, Unknown, Some(2)),
    (Late, "write 5b 04 02", 0x59, None, Unknown, None),
    (Late, "write 5b 04 00", 0x5b, None, Unknown, Some(0)),
    // A restore there leaves any VOUT_MODE.
    (Late, "write 59 20 14\nwrite 5b 12", 0x59, None, Unknown, None),
    (AllKnown, "write 59 20 14\nwrite 5b 12", 0x59, Some(0), Known(0x14), None),
    // What is read there tells nothing of them.
    (Late, "read 5b 20 : 14", 0x59, None, Unknown, None),
    (Late, "read 5b 00 : 01", 0x58, None, Unknown, None),
    (Late, "read 5b 04 : 01", 0x58, None, Unknown, None),
    // A group that reaches a device at two of its addresses counts for it as a line that was dropped.
    (Late, "write 58 00 00 + 5b 00 01", 0x58, None, Unknown, None),
    (Late, "write 58 00 00 + 5b 00 01", 0x5b, Some(1), Unknown, None),
    (Late, "write 58 00 00 + 5b 00 00", 0x59, Some(0), Unknown, None),
    (Late, "write 5b 00 01 + 58 00 00", 0x58, None, Unknown, None),
    (Late, "write 5b 00 01 + 5c 20 16", 0x58, None, Unknown, None),
    (Late, "write 59 20 14\nwrite 59 01 80 + 5b 02 17", 0x59, None, Unknown, None),
    (AllKnown, "write 58 00 01\nwrite 58 00 00 + 5b 20 16", 0x58, Some(1), Known(0x17), None),
    (LateFixedMode, "write 58 00 01\nwrite 5c 00 00 + 5b 20 16", 0x58, None, Known(0x17), None),
    (Late, "write 58 04 01", 0x58, None, Unknown, Some(1)),
    (Late, "write 58 04 01\nwrite 58 00 00 + 5b 20 16", 0x58, None, Unknown, None),
    // .. but not if it has no such write as came to one of the addresses.
    (Late, "write 58 00 00 + 5b 00 02", 0x58, Some(0), Unknown, None),
    (Late, "write 59 20 14\nwrite 59 01 80 + 5b 00 01", 0x59, None, Known(0x14), None),
    // Complete parts of a refused packet.
    (Late, "refused 5b 00 01 + 58 20 16", 0x58, Some(1), Unknown, None),
    (Late, "refused 5b 00 01 + 5c 00 00 + 58 20 16", 0x58, None, Unknown, None),
    // A leg that was refused tells nothing.
    (Late, "refused 5b 00 01", 0x59, None, Unknown, None),
];

/// Takes the transactions that lines spell; false where one has none.
fn observe(profile: &Profile, known: &mut pmb_unknown_start::Late<'_>, lines: &str) -> bool {
    for line in lines.lines() {
        match parse_line(profile, line.as_bytes()) {
            Ok(transaction) => known.observe(&transaction),
            Err(_) => return false,
        }
    }
    true
}

#[test]
fn other_addresses(rt: HostRuntime) -> Result<(), Fail> {
    let profile = Profile::from_toml(rt.alloc(), PROFILE.as_bytes())?;
    for &(start, lines, address, page, mode, phase) in rows() {
        let mut known = pmb_unknown_start::Late::new(&profile, start);
        ensure(
            &rt,
            ("a line of", lines),
            observe(&profile, &mut known, lines),
        );
        let found = (
            known.page(address),
            known.mode(address),
            known.phase(address),
        );
        same(
            &rt,
            ("of", address, "after", lines, start),
            found,
            (page, mode, phase),
        );
    }
    Ok(())
}

// After a line that was dropped nothing is known of any of them.
#[test]
fn dropped(rt: HostRuntime) -> Result<(), Fail> {
    let profile = Profile::from_toml(rt.alloc(), PROFILE.as_bytes())?;
    let mut known = pmb_unknown_start::Late::new(&profile, Late);
    ensure(
        &rt,
        "lines",
        observe(
            &profile,
            &mut known,
            "write 5b 00 01\nwrite 5b 20 16\nwrite 5b 04 02",
        ),
    );
    known.drop_line();
    for address in [0x58, 0x59, 0x5b, 0x5c] {
        let found = (
            known.page(address),
            known.mode(address),
            known.phase(address),
        );
        same(&rt, ("of", address), found, (None, Unknown, None));
    }
    Ok(())
}
