//! What is known of PAGE and VOUT_MODE after transactions.

use crate::compare::{ensure, same};
use pmb_line::parse_line;
use pmb_table::{Profile, SAMPLE};
use pmb_unknown_start::KnownMode::{Known, NoPage, Unknown};
use pmb_unknown_start::Start::{AllKnown, Late, LateFixedMode};
use pmb_unknown_start::{KnownMode, Start};
use std::test::Fail;

/// What is known at first, lines, an address, and what is known of its PAGE and VOUT_MODE after them.
type Row = (Start, &'static str, u8, Option<u8>, KnownMode);

/// The rows of the table. A call keeps the proof of a loop over them from carrying the table.
fn rows() -> &'static [Row] {
    &ROWS
}

/// 58h has three pages, 59h one, and 5ah two with one VOUT_MODE for both.
static PROFILE: &str = r#"[[device]]
address = 0x58
pec = "optional"
pages = 3
vout_mode = 0x17

[[device]]
address = 0x59
pec = "off"
vout_mode = 0x13

[[device]]
address = 0x5a
pec = "off"
pages = 2
vout_mode = 0x14

[[device.command]]
name = "VOUT_MODE"
paged = false
"#;

/// Lines under the profile.
#[rattlefmt::skip]
static ROWS: [Row; 65] = [
    // All is known from the start, as in a context.
    (AllKnown, "", 0x58, Some(0), Known(0x17)),
    (AllKnown, "", 0x20, None, NoPage),
    (AllKnown, "write 58 00 05", 0x58, Some(5), NoPage),
    (AllKnown, "write 58 20 14\nwrite 58 00 ff", 0x58, Some(0xff), NoPage),
    (AllKnown, "write 58 20 14\nwrite 58 00 01", 0x58, Some(1), Known(0x17)),
    // Late, nothing is, and where there is no device there is no mode.
    (Late, "", 0x58, None, Unknown),
    (Late, "", 0x59, None, Unknown),
    (Late, "", 0x5a, None, Unknown),
    (Late, "", 0x20, None, NoPage),
    (Late, "", 0xff, None, NoPage),
    // The only page, whatever PAGE is: it is 0 or ffh.
    (Late, "write 59 20 14", 0x59, None, Known(0x14)),
    (Late, "read 59 20 : 14", 0x59, None, Known(0x14)),
    (Late, "write 59 20 14", 0x58, None, Unknown),
    (Late, "write 59 20 14\nwrite 59 20 15", 0x59, None, Known(0x15)),
    (Late, "write 59 20 14\nwrite 59 00 00", 0x59, Some(0), Known(0x14)),
    (Late, "write 59 20 14\nwrite 59 00 ff", 0x59, Some(0xff), Known(0x14)),
    (Late, "write 59 20 14\nwrite 59 00 01", 0x59, Some(1), NoPage),
    (Late, "write 59 00 01\nwrite 59 20 14\nwrite 59 00 00", 0x59, Some(0), Unknown),
    // Of several pages, a mode is told on a page that is not known.
    (Late, "write 58 20 14", 0x58, None, Unknown),
    (Late, "write 58 20 14\nwrite 58 00 00", 0x58, Some(0), Unknown),
    (Late, "write 58 20 14\nwrite 58 00 ff", 0x58, Some(0xff), Unknown),
    // .. and on one that is.
    (Late, "write 58 00 01", 0x58, Some(1), Unknown),
    (Late, "write 58 00 01\nwrite 58 20 14", 0x58, Some(1), Known(0x14)),
    (Late, "read 58 00 : 01\nread 58 20 : 14", 0x58, Some(1), Known(0x14)),
    (Late, "write 58 00 01\nwrite 58 20 14\nwrite 58 00 00", 0x58, Some(0), Unknown),
    (Late, "write 58 00 01\nwrite 58 20 14\nwrite 58 00 02\nwrite 58 00 01", 0x58, Some(1), Known(0x14)),
    // A page that is not there.
    (Late, "write 58 00 03", 0x58, Some(3), NoPage),
    (Late, "write 58 00 03\nwrite 58 20 14", 0x58, Some(3), NoPage),
    (Late, "write 58 00 03\nwrite 58 20 14\nwrite 58 00 00", 0x58, Some(0), Unknown),
    // All pages: two that differ have no mode, also where the third is not known.
    (Late, "write 58 00 ff", 0x58, Some(0xff), Unknown),
    (Late, "write 58 00 ff\nwrite 58 20 14", 0x58, Some(0xff), Known(0x14)),
    (Late, "write 58 00 ff\nwrite 58 20 14\nwrite 58 00 02", 0x58, Some(2), Known(0x14)),
    (Late, "write 58 00 00\nwrite 58 20 14\nwrite 58 00 ff", 0x58, Some(0xff), Unknown),
    (Late, "write 58 00 00\nwrite 58 20 14\nwrite 58 00 01\nwrite 58 20 14\nwrite 58 00 ff", 0x58, Some(0xff), Unknown),
    (Late, "write 58 00 00\nwrite 58 20 14\nwrite 58 00 01\nwrite 58 20 15\nwrite 58 00 ff", 0x58, Some(0xff), NoPage),
    (Late, "write 58 00 00\nwrite 58 20 14\nwrite 58 00 02\nwrite 58 20 15\nwrite 58 00 ff", 0x58, Some(0xff), NoPage),
    (Late, "write 58 00 00\nwrite 58 20 14\nwrite 58 00 01\nwrite 58 20 14\nwrite 58 00 02\nwrite 58 20 14\nwrite 58 00 ff", 0x58, Some(0xff), Known(0x14)),
    // One VOUT_MODE for all pages.
    (Late, "write 5a 20 13", 0x5a, None, Known(0x13)),
    (Late, "write 5a 20 13\nwrite 5a 00 01", 0x5a, Some(1), Known(0x13)),
    (Late, "write 5a 20 13\nwrite 5a 00 02", 0x5a, Some(2), NoPage),
    (Late, "write 5a 00 02\nwrite 5a 20 13\nwrite 5a 00 00", 0x5a, Some(0), Known(0x13)),
    (LateFixedMode, "", 0x5a, None, Known(0x14)),
    (LateFixedMode, "write 5a 20 13", 0x5a, None, Known(0x13)),
    // VOUT_MODE begins as the profile says, and PAGE is not known.
    (LateFixedMode, "", 0x58, None, Known(0x17)),
    (LateFixedMode, "", 0x59, None, Known(0x13)),
    (LateFixedMode, "", 0x20, None, NoPage),
    (LateFixedMode, "write 58 20 17", 0x58, None, Known(0x17)),
    (LateFixedMode, "write 58 20 14", 0x58, None, Unknown),
    (LateFixedMode, "write 58 20 14\nwrite 58 20 17", 0x58, None, Unknown),
    (LateFixedMode, "write 58 20 14\nwrite 58 00 01", 0x58, Some(1), Unknown),
    (LateFixedMode, "write 58 20 17\nwrite 58 00 01", 0x58, Some(1), Known(0x17)),
    (LateFixedMode, "write 58 00 01\nwrite 58 20 14", 0x58, Some(1), Known(0x14)),
    (LateFixedMode, "write 58 00 01\nwrite 58 20 14\nwrite 58 00 00", 0x58, Some(0), Known(0x17)),
    (LateFixedMode, "write 58 00 01\nwrite 58 20 14\nwrite 58 00 ff", 0x58, Some(0xff), NoPage),
    (LateFixedMode, "write 58 00 03", 0x58, Some(3), NoPage),
    (LateFixedMode, "write 59 20 14", 0x59, None, Known(0x14)),
    // Groups, and complete parts of a refused packet.
    (Late, "write 58 00 01 + 59 20 14", 0x58, Some(1), Unknown),
    (Late, "write 58 00 01 + 59 20 14", 0x59, None, Known(0x14)),
    (Late, "refused 59 20 14 + 58 00 01", 0x59, None, Known(0x14)),
    // What tells nothing: a leg that was refused, what has no byte, or two.
    (Late, "refused 59 20 14", 0x59, None, Unknown),
    (Late, "refused 58 00 01 00", 0x58, None, Unknown),
    (Late, "refused 59 20 14 + 58 00 01", 0x58, None, Unknown),
    (Late, "write 59 21 14 14", 0x59, None, Unknown),
    (Late, "write 59 03", 0x59, None, Unknown),
    (Late, "alert b2\nalert none", 0x59, None, Unknown),
];

/// Takes the transactions that lines spell; false where one has none.
fn observe(profile: &Profile, known: &mut pmb_unknown_start::Late<'_>, lines: &str) -> bool {
    for line in lines.lines() {
        match parse_line(profile, line.as_bytes()) {
            Ok(transaction) => known.observe(&transaction),
            Err(_) => return false,
        }
    }
    true
}

#[test]
fn what_is_known(rt: HostRuntime) -> Result<(), Fail> {
    let profile = Profile::from_toml(rt.alloc(), PROFILE.as_bytes())?;
    for &(start, lines, address, page, mode) in rows() {
        let mut known = pmb_unknown_start::Late::new(&profile, start);
        ensure(
            &rt,
            ("a line of", lines),
            observe(&profile, &mut known, lines),
        );
        let found = (known.page(address), known.mode(address));
        same(
            &rt,
            ("of", address, "after", lines, start),
            found,
            (page, mode),
        );
    }
    Ok(())
}

// The program at the head of `pmb_unknown_start`.
#[test]
fn begins_late(rt: HostRuntime) -> Result<(), Fail> {
    let profile = Profile::from_toml(rt.alloc(), SAMPLE.as_bytes())?;
    let mut late = pmb_unknown_start::Late::new(&profile, Late);
    ensure(&rt, "nothing known", late.mode(0x59) == Unknown);
    let set_mode = parse_line(&profile, b"write 59 20 14")
        .ok()
        .ok_or("a line")?;
    late.observe(&set_mode);
    ensure(&rt, "VOUT_MODE heard", late.mode(0x59) == Known(0x14));
    ensure(&rt, "PAGE not heard", late.page(0x59).is_none());
    ensure(&rt, "nothing assumed", !late.is_assumed(0x59));
    Ok(())
}
