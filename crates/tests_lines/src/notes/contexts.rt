//! PAGE and VOUT_MODE after transactions.

use crate::compare::{ensure, same};
use crate::notes::says::observe;
use pmb_line::parse_line;
use pmb_note::Context;
use pmb_table::{Profile, SAMPLE};
use std::test::Fail;

/// Lines, an address, and its PAGE and VOUT_MODE after them.
type Told = (&'static [&'static str], u8, Option<u8>, Option<u8>);

/// The rows of the table. A call keeps the proof of a loop over them from carrying the table.
fn rows() -> &'static [Told] {
    &TOLD
}

/// Lines under the sample profile: 58h has two pages, 59h and 5ah have one; VOUT_MODE is 17h.
#[rattlefmt::skip]
static TOLD: [Told; 48] = [
    // At first, and where there is no device.
    (&[], 0x58, Some(0), Some(0x17)),
    (&[], 0x59, Some(0), Some(0x17)),
    (&[], 0x20, None, None),
    (&[], 0x80, None, None),
    (&[], 0xff, None, None),
    // A complete write of the device itself.
    (&["write 58 00 01"], 0x58, Some(1), Some(0x17)),
    (&["write 58 00 01"], 0x59, Some(0), Some(0x17)),
    (&["write 58 20 14"], 0x58, Some(0), Some(0x14)),
    (&["write 58 20 14 pec"], 0x58, Some(0), Some(0x14)),
    (&["write 58 20 14"], 0x59, Some(0), Some(0x17)),
    (&["write 58 20 97"], 0x58, Some(0), Some(0x97)),
    // A reply.
    (&["read 58 00 : 01"], 0x58, Some(1), Some(0x17)),
    (&["read 58 20 : 14"], 0x58, Some(0), Some(0x14)),
    (&["read 58 01 : 14"], 0x58, Some(0), Some(0x17)),
    // What else has one byte, or changes a device.
    (&["write 58 01 14"], 0x58, Some(0), Some(0x17)),
    (&["write 58 21 14 14"], 0x58, Some(0), Some(0x17)),
    (&["write 58 03"], 0x58, Some(0), Some(0x17)),
    (&["call 58 1b 20 : 14"], 0x58, Some(0), Some(0x17)),
    (&["alert b0", "alert none"], 0x58, Some(0), Some(0x17)),
    // A mode for each page.
    (&["write 58 20 14", "write 58 00 01"], 0x58, Some(1), Some(0x17)),
    (&["write 58 00 01", "write 58 20 14"], 0x58, Some(1), Some(0x14)),
    (&["write 58 00 01", "write 58 20 14", "write 58 00 00"], 0x58, Some(0), Some(0x17)),
    (&["write 58 20 13", "write 58 00 01", "write 58 20 14", "write 58 00 00"], 0x58, Some(0), Some(0x13)),
    // All pages.
    (&["write 58 00 ff"], 0x58, Some(0xff), Some(0x17)),
    (&["write 58 00 ff", "write 58 20 14"], 0x58, Some(0xff), Some(0x14)),
    (&["write 58 00 ff", "write 58 20 14", "write 58 00 01"], 0x58, Some(1), Some(0x14)),
    (&["write 58 00 ff", "read 58 20 : 14", "write 58 00 00"], 0x58, Some(0), Some(0x14)),
    (&["write 58 20 14", "write 58 00 ff"], 0x58, Some(0xff), None),
    (&["write 58 00 01", "write 58 20 14", "write 58 00 ff"], 0x58, Some(0xff), None),
    (&["write 58 20 14", "write 58 00 ff", "write 58 20 15"], 0x58, Some(0xff), Some(0x15)),
    // A device of one page.
    (&["write 59 00 ff"], 0x59, Some(0xff), Some(0x17)),
    (&["write 59 20 14", "write 59 00 ff"], 0x59, Some(0xff), Some(0x14)),
    (&["write 59 00 01"], 0x59, Some(1), None),
    // A page that is not there.
    (&["refused 58 00 05"], 0x58, Some(0), Some(0x17)),
    (&["write 58 00 05"], 0x58, Some(5), None),
    (&["read 58 00 : 05"], 0x58, Some(5), None),
    (&["write 58 00 05", "write 58 20 14"], 0x58, Some(5), None),
    (&["write 58 00 05", "write 58 20 14", "write 58 00 00"], 0x58, Some(0), Some(0x17)),
    (&["write 58 00 05", "write 58 20 14", "write 58 00 ff"], 0x58, Some(0xff), Some(0x17)),
    (&["write 58 00 02", "write 58 20 14"], 0x58, Some(2), None),
    (&["write 58 00 20", "write 58 20 14"], 0x58, Some(0x20), None),
    // Groups, and complete parts of a refused packet.
    (&["write 58 00 01 + 59 20 14"], 0x58, Some(1), Some(0x17)),
    (&["write 58 00 01 + 59 20 14"], 0x59, Some(0), Some(0x14)),
    (&["refused 58 00 01 + 5a 03 47"], 0x58, Some(1), Some(0x17)),
    (&["refused 59 03 + 58 20 14 + 20"], 0x58, Some(0), Some(0x14)),
    // A leg that was refused, even where a whole write stands before its last byte.
    (&["refused 58 20 14"], 0x58, Some(0), Some(0x17)),
    (&["refused 58 20 14 00"], 0x58, Some(0), Some(0x17)),
    (&["refused 59 03 + 58 00 01 00"], 0x58, Some(0), Some(0x17)),
];

#[test]
fn page_and_mode(rt: HostRuntime) -> Result<(), Fail> {
    let profile = Profile::from_toml(rt.alloc(), SAMPLE.as_bytes())?;
    for (number, row) in rows().iter().enumerate() {
        let mut context = Context::new(&profile);
        ensure(
            &rt,
            ("a line of row", number),
            observe(&profile, &mut context, row.0),
        );
        ensure(&rt, ("PAGE at row", number), context.page(row.1) == row.2);
        ensure(
            &rt,
            ("VOUT_MODE at row", number),
            context.mode(row.1) == row.3,
        );
    }
    Ok(())
}

// The program at the head of `pmb_note`.
#[test]
fn follows_vout_mode(rt: HostRuntime) -> Result<(), Fail> {
    let profile = Profile::from_toml(rt.alloc(), SAMPLE.as_bytes())?;
    let mut context = Context::new(&profile);
    let set_vout = parse_line(&profile, b"write 58 21 00 18")
        .ok()
        .ok_or("a line")?;
    same(
        &rt,
        "VOUT_MODE of the profile",
        context.note(&set_vout).as_str(),
        "VOUT_COMMAND 12",
    );
    let set_mode = parse_line(&profile, b"write 58 20 14")
        .ok()
        .ok_or("a line")?;
    context.observe(&set_mode);
    same(&rt, "VOUT_MODE heard", context.mode(0x58), Some(0x14));
    same(
        &rt,
        "its note",
        context.note(&set_vout).as_str(),
        "VOUT_COMMAND 1.5",
    );
    Ok(())
}
