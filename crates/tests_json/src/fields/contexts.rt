//! An output voltage by what transactions have told of PAGE and VOUT_MODE, and by the device's VID tables,
//! told by hand.

use crate::compare::same;
use crate::fields::contexts::Says::{Assumed, Raw, Value};
use crate::fields::says::{Text, assumed, raw, said_by, under, value};
use pmb_command::Kind;
use pmb_json_fields::Basis;
use pmb_keys::VidTables;
use pmb_line::parse_line;
use pmb_table::Profile;
use pmb_unknown_start::Start;
use pmb_unknown_start::Start::{AllKnown, Late, LateFixedMode};
use std::test::Fail;

/// What is said of the word 1800h: its value, which is the nearest number too, by a mode that was told
/// or one that is assumed, or why it has none.
#[derive(Clone, Copy, Drop)]
enum Says {
    Value(&'static str),
    Assumed(&'static str),
    Raw(&'static str),
}

/// What is known at first, lines, an address, and what is said of a voltage there after them.
type Row = (Start, &'static str, u8, Says);

/// The rows of the table. A call keeps the proof of a loop over them from carrying the table.
fn rows() -> &'static [Row] {
    &ROWS
}

/// 58h and 5ah have two pages, with one VOUT_MODE and with two, and 59h has one page. 12 is 1800h with
/// the exponent -9, and 1.5 with -12. VID tables: 5bh has two, 5ch one for both pages, and 5dh one for
/// type 3; no table has code 1800h.
static PROFILE: &str = r#"[[device]]
address = 0x58
pec = "optional"
pages = 2
vout_mode = 0x17

[[device]]
address = 0x59
pec = "off"
vout_mode = 0x17

[[device]]
address = 0x5a
pec = "off"
pages = 2
vout_mode = [0x17, 0x14]

[[device]]
address = 0x5b
pec = "off"
pages = 2
vout_mode = 0x20
vid = ["vr12", "vr13"]

[[device]]
address = 0x5c
pec = "off"
pages = 2
vout_mode = 0x20
vid = "vr12"

[[device]]
address = 0x5d
pec = "off"
pages = 2
vout_mode = [0x22, 0x23]
vid = { 3 = "imvp9" }
"#;

#[rattlefmt::skip]
static ROWS: [Row; 50] = [
    (AllKnown, "", 0x58, Assumed("12")),
    (AllKnown, "", 0x20, Raw("page")),
    (AllKnown, "write 58 00 05", 0x58, Raw("page")),
    (AllKnown, "write 58 20 14\nwrite 58 00 ff", 0x58, Raw("page")),
    (AllKnown, "write 58 00 ff", 0x58, Assumed("12")),
    (AllKnown, "write 58 00 ff\nwrite 58 20 14", 0x58, Value("1.5")),
    (AllKnown, "write 58 20 14", 0x58, Assumed("1.5")),
    (AllKnown, "write 59 20 14", 0x59, Value("1.5")),
    (AllKnown, "write 58 00 00\nwrite 58 20 14", 0x58, Value("1.5")),
    (AllKnown, "write 59 20 14\nwrite 59 12", 0x59, Assumed("1.5")),
    (AllKnown, "write 58 20 40", 0x58, Raw("coefficients")),
    (LateFixedMode, "", 0x58, Assumed("12")),
    (LateFixedMode, "write 59 20 14", 0x59, Value("1.5")),
    (LateFixedMode, "write 59 20 14\nwrite 59 12", 0x59, Assumed("1.5")),
    (Late, "", 0x58, Raw("unknown")),
    (Late, "write 59 20 14", 0x59, Value("1.5")),
    (Late, "write 59 20 14\nwrite 59 12", 0x59, Raw("unknown")),
    (Late, "write 58 20 14", 0x58, Raw("unknown")),
    (Late, "write 58 00 01", 0x58, Raw("unknown")),
    (Late, "write 58 00 01\nwrite 58 20 14", 0x58, Value("1.5")),
    (Late, "write 58 00 ff\nwrite 58 20 17", 0x58, Value("12")),
    (Late, "write 58 00 00\nwrite 58 20 14\nwrite 58 00 01\nwrite 58 20 17\nwrite 58 00 ff", 0x58, Raw("page")),
    (Late, "write 58 00 01\nwrite 58 20 20", 0x58, Raw("vid")),
    (Late, "write 58 00 05", 0x58, Raw("page")),
    (AllKnown, "", 0x5a, Assumed("12")),
    (AllKnown, "write 5a 00 01", 0x5a, Assumed("1.5")),
    (AllKnown, "write 5a 00 ff", 0x5a, Raw("page")),
    (LateFixedMode, "", 0x5a, Raw("unknown")),
    (LateFixedMode, "write 5a 00 01", 0x5a, Assumed("1.5")),
    (LateFixedMode, "write 5a 00 ff", 0x5a, Raw("page")),
    (LateFixedMode, "write 5a 20 14", 0x5a, Raw("unknown")),
    (LateFixedMode, "write 5a 20 14\nwrite 5a 00 01", 0x5a, Assumed("1.5")),
    (Late, "write 5a 00 01", 0x5a, Raw("unknown")),
    (AllKnown, "", 0x5b, Raw("code")),
    (AllKnown, "write 5b 00 01", 0x5b, Raw("code")),
    (AllKnown, "write 5b 00 ff", 0x5b, Raw("page")),
    (AllKnown, "write 5b 00 02", 0x5b, Raw("page")),
    (LateFixedMode, "", 0x5b, Raw("unknown")),
    (LateFixedMode, "write 5b 00 01", 0x5b, Raw("code")),
    (Late, "write 5b 00 ff\nwrite 5b 20 17", 0x5b, Value("12")),
    (Late, "write 5b 00 ff\nwrite 5b 20 20", 0x5b, Raw("page")),
    (AllKnown, "write 5c 00 ff", 0x5c, Raw("code")),
    (LateFixedMode, "", 0x5c, Raw("code")),
    (LateFixedMode, "write 5c 00 ff", 0x5c, Raw("code")),
    (AllKnown, "", 0x5d, Raw("vid")),
    (AllKnown, "write 5d 00 01", 0x5d, Raw("code")),
    (AllKnown, "write 5d 00 ff", 0x5d, Raw("page")),
    (LateFixedMode, "", 0x5d, Raw("unknown")),
    (LateFixedMode, "write 5d 00 01", 0x5d, Raw("code")),
    (LateFixedMode, "write 5d 00 00", 0x5d, Raw("vid")),
];

/// What is said of the word 1800h after the transactions that lines spell; nothing where a line spells
/// none.
fn voltage(profile: &Profile, start: Start, lines: &str, address: u8) -> Option<Text> {
    let mut known = pmb_unknown_start::Late::new(profile, start);
    for line in lines.lines() {
        known.observe(&parse_line(profile, line.as_bytes()).ok()?);
    }
    let mut case = under(known.mode(address), None);
    case.page = known.page(address);
    case.basis = Basis::of(known.is_assumed(address));
    let vid = vid_of(profile, address);
    Some(said_by(&case, vid, 0x8b, Kind::Vout, &[0x00, 0x18]))
}

/// The VID tables of a device, where it has some.
fn vid_of(profile: &Profile, address: u8) -> Option<&VidTables> {
    match profile.device(address) {
        Some(device) => device.vid(),
        None => None,
    }
}

#[test]
fn contexts(rt: HostRuntime) -> Result<(), Fail> {
    let profile = Profile::from_toml(rt.alloc(), PROFILE.as_bytes())?;
    for &(start, lines, address, says) in rows() {
        let text = voltage(&profile, start, lines, address).ok_or("a line")?;
        let wanted = match says {
            Value(exact) => value(exact, exact),
            Assumed(exact) => assumed(exact, exact),
            Raw(why) => raw(why),
        };
        same(
            &rt,
            (start, address, "after", lines),
            text.as_slice(),
            wanted.as_slice(),
        );
    }
    Ok(())
}
