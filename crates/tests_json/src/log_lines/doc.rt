//! The programs in the docs of `pmb_log_data` and `pmb_log_lines`.

use crate::compare::same;
use arrayvec::ArrayVec;
use pmb_decimal::Digits;
use pmb_facts::{Fact, What};
use pmb_json_fields::Access;
use pmb_json_objects::{Head, Seen};
use pmb_log_data::{DATA, append_data};
use pmb_log_lines::{LINE, Layout, append_log_line};
use pmb_places::Place;
use pmb_table::{Profile, SAMPLE};
use pmb_unknown_start::{Late, Start};
use std::test::Fail;

#[test]
fn what_is_said_of_data(rt: HostRuntime) -> Result<(), Fail> {
    let profile = Profile::from_toml(rt.alloc(), SAMPLE.as_bytes())?;
    let late = Late::new(&profile, Start::AllKnown);
    let seen = Seen {
        digits: Digits::new(4).ok_or("digits")?,
        profile: &profile,
        late: &late,
    };
    let mut out = ArrayVec::<u8, DATA>::new();
    append_data(&mut out, &seen, Access::Read, 0x58, 0x88, &[0x00, 0xd3]);
    same(&rt, "READ_VIN", out.as_slice(), &b"12 V"[..]);
    Ok(())
}

#[test]
fn a_line(rt: HostRuntime) -> Result<(), Fail> {
    let profile = Profile::from_toml(rt.alloc(), SAMPLE.as_bytes())?;
    let late = Late::new(&profile, Start::AllKnown);
    let seen = Seen {
        digits: Digits::new(4).ok_or("digits")?,
        profile: &profile,
        late: &late,
    };
    let head = Head {
        at: 5,
        place: Place { line: 2, column: 7 },
        time: Some(b"0.25"),
    };
    let fact = Fact {
        head,
        what: What::Alert {
            byte: 0xb0,
            pec: false,
        },
    };
    let mut out = ArrayVec::<u8, LINE>::new();
    append_log_line(&mut out, Layout::of(&profile), &seen, fact);
    let line = b"      0.25  58                                answered an alert\n";
    same(&rt, "an alert", out.as_slice(), &line[..]);
    Ok(())
}
