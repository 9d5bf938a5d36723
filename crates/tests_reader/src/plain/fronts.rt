//! Each front of captures of every sort, and each capture twice, against a reader by the rules in
//! words.

use crate::compare::same;
use crate::plain::compared::first_difference;
use plain_packets::{CapturedRow, LONG, LONG_FORMS, PACKETS, REFUSALS, events};
use pmb_table::{Profile, SAMPLE};
use std::alloc::Global;
use std::process::Abort;
use std::test::Fail;

/// Whether both readers answer alike to a capture and once more to it, and at the end of each front.
fn compares<R: Abort>(
    rt: &R,
    alloc: Global,
    profile: &Profile,
    row: CapturedRow,
) -> Result<(), Fail> {
    let (capture, _) = row;
    let once = events(alloc, capture)?;
    let mut twice = Vec::from_slice(alloc, once.as_slice())?;
    twice.extend_from_slice(once.as_slice())?;
    let difference = first_difference(alloc, profile, twice.as_slice(), once.len())?;
    same(rt, capture, difference, None);
    Ok(())
}

fn compare<R: Abort>(
    rt: &R,
    alloc: Global,
    profile: &str,
    rows: &[CapturedRow],
) -> Result<(), Fail> {
    let profile = Profile::from_toml(alloc, profile.as_bytes())?;
    for row in rows {
        compares(rt, alloc, &profile, *row)?;
    }
    Ok(())
}

#[test]
fn each_front_of_each_row_twice_reads_by_the_rules(rt: HostRuntime) -> Result<(), Fail> {
    let alloc = rt.alloc();
    compare(&rt, alloc, SAMPLE, PACKETS.as_slice())?;
    compare(&rt, alloc, SAMPLE, REFUSALS.as_slice())?;
    compare(&rt, alloc, LONG_FORMS, LONG.as_slice())
}
