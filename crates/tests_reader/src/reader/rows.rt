//! Captures and what they read as, told by hand: whole, one event at a time and cut at each place.

use crate::compare::same;
use crate::reader::told::{tell_end, tell_piece};
use plain_packets::{CapturedRow, LONG, LONG_FORMS, PACKETS, REFUSALS, SEVENTEEN_DEVICES, events};
use pmb_bus::Event;
use pmb_reader::Reader;
use pmb_table::{Profile, SAMPLE};
use std::alloc::{AllocError, Global};
use std::process::Abort;
use std::test::Fail;

/// What a capture reads as, handed on in two pieces.
fn told_in_two(
    alloc: Global,
    profile: &Profile,
    first: &[Event],
    rest: &[Event],
) -> Result<String, AllocError> {
    let mut text = String::new(alloc);
    let mut reader = Reader::new(profile);
    tell_piece(&mut text, alloc, &mut reader, first)?;
    tell_piece(&mut text, alloc, &mut reader, rest)?;
    tell_end(&mut text, alloc, &reader)?;
    Ok(text)
}

/// What it reads as, event by event.
fn told_one_by_one(
    alloc: Global,
    profile: &Profile,
    events: &[Event],
) -> Result<String, AllocError> {
    let mut text = String::new(alloc);
    let mut reader = Reader::new(profile);
    for event in events {
        tell_piece(&mut text, alloc, &mut reader, &[*event])?;
    }
    tell_end(&mut text, alloc, &reader)?;
    Ok(text)
}

/// Whether a capture reads as it is told, however it is cut.
fn reads<R: Abort>(rt: &R, alloc: Global, profile: &Profile, row: CapturedRow) -> Result<(), Fail> {
    let (capture, told) = row;
    let events = events(alloc, capture)?;
    let single = told_one_by_one(alloc, profile, events.as_slice())?;
    same(rt, (capture, "one by one"), single.as_str(), told);
    for cut in 0..=events.len() {
        let (first, rest) = events.as_slice().split_at(cut);
        let text = told_in_two(alloc, profile, first, rest)?;
        same(rt, (capture, "cut at", cut), text.as_str(), told);
    }
    Ok(())
}

fn read<R: Abort>(rt: &R, alloc: Global, profile: &str, rows: &[CapturedRow]) -> Result<(), Fail> {
    let profile = Profile::from_toml(alloc, profile.as_bytes())?;
    for row in rows {
        reads(rt, alloc, &profile, *row)?;
    }
    Ok(())
}

#[test]
fn reads_each_row_however_it_is_cut(rt: HostRuntime) -> Result<(), Fail> {
    let alloc = rt.alloc();
    read(&rt, alloc, SAMPLE, PACKETS.as_slice())?;
    read(&rt, alloc, SAMPLE, REFUSALS.as_slice())?;
    read(&rt, alloc, LONG_FORMS, LONG.as_slice())
}

#[test]
fn a_group_has_sixteen_parts(rt: HostRuntime) -> Result<(), Fail> {
    let alloc = rt.alloc();
    let row = (
        "S 20 A 03 A S 22 A 03 A S 24 A 03 A S 26 A 03 A \
            S 28 A 03 A S 2a A 03 A S 2c A 03 A S 2e A 03 A \
            S 30 A 03 A S 32 A 03 A S 34 A 03 A S 36 A 03 A \
            S 38 A 03 A S 3a A 03 A S 3c A 03 A S 3e A 03 A S",
        "refusal at 80: WrongEvent, expected Stop\n",
    );
    read(&rt, alloc, SEVENTEEN_DEVICES, &[row])
}
