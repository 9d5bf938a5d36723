//! Events that no packet begins with, and which events may come instead.

use crate::compare::{ensure, same};
use plain_packets::{LONG_FORMS, SEVENTEEN_DEVICES, events, is_viable, kinds_after};
use pmb_bus::{Event, Kinds};
use pmb_table::{Profile, SAMPLE};
use std::alloc::{AllocError, Global};
use std::process::Abort;
use std::test::Fail;

/// Events, the place of the first with which no packet begins, their number where some packet does,
/// and the kinds that may come there.
#[derive(Clone, Copy)]
struct Row {
    profile: &'static str,
    events: &'static str,
    at: usize,
    kinds: &'static [Kinds],
}

fn sample(events: &'static str, at: usize, kinds: &'static [Kinds]) -> Row {
    Row {
        profile: SAMPLE,
        events,
        at,
        kinds,
    }
}

/// Viable events that stop inside a packet.
fn inside() -> [Row; 13] {
    [
        sample("", 0, &[Kinds::START]),
        sample("S", 1, &[Kinds::BYTE]),
        sample("S 40", 2, &[Kinds::NACK]),
        sample("S b0", 2, &[Kinds::ACK, Kinds::NACK]),
        sample("S b0 A", 3, &[Kinds::BYTE]),
        sample("S b0 A c8", 4, &[Kinds::NACK]),
        sample("S b0 A 88 A", 5, &[Kinds::START]),
        sample("S b0 A 21 A 00 A 18 A f9", 10, &[Kinds::NACK]),
        sample("S b2 A 03 A", 5, &[Kinds::START, Kinds::STOP]),
        sample("S b4 A 03 A", 5, &[Kinds::BYTE]),
        sample("S b0 A 88 A S b1 A 00 A d3", 11, &[Kinds::ACK, Kinds::NACK]),
        sample("S b0 A 88 A S b1 A 00 A d3 A", 12, &[Kinds::BYTE]),
        sample("S b0 A 21 A 00 N", 7, &[Kinds::STOP]),
    ]
}

fn written() -> [Row; 17] {
    [
        sample(
            "S b0 A 21 A 00 A 18 A",
            9,
            &[Kinds::START, Kinds::BYTE, Kinds::STOP],
        ),
        sample("S b0 A 21 A 00 A 18 A f9 A", 10, &[Kinds::NACK]),
        sample("S b0 A 21 A 00", 6, &[Kinds::ACK, Kinds::NACK]),
        sample("S b0 A 03 A 47 A", 6, &[Kinds::NACK]),
        sample("S b4 A 03 A P", 5, &[Kinds::BYTE]),
        sample("S b4 A 03 A 13 A", 6, &[Kinds::NACK]),
        sample("S b2 A 03 A 12", 5, &[Kinds::START, Kinds::STOP]),
        sample("S b0 A c8 A", 4, &[Kinds::NACK]),
        sample("S b0 A 99 A 02 A 41 A P", 9, &[Kinds::BYTE]),
        sample("S b2 A 99 A 01 A 41 A 42", 9, &[Kinds::START, Kinds::STOP]),
        sample("S b0 A 21 A 00 A 18 N S", 9, &[Kinds::STOP]),
        sample("S b0 N A", 3, &[Kinds::STOP]),
        sample("S b0 A P", 3, &[Kinds::BYTE]),
        sample("S 40 A", 2, &[Kinds::NACK]),
        sample("S b1", 1, &[Kinds::BYTE]),
        sample("S S", 1, &[Kinds::BYTE]),
        sample("P", 0, &[Kinds::START]),
    ]
}

fn groups() -> [Row; 7] {
    [
        sample("S b0 A 03 A S b0", 6, &[Kinds::BYTE]),
        sample("S b0 A 03 A S b1", 6, &[Kinds::BYTE]),
        sample("S b0 A 03 A S b4 A 03 A 37 A", 11, &[Kinds::NACK]),
        sample("S b2 A 03 A S b0 A 88 A", 9, &[Kinds::NACK]),
        sample("S b2 A 03 A S b0 A 30 A", 9, &[Kinds::NACK]),
        sample("S b2 A 03 A S 19", 6, &[Kinds::BYTE]),
        sample("S b2 A 03 A S b0 N S", 8, &[Kinds::STOP]),
    ]
}

fn replies() -> [Row; 13] {
    [
        sample("S b0 A 88 A 00", 5, &[Kinds::START]),
        sample("S b0 A 88 A S 40", 6, &[Kinds::BYTE]),
        sample("S b0 A 88 A S b3", 6, &[Kinds::BYTE]),
        sample("S b0 A 88 A S b1 A 00 N", 9, &[Kinds::ACK]),
        sample("S b0 A 88 A S b1 A 00 A d3 A f7", 12, &[Kinds::BYTE]),
        sample("S b2 A 88 A S b3 A 00 A d3 A", 11, &[Kinds::NACK]),
        sample("S b4 A 88 A S b5 A 00 A d3 N", 11, &[Kinds::ACK]),
        sample("S b2 A 19 A S b3 A b0 A", 9, &[Kinds::NACK]),
        sample("S b2 A 99 A S b3 A 02 A 41 N", 11, &[Kinds::ACK]),
        sample("S b0 A 88 A S b1 N S", 8, &[Kinds::STOP]),
        sample("S b0 A 88 A S b1 A 00 A d3 N S", 12, &[Kinds::STOP]),
        sample(
            "S b0 A 1b A 01 A 7a A",
            9,
            &[Kinds::START, Kinds::BYTE, Kinds::STOP],
        ),
        sample("S b0 A 21 A 00 A 18 A S b1", 10, &[Kinds::BYTE]),
    ]
}

fn alerts() -> [Row; 6] {
    [
        sample("S 19 A b0", 4, &[Kinds::ACK, Kinds::NACK]),
        sample("S 19 A b0 A f2", 5, &[Kinds::BYTE]),
        sample("S 19 A b0 A f3 A", 6, &[Kinds::NACK]),
        sample("S 19 A N", 3, &[Kinds::BYTE]),
        sample("S 1b", 1, &[Kinds::BYTE]),
        sample("S 19 N S", 3, &[Kinds::STOP]),
    ]
}

fn long_forms() -> [Row; 2] {
    [
        Row {
            profile: LONG_FORMS,
            events: "S 20 A e1 A S 21 A 01 A 02 A 03 A 04 A 05 A 06 A 07 N",
            at: 21,
            kinds: &[Kinds::ACK],
        },
        Row {
            profile: LONG_FORMS,
            events: "S 20 A e0 A 01 A 02 A 03 A S",
            at: 11,
            kinds: &[Kinds::BYTE],
        },
    ]
}

/// Whether the events are viable up to a place, and not from there on.
fn turns_at(
    alloc: Global,
    profile: &Profile,
    told: &[Event],
    at: usize,
) -> Result<bool, AllocError> {
    for count in 0..told.len() + 1 {
        if is_viable(alloc, profile, &told[..count])? != (count <= at) {
            return Ok(false);
        }
    }
    Ok(true)
}

fn union_of(kinds: &[Kinds]) -> Kinds {
    let mut union = Kinds::empty();
    for kind in kinds {
        union.insert(*kind);
    }
    union
}

/// The kinds that may come at a place.
fn kinds_at(
    alloc: Global,
    profile: &Profile,
    told: &[Event],
    at: usize,
) -> Result<Kinds, AllocError> {
    match told.get(..at) {
        Some(front) => kinds_after(alloc, profile, front),
        None => Ok(Kinds::empty()),
    }
}

fn is_refused<R: Abort>(rt: &R, alloc: Global, profile: &Profile, row: &Row) -> Result<(), Fail> {
    let name = row.events;
    let told = events(alloc, row.events)?;
    let turns = turns_at(alloc, profile, told.as_slice(), row.at)?;
    ensure(rt, name, turns);
    let kinds = kinds_at(alloc, profile, told.as_slice(), row.at)?;
    same(rt, name, kinds, union_of(row.kinds));
    Ok(())
}

fn are_refused<R: Abort>(rt: &R, alloc: Global, rows: &[Row]) -> Result<(), Fail> {
    for row in rows {
        let profile = Profile::from_toml(alloc, row.profile.as_bytes())?;
        is_refused(rt, alloc, &profile, row)?;
    }
    Ok(())
}

#[test]
fn each_refused_event_is_the_first_with_which_no_packet_begins(
    rt: HostRuntime,
) -> Result<(), Fail> {
    let alloc = rt.alloc();
    are_refused(&rt, alloc, inside().as_slice())?;
    are_refused(&rt, alloc, written().as_slice())?;
    are_refused(&rt, alloc, groups().as_slice())?;
    are_refused(&rt, alloc, replies().as_slice())?;
    are_refused(&rt, alloc, alerts().as_slice())?;
    are_refused(&rt, alloc, long_forms().as_slice())
}

#[test]
fn a_group_has_sixteen_parts(rt: HostRuntime) -> Result<(), Fail> {
    let alloc = rt.alloc();
    let profile = Profile::from_toml(alloc, SEVENTEEN_DEVICES.as_bytes())?;
    let row = Row {
        profile: "",
        events: "S 20 A 03 A S 22 A 03 A S 24 A 03 A S 26 A 03 A \
            S 28 A 03 A S 2a A 03 A S 2c A 03 A S 2e A 03 A \
            S 30 A 03 A S 32 A 03 A S 34 A 03 A S 36 A 03 A \
            S 38 A 03 A S 3a A 03 A S 3c A 03 A S 3e A 03 A S",
        at: 80,
        kinds: &[Kinds::STOP],
    };
    is_refused(&rt, alloc, &profile, &row)
}

#[test]
fn a_block_has_up_to_255_bytes(rt: HostRuntime) -> Result<(), Fail> {
    let alloc = rt.alloc();
    let profile = Profile::from_toml(alloc, SAMPLE.as_bytes())?;
    let mut told = events(alloc, "S b0 A 99 A S b1 A ff A")?;
    for _ in 0..254 {
        told.push(Event::Byte(0x41))?;
        told.push(Event::Ack)?;
    }
    told.push(Event::Byte(0x41))?;
    let kinds = kinds_after(alloc, &profile, told.as_slice())?;
    same(&rt, "within the data", kinds, Kinds::ACK.union(Kinds::NACK));
    told.push(Event::Nack)?;
    let kinds = kinds_after(alloc, &profile, told.as_slice())?;
    same(&rt, "at the end", kinds, Kinds::STOP);
    Ok(())
}
