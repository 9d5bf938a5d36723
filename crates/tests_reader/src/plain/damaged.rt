//! Captures that were damaged at random, from a fixed seed, against a reader by the rules in words.

use crate::compare::same;
use crate::plain::compared::first_difference;
use plain_packets::{CapturedRow, LONG, LONG_FORMS, PACKETS, REFUSALS, Random, events};
use pmb_bus::Event;
use pmb_table::{Profile, SAMPLE};
use std::alloc::{AllocError, Global};
use std::process::Abort;
use std::test::Fail;

/// How often each row is damaged.
const TIMES: u32 = 50;

/// An event, a byte of which is often one of those that captures have.
fn any_event(random: &mut Random) -> Event {
    match random.below(12) {
        0 | 1 => Event::Start,
        2 | 3 => Event::Ack,
        4 | 5 => Event::Nack,
        6 | 7 => Event::Stop,
        8 => Event::Byte(0xb0),
        9 => Event::Byte(0xb1),
        10 => Event::Byte(0x03),
        _ => Event::Byte(random.byte()),
    }
}

/// Some events, with one put between them if there is one.
fn joined(
    alloc: Global,
    front: &[Event],
    between: Option<Event>,
    rest: &[Event],
) -> Result<Vec<Event>, AllocError> {
    let mut events = Vec::from_slice(alloc, front)?;
    if let Some(event) = between {
        events.push(event)?;
    }
    events.extend_from_slice(rest)?;
    Ok(events)
}

/// Events of which one was left out or replaced, or to which one was added.
fn damaged_once(
    alloc: Global,
    random: &mut Random,
    events: &[Event],
) -> Result<Vec<Event>, AllocError> {
    let place = random.below(events.len());
    let event = any_event(random);
    let how = random.below(3);
    let (front, rest) = events.split_at(place.min(events.len()));
    let behind = rest.get(1..).unwrap_or(&[]);
    match how {
        0 => joined(alloc, front, None, behind),
        1 => joined(alloc, front, Some(event), behind),
        _ => joined(alloc, front, Some(event), rest),
    }
}

/// Two rows, one after the other, damaged in one place to three.
fn damaged(
    alloc: Global,
    random: &mut Random,
    first: &[Event],
    second: &[Event],
) -> Result<Vec<Event>, AllocError> {
    let mut events = joined(alloc, first, None, second)?;
    for _ in 0..random.below(3).saturating_add(1) {
        events = damaged_once(alloc, random, events.as_slice())?;
    }
    Ok(events)
}

/// Whether both readers answer alike to damaged forms of a row, after which comes its neighbour.
fn compares<R: Abort>(
    rt: &R,
    alloc: Global,
    profile: &Profile,
    random: &mut Random,
    row: CapturedRow,
    neighbour: CapturedRow,
) -> Result<(), Fail> {
    let (name, _) = row;
    let (behind, _) = neighbour;
    let first = events(alloc, name)?;
    let second = events(alloc, behind)?;
    for time in 0..TIMES {
        let capture = damaged(alloc, random, first.as_slice(), second.as_slice())?;
        let difference = first_difference(alloc, profile, capture.as_slice(), 0)?;
        same(rt, (name, "time", time, capture), difference, None);
    }
    Ok(())
}

fn compare<R: Abort>(
    rt: &R,
    alloc: Global,
    profile: &str,
    random: &mut Random,
    rows: &[CapturedRow],
) -> Result<(), Fail> {
    let profile = Profile::from_toml(alloc, profile.as_bytes())?;
    let mut neighbour = ("", "");
    for row in rows {
        compares(rt, alloc, &profile, random, *row, neighbour)?;
        neighbour = *row;
    }
    Ok(())
}

#[test]
fn damaged_captures_read_by_the_rules(rt: HostRuntime) -> Result<(), Fail> {
    let alloc = rt.alloc();
    let mut random = Random::new(0x2545_f491);
    compare(&rt, alloc, SAMPLE, &mut random, PACKETS.as_slice())?;
    compare(&rt, alloc, SAMPLE, &mut random, REFUSALS.as_slice())?;
    compare(&rt, alloc, LONG_FORMS, &mut random, LONG.as_slice())
}
