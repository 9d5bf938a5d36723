//! Captures, and how many packets and refusals they read as, counted by hand; and the program of
//! `pmb_count`'s documentation.

use crate::compare::same;
use plain_packets::events;
use pmb_bus::Event;
use pmb_count::{CaptureCounts, Counter, count, laws};
use pmb_table::{Profile, SAMPLE};
use std::alloc::Global;
use std::process::Abort;
use std::test::Fail;

// a capture, its packets and its refusals
type Row = (&'static str, u64, u64);

static ROWS: [Row; 8] = [
    ("", 0, 0),
    ("S 40 N P S b0 A 03 A 47 N P", 2, 0),
    ("S b0 A 03 A S b2 A 03 A P", 1, 0),
    ("S 40 A P S 40 N P", 1, 1),
    ("S b0 A 21 A 00", 0, 1),
    ("S 40 A P S b0 A 21", 0, 2),
    ("S 40 A", 0, 1),
    ("P P", 0, 2),
];

// counts a capture that comes in two pieces
fn count_in_two(profile: &Profile, first: &[Event], rest: &[Event]) -> CaptureCounts {
    let mut counter = Counter::new(profile);
    counter.feed(first);
    counter.feed(rest);
    counter.finish()
}

fn counts<R: Abort>(rt: &R, alloc: Global, profile: &Profile, rows: &[Row]) -> Result<(), Fail> {
    for row in rows {
        let (capture, packets, refusals) = *row;
        let events = events(alloc, capture)?;
        let counted = count(profile, events.as_slice());
        same(rt, capture, counted, CaptureCounts { packets, refusals });
        for cut in 0..=events.len() {
            let (first, rest) = events.as_slice().split_at(cut);
            let counted = count_in_two(profile, first, rest);
            same(
                rt,
                (capture, "cut at", cut),
                counted,
                CaptureCounts { packets, refusals },
            );
        }
    }
    Ok(())
}

#[test]
fn counts_each_row(rt: HostRuntime) -> Result<(), Fail> {
    let profile = Profile::from_toml(rt.alloc(), SAMPLE.as_bytes())?;
    counts(&rt, rt.alloc(), &profile, ROWS.as_slice())
}

#[test]
fn counts_a_refused_address(rt: HostRuntime) -> Result<(), Fail> {
    let profile = Profile::from_toml(rt.alloc(), SAMPLE.as_bytes())?;
    let refused_address = [Event::Start, Event::Byte(0x40), Event::Nack, Event::Stop];
    same(
        &rt,
        "a refused address",
        count(&profile, &refused_address),
        CaptureCounts {
            packets: 1,
            refusals: 0,
        },
    );
    Ok(())
}

#[test]
fn calls_the_law() {
    laws::captures_are_not_refused();
}
