//! Captures of every sort, as canonical text: a packet is taken at once exactly where the reader comes
//! to one event by event, and it is the same.

use crate::compare::{ensure, same};
use plain_packets::{CapturedRow, LONG, LONG_FORMS, PACKETS, REFUSALS, events};
use pmb_bus::{Event, Lexer, Step, event_text};
use pmb_canonical::CanonicalReader;
use pmb_line::line_of;
use pmb_reader::{Reader, Took};
use pmb_table::{Profile, SAMPLE};
use pmb_transaction_slot::TransactionSlot;
use std::alloc::{AllocError, Global};
use std::process::Abort;
use std::test::Fail;

/// The canonical text of a capture.
fn text_of(alloc: Global, events: &[Event]) -> Result<String, AllocError> {
    let mut text = String::new(alloc);
    for event in events {
        text.push_str(event_text(*event).as_str())?;
    }
    Ok(text)
}

/// What event by event comes to from between two packets, up to the end of the first one.
fn first_packet<'p>(reader: &mut Reader<'p>, text: &[u8]) -> Option<(usize, usize)> {
    let mut lexer = Lexer::new();
    let mut used = 0;
    for count in 1..=text.len() {
        let lexed = lexer.feed(text.get(used..)?);
        used += lexed.used;
        match lexed.step {
            Step::Event(event) => match reader.take(event) {
                Took::Continues => {}
                Took::Packet => return Some((used, count)),
                Took::Refused(_) => return None,
            },
            Step::Need | Step::Fault(_) => return None,
        }
    }
    None
}

/// Whether both ways agree at the front of a text.
fn agree<R: Abort>(
    rt: &R,
    profile: &Profile,
    canonical: &mut CanonicalReader,
    kept: &mut TransactionSlot,
    text: &[u8],
) -> usize {
    let mut reader = Reader::new(profile);
    let slow = first_packet(&mut reader, text);
    let fast = canonical.take(kept, profile, text);
    match (slow, fast) {
        (Some((used, count)), Some(taken)) => {
            same(rt, "bytes used", taken.used, used);
            same(rt, "events", taken.events, count);
            let fast_line = line_of(kept.last());
            same(
                rt,
                "its line",
                line_of(reader.packet()).as_str(),
                fast_line.as_str(),
            );
            1
        }
        (None, Some(_)) => {
            assert!(rt; false, "only the fast way takes a packet");
            0
        }
        (Some(_), None) => {
            assert!(rt; false, "the fast way leaves a packet");
            0
        }
        (None, None) => 0,
    }
}

fn compare<R: Abort>(
    rt: &R,
    alloc: Global,
    profile: &str,
    rows: &[CapturedRow],
) -> Result<usize, Fail> {
    let profile = Profile::from_toml(alloc, profile.as_bytes())?;
    let mut canonical = CanonicalReader::new();
    let mut kept = TransactionSlot::new();
    let mut taken = 0usize;
    for row in rows {
        let (capture, _) = *row;
        let events = events(alloc, capture)?;
        for from in 0..=events.len() {
            let (_, rest) = events.as_slice().split_at(from);
            let text = text_of(alloc, rest)?;
            taken = taken.saturating_add(agree(
                rt,
                &profile,
                &mut canonical,
                &mut kept,
                text.as_bytes(),
            ));
        }
    }
    Ok(taken)
}

#[test]
fn both_ways_agree_on_each_row(rt: HostRuntime) -> Result<(), Fail> {
    let alloc = rt.alloc();
    ensure(
        &rt,
        "packets of the sample",
        compare(&rt, alloc, SAMPLE, PACKETS.as_slice())? > 0,
    );
    let _ = compare(&rt, alloc, SAMPLE, REFUSALS.as_slice())?;
    ensure(
        &rt,
        "packets of long forms",
        compare(&rt, alloc, LONG_FORMS, LONG.as_slice())? > 0,
    );
    Ok(())
}
