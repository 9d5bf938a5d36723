//! Large captures: the longest group, events without sense, and one event over and over.

use crate::compare::{ensure, same};
use arrayvec::ArrayVec;
use pmb_bus::Event;
use pmb_reader::{Outcome, Reader, Took};
use pmb_table::{Profile, SAMPLE};
use pmb_transaction::{Part, Transaction};
use pmb_writer::{check, events_of};
use std::alloc::{AllocError, Global};
use std::test::Fail;

/// Sixteen devices, 10h to 1fh, that take packet error codes.
fn sixteen_devices(alloc: Global) -> Result<String, AllocError> {
    let mut text = String::new(alloc);
    for address in 0x10..0x20u8 {
        let device = format!(in alloc; "[[device]]\naddress = {address}\npec = \"optional\"\n")?;
        text.push_str(device.as_str())?;
    }
    Ok(text)
}

/// MFR_ID of 255 bytes, with a packet error code, to each of them.
fn longest_group() -> Transaction {
    let mut parts = ArrayVec::new();
    for address in 0x10..0x20u8 {
        let mut bytes = ArrayVec::new();
        for byte in 0..255u8 {
            let _ = bytes.try_push(byte);
        }
        let part = Part {
            addr: address,
            code: 0x99,
            bytes,
            pec: true,
        };
        let _ = parts.try_push(part);
    }
    Transaction::Write { parts }
}

#[test]
fn reads_the_longest_group(rt: HostRuntime) -> Result<(), Fail> {
    let alloc = rt.alloc();
    let profile = Profile::from_toml(alloc, sixteen_devices(alloc)?.as_str().as_bytes())?;
    let group = longest_group();
    // (`events_of` needs what is asserted here, which `same` would not hand on)
    assert_eq!(rt; check(&profile, &group), Ok(()), "the group is valid");
    let mut events = Vec::new(alloc);
    for event in events_of(&profile, &group) {
        events.push(event)?;
    }
    same(&rt, "its events", events.len(), 8305);
    let mut reader = Reader::new(&profile);
    let feed = reader.feed(events.as_slice());
    same(&rt, "whole", feed.used, 8305);
    same(&rt, "whole", feed.outcome, Outcome::Packet(longest_group()));
    let mut packets = 0u8;
    for event in &events {
        if reader.take(*event) == Took::Packet {
            packets = packets.saturating_add(1);
        }
    }
    same(&rt, "one by one", packets, 1);
    same(&rt, "one by one", reader.packet(), &group);
    Ok(())
}

/// A capture of events without sense.
#[derive(Clone, Copy)]
enum Senseless {
    /// Events that follow no pattern.
    Unordered,
    /// One event over and over.
    Repeated(Event),
}

impl Senseless {
    /// The event that a number from 0 to 65535, which follows no pattern, stands for.
    fn event(self, number: u32) -> Event {
        match self {
            Senseless::Repeated(event) => event,
            Senseless::Unordered => match number % 8 {
                0 => Event::Start,
                1 => Event::Stop,
                2 => Event::Nack,
                3 => Event::Byte(0xb0),
                4 => Event::Byte((number / 8 % 256) as u8),
                _ => Event::Ack,
            },
        }
    }
}

/// How many packets and refusals such a capture of so many events has.
fn counted(profile: &Profile, count: u32, senseless: Senseless) -> (u32, u32) {
    let mut reader = Reader::new(profile);
    let mut packets = 0u32;
    let mut refusals = 0u32;
    let mut state = 0x2545_f491u32;
    for _ in 0..count {
        state = state.wrapping_mul(1_664_525).wrapping_add(1_013_904_223);
        let event = senseless.event(state >> 16);
        match reader.take(event) {
            Took::Continues => {}
            Took::Packet => packets = packets.saturating_add(1),
            Took::Refused(_) => {
                refusals = refusals.saturating_add(1);
                reader.resync();
                reader.take(event);
            }
        }
    }
    (packets, refusals)
}

#[test]
fn senseless_events_end(rt: HostRuntime) -> Result<(), Fail> {
    let profile = Profile::from_toml(rt.alloc(), SAMPLE.as_bytes())?;
    let (packets, refusals) = counted(&profile, 10_000_000, Senseless::Unordered);
    ensure(&rt, (packets, refusals), packets > 0 && refusals > packets);
    same(
        &rt,
        "STOPs",
        counted(&profile, 1 << 20, Senseless::Repeated(Event::Stop)),
        (0, 1 << 20),
    );
    same(
        &rt,
        "STARTs",
        counted(&profile, 1 << 20, Senseless::Repeated(Event::Start)),
        (0, 1),
    );
    Ok(())
}

#[test]
fn a_leg_without_end_is_refused_behind_its_block(rt: HostRuntime) -> Result<(), Fail> {
    let profile = Profile::from_toml(rt.alloc(), SAMPLE.as_bytes())?;
    let mut reader = Reader::new(&profile);
    for event in [
        Event::Start,
        Event::Byte(0xb0),
        Event::Ack,
        Event::Byte(0x99),
        Event::Ack,
    ] {
        same(&rt, event, reader.take(event), Took::Continues);
    }
    let mut refused_at = None;
    for place in 5..1_000_000u64 {
        let event = if place % 2 == 1 {
            Event::Byte(0xff)
        } else {
            Event::Ack
        };
        if let Took::Refused(refusal) = reader.take(event) {
            refused_at = refused_at.or(Some(refusal.at));
            reader.resync();
        }
    }
    // 5 events, the count and 255 bytes, and a byte that is no packet error code: its ACK.
    same(&rt, "the refusal", refused_at, Some(518));
    Ok(())
}
