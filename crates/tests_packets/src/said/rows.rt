//! Captures whose last event is refused, or that end inside a packet, under the sample profile, and
//! what was said before. The reader gives each reason.

use crate::compare::same;
use crate::said::told::told;
use plain_packets::events;
use pmb_bus::Event;
use pmb_partial_packet::PartialPacket;
use pmb_reader::{Reader, Took};
use pmb_table::{Profile, SAMPLE};
use pmb_transaction::Reason;
use std::alloc::{AllocError, Global};
use std::process::Abort;
use std::test::Fail;

type Row = (&'static str, &'static str);

/// One leg, or a leg and a START.
#[rattlefmt::skip]
static WRITTEN: [Row; 14] = [
    ("S", "Truncated"),
    ("S b1", "ReadFirst"),
    ("S P", "WrongEvent"),
    ("S b0", "Truncated device 58 to 58 sent"),
    ("S 40 A", "UnknownDevice device 20 to 20 sent"),
    ("S 18 A", "UnknownDevice device 0c to 0c sent"),
    ("S b0 A c8 A", "UnknownCommand device 58 to 58 sent c8"),
    ("S b0 A 21 A 00", "Truncated device 58 to 58 sent 21 00"),
    ("S b0 A 88 A 00", "WrongEvent device 58 to 58 sent 88"),
    ("S b0 A 03 A 47 A", "BadPec device 58 to 58 sent 03 47 right 46"),
    ("S b0 A 21 A 00 A 18 A f9 A", "BadPec device 58 to 58 sent 21 00 18 f9 right f8"),
    ("S b0 A 03 A 47 N S", "WrongEvent device 58 to 58 sent 03 47"),
    ("S b0 A 03 A S b0", "BadRestart device 58 to 58 sent 03"),
    ("S b0 A 88 A S b3", "BadRestart device 58 to 58 sent 88"),
];

/// Groups: the last written leg is told, and each has its own packet error code.
#[rattlefmt::skip]
static GROUPS: [Row; 7] = [
    ("S b0 A 03 A S P", "WrongEvent device 58 to 58 sent 03"),
    ("S b0 A 03 A S b2", "Truncated device 59 to 59 sent"),
    ("S b0 A 03 A S 40 A", "UnknownDevice device 20 to 20 sent"),
    ("S b0 A 03 A S b2 A c8 A", "UnknownCommand device 59 to 59 sent c8"),
    ("S b2 A 03 A S b0 A 88 A", "UnknownCommand device 58 to 58 sent 88"),
    ("S b0 A 03 A S b4 A 03 A 37 A", "BadPec device 5a to 5a sent 03 37 right 12"),
    ("S b0 A 03 A S b2 A 03 A S b1", "BadRestart device 59 to 59 sent 03"),
];

/// Legs that are read: the code covers both legs.
#[rattlefmt::skip]
static READS: [Row; 9] = [
    ("S b0 A 88 A S b1", "Truncated device 58 to 58 sent 88 reply"),
    ("S b0 A 88 A S b1 A N", "WrongEvent device 58 to 58 sent 88 reply"),
    ("S b0 A 88 A S b1 A 00 N", "TooShort device 58 to 58 sent 88 reply 00"),
    ("S b0 A 88 A S b1 A 00 A d3 A f7", "BadPec device 58 to 58 sent 88 reply 00 d3 right f6"),
    ("S b0 A 99 A S b1 A 00 A 52", "BadPec device 58 to 58 sent 99 reply 00 right 51"),
    ("S b0 A 99 A S b1 A 02 A 41 A 42 A 00", "BadPec device 58 to 58 sent 99 reply 02 41 42 right 48"),
    ("S b4 A 99 A S b5 A 00 N", "TooShort device 5a to 5a sent 99 reply 00"),
    ("S b2 A 19 A S b3 A b0 A", "TooLong device 59 to 59 sent 19 reply b0"),
    ("S b0 A 88 A S b1 A 00 A d3 A f6 A", "TooLong device 58 to 58 sent 88 reply 00 d3 f6"),
];

/// Alerts: no device, and a code over the one leg.
static ALERTS: [Row; 5] = [
    ("S 19", "Truncated reply"),
    ("S 19 S", "WrongEvent reply"),
    ("S 19 A b0", "Truncated reply b0"),
    ("S 19 A b0 A 00", "BadPec reply b0 right f3"),
    ("S 19 A b0 A f3 A", "TooLong reply b0 f3"),
];

/// Why the events are refused: by the reader, at the last of them or at their end.
fn refusal(profile: &Profile, events: &[Event]) -> Option<(Reason, Option<Event>)> {
    let mut reader = Reader::new(profile);
    for (i, event) in events.iter().enumerate() {
        match reader.take(*event) {
            Took::Continues => {}
            Took::Packet => return None,
            Took::Refused(refusal) if i.saturating_add(1) == events.len() => {
                return Some((refusal.reason, Some(*event)));
            }
            Took::Refused(_) => return None,
        }
    }
    match reader.finish() {
        Ok(()) => None,
        Err(refusal) => Some((refusal.reason, None)),
    }
}

/// What was said before that, after an earlier packet.
fn said_before(
    alloc: Global,
    said: &mut PartialPacket,
    profile: &Profile,
    events: &[Event],
) -> Result<String, AllocError> {
    let Some((reason, refused)) = refusal(profile, events) else {
        return String::from_str(alloc, "no refusal");
    };
    said.begin();
    let front = match (refused, events.split_last()) {
        (Some(_), Some((_, front))) => front,
        _ => events,
    };
    for event in front {
        said.take(*event);
    }
    told(alloc, said, reason, refused)
}

fn tells<R: Abort>(rt: &R, alloc: Global, rows: &[Row]) -> Result<(), Fail> {
    let profile = Profile::from_toml(alloc, SAMPLE.as_bytes())?;
    let mut said = PartialPacket::new();
    for (capture, expected) in rows {
        let events = events(alloc, capture)?;
        let text = said_before(alloc, &mut said, &profile, events.as_slice())?;
        same(rt, capture, text.as_str(), *expected);
    }
    Ok(())
}

#[test]
fn tells_what_each_packet_said(rt: HostRuntime) -> Result<(), Fail> {
    let alloc = rt.alloc();
    tells(&rt, alloc, WRITTEN.as_slice())?;
    tells(&rt, alloc, GROUPS.as_slice())?;
    tells(&rt, alloc, READS.as_slice())?;
    tells(&rt, alloc, ALERTS.as_slice())
}
