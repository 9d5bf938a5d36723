//! Lines, the packets of what they spell, and their notes.

use crate::compare::same;
use pmb_bus::{Event, event_text};
use pmb_packet::{
    Context, Events, Feed, Note, Outcome, Reader, check, events_of, line_of, parse_line,
};
use pmb_table::{Profile, SAMPLE};
use std::alloc::{AllocError, Global};
use std::test::Fail;

/// A line, the capture text of its packet, and its note after nothing else.
type Row = (&'static str, &'static str, &'static str);

/// The rows of the table. A call keeps the proof of a loop over them from carrying the table.
fn rows() -> &'static [Row] {
    &PACKETS
}

/// Packets of devices of the sample profile.
#[rattlefmt::skip]
static PACKETS: [Row; 5] = [
    ("write 58 21 00 18 pec", "S b0 A 21 A 00 A 18 A f8 A P\n", "VOUT_COMMAND 12"),
    ("read 58 88 : 00 d3", "S b0 A 88 A S b1 A 00 A d3 N P\n", "READ_VIN 12"),
    ("refused 58 03 47", "S b0 A 03 A 47 N P\n", "byte refused"),
    ("refused 20", "S 40 N P\n", "address refused"),
    ("alert none", "S 19 N P\n", "no device"),
];

/// The capture text of events.
fn text_of(alloc: Global, events: &[Event]) -> Result<String, AllocError> {
    let mut text = String::new(alloc);
    for event in events {
        text.push_str(event_text(*event).as_str())?;
    }
    Ok(text)
}

#[test]
fn each_line_makes_its_packet(rt: HostRuntime) -> Result<(), Fail> {
    let profile = Profile::from_toml(rt.alloc(), SAMPLE.as_bytes()).map_err(|_| "profile")?;
    for (line, capture, note) in rows() {
        let said = parse_line(&profile, line.as_bytes()).map_err(|_| "line")?;
        same(&rt, line, check(&profile, &said), Ok(()));
        let mut events = Vec::new(rt.alloc());
        let packet: Events<'_> = events_of(&profile, &said);
        for event in packet {
            events.push(event)?;
        }
        same(&rt, line, text_of(rt.alloc(), &events)?.as_str(), *capture);
        let Feed { used, outcome } = Reader::new(&profile).feed(&events);
        same(&rt, line, used, events.len());
        let Outcome::Packet(read) = outcome else {
            return Err(Fail::from("no packet"));
        };
        same(&rt, line, &read, &said);
        same(&rt, line, line_of(&read).as_str(), *line);
        let context = Context::new(&profile);
        let told: Note = context.note(&read);
        same(&rt, line, told.as_str(), *note);
    }
    Ok(())
}
