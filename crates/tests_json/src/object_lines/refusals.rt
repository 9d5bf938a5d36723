//! The objects of refusals.

use crate::compare::same;
use crate::object_lines::seen::{NAMED, head, seen};
use arrayvec::ArrayVec;
use pmb_bus::{Event, Kinds};
use pmb_json_objects::{OBJECT, refusal_line};
use pmb_partial_packet::PartialPacket;
use pmb_places::Place;
use pmb_table::{Profile, SAMPLE};
use pmb_transaction::Reason;
use pmb_unknown_start::{Late, Start};
use std::test::Fail;

/// What came before, the refused event, why, what was expected, and the line.
pub(crate) type Row = (&'static [Event], Option<Event>, Reason, Kinds, &'static str);

/// The rows of the table. A call keeps the proof of a loop over them from carrying the table.
pub(crate) fn rows() -> &'static [Row] {
    &ROWS
}

#[rattlefmt::skip]
static ROWS: [Row; 5] = [
    // S b0 A 88 A S b1 A 00 A d3 A f7: the error code of a reply
    (&[Event::Start, Event::Byte(0xb0), Event::Ack, Event::Byte(0x88), Event::Ack, Event::Start, Event::Byte(0xb1), Event::Ack, Event::Byte(0x00), Event::Ack, Event::Byte(0xd3), Event::Ack], Some(Event::Byte(0xf7)), Reason::BadPec, Kinds::BYTE,
        "{\"at\":62,\"line\":6,\"column\":30,\"kind\":\"refusal\",\"reason\":\"BadPec\",\"expected\":[\"Byte\"],\"got\":\"f7\",\"device\":\"58\",\"code\":\"88\",\"command\":\"READ_VIN\",\"page\":0,\"page_mode\":\"assumed\",\"sent\":\"88\",\"reply\":\"00d3\",\"right_pec\":\"f6\"}\n"),
    // S: nothing was said
    (&[Event::Start], Some(Event::Stop), Reason::WrongEvent, Kinds::BYTE, "{\"at\":62,\"line\":6,\"column\":30,\"kind\":\"refusal\",\"reason\":\"WrongEvent\",\"expected\":[\"Byte\"],\"got\":\"Stop\"}\n"),
    // S 19 A: the device that alerts has not told its address
    (&[Event::Start, Event::Byte(0x19), Event::Ack], None, Reason::Truncated, Kinds::BYTE, "{\"at\":62,\"line\":6,\"column\":30,\"kind\":\"refusal\",\"reason\":\"Truncated\",\"expected\":[\"Byte\"],\"got\":null,\"reply\":\"\"}\n"),
    // S b0 A ee: no such command
    (&[Event::Start, Event::Byte(0xb0), Event::Ack, Event::Byte(0xee)], Some(Event::Ack), Reason::UnknownCommand, Kinds::NACK, "{\"at\":62,\"line\":6,\"column\":30,\"kind\":\"refusal\",\"reason\":\"UnknownCommand\",\"expected\":[\"Nack\"],\"got\":\"Ack\",\"device\":\"58\",\"code\":\"ee\",\"sent\":\"ee\"}\n"),
    // S b0 A 03 A: a Send Byte that may end, or an error code or another part may follow
    (&[Event::Start, Event::Byte(0xb0), Event::Ack, Event::Byte(0x03), Event::Ack], Some(Event::Nack), Reason::WrongEvent, Kinds::STOP, "{\"at\":62,\"line\":6,\"column\":30,\"kind\":\"refusal\",\"reason\":\"WrongEvent\",\"expected\":[\"Stop\"],\"got\":\"Nack\",\"device\":\"58\",\"code\":\"03\",\"command\":\"CLEAR_FAULTS\",\"sent\":\"03\"}\n"),
];

#[test]
fn each_is_told(rt: HostRuntime) -> Result<(), Fail> {
    let profile = Profile::from_toml(rt.alloc(), SAMPLE.as_bytes())?;
    let late = Late::new(&profile, Start::AllKnown);
    let seen = seen(&profile, &late);
    let place = Place {
        line: 6,
        column: 30,
    };
    for (front, event, reason, expected, line) in rows() {
        let mut said = PartialPacket::new();
        for event in *front {
            said.take(*event);
        }
        let mut out = ArrayVec::<u8, OBJECT>::new();
        refusal_line(
            &mut out,
            &seen,
            head(62, place, None),
            &said,
            *event,
            *reason,
            *expected,
        );
        same(&rt, line, out.as_slice(), line.as_bytes());
    }
    Ok(())
}

// S b0 A 03 A: after a time line, of a device that has a name
#[test]
fn one_is_told_with_its_time_and_name(rt: HostRuntime) -> Result<(), Fail> {
    let profile = Profile::from_toml(rt.alloc(), NAMED.as_bytes())?;
    let late = Late::new(&profile, Start::AllKnown);
    let seen = seen(&profile, &late);
    let place = Place {
        line: 6,
        column: 30,
    };
    let mut said = PartialPacket::new();
    said.take(Event::Start);
    said.take(Event::Byte(0xb0));
    said.take(Event::Ack);
    said.take(Event::Byte(0x03));
    said.take(Event::Ack);
    let mut out = ArrayVec::<u8, OBJECT>::new();
    refusal_line(
        &mut out,
        &seen,
        head(62, place, Some("12.5")),
        &said,
        Some(Event::Nack),
        Reason::WrongEvent,
        Kinds::STOP,
    );
    let line =
        b"{\"at\":62,\"line\":6,\"column\":30,\"time\":\"12.5\",\"kind\":\"refusal\",\"reason\":\"WrongEvent\",\"expected\":[\"Stop\"],\"got\":\"Nack\",\"device\":\"58\",\"name\":\"VDD_CORE\",\"code\":\"03\",\"command\":\"CLEAR_FAULTS\",\"sent\":\"03\"}\n";
    same(&rt, "WrongEvent", out.as_slice(), &line[..]);
    Ok(())
}
