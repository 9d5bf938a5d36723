//! The lines of refusals: a row for each reason and each hint.

use crate::compare::same;
use crate::object_lines::seen::{NAMED, head};
use arrayvec::ArrayVec;
use pmb_bus::{Event, Kinds};
use pmb_decimal::Digits;
use pmb_facts::{Fact, What};
use pmb_json_objects::Seen;
use pmb_log_lines::{LINE, Layout, append_log_line};
use pmb_partial_packet::PartialPacket;
use pmb_places::Place;
use pmb_table::Profile;
use pmb_transaction::Reason;
use pmb_unknown_start::{Late, Start};
use std::test::Fail;

/// What came before, the refused event, why, what might have come, and the line.
type Row = (&'static [Event], Option<Event>, Reason, Kinds, &'static str);

/// The rows of the table. A call keeps the proof of a loop over them from carrying the table.
fn rows() -> &'static [Row] {
    &ROWS
}

#[rattlefmt::skip]
static ROWS: [Row; 14] = [
    // S b1: the address of 58 for reading, first in its packet
    (&[Event::Start], Some(Event::Byte(0xb1)), Reason::ReadFirst, Kinds::BYTE,
        "      12.5                                               b1 reads without a command (Receive Byte, or a capture that begins inside a packet)\n"),
    // S b0 A 88 A S b0
    (&[Event::Start, Event::Byte(0xb0), Event::Ack, Event::Byte(0x88), Event::Ack, Event::Start], Some(Event::Byte(0xb0)), Reason::BadRestart, Kinds::BYTE,
        "      12.5  58  VDD_CORE   0  READ_VIN                   b0 cannot come after a repeated START\n"),
    // S b0 A 88 A S b1 A 00 A d3 A f7: the error code of a reply
    (&[Event::Start, Event::Byte(0xb0), Event::Ack, Event::Byte(0x88), Event::Ack, Event::Start, Event::Byte(0xb1), Event::Ack, Event::Byte(0x00), Event::Ack, Event::Byte(0xd3), Event::Ack], Some(Event::Byte(0xf7)), Reason::BadPec, Kinds::BYTE,
        "      12.5  58  VDD_CORE   0  READ_VIN                   wrong error code f7 after 00 d3: f6 is right\n"),
    // S b0 A 03 A 47 A: the error code of a write
    (&[Event::Start, Event::Byte(0xb0), Event::Ack, Event::Byte(0x03), Event::Ack, Event::Byte(0x47)], Some(Event::Ack), Reason::BadPec, Kinds::NACK,
        "      12.5  58  VDD_CORE      CLEAR_FAULTS               wrong error code 47 was acknowledged: 46 is right\n"),
    // S 40 A
    (&[Event::Start, Event::Byte(0x40)], Some(Event::Ack), Reason::UnknownDevice, Kinds::NACK,
        "      12.5  20                                           acknowledged, but the profile has no such device\n"),
    // S b0 A ee A: no such command
    (&[Event::Start, Event::Byte(0xb0), Event::Ack, Event::Byte(0xee)], Some(Event::Ack), Reason::UnknownCommand, Kinds::NACK,
        "      12.5  58  VDD_CORE      ee                         code ee acknowledged, but the profile has no such command\n"),
    // S b0 A 03 A S b2 A 88 A: a command that is only read, in a group
    (&[Event::Start, Event::Byte(0xb0), Event::Ack, Event::Byte(0x03), Event::Ack, Event::Start, Event::Byte(0xb2), Event::Ack, Event::Byte(0x88)], Some(Event::Ack), Reason::UnknownCommand, Kinds::NACK,
        "      12.5  59  \"3V3\" \\ ~     READ_VIN                   code 88 acknowledged, but it cannot come here\n"),
    // S b4 A 88 A S b5 A 00 A d3 A: of a device without error codes
    (&[Event::Start, Event::Byte(0xb4), Event::Ack, Event::Byte(0x88), Event::Ack, Event::Start, Event::Byte(0xb5), Event::Ack, Event::Byte(0x00), Event::Ack, Event::Byte(0xd3)], Some(Event::Ack), Reason::TooLong, Kinds::NACK,
        "      12.5  5a                READ_VIN                   read on after 00 d3, which is all (an error code? pec is \"off\" in the profile)\n"),
    // S b0 A 88 A S b1 A 00 N
    (&[Event::Start, Event::Byte(0xb0), Event::Ack, Event::Byte(0x88), Event::Ack, Event::Start, Event::Byte(0xb1), Event::Ack, Event::Byte(0x00)], Some(Event::Nack), Reason::TooShort, Kinds::ACK,
        "      12.5  58  VDD_CORE   0  READ_VIN                   ended after 00: more bytes have to come\n"),
    // S b0 A 03 A N
    (&[Event::Start, Event::Byte(0xb0), Event::Ack, Event::Byte(0x03), Event::Ack], Some(Event::Nack), Reason::WrongEvent, Kinds::STOP,
        "      12.5  58  VDD_CORE      CLEAR_FAULTS               NACK came, but STOP can come\n"),
    // S b4 A 03 A 12: the right error code, of a device without
    (&[Event::Start, Event::Byte(0xb4), Event::Ack, Event::Byte(0x03), Event::Ack], Some(Event::Byte(0x12)), Reason::WrongEvent, Kinds::STOP,
        "      12.5  5a                CLEAR_FAULTS               12 came, but STOP can come (a right error code: pec is \"off\" in the profile)\n"),
    // .. and another byte
    (&[Event::Start, Event::Byte(0xb4), Event::Ack, Event::Byte(0x03), Event::Ack], Some(Event::Byte(0x13)), Reason::WrongEvent, Kinds::STOP,
        "      12.5  5a                CLEAR_FAULTS               13 came, but STOP can come\n"),
    // S P
    (&[Event::Start], Some(Event::Stop), Reason::WrongEvent, Kinds::BYTE,
        "      12.5                                               STOP came, but a byte can come\n"),
    // S 19 A
    (&[Event::Start, Event::Byte(0x19), Event::Ack], None, Reason::Truncated, Kinds::BYTE,
        "      12.5                                               the capture ends inside the packet\n"),
];

#[test]
fn each_is_told(rt: HostRuntime) -> Result<(), Fail> {
    let profile = Profile::from_toml(rt.alloc(), NAMED.as_bytes())?;
    let layout = Layout::of(&profile);
    let late = Late::new(&profile, Start::AllKnown);
    let seen = Seen {
        digits: Digits::new(4).ok_or("digits")?,
        profile: &profile,
        late: &late,
    };
    let place = Place { line: 4, column: 5 };
    for (front, event, reason, expected, line) in rows() {
        let mut said = PartialPacket::new();
        for event in *front {
            said.take(*event);
        }
        let fact = Fact {
            head: head(62, place, Some("12.5")),
            what: What::Refusal {
                said: &said,
                event: *event,
                reason: *reason,
                expected: *expected,
            },
        };
        let mut out = ArrayVec::<u8, LINE>::new();
        append_log_line(&mut out, layout, &seen, fact);
        same(&rt, line, out.as_slice(), line.as_bytes());
    }
    Ok(())
}
