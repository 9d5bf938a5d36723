//! The program of `pmb_partial_packet`'s documentation, its law, and a leg as long as one can be.

use crate::compare::same;
use pmb_bus::Event;
use pmb_partial_packet::{PartialPacket, laws};
use pmb_transaction::Reason;

static READ: [Event; 12] = [
    Event::Start,
    Event::Byte(0xb0),
    Event::Ack,
    Event::Byte(0x88),
    Event::Ack,
    Event::Start,
    Event::Byte(0xb1),
    Event::Ack,
    Event::Byte(0x00),
    Event::Ack,
    Event::Byte(0xd3),
    Event::Ack,
];

#[test]
fn tells_what_was_said(rt: HostRuntime) {
    let mut said = PartialPacket::new();
    for event in &READ {
        said.take(*event);
    }
    same(&rt, "device", said.device(), Some(0x58));
    same(&rt, "written to", said.written_to(), Some(0x58));
    same(&rt, "sent", said.sent(), Some(&[0x88u8][..]));
    same(&rt, "reply", said.reply(), Some(&[0x00u8, 0xd3][..]));
    same(
        &rt,
        "right code",
        said.right_pec(Reason::BadPec, Event::Byte(0xf7)),
        Some(0xf6),
    );
    same(
        &rt,
        "no code is due",
        said.right_pec(Reason::WrongEvent, Event::Byte(0xf7)),
        None,
    );
    said.begin();
    same(&rt, "no device", said.device(), None);
    same(&rt, "no address", said.written_to(), None);
    same(&rt, "nothing sent", said.sent(), None);
    same(&rt, "no reply", said.reply(), None);
}

#[test]
fn keeps_a_leg_of_258_bytes(rt: HostRuntime) {
    let mut said = PartialPacket::new();
    said.take(Event::Start);
    said.take(Event::Byte(0xb0));
    for _ in 0..257u16 {
        said.take(Event::Ack);
        said.take(Event::Byte(0x00));
    }
    said.take(Event::Byte(0xff));
    same(
        &rt,
        "bytes sent",
        said.sent().map(|bytes| bytes.len()),
        Some(258),
    );
    same(
        &rt,
        "last byte sent",
        said.sent().and_then(|bytes| bytes.last().copied()),
        Some(0xff),
    );
}

#[test]
fn calls_the_law() {
    laws::legs_are_short();
}
