//! Sets of event kinds.

use crate::compare::{ensure, same};
use pmb_bus::{Event, Kinds};

/// An event of each kind, its kind's name as a constant, and the bit.
const EACH: [(Event, Kinds, u8); 5] = [
    (Event::Start, Kinds::START, 1),
    (Event::Byte(0x58), Kinds::BYTE, 2),
    (Event::Ack, Kinds::ACK, 4),
    (Event::Nack, Kinds::NACK, 8),
    (Event::Stop, Kinds::STOP, 16),
];

#[test]
fn each_kind_has_its_bit(rt: HostRuntime) {
    for (event, kind, bit) in EACH {
        same(&rt, event, Kinds::of(event), kind);
        same(&rt, event, kind.bits(), bit);
    }
    same(
        &rt,
        "every byte",
        Kinds::of(Event::Byte(0)),
        Kinds::of(Event::Byte(0xff)),
    );
}

#[test]
fn sets_hold_what_was_put_in(rt: HostRuntime) {
    let mut kinds = Kinds::empty();
    ensure(&rt, "no kind", kinds.is_empty());
    let mut bits = 0;
    for (event, kind, bit) in EACH {
        ensure(&rt, event, !kinds.contains(Kinds::of(event)));
        ensure(&rt, event, Kinds::all().contains(kind));
        kinds.insert(kind);
        bits |= bit;
        ensure(&rt, event, kinds.contains(Kinds::of(event)));
        ensure(&rt, event, !kinds.is_empty());
        same(&rt, event, kinds.bits(), bits);
    }
    same(&rt, "all kinds", kinds, Kinds::all());
}

#[test]
fn unions(rt: HostRuntime) {
    let answers = Kinds::ACK.union(Kinds::NACK);
    same(&rt, "ACK and NACK", answers.bits(), 12);
    ensure(
        &rt,
        "either",
        answers.contains(Kinds::ACK) && answers.contains(Kinds::NACK),
    );
    ensure(
        &rt,
        "not with STOP",
        !answers.contains(Kinds::ACK.union(Kinds::STOP)),
    );
    ensure(&rt, "the empty set", answers.contains(Kinds::empty()));
    same(&rt, "ACK again", answers.union(Kinds::ACK), answers);
}
