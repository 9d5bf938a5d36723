//! Why an event was refused.

ghost use Rattle.std.specs.Prelude.{◌≡◌};
ghost use Rattle.pmb_bus.specs.Kinds.{kind_of};
ghost use Rattle.pmb_items.specs.Refusal.{event_byte, got_byte, got_kind, no_refusal, reason_number, reason_of, refusal_of};

use crate::item::ItemRefusal;
use pmb_bus::{Event, Kinds};
use pmb_transaction::Reason;

/// Nothing was refused.
pub(crate) fn no_refusal() -> ItemRefusal
    ensures { result ≡ no_refusal }
{
    ItemRefusal {
        reason: 0,
        expected: 0,
        got: 0,
        byte: 0,
    }
}

/// An event that was refused; `None` where the events ended.
pub(crate) fn refusal_of(reason: Reason, expected: Kinds, event: Option<Event>) -> ItemRefusal
    ensures { result ≡ refusal_of reason expected event }
{
    ItemRefusal {
        reason: reason_number(reason),
        expected: expected.bits(),
        got: got_kind(event),
        byte: got_byte(event),
    }
}

fn reason_number(reason: Reason) -> u8
    ensures { result ≡ reason_number reason }
{
    match reason {
        Reason::ReadFirst => 1,
        Reason::BadRestart => 2,
        Reason::BadPec => 3,
        Reason::UnknownDevice => 4,
        Reason::UnknownCommand => 5,
        Reason::TooLong => 6,
        Reason::TooShort => 7,
        Reason::WrongEvent => 8,
        Reason::Truncated => 9,
    }
}

/// The reason of a number, as items have it; `None` where it is that of none.
pub fn reason_of(number: u32) -> Option<Reason>
    ensures { result ≡ reason_of number }
{
    match number {
        1 => Some(Reason::ReadFirst),
        2 => Some(Reason::BadRestart),
        3 => Some(Reason::BadPec),
        4 => Some(Reason::UnknownDevice),
        5 => Some(Reason::UnknownCommand),
        6 => Some(Reason::TooLong),
        7 => Some(Reason::TooShort),
        8 => Some(Reason::WrongEvent),
        9 => Some(Reason::Truncated),
        _ => None,
    }
}

/// The kind of the event that came.
fn got_kind(event: Option<Event>) -> u8
    ensures { result ≡ got_kind event }
{
    match event {
        Some(event) => event_kind(event),
        None => 0,
    }
}

/// The bit of an event's kind.
fn event_kind(event: Event) -> u8
    ensures { result ≡ kind_of event }
{
    match event {
        Event::Start => 1,
        Event::Byte(_) => 2,
        Event::Ack => 4,
        Event::Nack => 8,
        Event::Stop => 16,
    }
}

/// The byte of the event that came.
fn got_byte(event: Option<Event>) -> u8
    ensures { result ≡ got_byte event }
{
    match event {
        Some(event) => event_byte(event),
        None => 0,
    }
}

fn event_byte(event: Event) -> u8
    ensures { result ≡ event_byte event }
{
    match event {
        Event::Byte(byte) => byte,
        Event::Start | Event::Ack | Event::Nack | Event::Stop => 0,
    }
}
