//! What is said of an event that no packet can have there.
//!
//! Its rows: `tests/rows/log.txt`; `tests_json`, `src/log_lines/`.

ghost use Rattle.std.specs.Prelude.{◌≡◌, ◌==◌, ◌+◌, ◌*◌, ◌≤◌, ◌++◌, IfSome, List, ℕ, bit_and, codes, length, Option};
ghost use Rattle.pmb_bus.specs.Kinds.{bits};
ghost use Rattle.pmb_bus.specs.declared.event.Event.{Event as BusEvent};
ghost use Rattle.pmb_bus.specs.declared.kinds.Kinds.{Kinds as KindSet};
ghost use Rattle.pmb_command.specs.Parts.{DeviceParts};
ghost use Rattle.pmb_json_objects.specs.Refusals.{due_pec};
ghost use Rattle.pmb_json_objects.specs.Seen.{SeenData};
ghost use Rattle.pmb_json_objects.specs.Sees.{Sees};
ghost use Rattle.pmb_partial_packet.specs.PartialPacket.{leg_or_none, reply, sent};
ghost use Rattle.pmb_partial_packet.specs.Standing.{SaidStandsAt};
ghost use Rattle.pmb_transaction.specs.Capture.{Viable};
ghost use Rattle.pmb_transaction.specs.Names.{with_name};
ghost use Rattle.pmb_transaction.specs.declared.reason.Reason.TheVariants.{BadPec, TooLong, TooShort, WrongEvent};
ghost use Rattle.pmb_log_lines.specs.Refusals.{code_at_says, event_says, first_byte, got_says, has_sent_command, kinds_says, plain_code_says, refusal_says, replied_code_says, right_says, sent_code_says, unknown_command_says, why_no_command, wrong_code_says};
ghost use Rattle.pmb_log_data.specs.Text.{between, joined};
ghost use Rattle.pmb_log_data.specs.Appends.{Appends};

use crate::hints::{append_end_hint, append_long_hint, append_off_hint, append_short_hint};
use arrayvec::ArrayVec;
use pmb_bus::{Event, Kinds};
use pmb_json_objects::Seen;
use pmb_json_text::ItemOrder;
use pmb_log_data::{
    append, append_after, append_blank_and_byte, append_byte, append_bytes, append_optional_byte,
    but_first, but_last, entry, last_byte,
};
use pmb_partial_packet::PartialPacket;
use pmb_transaction::Reason;

/// Appends the sentence of a refusal, and a hint where its cause is known.
pub(crate) fn append_refusal<const N: usize>(
    out: &mut ArrayVec<u8, N>,
    seen: &Seen<'_>,
    said: &PartialPacket,
    event: Option<Event>,
    reason: Reason,
    expected: Kinds,
)
    requires { length out.old.items + 900 ≤ N }
    ensures says { (known : SeenData) (profile : List DeviceParts) (front : List BusEvent) → Sees seen.now known → Viable profile front → SaidStandsAt said.now front
        → Appends (refusal_says known front event reason expected) 900 out.old.items out.new.items }
    ensures longer { length out.new.items ≤ length out.old.items + 900 }
{
    match reason {
        Reason::ReadFirst => {
            append_got(out, event);
            append(out, b" reads without a command");
            append(
                out,
                b" (Receive Byte, or a capture that begins inside a packet)",
            );
        }
        Reason::BadRestart => {
            append_got(out, event);
            append(out, b" cannot come after a repeated START");
        }
        Reason::BadPec => append_wrong_code(
            out,
            event,
            sent(said),
            replied(said),
            right_code(said, event),
        ),
        Reason::UnknownDevice => {
            append(out, b"acknowledged, but the profile has no such device")
        }
        Reason::UnknownCommand => {
            append_unknown_command(out, seen, said.written_to(), sent(said))
        }
        Reason::TooLong => append_too_long(out, seen, said),
        Reason::TooShort => append_too_short(out, seen, said),
        Reason::WrongEvent => append_wrong_event(out, seen, said, event, expected),
        Reason::Truncated => append(out, b"the capture ends inside the packet"),
    }
}

/// Appends what is said of a reply that continues.
fn append_too_long<const N: usize>(out: &mut ArrayVec<u8, N>, seen: &Seen<'_>, said: &PartialPacket)
    requires { length out.old.items + 900 ≤ N }
    ensures says { (known : SeenData) (profile : List DeviceParts) (front : List BusEvent) (event : Option BusEvent) (expected : KindSet) → Sees seen.now known → Viable profile front → SaidStandsAt said.now front
        → Appends (refusal_says known front event TooLong expected) 900 out.old.items out.new.items }
    ensures longer { length out.new.items ≤ length out.old.items + 900 }
{
    append(out, b"read on after ");
    append_bytes(out, replied(said));
    append(out, b", which is all");
    append_long_hint(out, seen, said);
}

/// Appends what is said of a reply that ends too early.
fn append_too_short<const N: usize>(
    out: &mut ArrayVec<u8, N>,
    seen: &Seen<'_>,
    said: &PartialPacket,
)
    requires { length out.old.items + 900 ≤ N }
    ensures says { (known : SeenData) (profile : List DeviceParts) (front : List BusEvent) (event : Option BusEvent) (expected : KindSet) → Sees seen.now known → Viable profile front → SaidStandsAt said.now front
        → Appends (refusal_says known front event TooShort expected) 900 out.old.items out.new.items }
    ensures longer { length out.new.items ≤ length out.old.items + 900 }
{
    append(out, b"ended after ");
    append_bytes(out, replied(said));
    append(out, b": more bytes have to come");
    append_short_hint(out, seen, said, sent(said), replied(said));
}

/// Appends what is said of an event out of its place.
fn append_wrong_event<const N: usize>(
    out: &mut ArrayVec<u8, N>,
    seen: &Seen<'_>,
    said: &PartialPacket,
    event: Option<Event>,
    expected: Kinds,
)
    requires { length out.old.items + 900 ≤ N }
    ensures says { (known : SeenData) (profile : List DeviceParts) (front : List BusEvent) → Sees seen.now known → Viable profile front → SaidStandsAt said.now front
        → Appends (refusal_says known front event WrongEvent expected) 900 out.old.items out.new.items }
    ensures longer { length out.new.items ≤ length out.old.items + 900 }
{
    append_got(out, event);
    append(out, b" came, but ");
    append_kinds(out, expected);
    append(out, b" can come");
    append_off_hint(out, seen, said, event);
    append_end_hint(out, seen, said, sent(said), event);
}

// ---- what was said before

/// What was sent in the last leg that is written.
pub(crate) fn sent(said: &PartialPacket) -> &[u8]
    ensures bytes { (profile : List DeviceParts) (front : List BusEvent) → Viable profile front → SaidStandsAt said.now front → result.now ≡ leg_or_none (sent front) }
    ensures short { length result.now ≤ 258 }
{
    match said.sent() {
        Some(bytes) => bytes,
        None => &[],
    }
}

/// What was replied in the last leg, where that is read.
pub(crate) fn replied(said: &PartialPacket) -> &[u8]
    ensures bytes { (profile : List DeviceParts) (front : List BusEvent) → Viable profile front → SaidStandsAt said.now front → result.now ≡ leg_or_none (reply front) }
    ensures short { length result.now ≤ 258 }
{
    match said.reply() {
        Some(bytes) => bytes,
        None => &[],
    }
}

/// The packet error code that was due where a wrong one came.
fn right_code(said: &PartialPacket, event: Option<Event>) -> Option<u8>
    ensures { (front : List BusEvent) → SaidStandsAt said.now front → result ≡ due_pec BadPec front event }
{
    match event {
        Some(event) => said.right_pec(Reason::BadPec, event),
        None => None,
    }
}

// ---- events

/// Appends an event.
fn append_event<const N: usize>(out: &mut ArrayVec<u8, N>, event: Event)
    requires { length out.old.items + 5 ≤ N }
    ensures { Appends (event_says event) 5 out.old.items out.new.items }
{
    match event {
        Event::Start => append(out, b"START"),
        Event::Byte(byte) => append_byte(out, byte),
        Event::Ack => append(out, b"ACK"),
        Event::Nack => append(out, b"NACK"),
        Event::Stop => append(out, b"STOP"),
    }
}

/// Appends the event that came, or that the events end.
fn append_got<const N: usize>(out: &mut ArrayVec<u8, N>, event: Option<Event>)
    requires { length out.old.items + 7 ≤ N }
    ensures { Appends (got_says event) 7 out.old.items out.new.items }
{
    match event {
        Some(event) => append_event(out, event),
        None => append(out, b"the end"),
    }
}

/// Appends the kinds of events that might have come.
fn append_kinds<const N: usize>(out: &mut ArrayVec<u8, N>, kinds: Kinds)
    requires { length out.old.items + 50 ≤ N }
    ensures { Appends (kinds_says kinds) 50 out.old.items out.new.items }
{
    let place = append_kind(out, ItemOrder::First, kinds, Kinds::START, b"START");
    let place = append_kind(out, place, kinds, Kinds::BYTE, b"a byte");
    let place = append_kind(out, place, kinds, Kinds::ACK, b"ACK");
    let place = append_kind(out, place, kinds, Kinds::NACK, b"NACK");
    append_kind(out, place, kinds, Kinds::STOP, b"STOP");
}

/// Appends a kind, where it is one of these kinds, and returns the place of the next one.
fn append_kind<const N: usize>(
    out: &mut ArrayVec<u8, N>,
    place: ItemOrder,
    kinds: Kinds,
    kind: Kinds,
    name: &[u8],
) -> ItemOrder
    requires name { length name.now ≤ 6 }
    requires room { length out.old.items + 10 ≤ N }
    ensures texts { (rest : List (List ℕ))
        → out.new.items ++ joined (codes " or ") result rest ≡ out.old.items ++ joined (codes " or ") place (with_name (bit_and (bits kinds) (bits kind) == bits kind) name.now rest) }
    ensures longer { length out.new.items ≤ length out.old.items + 10 }
{
    if !kinds.contains(kind) {
        return place;
    }
    append_or(out, place);
    append(out, name);
    ItemOrder::Later
}

/// Appends ` or ` after another kind.
fn append_or<const N: usize>(out: &mut ArrayVec<u8, N>, place: ItemOrder)
    requires { length out.old.items + 4 ≤ N }
    ensures { Appends (between (codes " or ") place) 4 out.old.items out.new.items }
{
    match place {
        ItemOrder::First => {}
        ItemOrder::Later => append(out, b" or "),
    }
}

// ---- error codes

/// Appends the error code that was due.
fn append_right<const N: usize>(out: &mut ArrayVec<u8, N>, right: Option<u8>)
    requires { length out.old.items + 13 ≤ N }
    ensures { Appends (right_says right) 13 out.old.items out.new.items }
{
    if let Some(right) = right {
        append(out, b": ");
        append_byte(out, right);
        append(out, b" is right");
    }
}

/// Appends what is said of a wrong error code.
fn append_wrong_code<const N: usize>(
    out: &mut ArrayVec<u8, N>,
    event: Option<Event>,
    sent: &[u8],
    replied: &[u8],
    right: Option<u8>,
)
    requires sent { length sent.now ≤ 258 }
    requires replied { length replied.now ≤ 258 }
    requires room { length out.old.items + 830 ≤ N }
    ensures { Appends (wrong_code_says event sent.now replied.now right) 830 out.old.items out.new.items }
{
    match event {
        Some(event) => append_code_at(out, event, sent, replied, right),
        None => append_plain_code(out, right),
    }
}

/// Appends what is said of a wrong error code at an event.
fn append_code_at<const N: usize>(
    out: &mut ArrayVec<u8, N>,
    event: Event,
    sent: &[u8],
    replied: &[u8],
    right: Option<u8>,
)
    requires sent { length sent.now ≤ 258 }
    requires replied { length replied.now ≤ 258 }
    requires room { length out.old.items + 830 ≤ N }
    ensures { Appends (code_at_says event sent.now replied.now right) 830 out.old.items out.new.items }
{
    match event {
        Event::Byte(byte) => append_replied_code(out, byte, replied, right),
        Event::Ack => append_sent_code(out, sent, right),
        Event::Start | Event::Nack | Event::Stop => append_plain_code(out, right),
    }
}

/// Appends that an error code was wrong, and the one that was due.
fn append_plain_code<const N: usize>(out: &mut ArrayVec<u8, N>, right: Option<u8>)
    requires { length out.old.items + 830 ≤ N }
    ensures { Appends (plain_code_says right) 830 out.old.items out.new.items }
{
    append(out, b"wrong error code");
    append_right(out, right);
}

/// Appends what is said of a wrong error code after bytes of a reply.
fn append_replied_code<const N: usize>(
    out: &mut ArrayVec<u8, N>,
    code: u8,
    replied: &[u8],
    right: Option<u8>,
)
    requires replied { length replied.now ≤ 258 }
    requires room { length out.old.items + 830 ≤ N }
    ensures { Appends (replied_code_says code replied.now right) 830 out.old.items out.new.items }
{
    append(out, b"wrong error code");
    append_blank_and_byte(out, code);
    append_after(out, replied);
    append_right(out, right);
}

/// Appends what is said of a wrong error code that was sent, the last of these bytes.
fn append_sent_code<const N: usize>(out: &mut ArrayVec<u8, N>, sent: &[u8], right: Option<u8>)
    requires sent { length sent.now ≤ 258 }
    requires room { length out.old.items + 830 ≤ N }
    ensures { Appends (sent_code_says sent.now right) 830 out.old.items out.new.items }
{
    append(out, b"wrong error code");
    append_optional_byte(out, last_byte(sent));
    append_after(out, but_first(but_last(sent)));
    append(out, b" was acknowledged");
    append_right(out, right);
}

// ---- commands

/// Appends what is said of a code that cannot come there.
fn append_unknown_command<const N: usize>(
    out: &mut ArrayVec<u8, N>,
    seen: &Seen<'_>,
    addr: Option<u8>,
    sent: &[u8],
)
    requires room { length out.old.items + 60 ≤ N }
    ensures says { (known : SeenData) → Sees seen.now known → Appends (unknown_command_says known addr sent.now) 60 out.old.items out.new.items }
    ensures longer { length out.new.items ≤ length out.old.items + 60 }
{
    append(out, b"code");
    append_optional_byte(out, first_byte(sent));
    append(
        out,
        why_no_command(has_sent_command(seen, addr, first_byte(sent))),
    );
}

fn first_byte(sent: &[u8]) -> Option<u8>
    ensures { result ≡ first_byte sent.now }
{
    sent.first().copied()
}

/// Whether a device has the command whose code was sent.
fn has_sent_command(seen: &Seen<'_>, addr: Option<u8>, code: Option<u8>) -> bool
    ensures { (known : SeenData) → Sees seen.now known → result ≡ has_sent_command known addr code }
{
    let Some(addr) = addr else {
        return false;
    };
    let Some(code) = code else {
        return false;
    };
    entry(seen, addr, code).is_some()
}

fn why_no_command(has: bool) -> &'static [u8]
    ensures text { result.now ≡ why_no_command has }
    ensures short { length result.now ≤ 52 }
{
    if has {
        b" acknowledged, but it cannot come here"
    } else {
        b" acknowledged, but the profile has no such command"
    }
}
