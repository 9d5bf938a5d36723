//! The object of a refusal.
//!
//! Its rows: `tests_json`, `src/object_lines/refusals.rt`; `tests/rows/json_objects.txt`.

ghost use Rattle.std.specs.Prelude.{◌≡◌, ◌+◌, ◌*◌, ◌≤◌, ◌++◌, List, length};
ghost use Rattle.pmb_bus.specs.declared.event.Event.{Event as BusEvent};
ghost use Rattle.pmb_command.specs.Parts.{DeviceParts};
ghost use Rattle.pmb_json_text.specs.declared.item_order.ItemOrder.TheVariants.{Later};
ghost use Rattle.pmb_json_text.specs.Member.{members_text, object_line};
ghost use Rattle.pmb_partial_packet.specs.PartialPacket.{reply, sent, written_to};
ghost use Rattle.pmb_partial_packet.specs.Standing.{SaidStandsAt};
ghost use Rattle.pmb_transaction.specs.Capture.{Viable};
ghost use Rattle.pmb_json_objects.specs.Head.{head_of};
ghost use Rattle.pmb_json_objects.specs.Refusals.{due_pec, refusal_object, reply_members, right_pec_members, said_device_members, written_members};
ghost use Rattle.pmb_json_objects.specs.Seen.{SeenData};
ghost use Rattle.pmb_json_objects.specs.Sees.{Sees};

use crate::OBJECT;
use crate::head::Head;
use crate::members::{
    BYTE_MEMBER, COMMAND_MEMBERS, DEVICE_MEMBERS, append_byte, append_device, append_sent_command,
    begin_object,
};
use crate::names::{append_got, append_kinds};
use crate::seen::Seen;
use arrayvec::ArrayVec;
use pmb_bus::{Event, Kinds};
use pmb_json_text::{ItemOrder, TEXT_MEMBER, end, hex_member, text_member};
use pmb_partial_packet::PartialPacket;
use pmb_table::Profile;
use pmb_transaction::Reason;

/// The most bytes of the bytes of a leg.
const LEG_MEMBER: usize = TEXT_MEMBER + 2 * 258;

/// The most bytes of what was sent.
const WRITTEN_MEMBERS: usize = COMMAND_MEMBERS + LEG_MEMBER;

/// Appends the line of a refusal: at which event, where its word stands and when, why and what was
/// expected, which event it is (`None` where the events end), and the device, bytes and error code of
/// the packet before it.
pub fn refusal_line<const N: usize>(
    out: &mut ArrayVec<u8, N>,
    seen: &Seen<'_>,
    head: Head<'_>,
    said: &PartialPacket,
    event: Option<Event>,
    reason: Reason,
    expected: Kinds,
)
    requires room { length out.old.items + OBJECT ≤ N }
    ensures line { (known : SeenData) (profile : List DeviceParts) (front : List BusEvent) → Sees seen.now known → Viable profile front → SaidStandsAt said.now front
        → out.new.items ≡ out.old.items ++ object_line (refusal_object known (head_of head.entry) front event reason expected).members }
    ensures short { length out.new.items ≤ length out.old.items + OBJECT }
{
    begin_object(out, head, b"refusal");
    text_member(out, ItemOrder::Later, "reason", reason.name());
    append_kinds(out, expected);
    append_got(out, event);
    append_said_device(out, seen.profile, said.device());
    append_written(out, seen, said);
    append_reply(out, said);
    append_right_pec(out, right_pec(said, reason, event));
    end(out);
}

/// Appends the device that a packet is to, if it says one.
fn append_said_device<const N: usize>(
    out: &mut ArrayVec<u8, N>,
    profile: &Profile,
    device: Option<u8>,
)
    requires room { length out.old.items + DEVICE_MEMBERS ≤ N }
    ensures members { out.new.items ≡ out.old.items ++ members_text Later (said_device_members profile.now device) }
    ensures short { length out.new.items ≤ length out.old.items + DEVICE_MEMBERS }
{
    if let Some(addr) = device {
        append_device(out, profile, addr);
    }
}

/// Appends what was sent in the last leg that is written: code, command, page and phase, and all bytes.
fn append_written<const N: usize>(out: &mut ArrayVec<u8, N>, seen: &Seen<'_>, said: &PartialPacket)
    requires room { length out.old.items + WRITTEN_MEMBERS ≤ N }
    ensures members { (known : SeenData) (profile : List DeviceParts) (front : List BusEvent) → Sees seen.now known → Viable profile front → SaidStandsAt said.now front
        → out.new.items ≡ out.old.items ++ members_text Later (written_members known (written_to front) (sent front)) }
    ensures short { length out.new.items ≤ length out.old.items + WRITTEN_MEMBERS }
{
    let Some(addr) = said.written_to() else {
        return;
    };
    let Some(sent) = said.sent() else {
        return;
    };
    append_sent_command(out, seen, addr, sent);
    hex_member(out, ItemOrder::Later, "sent", sent);
}

/// Appends what was replied in the last leg, where that is read.
fn append_reply<const N: usize>(out: &mut ArrayVec<u8, N>, said: &PartialPacket)
    requires room { length out.old.items + LEG_MEMBER ≤ N }
    ensures members { (profile : List DeviceParts) (front : List BusEvent) → Viable profile front → SaidStandsAt said.now front
        → out.new.items ≡ out.old.items ++ members_text Later (reply_members (reply front)) }
    ensures short { length out.new.items ≤ length out.old.items + LEG_MEMBER }
{
    if let Some(reply) = said.reply() {
        hex_member(out, ItemOrder::Later, "reply", reply);
    }
}

/// The packet error code that was due, where a wrong one was refused.
fn right_pec(said: &PartialPacket, reason: Reason, event: Option<Event>) -> Option<u8>
    ensures { (front : List BusEvent) → SaidStandsAt said.now front → result ≡ due_pec reason front event }
{
    match event {
        Some(event) => said.right_pec(reason, event),
        None => None,
    }
}

/// Appends the packet error code that was due.
fn append_right_pec<const N: usize>(out: &mut ArrayVec<u8, N>, right: Option<u8>)
    requires room { length out.old.items + BYTE_MEMBER ≤ N }
    ensures members { out.new.items ≡ out.old.items ++ members_text Later (right_pec_members right) }
    ensures short { length out.new.items ≤ length out.old.items + BYTE_MEMBER }
{
    if let Some(right) = right {
        append_byte(out, "right_pec", right);
    }
}
