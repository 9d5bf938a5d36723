//! What is said of a packet error code.

ghost use Rattle.std.specs.Prelude.{◌≡◌, List, option_map};
ghost use Rattle.pmb_bus.specs.declared.event.Event.{Event as BusEvent};
ghost use Rattle.pmb_json_objects.specs.Refusals.{due_pec};
ghost use Rattle.pmb_json_objects.specs.Seen.{SeenData};
ghost use Rattle.pmb_json_objects.specs.Sees.{Sees};
ghost use Rattle.pmb_partial_packet.specs.Standing.{SaidStandsAt};
ghost use Rattle.pmb_items.specs.Pec.{checked_last, checked_pec, no_pec, packet_pec, refusal_pec, refused_pec};

use crate::bytes::{flag, or_none};
use crate::item::{ItemPec, NONE};
use pmb_bus::Event;
use pmb_json_objects::Seen;
use pmb_log_data::{but_last, is_whole_write, last_byte, leg_code};
use pmb_partial_packet::PartialPacket;
use pmb_table::DeviceProfile;
use pmb_transaction::Reason;

/// Nothing is said.
pub(crate) fn no_pec() -> ItemPec
    ensures { result ≡ no_pec }
{
    ItemPec {
        there: NONE,
        right: NONE,
    }
}

/// Whether a packet had one, which was right.
pub(crate) fn packet_pec(there: bool) -> ItemPec
    ensures { result ≡ packet_pec there }
{
    ItemPec {
        there: u16::from(flag(there)),
        right: NONE,
    }
}

/// Whether a byte that was refused is the one of a write.
pub(crate) fn refused_pec(seen: &Seen<'_>, addr: u8, sent: &[u8], at_read: bool) -> ItemPec
    ensures { (known : SeenData) → Sees seen.now known → result ≡ refused_pec known addr sent.now at_read }
{
    if at_read {
        return no_pec();
    }
    checked_last(
        addr,
        seen.profile.device(addr),
        but_last(sent),
        last_byte(sent),
    )
}

/// Whether the last byte of a leg is the one of the write before it.
fn checked_last(addr: u8, device: Option<&DeviceProfile>, front: &[u8], last: Option<u8>) -> ItemPec
    ensures { result ≡ checked_last addr (option_map (λ d. d.now) device.entry) front.now last }
{
    match last {
        Some(last) if is_whole_write(device, front) => checked_pec(last, leg_code(addr, front)),
        _ => no_pec(),
    }
}

/// A byte in the place of a packet error code, and the right one.
fn checked_pec(byte: u8, right: u8) -> ItemPec
    ensures { result ≡ checked_pec byte right }
{
    ItemPec {
        there: u16::from(flag(byte == right)),
        right: u16::from(right),
    }
}

/// The one that was due, where a wrong one was refused.
pub(crate) fn refusal_pec(said: &PartialPacket, reason: Reason, event: Option<Event>) -> ItemPec
    ensures { (front : List BusEvent) → SaidStandsAt said.now front → result ≡ refusal_pec reason front event }
{
    ItemPec {
        there: NONE,
        right: or_none(right_pec(said, reason, event)),
    }
}

fn right_pec(said: &PartialPacket, reason: Reason, event: Option<Event>) -> Option<u8>
    ensures { (front : List BusEvent) → SaidStandsAt said.now front → result ≡ due_pec reason front event }
{
    match event {
        Some(event) => said.right_pec(reason, event),
        None => None,
    }
}
