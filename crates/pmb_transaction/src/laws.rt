//! The laws of packets and captures: each function is its contract, and does nothing.
//!
//! Its rows: `tests_packets`, `src/transactions/laws.rt`.

ghost use Rattle.std.specs.Prelude.{◌≡◌, ◌≢◌, ℕ, ◌+◌, ◌≤◌, Bool, List, [], ◌++◌, length};
ghost use Rattle.pmb_bus.specs.declared.event.Event.{Event};
ghost use Rattle.pmb_bus.specs.Event.{AreBytes};
ghost use Rattle.pmb_command.specs.declared.form.Form.{Form};
ghost use Rattle.pmb_command.specs.Parts.{DeviceParts};
ghost use Rattle.pmb_command.specs.Bus.{IsBus};
ghost use Rattle.pmb_command.specs.Wire.{Fits, wire};
ghost use Rattle.pmb_transaction.specs.Transaction.{PartData, TransactionData};
ghost use Rattle.pmb_transaction.specs.Body.{Allowed, IsInsideBody, checked};
ghost use Rattle.pmb_transaction.specs.Packet.{Packet};
ghost use Rattle.pmb_transaction.specs.Capture.{Capture, EndsAtFirstStop};

pub use crate::endings::{
    alerts_are_packets, calls_are_packets, one_part_more, reads_are_packets,
    refused_addresses_are_packets, refused_bytes_are_packets, refused_events_have_a_reason,
    refused_reads_are_packets, something_follows, writes_are_packets,
};
pub use crate::following::{
    addresses_may_be_refused, addresses_taken_are_known, alerts_end, alerts_go_on,
    alerts_may_be_refused, alerts_may_be_taken, bytes_alone_follow_in_an_answer,
    bytes_follow_in_a_reply, bytes_follow_in_an_alert, first_addresses, later_addresses,
    legs_follow_whole_bodies, packets_go_on, packets_under_way, reads_may_be_refused,
    reads_may_be_taken, replies_end, replies_go_on, stop_follows_nack, stop_makes_a_packet,
    writes_end_with_stop,
};
pub use crate::reading::{
    captures_go_on, captures_may_be_cut_behind_stop, captures_read_as_written,
    each_list_has_a_reading, events_are_passed_over, fronts_read_as_fronts,
    nothing_is_read_of_no_events, one_reading, passing_goes_on, refusals_move,
};
pub use crate::rows::reasons_of_rows;
pub use crate::viability::{
    bytes_follow_inside_a_body, bytes_may_be_refused, bytes_taken_begin_a_body, events_take_turns,
    fronts_are_viable, packets_begin_with_start, packets_go_no_further, viability_is_decided,
    viable_lists,
};
use pmb_bus::laws::pec_is_a_byte;

/// A command's data are 256 bytes on the bus at most, a packet error code is one more, and a body
/// has 258 at most.
pub fn bodies_are_short()
    ensures data { (form : Form) (bytes : List ℕ) → Fits form bytes → length (wire form bytes) ≤ 256 }
    ensures checked { (with_pec : Bool) (before bytes : List ℕ) → length (checked with_pec before bytes) ≤ length bytes + 1 }
    ensures body { (device : DeviceParts) (parts : List PartData) (body : List ℕ)
        → Allowed device parts body → length body ≤ 258 }
    ensures front { (device : DeviceParts) (parts : List PartData) (front : List ℕ)
        → IsInsideBody device parts front → length front ≤ 257 }
{}

/// A transaction has one packet at most under a profile.
pub fn one_packet()
    ensures { (profile : List DeviceParts) (t : TransactionData) (a b : List Event)
        → Packet profile t a → Packet profile t b → a ≡ b }
{}

/// Events are the packet of one transaction at most under a profile that is accepted.
pub fn one_transaction()
    ensures { (profile : List DeviceParts) (t u : TransactionData) (events : List Event) → IsBus profile
        → Packet profile t events → Packet profile u events → t ≡ u }
{}

/// A packet has events.
pub fn packet_is_not_empty()
    ensures { (profile : List DeviceParts) (t : TransactionData) (events : List Event)
        → Packet profile t events → events ≢ [] }
{}

/// A packet ends with STOP and has no other one.
pub fn packet_ends_with_stop()
    ensures { (profile : List DeviceParts) (t : TransactionData) (events : List Event)
        → Packet profile t events → EndsAtFirstStop events }
{}

/// A packet is not the beginning of a longer one, so where one ends needs no event more.
pub fn no_packet_begins_another()
    ensures { (profile : List DeviceParts) (t u : TransactionData) (events more : List Event)
        → Packet profile t events → Packet profile u (events ++ more) → more ≡ [] }
{}

/// Events are the capture of one list of transactions at most under a profile that is accepted.
pub fn one_capture()
    ensures { (profile : List DeviceParts) (ts us : List TransactionData) (events : List Event) → IsBus profile
        → Capture profile ts events → Capture profile us events → ts ≡ us }
{}

/// A list of transactions has one capture at most under a profile.
pub fn one_list_of_events()
    ensures { (profile : List DeviceParts) (ts : List TransactionData) (a b : List Event)
        → Capture profile ts a → Capture profile ts b → a ≡ b }
{}

/// The bytes of a packet are below 256 under a profile that is accepted.
pub fn packets_are_bytes()
    ensures { (profile : List DeviceParts) (t : TransactionData) (events : List Event) → IsBus profile
        → Packet profile t events → AreBytes events }
{
    pec_is_a_byte();
}
