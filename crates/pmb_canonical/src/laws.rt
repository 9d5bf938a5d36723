//! The laws of canonical packets: each function is its contract, and does nothing.
//!
//! Its rows: `tests_reader`, `src/canonical/example.rt`.

ghost use Rattle.std.specs.Prelude.{◌≡◌, ◌∷◌, [], List, ℕ, take};
ghost use Rattle.pmb_bus.specs.Event.{canonical_text};
ghost use Rattle.pmb_bus.specs.Text.{EndsBetween, Spells};
ghost use Rattle.pmb_command.specs.Parts.{DeviceParts};
ghost use Rattle.pmb_command.specs.Bus.{IsBus};
ghost use Rattle.pmb_bus.specs.declared.event.Event.{Event};
ghost use Rattle.pmb_transaction.specs.Packet.{Packet};
ghost use Rattle.pmb_transaction.specs.Reading.{Accepted, Reading};
ghost use Rattle.pmb_transaction.specs.Transaction.{TransactionData};
ghost use Rattle.pmb_canonical.specs.Canonical.{TakesPacket};

use pmb_bus::laws::{canonical_text_spells, texts_may_be_cut_between_words};
use pmb_transaction::laws::{captures_read_as_written, packet_ends_with_stop, packets_are_bytes};

/// The text of a canonical packet spells its events, and ends between words; from between two packets
/// these read as its transaction, and as nothing else.
pub fn canonical_packets_are_read()
    ensures spells { (profile : List DeviceParts) (text : List ℕ) (used count : ℕ) (t : TransactionData) → IsBus profile
        → (taken : TakesPacket profile text used count t) → Spells (take used text) taken.events }
    ensures text { (profile : List DeviceParts) (text : List ℕ) (used count : ℕ) (t : TransactionData)
        → (taken : TakesPacket profile text used count t) → take used text ≡ canonical_text taken.events }
    ensures between { (profile : List DeviceParts) (text : List ℕ) (used count : ℕ) (t : TransactionData)
        → TakesPacket profile text used count t → EndsBetween (take used text) }
    ensures reads { (profile : List DeviceParts) (text : List ℕ) (used count : ℕ) (t : TransactionData)
        → (taken : TakesPacket profile text used count t) → Reading profile taken.events (Accepted t ∷ []) }
{
    canonical_text_spells();
    texts_may_be_cut_between_words();
    packets_are_bytes();
    packet_ends_with_stop();
    captures_read_as_written();
}
