//! Laws on which events begin a packet: each function is its contract, and does nothing.
//! Rows by hand of what may follow: `tests_packets`, `src/transactions/refusal_rows.rt`.

ghost use Rattle.std.specs.Prelude.{◌≡◌, ◌≢◌, ℕ, ◌≤◌, true, Some, List, [], ◌∷◌, ◌++◌, ◌⊎◌, ◌↔◌, length, nat_eq};
ghost use Rattle.std.specs.List.{IsDistinct};
ghost use Rattle.pmb_bus.specs.declared.event.Event.{Event};
ghost use Rattle.pmb_bus.specs.declared.event.Event.TheVariants.{Start, Byte, Ack, Nack};
ghost use Rattle.pmb_bus.specs.Address.{write_address};
ghost use Rattle.pmb_command.specs.Parts.{DeviceParts, IsNew, device_with};
ghost use Rattle.pmb_command.specs.Bus.{IsBus};
ghost use Rattle.pmb_command.specs.Wire.{IsByte};
ghost use Rattle.pmb_transaction.specs.Transaction.{PartData};
ghost use Rattle.pmb_transaction.specs.Packet.{addresses, leg, PartsEvents};
ghost use Rattle.pmb_transaction.specs.Capture.{IsPacket, MayFollow, Viable};
ghost use Rattle.pmb_transaction.specs.Viable.{BeginsBody, IsBeginning, IsInsideBody};
ghost use Rattle.pmb_transaction.specs.Turns.{follows_in_turn};

use pmb_bus::laws::pec_is_a_byte;

/// Under a profile that is accepted some packet begins with events, where there are any, exactly
/// where they are one of the stated beginnings.
pub fn viable_lists()
    ensures { (profile : List DeviceParts) (events : List Event) → IsBus profile → events ≢ []
        → (Viable profile events ↔ IsBeginning profile events) }
{
    pec_is_a_byte();
}

/// Under a profile that is accepted some packet begins with events, or none does: which of the two
/// is decided.
pub fn viability_is_decided()
    ensures { (profile : List DeviceParts) (events : List Event) → IsBus profile
        → Viable profile events ⊎ (Viable profile events → ⊥) }
{
    pec_is_a_byte();
}

/// What begins events that some packet begins with, begins that packet too.
pub fn fronts_are_viable()
    ensures { (profile : List DeviceParts) (a b : List Event) → Viable profile (a ++ b) → Viable profile a }
{}

/// Nothing may follow a whole packet.
pub fn packets_go_no_further()
    ensures { (profile : List DeviceParts) (events : List Event) (event : Event)
        → IsPacket profile events → MayFollow profile events event → ⊥ }
{}

/// Events take turns: after START may follow a byte, after a byte ACK or NACK, after ACK a byte,
/// START or STOP, after NACK STOP, and nothing else.
pub fn events_take_turns()
    ensures { (profile : List DeviceParts) (events : List Event) (before event : Event)
        → MayFollow profile (events ++ before ∷ []) event → follows_in_turn before event ≡ true }
{}

/// After complete parts and a leg of which some bytes were taken, any byte may follow where some
/// body that is allowed there begins with these and continues, and else none.
pub fn bytes_follow_inside_a_body()
    ensures { (profile : List DeviceParts) (parts : List PartData) (legs : List Event) (addr : ℕ) (device : DeviceParts)
        (bytes : List ℕ) (byte : ℕ) → IsBus profile → length parts ≤ 15 → IsDistinct nat_eq (addresses parts)
        → PartsEvents profile parts legs → IsNew addr (addresses parts) → device_with addr profile ≡ Some device
        → (MayFollow profile (legs ++ leg (write_address addr ∷ bytes)) (Byte byte)
        ↔ ((IsInsideBody device parts bytes) × (IsByte byte))) }
{
    pec_is_a_byte();
}

/// After such a byte NACK may follow where the byte may, whatever it is.
pub fn bytes_may_be_refused()
    ensures { (profile : List DeviceParts) (parts : List PartData) (legs : List Event) (addr : ℕ) (device : DeviceParts)
        (bytes : List ℕ) (byte : ℕ) → IsBus profile → length parts ≤ 15 → IsDistinct nat_eq (addresses parts)
        → PartsEvents profile parts legs → IsNew addr (addresses parts) → device_with addr profile ≡ Some device
        → (MayFollow profile (legs ++ leg (write_address addr ∷ bytes) ++ Byte byte ∷ []) Nack
        ↔ ((IsInsideBody device parts bytes) × (IsByte byte))) }
{
    pec_is_a_byte();
}

/// Packets begin with START, and some packet does.
pub fn packets_begin_with_start()
    ensures { (profile : List DeviceParts) (event : Event) → IsBus profile → (MayFollow profile [] event ↔ (event ≡ Start)) }
{
    pec_is_a_byte();
}

/// After such a byte ACK may follow where some body that is allowed there begins with the bytes and
/// it.
pub fn bytes_taken_begin_a_body()
    ensures { (profile : List DeviceParts) (parts : List PartData) (legs : List Event) (addr : ℕ) (device : DeviceParts)
        (bytes : List ℕ) (byte : ℕ) → IsBus profile → length parts ≤ 15 → IsDistinct nat_eq (addresses parts)
        → PartsEvents profile parts legs → IsNew addr (addresses parts) → device_with addr profile ≡ Some device
        → (MayFollow profile (legs ++ leg (write_address addr ∷ bytes) ++ Byte byte ∷ []) Ack
        ↔ BeginsBody device parts (bytes ++ byte ∷ [])) }
{
    pec_is_a_byte();
}
