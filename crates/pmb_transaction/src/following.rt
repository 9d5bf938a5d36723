//! Laws on which events may follow at each place of a packet: each function is its contract, and
//! does nothing. With those of [`crate::laws`] on turns and on the bytes of a written leg they
//! tell, after any events that begin a packet, each event that may come next.
//! Rows by hand of what may follow: `tests_packets`, `src/transactions/refusal_rows.rt`.

ghost use Rattle.std.specs.Prelude.{◌≡◌, ◌≢◌, ℕ, ◌<◌, ◌≤◌, true, Some, List, [], ◌∷◌, ◌++◌, ◌↔◌, length, nat_eq};
ghost use Rattle.std.specs.List.{IsDistinct};
ghost use Rattle.pmb_bus.specs.declared.event.Event.{Event};
ghost use Rattle.pmb_bus.specs.declared.event.Event.TheVariants.{Start, Byte, Ack, Nack, Stop};
ghost use Rattle.pmb_bus.specs.Address.{write_address, read_address, alert_address};
ghost use Rattle.pmb_command.specs.Parts.{DeviceParts, IsNew, device_with};
ghost use Rattle.pmb_command.specs.Bus.{IsBus};
ghost use Rattle.pmb_transaction.specs.Transaction.{PartData};
ghost use Rattle.pmb_transaction.specs.Body.{IsWriteBody, IsRequest};
ghost use Rattle.pmb_transaction.specs.Packet.{addresses, leg, PartsEvents};
ghost use Rattle.pmb_transaction.specs.Capture.{HasNoStop, IsPacket, MayFollow, Viable};
ghost use Rattle.pmb_transaction.specs.Viable.{IsAnswer};
ghost use Rattle.pmb_transaction.specs.Reading.{IsUnderWay};
ghost use Rattle.pmb_transaction.specs.Turns.{is_byte};
ghost use Rattle.pmb_transaction.specs.Following.{IsFirstAddress, IsNextAddress, LegMayFollow, IsAlertAnswer, BeginsAnswer, IsInsideAnswer};

use pmb_bus::laws::pec_is_a_byte;

// ---- addresses

/// After the first START, the address byte of a write may follow, to any address of seven bits, or
/// the Alert Response Address, read.
pub fn first_addresses()
    ensures { (profile : List DeviceParts) (byte : ℕ) → IsBus profile
        → (MayFollow profile (Start ∷ []) (Byte byte) ↔ IsFirstAddress byte) }
{
    pec_is_a_byte();
}

/// After a later START, the address byte of a write may follow, to an address that had no leg, where
/// the leg before was one more part, or the one that reads the device, where that was asked.
pub fn later_addresses()
    ensures { (profile : List DeviceParts) (parts : List PartData) (legs : List Event) (addr : ℕ) (device : DeviceParts)
        (bytes : List ℕ) (byte : ℕ) → IsBus profile → length parts ≤ 15 → IsDistinct nat_eq (addresses parts)
        → PartsEvents profile parts legs → IsNew addr (addresses parts) → device_with addr profile ≡ Some device
        → (MayFollow profile (legs ++ leg (write_address addr ∷ bytes) ++ Start ∷ []) (Byte byte)
        ↔ IsNextAddress device parts addr bytes byte) }
{
    pec_is_a_byte();
}

/// The address of a written leg may be refused, whether or not a device has it.
pub fn addresses_may_be_refused()
    ensures { (profile : List DeviceParts) (parts : List PartData) (legs : List Event) (addr : ℕ)
        → IsBus profile → length parts ≤ 15 → IsDistinct nat_eq (addresses parts)
        → PartsEvents profile parts legs → IsNew addr (addresses parts) → addr < 128
        → MayFollow profile (legs ++ Start ∷ Byte (write_address addr) ∷ []) Nack }
{
    pec_is_a_byte();
}

/// The address of a written leg may be taken where a device has it.
pub fn addresses_taken_are_known()
    ensures { (profile : List DeviceParts) (parts : List PartData) (legs : List Event) (addr : ℕ)
        → IsBus profile → length parts ≤ 15 → IsDistinct nat_eq (addresses parts)
        → PartsEvents profile parts legs → IsNew addr (addresses parts)
        → (MayFollow profile (legs ++ Start ∷ Byte (write_address addr) ∷ []) Ack
        ↔ ((device : DeviceParts) × (device_with addr profile ≡ Some device))) }
{
    pec_is_a_byte();
}

// ---- after a written leg

/// After a written leg STOP may follow where its bytes are a write body.
pub fn writes_end_with_stop()
    ensures { (profile : List DeviceParts) (parts : List PartData) (legs : List Event) (addr : ℕ) (device : DeviceParts)
        (bytes : List ℕ) → IsBus profile → length parts ≤ 15 → IsDistinct nat_eq (addresses parts)
        → PartsEvents profile parts legs → IsNew addr (addresses parts) → device_with addr profile ≡ Some device
        → (MayFollow profile (legs ++ leg (write_address addr ∷ bytes)) Stop ↔ IsWriteBody device bytes) }
{
    pec_is_a_byte();
}

/// After a written leg START may follow where its bytes are a write body and fewer than 15 parts
/// stand before it, or where it is the packet's first and asks the device.
pub fn legs_follow_whole_bodies()
    ensures { (profile : List DeviceParts) (parts : List PartData) (legs : List Event) (addr : ℕ) (device : DeviceParts)
        (bytes : List ℕ) → IsBus profile → length parts ≤ 15 → IsDistinct nat_eq (addresses parts)
        → PartsEvents profile parts legs → IsNew addr (addresses parts) → device_with addr profile ≡ Some device
        → (MayFollow profile (legs ++ leg (write_address addr ∷ bytes)) Start ↔ LegMayFollow device parts bytes) }
{
    pec_is_a_byte();
}

// ---- the end of a packet

/// STOP may follow where it makes a packet, and nowhere else.
pub fn stop_makes_a_packet()
    ensures { (profile : List DeviceParts) (events : List Event)
        → (MayFollow profile events Stop ↔ IsPacket profile (events ++ Stop ∷ [])) }
{}

/// After NACK, where some packet begins so, STOP may follow and nothing else.
pub fn stop_follows_nack()
    ensures { (profile : List DeviceParts) (events : List Event) (event : Event) → Viable profile (events ++ Nack ∷ [])
        → (MayFollow profile (events ++ Nack ∷ []) event ↔ (event ≡ Stop)) }
{}

/// Events that some packet begins with are a packet under way exactly where they hold no STOP.
pub fn packets_under_way()
    ensures { (profile : List DeviceParts) (events : List Event) → Viable profile events
        → (IsUnderWay profile events ↔ HasNoStop events) }
{}

/// Events and another one than STOP that may follow them are a packet under way.
pub fn packets_go_on()
    ensures { (profile : List DeviceParts) (events : List Event) (event : Event) → MayFollow profile events event → event ≢ Stop
        → IsUnderWay profile (events ++ event ∷ []) }
{}

// ---- legs that are read

/// After the address byte that reads a device that was asked ACK may follow.
pub fn reads_may_be_taken()
    ensures { (profile : List DeviceParts) (addr : ℕ) (device : DeviceParts) (body : List ℕ) → IsBus profile
        → device_with addr profile ≡ Some device → IsRequest device body
        → MayFollow profile (leg (write_address addr ∷ body) ++ Start ∷ Byte (read_address addr) ∷ []) Ack }
{
    pec_is_a_byte();
}

/// After the address byte that reads a device that was asked NACK may follow.
pub fn reads_may_be_refused()
    ensures { (profile : List DeviceParts) (addr : ℕ) (device : DeviceParts) (body : List ℕ) → IsBus profile
        → device_with addr profile ≡ Some device → IsRequest device body
        → MayFollow profile (leg (write_address addr ∷ body) ++ Start ∷ Byte (read_address addr) ∷ []) Nack }
{
    pec_is_a_byte();
}

/// In a leg that is read a byte alone may follow an ACK.
pub fn bytes_alone_follow_in_an_answer()
    ensures { (profile : List DeviceParts) (front : List Event) (addr : ℕ) (bytes : List ℕ) (event : Event) → IsBus profile
        → MayFollow profile (front ++ leg (read_address addr ∷ bytes)) event → is_byte event ≡ true }
{
    pec_is_a_byte();
}

/// In a reply a byte may follow where some answer to the body begins with those before and it.
pub fn bytes_follow_in_a_reply()
    ensures { (profile : List DeviceParts) (addr : ℕ) (device : DeviceParts) (body bytes : List ℕ) (byte : ℕ) → IsBus profile
        → device_with addr profile ≡ Some device
        → (MayFollow profile (leg (write_address addr ∷ body) ++ leg (read_address addr ∷ bytes)) (Byte byte)
        ↔ BeginsAnswer (IsAnswer device addr body) (bytes ++ byte ∷ [])) }
{
    pec_is_a_byte();
}

/// After a byte of a reply ACK may follow where such an answer continues.
pub fn replies_go_on()
    ensures { (profile : List DeviceParts) (addr : ℕ) (device : DeviceParts) (body bytes : List ℕ) (byte : ℕ) → IsBus profile
        → device_with addr profile ≡ Some device
        → (MayFollow profile (leg (write_address addr ∷ body) ++ leg (read_address addr ∷ bytes) ++ Byte byte ∷ []) Ack
        ↔ IsInsideAnswer (IsAnswer device addr body) (bytes ++ byte ∷ [])) }
{
    pec_is_a_byte();
}

/// After a byte of a reply NACK may follow where an answer ends with it.
pub fn replies_end()
    ensures { (profile : List DeviceParts) (addr : ℕ) (device : DeviceParts) (body bytes : List ℕ) (byte : ℕ) → IsBus profile
        → device_with addr profile ≡ Some device
        → (MayFollow profile (leg (write_address addr ∷ body) ++ leg (read_address addr ∷ bytes) ++ Byte byte ∷ []) Nack
        ↔ IsAnswer device addr body (bytes ++ byte ∷ [])) }
{
    pec_is_a_byte();
}

// ---- the Alert Response Address

/// The Alert Response Address may be taken.
pub fn alerts_may_be_taken()
    ensures { (profile : List DeviceParts) → IsBus profile
        → MayFollow profile (Start ∷ Byte (read_address alert_address) ∷ []) Ack }
{
    pec_is_a_byte();
}

/// The Alert Response Address may be refused: no device answers.
pub fn alerts_may_be_refused()
    ensures { (profile : List DeviceParts) → MayFollow profile (Start ∷ Byte (read_address alert_address) ∷ []) Nack }
{}

/// At the Alert Response Address a byte may follow where some answer begins with those before and
/// it.
pub fn bytes_follow_in_an_alert()
    ensures { (profile : List DeviceParts) (bytes : List ℕ) (byte : ℕ) → IsBus profile
        → (MayFollow profile (leg (read_address alert_address ∷ bytes)) (Byte byte)
        ↔ BeginsAnswer IsAlertAnswer (bytes ++ byte ∷ [])) }
{
    pec_is_a_byte();
}

/// After such a byte ACK may follow where the answer at the Alert Response Address continues.
pub fn alerts_go_on()
    ensures { (profile : List DeviceParts) (bytes : List ℕ) (byte : ℕ) → IsBus profile
        → (MayFollow profile (leg (read_address alert_address ∷ bytes) ++ Byte byte ∷ []) Ack
        ↔ IsInsideAnswer IsAlertAnswer (bytes ++ byte ∷ [])) }
{
    pec_is_a_byte();
}

/// After such a byte NACK may follow where the answer at the Alert Response Address ends.
pub fn alerts_end()
    ensures { (profile : List DeviceParts) (bytes : List ℕ) (byte : ℕ) → IsBus profile
        → (MayFollow profile (leg (read_address alert_address ∷ bytes) ++ Byte byte ∷ []) Nack
        ↔ IsAlertAnswer (bytes ++ byte ∷ [])) }
{
    pec_is_a_byte();
}
