//! Laws on the packets that events make with their last one, and on the reasons of events that may
//! not follow: each function is its contract, and does nothing.

ghost use Rattle.std.specs.Prelude.{◌≡◌, ◌≢◌, ℕ, ◌<◌, ◌≤◌, Bool, true, false, Some, List, [], ◌∷◌, ◌++◌, length, nat_eq};
ghost use Rattle.std.specs.List.{IsDistinct};
ghost use Rattle.pmb_bus.specs.declared.event.Event.{Event};
ghost use Rattle.pmb_bus.specs.declared.event.Event.TheVariants.{Start, Byte, Ack, Nack, Stop};
ghost use Rattle.pmb_bus.specs.Address.{write_address, read_address, alert_address};
ghost use Rattle.pmb_command.specs.declared.form.Form.{Form};
ghost use Rattle.pmb_command.specs.Parts.{DeviceParts, IsNew, device_with};
ghost use Rattle.pmb_command.specs.Bus.{IsBus};
ghost use Rattle.pmb_command.specs.PecMode.{AllowsPec};
ghost use Rattle.pmb_command.specs.Wire.{IsByte, Fits, wire};
ghost use Rattle.pmb_transaction.specs.declared.reason.Reason.{Reason};
ghost use Rattle.pmb_transaction.specs.declared.reason.Reason.TheVariants.{TooShort, Truncated};
ghost use Rattle.pmb_transaction.specs.Transaction.{PartData, Write, Read, Call, Refused, Alert};
ghost use Rattle.pmb_transaction.specs.Body.{checked, WriteBody, ReadBody, CallBody, IsRequest, IsFormOfRequest};
ghost use Rattle.pmb_transaction.specs.Packet.{Packet, PartsEvents, addresses, leg};
ghost use Rattle.pmb_transaction.specs.Capture.{MayFollow};
ghost use Rattle.pmb_transaction.specs.Viable.{IsInsideBody};
ghost use Rattle.pmb_transaction.specs.Reading.{IsUnderWay};
ghost use Rattle.pmb_transaction.specs.Reason.{AckReason, ByteReason, FollowsAlone, IsReason, NackReason, SomeByteMayFollow};

use pmb_bus::laws::pec_is_a_byte;

// ---- writes

/// A written leg with a write body after some parts makes one part more.
pub fn one_part_more()
    ensures { (profile : List DeviceParts) (parts : List PartData) (legs : List Event) (addr : ℕ) (device : DeviceParts)
        (code : ℕ) (content : List ℕ) (with_pec : Bool) (bytes : List ℕ) → IsBus profile → length parts ≤ 15
        → IsDistinct nat_eq (addresses parts) → PartsEvents profile parts legs → IsNew addr (addresses parts)
        → device_with addr profile ≡ Some device → WriteBody device code content with_pec bytes
        → (PartsEvents profile (parts ++ record { addr = addr; code = code; bytes = content; pec = with_pec } ∷ [])
        (legs ++ leg (write_address addr ∷ bytes)))
        × (IsDistinct nat_eq (addresses (parts ++ record { addr = addr; code = code; bytes = content; pec = with_pec } ∷ []))) }
{
    pec_is_a_byte();
}

/// Such a leg after some parts, and STOP, are a write.
pub fn writes_are_packets()
    ensures { (profile : List DeviceParts) (parts : List PartData) (legs : List Event) (addr : ℕ) (device : DeviceParts)
        (code : ℕ) (content : List ℕ) (with_pec : Bool) (bytes : List ℕ) → IsBus profile → length parts ≤ 15
        → IsDistinct nat_eq (addresses parts) → PartsEvents profile parts legs → IsNew addr (addresses parts)
        → device_with addr profile ≡ Some device → WriteBody device code content with_pec bytes
        → Packet profile (Write (parts ++ record { addr = addr; code = code; bytes = content; pec = with_pec } ∷ []))
        (legs ++ leg (write_address addr ∷ bytes) ++ Stop ∷ []) }
{
    pec_is_a_byte();
}

// ---- refused packets

/// An address after some parts that is refused.
pub fn refused_addresses_are_packets()
    ensures { (profile : List DeviceParts) (parts : List PartData) (legs : List Event) (addr : ℕ) → IsBus profile
        → length parts ≤ 15 → IsDistinct nat_eq (addresses parts) → PartsEvents profile parts legs
        → IsNew addr (addresses parts) → addr < 128
        → Packet profile (Refused (record { parts = parts; addr = addr; sent = []; at_read = false }))
        (legs ++ Start ∷ Byte (write_address addr) ∷ [] ++ Nack ∷ [] ++ Stop ∷ []) }
{}

/// A byte inside of a body, or a wrong one at its end, that is refused.
pub fn refused_bytes_are_packets()
    ensures { (profile : List DeviceParts) (parts : List PartData) (legs : List Event) (addr : ℕ) (device : DeviceParts)
        (bytes : List ℕ) (byte : ℕ) → IsBus profile → length parts ≤ 15 → IsDistinct nat_eq (addresses parts)
        → PartsEvents profile parts legs → IsNew addr (addresses parts) → device_with addr profile ≡ Some device
        → IsInsideBody device parts bytes → IsByte byte
        → Packet profile (Refused (record { parts = parts; addr = addr; sent = bytes ++ byte ∷ []; at_read = false }))
        (legs ++ leg (write_address addr ∷ bytes) ++ Byte byte ∷ [] ++ Nack ∷ [] ++ Stop ∷ []) }
{
    pec_is_a_byte();
}

/// A device that was asked and refuses to be read.
pub fn refused_reads_are_packets()
    ensures { (profile : List DeviceParts) (addr : ℕ) (device : DeviceParts) (body : List ℕ) → IsBus profile
        → device_with addr profile ≡ Some device → IsRequest device body
        → Packet profile (Refused (record { parts = []; addr = addr; sent = body; at_read = true }))
        (leg (write_address addr ∷ body) ++ Start ∷ Byte (read_address addr) ∷ [] ++ Nack ∷ [] ++ Stop ∷ []) }
{
    pec_is_a_byte();
}

// ---- answers

/// A whole reply to a read body makes a read.
pub fn reads_are_packets()
    ensures { (profile : List DeviceParts) (addr : ℕ) (device : DeviceParts) (body : List ℕ) (form : Form) (reply : List ℕ)
        (with_pec : Bool) (bytes : List ℕ) (byte : ℕ) (code : ℕ) (read_form : Form) → IsBus profile
        → device_with addr profile ≡ Some device
        → IsFormOfRequest device form body
        → Fits form reply → AllowsPec device.pec with_pec
        → bytes ++ byte ∷ [] ≡ checked with_pec (write_address addr ∷ body ++ read_address addr ∷ []) (wire form reply)
        → ReadBody device code read_form body
        → Packet profile (Read (record { addr = addr; code = code; reply = reply; pec = with_pec }))
        (leg (write_address addr ∷ body) ++ leg (read_address addr ∷ bytes) ++ Byte byte ∷ [] ++ Nack ∷ [] ++ Stop ∷ []) }
{}

/// A whole reply to a call body makes a call.
pub fn calls_are_packets()
    ensures { (profile : List DeviceParts) (addr : ℕ) (device : DeviceParts) (body : List ℕ) (form : Form) (reply : List ℕ)
        (with_pec : Bool) (bytes : List ℕ) (byte : ℕ) (code : ℕ) (content : List ℕ) (call_form : Form) → IsBus profile
        → device_with addr profile ≡ Some device
        → IsFormOfRequest device form body
        → Fits form reply → AllowsPec device.pec with_pec
        → bytes ++ byte ∷ [] ≡ checked with_pec (write_address addr ∷ body ++ read_address addr ∷ []) (wire form reply)
        → CallBody device code call_form content body
        → Packet profile (Call (record { addr = addr; code = code; bytes = content; reply = reply; pec = with_pec }))
        (leg (write_address addr ∷ body) ++ leg (read_address addr ∷ bytes) ++ Byte byte ∷ [] ++ Nack ∷ [] ++ Stop ∷ []) }
{}

/// A whole answer at the Alert Response Address.
pub fn alerts_are_packets()
    ensures { (profile : List DeviceParts) (answer : ℕ) (with_pec : Bool) (bytes : List ℕ) (byte : ℕ) → IsByte answer
        → bytes ++ byte ∷ [] ≡ checked with_pec (read_address alert_address ∷ []) (answer ∷ [])
        → Packet profile (Alert (record { byte = answer; pec = with_pec }))
        (leg (read_address alert_address ∷ bytes) ++ Byte byte ∷ [] ++ Nack ∷ [] ++ Stop ∷ []) }
{}

// ---- after events

/// Under a profile that is accepted, an event that may not follow has one reason, which is no
/// truncation. Where some byte, or NACK alone, or ACK alone may follow, the events end in one of the
/// ways that are drawn.
pub fn refused_events_have_a_reason()
    ensures some { (profile : List DeviceParts) (events : List Event) (event : Event) → IsBus profile
        → ((reason : Reason) × IsReason profile events event reason) }
    ensures byte { (profile : List DeviceParts) (events : List Event) → SomeByteMayFollow profile events
        → ((reason : Reason) × ByteReason events reason) }
    ensures ack { (profile : List DeviceParts) (events : List Event) → IsBus profile → FollowsAlone profile events Nack
        → ((reason : Reason) × AckReason events reason) }
    ensures nack { (profile : List DeviceParts) (events : List Event) → IsBus profile → FollowsAlone profile events Ack
        → NackReason events TooShort }
    ensures one { (profile : List DeviceParts) (events : List Event) (event : Event) (a b : Reason)
        → IsReason profile events event a → IsReason profile events event b → a ≡ b }
    ensures other { (profile : List DeviceParts) (events : List Event) (event : Event) (reason : Reason)
        → IsReason profile events event reason → reason ≢ Truncated }
{
    pec_is_a_byte();
}

/// Some event may follow those of a packet under way.
pub fn something_follows()
    ensures { (profile : List DeviceParts) (events : List Event) → IsUnderWay profile events → events ≢ []
        → ((event : Event) × MayFollow profile events event) }
{}
