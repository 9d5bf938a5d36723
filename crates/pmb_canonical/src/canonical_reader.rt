//! The packet at the front of a text.
//!
//! The bytes of a packet are collected in `bytes`, which no contract speaks of: a try that fails
//! leaves them after, and nothing is read from them. The parts of a group are kept one by one, so
//! such a try can leave some of them kept too.
//!
//! Its rows: `tests_reader`, `src/canonical/rows.rt` and `compared.rt`; `tests/rows/captures.txt`.

ghost use Rattle.std.specs.Prelude.{◌≡◌, ◌<◌, ◌≤◌, ◌+◌, ◌*◌, ◌++◌, List, ℕ, IsSome, IfSome, length};
ghost use Rattle.pmb_bus.specs.Event.{canonical_text};
ghost use Rattle.pmb_canonical.specs.Canonical.{BeginsWithPacket, TakesPacket};
ghost use Rattle.pmb_canonical.specs.declared.legs.PacketShape.TheVariants.{Both, Nacked, Written};
ghost use Rattle.pmb_canonical.specs.Groups.{SaysPart};
ghost use Rattle.pmb_canonical.specs.Legs.{BeginsWithLegs, SayBoth, SayLegs, SayUnread, SaysAlone, least, leg_events};

use crate::alerts::keep_alert;
use crate::group::take_group;
use crate::legs::{PacketShape, front_legs};
use crate::nacked::keep_refused;
use crate::packet_bytes::PacketBytes;
use crate::packets::{called, read, written};
use crate::refused::unread;
use pmb_table::Profile;
use pmb_table::laws::accepted_bus;
use pmb_transaction::laws::{bodies_are_short, packets_are_bytes};
use pmb_transaction_slot::TransactionSlot;

/// How much of a text a packet is.
#[derive(Clone, Copy, Debug, PartialEq, Eq)]
pub struct TakenPacket {
    /// How many bytes of the text are used.
    pub used: usize,
    /// How many events they spell.
    pub events: usize,
}

/// Takes canonical packets at once. What is kept of one is kept elsewhere: this has the room in which
/// the bytes of a packet are collected.
#[derive(Drop)]
pub struct CanonicalReader {
    bytes: PacketBytes,
}

impl CanonicalReader {
    /// Nothing is collected.
    pub fn new() -> CanonicalReader {
        CanonicalReader {
            bytes: PacketBytes::new(),
        }
    }

    /// Takes the canonical packet at the front of a text that begins between two packets, and keeps
    /// its transaction as the one that ended last. It returns `None` where none lies whole in
    /// front; what is kept can have changed then too.
    pub fn take(
        &mut self,
        kept: &mut TransactionSlot,
        profile: &Profile,
        text: &[u8],
    ) -> Option<TakenPacket>
        ensures takes { IfSome result (λ taken. TakesPacket profile.now text.now taken.used taken.events kept.new.last) }
        ensures some { IfSome result (λ taken. 0 < taken.used) }
        ensures within { IfSome result (λ taken. taken.used ≤ length text.now) }
        // A canonical packet that lies whole in front is taken.
        ensures answers { BeginsWithPacket profile.now text.now → IsSome result }
    {
        accepted_bus(profile);
        packets_are_bytes();
        bodies_are_short();
        let legs = front_legs(text, &mut self.bytes)?;
        keep(kept, profile, legs, text, &mut self.bytes)
    }
}

// How much of a text one leg with these bytes is.
#[inline]
fn one_leg(bytes: &[u8]) -> TakenPacket
    requires { length bytes.now ≤ 516 }
    ensures used { result.used ≡ 4 + 5 * length bytes.now }
    ensures events { result.events ≡ 2 + 2 * length bytes.now }
{
    TakenPacket {
        used: 4 + 5 * bytes.len(),
        events: 2 + 2 * bytes.len(),
    }
}

// How much of a text both legs with these bytes are.
#[inline]
fn both_legs(bytes: &[u8]) -> TakenPacket
    requires { length bytes.now ≤ 516 }
    ensures used { result.used ≡ 6 + 5 * length bytes.now }
    ensures events { result.events ≡ 3 + 2 * length bytes.now }
{
    TakenPacket {
        used: 6 + 5 * bytes.len(),
        events: 3 + 2 * bytes.len(),
    }
}

// Keeps the transaction of the legs that stand at the front of a text, where they are those of one.
#[inline]
fn keep(
    kept: &mut TransactionSlot,
    profile: &Profile,
    legs: PacketShape,
    text: &[u8],
    bytes: &mut PacketBytes,
) -> Option<TakenPacket>
    requires begins { BeginsWithLegs legs bytes.old.items text.now }
    requires enough { least legs ≤ length bytes.old.items }
    ensures takes { IfSome result (λ taken. TakesPacket profile.now text.now taken.used taken.events kept.new.last) }
    ensures some { IfSome result (λ taken. 0 < taken.used) }
    ensures answers { SayLegs profile.now text.now legs bytes.old.items → IsSome result }
{
    match legs {
        PacketShape::Written => keep_write(kept, profile, bytes.as_slice()),
        PacketShape::Both { written } => keep_both(kept, profile, bytes.as_slice(), written),
        PacketShape::Group => take_group(kept, profile, text, bytes),
        PacketShape::Nacked => keep_nacked(kept, profile, bytes.as_slice()),
    }
}

// Keeps the write of one part, whose leg has these bytes.
#[inline(always)]
fn keep_write(kept: &mut TransactionSlot, profile: &Profile, bytes: &[u8]) -> Option<TakenPacket>
    requires { length bytes.now ≤ 516 }
    ensures takes { (text rest : List ℕ) → text ≡ canonical_text (leg_events Written bytes.now) ++ rest
        → IfSome result (λ taken. TakesPacket profile.now text taken.used taken.events kept.new.last) }
    ensures some { IfSome result (λ taken. 0 < taken.used) }
    ensures answers { SaysPart profile.now bytes.now → IsSome result }
{
    let said = written(profile, bytes)?;
    kept.end_single(said.address, said.code, said.data.bytes, said.data.pec);
    Some(one_leg(bytes))
}

// Keeps the read or the call, whose two legs have these bytes, or what is refused when a device is to
// be read.
#[inline(always)]
fn keep_both(
    kept: &mut TransactionSlot,
    profile: &Profile,
    bytes: &[u8],
    written: usize,
) -> Option<TakenPacket>
    requires few { length bytes.now ≤ 516 }
    requires enough { written + 1 ≤ length bytes.now }
    ensures takes { (text rest : List ℕ) → text ≡ canonical_text (leg_events (Both written) bytes.now) ++ rest
        → IfSome result (λ taken. TakesPacket profile.now text taken.used taken.events kept.new.last) }
    ensures some { IfSome result (λ taken. 0 < taken.used) }
    ensures answers { SayBoth profile.now written bytes.now → IsSome result }
{
    let second = bytes.len() - written;
    if second == 1 {
        return keep_unread(kept, profile, bytes, written);
    }
    if written == 2 {
        let said = read(profile, bytes)?;
        kept.end_read(said.address, said.code, said.data.bytes, said.data.pec);
        return Some(both_legs(bytes));
    }
    let said = called(profile, bytes, written)?;
    kept.end_call(
        said.address,
        said.code,
        said.sent,
        said.reply.bytes,
        said.reply.pec,
    );
    Some(both_legs(bytes))
}

// Keeps what is refused when a device is to be read: the two legs have these bytes.
#[inline(never)]
fn keep_unread(
    kept: &mut TransactionSlot,
    profile: &Profile,
    bytes: &[u8],
    written: usize,
) -> Option<TakenPacket>
    requires few { length bytes.now ≤ 516 }
    requires second { length bytes.now ≡ written + 1 }
    ensures takes { (text rest : List ℕ) → text ≡ canonical_text (leg_events (Both written) bytes.now) ++ rest
        → IfSome result (λ taken. TakesPacket profile.now text taken.used taken.events kept.new.last) }
    ensures some { IfSome result (λ taken. 0 < taken.used) }
    ensures answers { SayUnread profile.now written bytes.now → IsSome result }
{
    let sent = unread(profile, bytes, written)?;
    kept.begin();
    kept.end_refused(sent.address, sent.bytes, None, true);
    Some(both_legs(bytes))
}

// Keeps what the one leg of a packet says, which has these bytes, the last one with NACK: an alert, or
// that its address is refused or the last one of the bytes sent.
#[inline(never)]
fn keep_nacked(kept: &mut TransactionSlot, profile: &Profile, bytes: &[u8]) -> Option<TakenPacket>
    requires { length bytes.now ≤ 516 }
    ensures takes { (text rest : List ℕ) → text ≡ canonical_text (leg_events Nacked bytes.now) ++ rest
        → IfSome result (λ taken. TakesPacket profile.now text taken.used taken.events kept.new.last) }
    ensures some { IfSome result (λ taken. 0 < taken.used) }
    ensures answers { SaysAlone profile.now bytes.now → IsSome result }
{
    if keep_alert(kept, bytes) {
        return Some(one_leg(bytes));
    }
    kept.begin();
    if !keep_refused(kept, profile, bytes) {
        return None;
    }
    Some(one_leg(bytes))
}
