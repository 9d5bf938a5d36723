//! Group commands: writes of several parts, each to a device of its own. A leg in which something is
//! refused may end the group.
//!
//! Each part is kept as soon as its leg is read, so that the bytes of one leg alone are collected.
//!
//! Its rows: `tests_reader`, `src/canonical/rows.rt` and `compared.rt`.

ghost use Rattle.std.specs.Prelude.{◌≡◌, ◌<◌, ◌≤◌, ◌++◌, ◌∷◌, [], IfSome, IsSome, length, true};
ghost use Rattle.pmb_command.specs.Parts.{IsNew};
ghost use Rattle.pmb_transaction.specs.Packet.{addresses};
ghost use Rattle.pmb_transaction.specs.Transaction.{PartData};
ghost use Rattle.pmb_canonical.specs.declared.legs.PacketShape.TheVariants.{Group};
ghost use Rattle.pmb_canonical.specs.Canonical.{OneWritten, TakesPacket};
ghost use Rattle.pmb_canonical.specs.Groups.{AddsPart, SayGroup};
ghost use Rattle.pmb_canonical.specs.Legs.{BeginsWithLegs};
ghost use Rattle.pmb_canonical.specs.Nacked.{IsOfNacked, SaysNacked};

use crate::canonical_reader::TakenPacket;
use crate::nacked::keep_refused;
use crate::packet_bytes::PacketBytes;
use crate::packets::written;
use crate::words::{behind_start, behind_stop, front_last, take_acked};
use pmb_table::Profile;
use pmb_transaction_slot::TransactionSlot;

/// How many parts a group has at most.
const PARTS: usize = 16;

/// Keeps the part that a written leg of these bytes is, after others, and returns whether it is one
/// that may stand there.
#[inline(always)]
fn keep_part(kept: &mut TransactionSlot, profile: &Profile, bytes: &[u8]) -> bool
    ensures adds { result ≡ true → AddsPart profile.now kept.old.parts kept.new.parts bytes.now }
    ensures found { (part : PartData) → OneWritten profile.now part.addr part.code part.bytes part.pec bytes.now
        → IsNew part.addr (addresses kept.old.parts) → length kept.old.parts < 16 → result ≡ true }
{
    let Some(said) = written(profile, bytes) else {
        return false;
    };
    if kept.part_count() >= PARTS {
        return false;
    }
    if kept.has_part_at(said.address) {
        return false;
    }
    kept.push_part(said.address, said.code, said.data.bytes, said.data.pec);
    true
}

/// Keeps what is refused in a leg of these bytes and of one more, which has NACK, after the parts so far,
/// and returns whether it is one that may stand there. Not inlined, since few groups end so.
#[inline(never)]
fn keep_last(
    kept: &mut TransactionSlot,
    profile: &Profile,
    bytes: &mut PacketBytes,
    last: u8,
) -> bool
    ensures keeps { result ≡ true → IsOfNacked profile.now kept.old.parts (bytes.old.items ++ last ∷ []) kept.new.last }
    ensures found { length bytes.old.items ≤ 515 → SaysNacked profile.now kept.old.parts (bytes.old.items ++ last ∷ []) → result ≡ true }
{
    if bytes.is_full() {
        return false;
    }
    bytes.push(last);
    keep_refused(kept, profile, bytes.as_slice())
}

/// Takes the group at the front of a text, up to STOP, and keeps it. The bytes are those of its
/// first leg. Where the last leg has NACK, something is refused in it.
#[inline(never)]
pub(crate) fn take_group(
    kept: &mut TransactionSlot,
    profile: &Profile,
    text: &[u8],
    bytes: &mut PacketBytes,
) -> Option<TakenPacket>
    requires begins { BeginsWithLegs Group bytes.old.items text.now }
    ensures takes { IfSome result (λ taken. TakesPacket profile.now text.now taken.used taken.events kept.new.last) }
    ensures some { IfSome result (λ taken. 0 < taken.used) }
    ensures answers { SayGroup profile.now text.now bytes.old.items → IsSome result }
{
    kept.begin();
    let first = bytes.as_slice();
    if !keep_part(kept, profile, first) {
        return None;
    }
    let mut rest = &text[2 + 5 * first.len()..];
    let mut events = 2 + 2 * first.len();
    while let Some(leg) = behind_start(rest) {
        bytes.clear();
        rest = take_acked(leg, bytes);
        if let Some(last) = front_last(rest) {
            let acked = bytes.as_slice().len();
            if !keep_last(kept, profile, bytes, last) {
                return None;
            }
            return Some(TakenPacket {
                used: text.len() - rest.len() + 7,
                events: events + 3 + 2 * acked,
            });
        }
        let part = bytes.as_slice();
        if !keep_part(kept, profile, part) {
            return None;
        }
        events += 1 + 2 * part.len();
    }
    let behind = behind_stop(rest)?;
    kept.end_write();
    Some(TakenPacket {
        used: text.len() - behind.len(),
        events,
    })
}
