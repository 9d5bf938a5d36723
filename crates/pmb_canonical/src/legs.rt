//! The legs of a packet at the front of a text.
//!
//! Its rows: `tests_reader`, `src/canonical/rows.rt` and `compared.rt`.

ghost use Rattle.std.specs.Prelude.{◌≡◌, ◌≤◌, List, ℕ, Some, [], ◌++◌, IfSome, length};
ghost use Rattle.pmb_bus.specs.Event.{canonical_text};
ghost use Rattle.pmb_canonical.specs.Legs.{BeginsWithLegs, FindsNacked, FindsSecond, Follows, IsOfLegs, TakenNacked, TakenSecond, least, leg_events};

use crate::packet_bytes::PacketBytes;
use crate::words::{behind_start, behind_stop, front_last, is_even, take_acked};

/// Which legs a packet has.
#[derive(Clone, Copy)]
pub(crate) enum PacketShape {
    /// One that is written.
    Written,
    /// A written one of this many bytes, and one that is read, or whose address byte has NACK.
    Both { written: usize },
    /// A written one, and after it others whose address byte is for writing.
    Group,
    /// One whose last byte has NACK.
    Nacked,
}

/// The legs at the front of a text, up to STOP, where they are those of a canonical packet; of a group
/// only the first. Their bytes are put in place of others.
#[inline]
pub(crate) fn front_legs(text: &[u8], bytes: &mut PacketBytes) -> Option<PacketShape>
    ensures spelled { IfSome result (λ legs. BeginsWithLegs legs bytes.new.items text.now) }
    ensures enough { IfSome result (λ legs. least legs ≤ length bytes.new.items) }
    ensures found { (legs : PacketShape) (all rest : List ℕ) → IsOfLegs legs all → Follows legs rest → text.now ≡ canonical_text (leg_events legs all) ++ rest
        → (result ≡ Some legs) × (bytes.new.items ≡ all) }
{
    bytes.clear();
    let first = behind_start(text)?;
    let behind = take_acked(first, bytes);
    if let Some(_) = behind_stop(behind) {
        return Some(PacketShape::Written);
    }
    let Some(second) = behind_start(behind) else {
        return take_nacked(behind, bytes);
    };
    if is_even(second) {
        return Some(PacketShape::Group);
    }
    if bytes.len() == 2 {
        return take_second(second, bytes);
    }
    take_reply(second, bytes)
}

/// Takes the second leg at the front of a text, up to STOP, and puts its bytes after those of the
/// first.
#[inline(always)]
fn take_second(text: &[u8], bytes: &mut PacketBytes) -> Option<PacketShape>
    ensures spelled { IfSome result (λ legs. TakenSecond legs text.now bytes.old.items bytes.new.items) }
    ensures found { FindsSecond text.now bytes.old.items bytes.new.items result }
{
    let written = bytes.len();
    let end = take_acked(text, bytes);
    let last = front_last(end)?;
    if bytes.is_full() {
        return None;
    }
    bytes.push(last);
    Some(PacketShape::Both { written })
}

/// Takes the second leg of a call. Calls are rare, so this is not inlined: only a read, whose first
/// leg has two bytes, has `take_second` in place.
#[inline(never)]
fn take_reply(text: &[u8], bytes: &mut PacketBytes) -> Option<PacketShape>
    ensures spelled { IfSome result (λ legs. TakenSecond legs text.now bytes.old.items bytes.new.items) }
    ensures found { FindsSecond text.now bytes.old.items bytes.new.items result }
{
    take_second(text, bytes)
}

/// Takes the byte with NACK at the front of a text, up to STOP, and puts it after those of the first
/// leg. Not inlined, since few packets end so.
#[inline(never)]
fn take_nacked(text: &[u8], bytes: &mut PacketBytes) -> Option<PacketShape>
    ensures spelled { IfSome result (λ legs. TakenNacked legs text.now bytes.old.items bytes.new.items) }
    ensures found { FindsNacked text.now bytes.old.items bytes.new.items result }
{
    let last = front_last(text)?;
    if bytes.is_full() {
        return None;
    }
    bytes.push(last);
    Some(PacketShape::Nacked)
}
