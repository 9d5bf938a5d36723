//! The kinds that were expected, and the refused event, by their names.
//!
//! Its rows: `tests_json`, `src/object_lines/refusals.rt`; `tests/rows/json_objects.txt`.

ghost use Rattle.std.specs.Prelude.{◌≡◌, ◌==◌, ◌+◌, ◌*◌, ◌≤◌, ◌++◌, ◌∷◌, [], List, ℕ, bit_and, codes, length, map};
ghost use Rattle.pmb_bus.specs.Kinds.{bits};
ghost use Rattle.pmb_json_text.specs.Json.{string};
ghost use Rattle.pmb_json_text.specs.declared.item_order.ItemOrder.TheVariants.{Later};
ghost use Rattle.pmb_json_text.specs.Member.{array_of, items_text, members_text, named};
ghost use Rattle.pmb_transaction.specs.Names.{kind_names, with_name};
ghost use Rattle.pmb_json_objects.specs.Names.{got_value};

use crate::members::append_byte;
use arrayvec::ArrayVec;
use pmb_bus::{Event, Kinds};
use pmb_json_text::{
    ARRAY_MEMBER, ItemOrder, NULL_MEMBER, TEXT_ITEM, TEXT_MEMBER, begin_array, end_array,
    null_member, text_item, text_member,
};

/// The most bytes of the names of kinds.
pub(crate) const KINDS_MEMBER: usize = ARRAY_MEMBER + 5 * (TEXT_ITEM + 6 * 5) + 1;

/// The most bytes of the refused event.
pub(crate) const GOT_MEMBER: usize = TEXT_MEMBER + 6 * 5;

/// Appends the names of the kinds that were expected.
pub(crate) fn append_kinds<const N: usize>(out: &mut ArrayVec<u8, N>, kinds: Kinds)
    requires room { length out.old.items + KINDS_MEMBER ≤ N }
    ensures member { out.new.items ≡ out.old.items ++ members_text Later (named (codes "expected") (array_of (map string (kind_names kinds))) ∷ []) }
    ensures short { length out.new.items ≤ length out.old.items + KINDS_MEMBER }
{
    begin_array(out, ItemOrder::Later, "expected");
    let place = append_kind(out, ItemOrder::First, kinds, Kinds::START, b"Start");
    let place = append_kind(out, place, kinds, Kinds::BYTE, b"Byte");
    let place = append_kind(out, place, kinds, Kinds::ACK, b"Ack");
    let place = append_kind(out, place, kinds, Kinds::NACK, b"Nack");
    append_kind(out, place, kinds, Kinds::STOP, b"Stop");
    end_array(out);
}

/// Appends the name of a kind, where it is one of these kinds, and returns the place of the next
/// one.
fn append_kind<const N: usize>(
    out: &mut ArrayVec<u8, N>,
    place: ItemOrder,
    kinds: Kinds,
    kind: Kinds,
    name: &[u8],
) -> ItemOrder
    requires room { length out.old.items + (TEXT_ITEM + 6 * 5) ≤ N }
    requires name { length name.now ≤ 5 }
    ensures items { (rest : List (List ℕ))
        → out.new.items ++ items_text result (map string rest) ≡ out.old.items ++ items_text place (map string (with_name (bit_and (bits kinds) (bits kind) == bits kind) name.now rest)) }
    ensures short { length out.new.items ≤ length out.old.items + (TEXT_ITEM + 6 * 5) }
{
    if !kinds.contains(kind) {
        return place;
    }
    text_item(out, place, name);
    ItemOrder::Later
}

/// Appends the refused event; `None` is the end of the events.
pub(crate) fn append_got<const N: usize>(out: &mut ArrayVec<u8, N>, event: Option<Event>)
    requires room { length out.old.items + GOT_MEMBER ≤ N }
    ensures member { out.new.items ≡ out.old.items ++ members_text Later (named (codes "got") (got_value event) ∷ []) }
    ensures short { length out.new.items ≤ length out.old.items + GOT_MEMBER }
{
    match event {
        None => null_member(out, ItemOrder::Later, "got"),
        Some(Event::Byte(byte)) => append_byte(out, "got", byte),
        Some(Event::Start) => text_member(out, ItemOrder::Later, "got", b"Start"),
        Some(Event::Ack) => text_member(out, ItemOrder::Later, "got", b"Ack"),
        Some(Event::Nack) => text_member(out, ItemOrder::Later, "got", b"Nack"),
        Some(Event::Stop) => text_member(out, ItemOrder::Later, "got", b"Stop"),
    }
}
