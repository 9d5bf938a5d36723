//! Members that are left out where they have nothing to say.
//!
//! Its rows: `tests/rows/stats.txt`.

ghost use Rattle.std.specs.Prelude.{◌≡◌, ◌+◌, ◌≤◌, ◌++◌, ◌∷◌, [], IsTrue, List, codes, length, option_map};
ghost use Rattle.std.specs.Option.{ForSome};
ghost use Rattle.pmb_json_text.specs.declared.item_order.ItemOrder.TheVariants.{First, Later};
ghost use Rattle.pmb_json_text.specs.Json.{number};
ghost use Rattle.pmb_json_text.specs.Member.{Member, is_key, key_text, members_text, named};
ghost use Rattle.pmb_json_text.specs.Spelling.{comma as comma_text};
ghost use Rattle.pmb_stats_objects.specs.Members.{count_member, fraction_member, object_member, text_member as text_member_of};
ghost use Rattle.pmb_stats_objects.specs.machine.Written.{Appends};

use arrayvec::ArrayVec;
use pmb_decimal::{Digits, append_decimal};
use pmb_json_text::{ItemOrder, KEY, NUMBER_MEMBER, TEXT_MEMBER, number_member, text_member};
use pmb_value::Quantity;

/// The most bytes of a time.
pub(crate) const TIME: usize = 40;

/// The most bytes of a time's member, or of another text that is no longer.
pub(crate) const TIME_MEMBER: usize = TEXT_MEMBER + 6 * TIME;

/// The most bytes of a fraction.
pub(crate) const FRACTION: usize = 33;

/// The most bytes of a fraction's member.
pub(crate) const FRACTION_MEMBER: usize = KEY + FRACTION;

/// Appends a text as it is.
pub(crate) fn append<const N: usize>(out: &mut ArrayVec<u8, N>, text: &[u8])
    requires { length out.old.items + length text.now ≤ N }
    ensures { out.new.items ≡ out.old.items ++ text.now }
{
    let _ = out.try_extend_from_slice(text);
}

/// Appends a comma, but before the first.
pub(crate) fn append_comma<const N: usize>(out: &mut ArrayVec<u8, N>, place: ItemOrder)
    requires { length out.old.items + 1 ≤ N }
    ensures text { out.new.items ≡ out.old.items ++ comma_text place }
    ensures short { length out.new.items ≤ length out.old.items + 1 }
{
    match place {
        ItemOrder::First => {}
        ItemOrder::Later => out.push(b','),
    }
}

/// Appends a count, if it is not 0, and returns the place after it.
pub(crate) fn append_count<const N: usize>(
    out: &mut ArrayVec<u8, N>,
    place: ItemOrder,
    key: &str,
    count: u64,
) -> ItemOrder
    requires key { IsTrue (is_key key.now) }
    requires room { length out.old.items + NUMBER_MEMBER ≤ N }
    ensures { Appends (count_member key.now count) 40 place out.old.items result out.new.items }
{
    if count == 0 {
        return place;
    }
    number_member(out, place, key, count);
    ItemOrder::Later
}

/// Appends a text of at most 40 bytes, if there is one, to an object that has members.
pub(crate) fn append_text<const N: usize>(out: &mut ArrayVec<u8, N>, key: &str, text: Option<&[u8]>)
    requires key { IsTrue (is_key key.now) }
    requires short { ForSome text (λ text. length text.now ≤ 40) }
    requires room { length out.old.items + TIME_MEMBER ≤ N }
    ensures { Appends (text_member_of key.now (option_map (λ text. text.now) text.entry)) 262 Later out.old.items Later out.new.items }
{
    if let Some(text) = text {
        text_member(out, ItemOrder::Later, key, text);
    }
}

/// Appends the nearest decimal to a quantity, if there is one, to an object that has members.
pub(crate) fn append_fraction<const N: usize>(
    out: &mut ArrayVec<u8, N>,
    digits: Digits,
    key: &str,
    quantity: Option<Quantity>,
)
    requires key { IsTrue (is_key key.now) }
    requires room { length out.old.items + FRACTION_MEMBER ≤ N }
    ensures { Appends (fraction_member digits key.now quantity) 53 Later out.old.items Later out.new.items }
{
    if let Some(quantity) = quantity {
        let mut text = ArrayVec::<u8, FRACTION>::new();
        append_decimal(&quantity, digits, &mut text);
        append_number(out, key, text.as_slice());
    }
}

/// Appends a number that a text of at most 33 bytes spells to an object that has members.
pub(crate) fn append_number<const N: usize>(out: &mut ArrayVec<u8, N>, key: &str, text: &[u8])
    requires key { IsTrue (is_key key.now) }
    requires short { length text.now ≤ FRACTION }
    requires room { length out.old.items + FRACTION_MEMBER ≤ N }
    ensures { Appends (named key.now (number text.now) ∷ []) 53 Later out.old.items Later out.new.items }
{
    append_key(out, key);
    append(out, text);
}

/// Appends an object by its members, if it has any, to an object that has members.
pub(crate) fn append_object<const N: usize>(out: &mut ArrayVec<u8, N>, key: &str, members: &[u8])
    requires key { IsTrue (is_key key.now) }
    requires room { length out.old.items + (KEY + 2 + length members.now) ≤ N }
    ensures object { (known : List Member) → members.now ≡ members_text First known
        → out.new.items ≡ out.old.items ++ members_text Later (object_member key.now known) }
    ensures short { length out.new.items ≤ length out.old.items + (KEY + 2 + length members.now) }
{
    if members.is_empty() {
        return;
    }
    append_key(out, key);
    append(out, b"{");
    append(out, members);
    append(out, b"}");
}

/// Appends a key up to its value to an object that has members.
fn append_key<const N: usize>(out: &mut ArrayVec<u8, N>, key: &str)
    requires key { IsTrue (is_key key.now) }
    requires room { length out.old.items + KEY ≤ N }
    ensures key { out.new.items ≡ out.old.items ++ key_text Later key.now }
    ensures short { length out.new.items ≤ length out.old.items + KEY }
{
    append(out, b",\"");
    append(out, key.as_bytes());
    append(out, b"\":");
}
