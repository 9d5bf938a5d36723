//! Members of an object. Each takes its key, a short one of plain characters, and its place.
//!
//! Its rows: `tests_json`, `src/objects/objects.rt`.

ghost use Rattle.std.specs.Prelude.{◌≡◌, ◌+◌, ◌*◌, ◌≤◌, ◌++◌, ◌∷◌, [], IsTrue, length, codes};
ghost use Rattle.pmb_json_text.specs.Json.{IsNumber, null, boolean, number as number_value, string};
ghost use Rattle.pmb_json_text.specs.Spelling.{comma as comma_text, spelled};
ghost use Rattle.pmb_json_text.specs.Member.{array_text, count, digits, is_key, items_text, key_text, members_text, named};

use crate::hex_digits::append_quoted_digits;
use crate::item_order::ItemOrder;
use crate::number::append_number;
use crate::text::{append, append_quoted};
use arrayvec::ArrayVec;

/// The most bytes of a key with what stands around it: a comma, its quotes, a colon.
pub const KEY: usize = 16 + 4;

/// The most bytes of a member whose value is a `u64`; not of a number that is told as a text.
pub const NUMBER_MEMBER: usize = KEY + 20;

/// The most bytes of a member whose value is a text, beside those of the text.
pub const TEXT_MEMBER: usize = KEY + 2;

/// The most bytes of a member whose value is `true` or `false`.
pub const BOOL_MEMBER: usize = KEY + 5;

/// The most bytes of a member whose value is `null`.
pub const NULL_MEMBER: usize = KEY + 4;

/// The most bytes of a member whose value is an array, up to the array's first value.
pub const ARRAY_MEMBER: usize = KEY + 1;

/// The most bytes of a text in an array, beside those of the text.
pub const TEXT_ITEM: usize = 3;

/// Appends a member whose value is a whole number.
#[inline(always)]
pub fn number_member<const N: usize>(
    out: &mut ArrayVec<u8, N>,
    place: ItemOrder,
    key: &str,
    number: u64,
)
    requires key { IsTrue (is_key key.now) }
    requires room { length out.old.items + NUMBER_MEMBER ≤ N }
    ensures member { out.new.items ≡ out.old.items ++ members_text place (named key.now (count number) ∷ []) }
    ensures short { length out.new.items ≤ length out.old.items + NUMBER_MEMBER }
{
    append_key(out, place, key);
    append_number(out, number);
}

/// Appends a member whose value is the number that a text spells.
#[inline(always)]
pub fn number_text_member<const N: usize>(
    out: &mut ArrayVec<u8, N>,
    place: ItemOrder,
    key: &str,
    number: &[u8],
)
    requires key { IsTrue (is_key key.now) }
    requires number { IsNumber number.now }
    requires room { length out.old.items + (KEY + length number.now) ≤ N }
    ensures member { out.new.items ≡ out.old.items ++ members_text place (named key.now (number_value number.now) ∷ []) }
    ensures short { length out.new.items ≤ length out.old.items + (KEY + length number.now) }
{
    append_key(out, place, key);
    append(out, number);
}

/// Appends a member whose value is a text, whose bytes are its characters.
#[inline(always)]
pub fn text_member<const N: usize>(
    out: &mut ArrayVec<u8, N>,
    place: ItemOrder,
    key: &str,
    text: &[u8],
)
    requires key { IsTrue (is_key key.now) }
    requires room { length out.old.items + (TEXT_MEMBER + 6 * length text.now) ≤ N }
    ensures member { out.new.items ≡ out.old.items ++ members_text place (named key.now (string text.now) ∷ []) }
    ensures short { length out.new.items ≤ length out.old.items + (TEXT_MEMBER + 6 * length text.now) }
{
    append_key(out, place, key);
    append_quoted(out, text);
}

/// Appends a member whose value is a text of two lower-case hexadecimal digits for each byte.
#[inline(always)]
pub fn hex_member<const N: usize>(
    out: &mut ArrayVec<u8, N>,
    place: ItemOrder,
    key: &str,
    bytes: &[u8],
)
    requires key { IsTrue (is_key key.now) }
    requires room { length out.old.items + (TEXT_MEMBER + 2 * length bytes.now) ≤ N }
    ensures member { out.new.items ≡ out.old.items ++ members_text place (named key.now (digits bytes.now) ∷ []) }
    ensures short { length out.new.items ≤ length out.old.items + (TEXT_MEMBER + 2 * length bytes.now) }
{
    append_key(out, place, key);
    append_quoted_digits(out, bytes);
}

/// Appends a member whose value is `true` or `false`.
#[inline(always)]
pub fn bool_member<const N: usize>(
    out: &mut ArrayVec<u8, N>,
    place: ItemOrder,
    key: &str,
    value: bool,
)
    requires key { IsTrue (is_key key.now) }
    requires room { length out.old.items + BOOL_MEMBER ≤ N }
    ensures member { out.new.items ≡ out.old.items ++ members_text place (named key.now (boolean value) ∷ []) }
    ensures short { length out.new.items ≤ length out.old.items + BOOL_MEMBER }
{
    append_key(out, place, key);
    append_bool(out, value);
}

#[inline(always)]
fn append_bool<const N: usize>(out: &mut ArrayVec<u8, N>, value: bool)
    requires { length out.old.items + 5 ≤ N }
    ensures text { out.new.items ≡ out.old.items ++ spelled (boolean value) }
    ensures short { length out.new.items ≤ length out.old.items + 5 }
{
    if value {
        append(out, b"true");
    } else {
        append(out, b"false");
    }
}

/// Appends a member whose value is `null`.
#[inline(always)]
pub fn null_member<const N: usize>(out: &mut ArrayVec<u8, N>, place: ItemOrder, key: &str)
    requires key { IsTrue (is_key key.now) }
    requires room { length out.old.items + NULL_MEMBER ≤ N }
    ensures member { out.new.items ≡ out.old.items ++ members_text place (named key.now null ∷ []) }
    ensures short { length out.new.items ≤ length out.old.items + NULL_MEMBER }
{
    append_key(out, place, key);
    append(out, b"null");
}

/// Begins a member whose value is an array: its values follow, and [`end_array`].
#[inline(always)]
pub fn begin_array<const N: usize>(out: &mut ArrayVec<u8, N>, place: ItemOrder, key: &str)
    requires key { IsTrue (is_key key.now) }
    requires room { length out.old.items + ARRAY_MEMBER ≤ N }
    ensures begun { out.new.items ≡ out.old.items ++ array_text place key.now }
    ensures short { length out.new.items ≤ length out.old.items + ARRAY_MEMBER }
{
    append_key(out, place, key);
    append(out, b"[");
}

/// Appends a text to an array that was begun.
pub fn text_item<const N: usize>(out: &mut ArrayVec<u8, N>, place: ItemOrder, text: &[u8])
    requires { length out.old.items + (TEXT_ITEM + 6 * length text.now) ≤ N }
    ensures item { out.new.items ≡ out.old.items ++ items_text place (string text.now ∷ []) }
    ensures short { length out.new.items ≤ length out.old.items + (TEXT_ITEM + 6 * length text.now) }
{
    append_comma(out, place);
    append_quoted(out, text);
}

/// Ends an array that was begun.
#[inline]
pub fn end_array<const N: usize>(out: &mut ArrayVec<u8, N>)
    requires { length out.old.items + 1 ≤ N }
    ensures ended { out.new.items ≡ out.old.items ++ codes "]" }
{
    append(out, b"]");
}

/// Appends a key up to its value. It is inlined with each member: where the caller names the key,
/// its length is known, and a few moves copy it.
#[inline(always)]
fn append_key<const N: usize>(out: &mut ArrayVec<u8, N>, place: ItemOrder, key: &str)
    requires key { IsTrue (is_key key.now) }
    requires room { length out.old.items + KEY ≤ N }
    ensures key { out.new.items ≡ out.old.items ++ key_text place key.now }
    ensures short { length out.new.items ≤ length out.old.items + KEY }
{
    append_comma(out, place);
    out.push(b'"');
    append(out, key.as_bytes());
    out.push(b'"');
    out.push(b':');
}

/// Appends a comma, but before the first.
#[inline(always)]
fn append_comma<const N: usize>(out: &mut ArrayVec<u8, N>, place: ItemOrder)
    requires { length out.old.items + 1 ≤ N }
    ensures text { out.new.items ≡ out.old.items ++ comma_text place }
    ensures short { length out.new.items ≤ length out.old.items + 1 }
{
    match place {
        ItemOrder::First => {}
        ItemOrder::Later => out.push(b','),
    }
}
