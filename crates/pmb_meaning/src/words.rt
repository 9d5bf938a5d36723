//! The fields of data in words.
//!
//! Its rows: the examples of `docs/meaning.md`.

ghost use Rattle.std.specs.Prelude.{◌≡◌, ◌+◌, ◌-◌, ◌*◌, ◌≤◌, ◌++◌, ◌∷◌, [], IsTrue, codes, is_some, length, map};
ghost use Rattle.std.specs.Fmt.{signed_decimal};
ghost use Rattle.hex.specs.Hex.{encode_lower};
ghost use Rattle.pmb_command.specs.Entry.{entry_parts};
ghost use Rattle.pmb_json_text.specs.declared.item_order.ItemOrder.TheVariants.{First};
ghost use Rattle.pmb_json_text.specs.Member.{is_key};
ghost use Rattle.pmb_meaning.specs.Data.{exchange};
ghost use Rattle.pmb_meaning.specs.Field.{all_parts, field_parts, texts, value_parts};
ghost use Rattle.pmb_meaning.specs.Meaning.{said_fields};
ghost use Rattle.pmb_meaning.specs.Names.{names_of};
ghost use Rattle.pmb_meaning.specs.Words.{between as between_text, byte_texts, field_words, fields_words, listed, says_words_of, spaced, truth_text, value_text};
ghost use Rattle.pmb_meaning.specs.machine.Room.{fields_room, said_room, words_room};
ghost use Rattle.pmb_meaning.specs.machine.Sound.{have_keys};

use crate::command::sound_fields;
use crate::field::{Field, Value};
use crate::names::bit_names;
use crate::payload::Payload;
use crate::text::append;
use arrayvec::ArrayVec;
use itoa::Buffer;
use pmb_command::Entry;
use pmb_json_text::ItemOrder;
use pmb_table::DeviceProfile;

/// The most bytes that [`says_words`] appends.
pub const SAYS_WORDS: usize = 1620;

/// Appends the fields of a command's data in words, such as
/// `relative false, mode linear, exponent -9`, and returns whether there are some. Nothing is
/// appended where [`says_member`](crate::says_member) appends nothing.
pub fn says_words<const N: usize>(
    out: &mut ArrayVec<u8, N>,
    device: &DeviceProfile,
    entry: &Entry,
    payload: &Payload<'_>,
) -> bool
    requires room { length out.old.items + SAYS_WORDS ≤ N }
    ensures words { out.new.items ≡ out.old.items ++ says_words_of device.now (entry_parts entry.now) (exchange payload.now) }
    ensures short { length out.new.items ≤ length out.old.items + SAYS_WORDS }
    ensures some { result ≡ is_some (said_fields (entry_parts entry.now) (exchange payload.now)) }
{
    match sound_fields(entry, payload) {
        Some(fields) => {
            append_fields(out, device, fields.as_slice());
            true
        }
        None => false,
    }
}

/// Appends some fields.
fn append_fields<const N: usize>(
    out: &mut ArrayVec<u8, N>,
    device: &DeviceProfile,
    fields: &[Field<'_>],
)
    requires keys { IsTrue (have_keys (all_parts fields.now)) }
    requires room { length out.old.items + fields_room (all_parts fields.now) ≤ N }
    ensures words { out.new.items ≡ out.old.items ++ fields_words (names_of device.now) First (all_parts fields.now) }
    ensures short { length out.new.items ≤ length out.old.items + fields_room (all_parts fields.now) }
{
    let mut place = ItemOrder::First;
    for field in fields {
        append_field(out, device, place, field);
        place = ItemOrder::Later;
    }
}

/// Appends a field.
fn append_field<const N: usize>(
    out: &mut ArrayVec<u8, N>,
    device: &DeviceProfile,
    place: ItemOrder,
    field: &Field<'_>,
)
    requires key { IsTrue (is_key field.now.key.now) }
    requires room { length out.old.items + said_room (value_parts field.now.value) ≤ N }
    ensures words { out.new.items ≡ out.old.items ++ field_words (names_of device.now) place (field_parts field.now) }
    ensures short { length out.new.items ≤ length out.old.items + said_room (value_parts field.now.value) }
{
    append_between(out, b", ", place);
    append(out, field.key.as_bytes());
    append(out, b" ");
    append_value(out, device, &field.value);
}

/// Appends what a field says.
fn append_value<const N: usize>(
    out: &mut ArrayVec<u8, N>,
    device: &DeviceProfile,
    value: &Value<'_>,
)
    requires { length out.old.items + (said_room (value_parts value.now) - 19) ≤ N }
    ensures text { out.new.items ≡ out.old.items ++ value_text (names_of device.now) (value_parts value.now) }
    ensures short { length out.new.items ≤ length out.old.items + (said_room (value_parts value.now) - 19) }
{
    match *value {
        Value::Word(word) => append(out, word.as_bytes()),
        Value::Number(number) => append_number(out, number),
        Value::Truth(true) => append(out, b"true"),
        Value::Truth(false) => append(out, b"false"),
        Value::Words(names) => append_names(out, names),
        Value::Bits(register, mask) => {
            let names = bit_names(device, register, mask);
            append_names(out, names.as_slice());
        }
        Value::Code(code) => append_bytes(out, &[code]),
        Value::Bytes(bytes) => append_bytes(out, bytes),
    }
}

/// Appends a number.
fn append_number<const N: usize>(out: &mut ArrayVec<u8, N>, number: i32)
    requires { length out.old.items + 11 ≤ N }
    ensures text { out.new.items ≡ out.old.items ++ signed_decimal number }
    ensures short { length out.new.items ≤ length out.old.items + 11 }
{
    append(out, Buffer::new().format(number).as_bytes());
}

/// Appends names with a blank between each two, or that there are none.
fn append_names<const N: usize>(out: &mut ArrayVec<u8, N>, names: &[&str])
    requires { length out.old.items + (4 + words_room (texts names.now)) ≤ N }
    ensures text { out.new.items ≡ out.old.items ++ listed (texts names.now) }
    ensures short { length out.new.items ≤ length out.old.items + (4 + words_room (texts names.now)) }
{
    if names.is_empty() {
        append(out, b"none");
    } else {
        append_each_name(out, names);
    }
}

/// Appends names with a blank between each two.
fn append_each_name<const N: usize>(out: &mut ArrayVec<u8, N>, names: &[&str])
    requires { length out.old.items + words_room (texts names.now) ≤ N }
    ensures text { out.new.items ≡ out.old.items ++ spaced First (texts names.now) }
    ensures short { length out.new.items ≤ length out.old.items + words_room (texts names.now) }
{
    let mut place = ItemOrder::First;
    for name in names {
        append_between(out, b" ", place);
        append(out, name.as_bytes());
        place = ItemOrder::Later;
    }
}

/// Appends bytes by their digits with a blank between each two, or that there are none.
fn append_bytes<const N: usize>(out: &mut ArrayVec<u8, N>, bytes: &[u8])
    requires { length out.old.items + (4 + 3 * length bytes.now) ≤ N }
    ensures text { out.new.items ≡ out.old.items ++ listed (byte_texts bytes.now) }
    ensures short { length out.new.items ≤ length out.old.items + (4 + 3 * length bytes.now) }
{
    if bytes.is_empty() {
        append(out, b"none");
    } else {
        append_each_byte(out, bytes);
    }
}

/// Appends bytes by their digits with a blank between each two.
fn append_each_byte<const N: usize>(out: &mut ArrayVec<u8, N>, bytes: &[u8])
    requires { length out.old.items + 3 * length bytes.now ≤ N }
    ensures text { out.new.items ≡ out.old.items ++ spaced First (byte_texts bytes.now) }
    ensures short { length out.new.items ≤ length out.old.items + 3 * length bytes.now }
{
    let mut place = ItemOrder::First;
    for byte in bytes {
        append_between(out, b" ", place);
        append_digits(out, *byte);
        place = ItemOrder::Later;
    }
}

/// Appends the two digits of a byte.
fn append_digits<const N: usize>(out: &mut ArrayVec<u8, N>, byte: u8)
    requires { length out.old.items + 2 ≤ N }
    ensures text { out.new.items ≡ out.old.items ++ encode_lower (byte ∷ []) }
    ensures short { length out.new.items ≤ length out.old.items + 2 }
{
    let mut digits = [0; 2];
    let _ = hex::encode_to_slice([byte], &mut digits);
    append(out, &digits);
}

/// Appends a text, but before the first.
fn append_between<const N: usize>(out: &mut ArrayVec<u8, N>, text: &[u8], place: ItemOrder)
    requires { length out.old.items + length text.now ≤ N }
    ensures text { out.new.items ≡ out.old.items ++ between_text text.now place }
    ensures short { length out.new.items ≤ length out.old.items + length text.now }
{
    match place {
        ItemOrder::First => {}
        ItemOrder::Later => append(out, text),
    }
}
