//! The fields of data as the object `says`, a member of another object.
//!
//! Its rows: the examples of `docs/meaning.md`.

ghost use Rattle.std.specs.Prelude.{◌≡◌, ◌+◌, ◌≤◌, ◌++◌, ◌∷◌, [], IsTrue, Some, length, map};
ghost use Rattle.std.specs.Fmt.{signed_decimal};
ghost use Rattle.pmb_command.specs.Entry.{entry_parts};
ghost use Rattle.pmb_json_text.specs.declared.item_order.ItemOrder.TheVariants.{First, Later};
ghost use Rattle.pmb_json_text.specs.Json.{number as number_value, string};
ghost use Rattle.pmb_json_text.specs.Member.{AreWritable, array_of, is_key, items_text, members_text, named};
ghost use Rattle.pmb_meaning.specs.Data.{exchange};
ghost use Rattle.pmb_meaning.specs.Field.{all_parts, field_parts, texts, value_parts};
ghost use Rattle.pmb_meaning.specs.Names.{names_of};
ghost use Rattle.pmb_meaning.specs.Object.{field_member, field_members, says_members, says_members_of};
ghost use Rattle.pmb_meaning.specs.machine.Room.{fields_room, said_room, words_room};
ghost use Rattle.pmb_meaning.specs.machine.Sound.{have_keys};

use crate::command::sound_fields;
use crate::field::{Field, Value};
use crate::names::bit_names;
use crate::payload::Payload;
use crate::text::append;
use arrayvec::ArrayVec;
use itoa::Buffer;
use pmb_command::Entry;
use pmb_json_text::{
    ItemOrder, begin_array, bool_member, end_array, hex_member, number_text_member, text_item,
    text_member,
};
use pmb_table::DeviceProfile;
use pmb_table::laws::accepted_device;

/// The most bytes that [`says_member`] appends.
pub const SAYS_MEMBER: usize = 1630;

/// Appends the fields of a command's data to an object that has members already, as the object
/// `says`: `,"says":{"supported":false}`. Nothing is appended where the command is not the
/// standard's or its data are more than bytes, nor where [`fields`](crate::fields) gives none. Bits
/// of a status register have the names that the profile of the device gives them, or else the
/// standard's.
pub fn says_member<const N: usize>(
    out: &mut ArrayVec<u8, N>,
    device: &DeviceProfile,
    entry: &Entry,
    payload: &Payload<'_>,
)
    requires room { length out.old.items + SAYS_MEMBER ≤ N }
    ensures member { out.new.items ≡ out.old.items ++ members_text Later (says_members_of device.now (entry_parts entry.now) (exchange payload.now)) }
    ensures short { length out.new.items ≤ length out.old.items + SAYS_MEMBER }
    ensures writable { AreWritable (says_members_of device.now (entry_parts entry.now) (exchange payload.now)) }
{
    accepted_device(device);
    match sound_fields(entry, payload) {
        Some(fields) => append_object(out, device, fields.as_slice()),
        None => {}
    }
}

/// Appends the object of some fields.
fn append_object<const N: usize>(
    out: &mut ArrayVec<u8, N>,
    device: &DeviceProfile,
    fields: &[Field<'_>],
)
    requires keys { IsTrue (have_keys (all_parts fields.now)) }
    requires room { length out.old.items + (fields_room (all_parts fields.now) + 10) ≤ N }
    ensures member { out.new.items ≡ out.old.items ++ members_text Later (says_members (names_of device.now) (Some (all_parts fields.now))) }
    ensures short { length out.new.items ≤ length out.old.items + (fields_room (all_parts fields.now) + 10) }
{
    append(out, b",\"says\":{");
    append_members(out, device, fields);
    append(out, b"}");
}

/// Appends some fields to an object that has no members so far.
fn append_members<const N: usize>(
    out: &mut ArrayVec<u8, N>,
    device: &DeviceProfile,
    fields: &[Field<'_>],
)
    requires keys { IsTrue (have_keys (all_parts fields.now)) }
    requires room { length out.old.items + fields_room (all_parts fields.now) ≤ N }
    ensures members { out.new.items ≡ out.old.items ++ members_text First (field_members (names_of device.now) (all_parts fields.now)) }
    ensures short { length out.new.items ≤ length out.old.items + fields_room (all_parts fields.now) }
{
    let mut place = ItemOrder::First;
    for field in fields {
        append_field(out, device, place, field);
        place = ItemOrder::Later;
    }
}

/// Appends a field.
fn append_field<const N: usize>(
    out: &mut ArrayVec<u8, N>,
    device: &DeviceProfile,
    place: ItemOrder,
    field: &Field<'_>,
)
    requires key { IsTrue (is_key field.now.key.now) }
    requires room { length out.old.items + said_room (value_parts field.now.value) ≤ N }
    ensures member { out.new.items ≡ out.old.items ++ members_text place (field_member (names_of device.now) (field_parts field.now) ∷ []) }
    ensures short { length out.new.items ≤ length out.old.items + said_room (value_parts field.now.value) }
{
    match field.value {
        Value::Word(word) => text_member(out, place, field.key, word.as_bytes()),
        Value::Number(number) => append_number(out, place, field.key, number),
        Value::Truth(holds) => bool_member(out, place, field.key, holds),
        Value::Words(names) => append_array(out, place, field.key, names),
        Value::Bits(register, mask) => {
            let names = bit_names(device, register, mask);
            append_array(out, place, field.key, names.as_slice());
        }
        Value::Code(code) => hex_member(out, place, field.key, &[code]),
        Value::Bytes(bytes) => hex_member(out, place, field.key, bytes),
    }
}

/// Appends a member whose value is a number.
fn append_number<const N: usize>(
    out: &mut ArrayVec<u8, N>,
    place: ItemOrder,
    key: &str,
    number: i32,
)
    requires key { IsTrue (is_key key.now) }
    requires room { length out.old.items + 31 ≤ N }
    ensures member { out.new.items ≡ out.old.items ++ members_text place (named key.now (number_value (signed_decimal number)) ∷ []) }
    ensures short { length out.new.items ≤ length out.old.items + 31 }
{
    number_text_member(out, place, key, Buffer::new().format(number).as_bytes());
}

/// Appends a member whose value is an array of texts.
fn append_array<const N: usize>(
    out: &mut ArrayVec<u8, N>,
    place: ItemOrder,
    key: &str,
    names: &[&str],
)
    requires key { IsTrue (is_key key.now) }
    requires room { length out.old.items + (24 + words_room (texts names.now)) ≤ N }
    ensures member { out.new.items ≡ out.old.items ++ members_text place (named key.now (array_of (map string (texts names.now))) ∷ []) }
    ensures short { length out.new.items ≤ length out.old.items + (24 + words_room (texts names.now)) }
{
    begin_array(out, place, key);
    append_items(out, names);
    end_array(out);
}

/// Appends texts to an array that was begun.
fn append_items<const N: usize>(out: &mut ArrayVec<u8, N>, names: &[&str])
    requires { length out.old.items + words_room (texts names.now) ≤ N }
    ensures items { out.new.items ≡ out.old.items ++ items_text First (map string (texts names.now)) }
    ensures short { length out.new.items ≤ length out.old.items + words_room (texts names.now) }
{
    let mut place = ItemOrder::First;
    for name in names {
        text_item(out, place, name.as_bytes());
        place = ItemOrder::Later;
    }
}
