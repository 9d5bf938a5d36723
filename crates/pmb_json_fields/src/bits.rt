//! The set bits of status registers.
//!
//! Its rows: `tests_json`, `src/fields/registers.rt` and `profiles.rt`.

ghost use Rattle.std.specs.Prelude.{◌≡◌, ◌+◌, ◌*◌, ◌<◌, ◌≤◌, ◌++◌, ◌∷◌, [], IsTrue, codes, decimal, length};
ghost use Rattle.pmb_command_data.specs.Bits.{bit_text_in};
ghost use Rattle.pmb_keys.specs.CommandView.{command_parts};
ghost use Rattle.pmb_note.specs.Note.{is_set, named_bit};
ghost use Rattle.pmb_json_text.specs.Member.{is_key};
ghost use Rattle.pmb_json_fields.specs.Value.{bits_key, bits_members, set_bit, set_bits, status_members};
ghost use Rattle.pmb_json_fields.specs.machine.Written.{Appends, AppendsTexts, place_behind};

use crate::access::Access;
use arrayvec::ArrayVec;
use itoa::Buffer;
use pmb_command_data::bit_name;
use pmb_json_text::{ItemOrder, begin_array, end_array, text_item};
use pmb_keys::Command;

/// Appends the set bits of a status register of one byte or two; nothing for another number of
/// bytes.
pub(crate) fn append_status<const N: usize>(
    out: &mut ArrayVec<u8, N>,
    access: Access,
    command: &Command,
    bytes: &[u8],
)
    requires { length out.old.items + 3142 ≤ N }
    ensures { Appends (status_members access (command_parts command.now) bytes.now) 3142 out.old.items out.new.items }
{
    match bytes {
        [byte] => append_register(out, access, command, 8, u16::from(*byte)),
        [low, high] => append_register(out, access, command, 16, u16::from_le_bytes([*low, *high])),
        _ => {}
    }
}

/// Appends the set bits of a register of that many bits.
fn append_register<const N: usize>(
    out: &mut ArrayVec<u8, N>,
    access: Access,
    command: &Command,
    bits: u8,
    value: u16,
)
    requires few { bits ≤ 16 }
    requires room { length out.old.items + 3142 ≤ N }
    ensures { Appends (bits_members access (set_bits (command_parts command.now) value bits)) 3142 out.old.items out.new.items }
{
    begin_array(out, ItemOrder::Later, bits_key(access));
    append_set_bits(out, ItemOrder::First, command, bits, value);
    end_array(out);
}

/// The key of an array of bits.
fn bits_key(access: Access) -> &'static str
    ensures key { result.now ≡ bits_key access }
    ensures plain { IsTrue (is_key result.now) }
{
    match access {
        Access::Read => "bits",
        Access::Write => "clears",
    }
}

/// Appends the set bits among the lowest, that many, from the highest down.
fn append_set_bits<const N: usize>(
    out: &mut ArrayVec<u8, N>,
    place: ItemOrder,
    command: &Command,
    bits: u8,
    value: u16,
)
    requires few { bits ≤ 16 }
    requires room { length out.old.items + 195 * bits ≤ N }
    ensures { AppendsTexts place (set_bits (command_parts command.now) value bits) (195 * bits) out.old.items out.new.items }
{
    if bits > 0 {
        let next = append_set_bit(out, place, command, bits - 1, value);
        append_set_bits(out, next, command, bits - 1, value);
    }
}

/// Appends a bit where it is set, and returns the place after it.
fn append_set_bit<const N: usize>(
    out: &mut ArrayVec<u8, N>,
    place: ItemOrder,
    command: &Command,
    bit: u8,
    value: u16,
) -> ItemOrder
    requires few { bit < 16 }
    requires room { length out.old.items + 195 ≤ N }
    ensures bit { AppendsTexts place (set_bit (command_parts command.now) value bit) 195 out.old.items out.new.items }
    ensures place { result ≡ place_behind place (set_bit (command_parts command.now) value bit) }
{
    if is_set(value, bit) {
        append_bit(out, place, command, bit);
        ItemOrder::Later
    } else {
        place
    }
}

#[inline]
fn is_set(value: u16, bit: u8) -> bool
    requires { bit < 16 }
    ensures { result ≡ is_set value bit }
{
    (value >> bit) % 2 == 1
}

/// Appends the name of a bit, or its number where it has none.
fn append_bit<const N: usize>(
    out: &mut ArrayVec<u8, N>,
    place: ItemOrder,
    command: &Command,
    bit: u8,
)
    requires few { bit < 16 }
    requires room { length out.old.items + 195 ≤ N }
    ensures { AppendsTexts place (named_bit (bit_text_in (command_parts command.now).bits (command_parts command.now).entry.code bit) bit ∷ []) 195 out.old.items out.new.items }
{
    match bit_name(command.bits(), command.entry.code, bit) {
        Some(name) => append_item(out, place, name.as_bytes()),
        None => append_item(out, place, number_of_bit(bit).as_slice()),
    }
}

/// Appends a short text to an array.
fn append_item<const N: usize>(out: &mut ArrayVec<u8, N>, place: ItemOrder, text: &[u8])
    requires short { length text.now ≤ 32 }
    requires room { length out.old.items + 195 ≤ N }
    ensures { AppendsTexts place (text.now ∷ []) 195 out.old.items out.new.items }
{
    text_item(out, place, text);
}

/// What stands for a bit that has no name.
fn number_of_bit(bit: u8) -> ArrayVec<u8, 17>
    requires few { bit < 16 }
    ensures { result.items ≡ codes "bit" ++ decimal bit }
{
    let mut text = ArrayVec::new();
    let _ = text.try_extend_from_slice(b"bit");
    let _ = text.try_extend_from_slice(Buffer::new().format(bit).as_bytes());
    text
}
