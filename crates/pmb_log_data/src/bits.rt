//! The set bits of status registers.
//!
//! Its rows: `tests/rows/log.txt`; `tests_json`, `src/log_lines/`.

ghost use Rattle.std.specs.Prelude.{◌≡◌, ◌+◌, ◌*◌, ◌<◌, ◌≤◌, ◌∷◌, [], codes, length};
ghost use Rattle.pmb_command_data.specs.Bits.{bit_text_in};
ghost use Rattle.pmb_json_fields.specs.Value.{set_bit, set_bits};
ghost use Rattle.pmb_json_text.specs.Member.{place_after};
ghost use Rattle.pmb_keys.specs.CommandView.{command_parts};
ghost use Rattle.pmb_note.specs.Note.{is_set, named_bit};
ghost use Rattle.pmb_log_data.specs.Data.{bits_says, status_says};
ghost use Rattle.pmb_log_data.specs.Text.{between, joined};
ghost use Rattle.pmb_log_data.specs.Appends.{Appends};

use crate::text::{append, append_bytes};
use arrayvec::ArrayVec;
use itoa::Buffer;
use pmb_command_data::bit_name;
use pmb_json_text::ItemOrder;
use pmb_keys::Command;

/// Appends the set bits of a status register of one byte or two; another number of bytes as they are.
pub(crate) fn append_status<const N: usize>(
    out: &mut ArrayVec<u8, N>,
    command: &Command,
    bytes: &[u8],
)
    requires short { length bytes.now ≤ 255 }
    requires room { length out.old.items + 773 ≤ N }
    ensures { Appends (status_says (command_parts command.now) bytes.now) 773 out.old.items out.new.items }
{
    match bytes {
        [byte] => append_register(out, command, 8, u16::from(*byte)),
        [low, high] => append_register(out, command, 16, u16::from_le_bytes([*low, *high])),
        _ => append_bytes(out, bytes),
    }
}

/// Appends the set bits of a register of that many bits, or that none is set.
fn append_register<const N: usize>(
    out: &mut ArrayVec<u8, N>,
    command: &Command,
    bits: u8,
    value: u16,
)
    requires few { bits ≤ 16 }
    requires room { length out.old.items + 535 ≤ N }
    ensures { Appends (bits_says (set_bits (command_parts command.now) value bits)) 535 out.old.items out.new.items }
{
    match append_set_bits(out, ItemOrder::First, command, bits, value) {
        ItemOrder::First => append(out, b"no bits"),
        ItemOrder::Later => {}
    }
}

/// Appends the set bits among the lowest, that many, from the highest down, with a blank between, and
/// returns the place of what follows them.
fn append_set_bits<const N: usize>(
    out: &mut ArrayVec<u8, N>,
    place: ItemOrder,
    command: &Command,
    bits: u8,
    value: u16,
) -> ItemOrder
    requires few { bits ≤ 16 }
    requires room { length out.old.items + 33 * bits ≤ N }
    ensures bits { Appends (joined (codes " ") place (set_bits (command_parts command.now) value bits)) (33 * bits) out.old.items out.new.items }
    ensures place { result ≡ place_after place (set_bits (command_parts command.now) value bits) }
{
    if bits > 0 {
        let next = append_set_bit(out, place, command, bits - 1, value);
        append_set_bits(out, next, command, bits - 1, value)
    } else {
        place
    }
}

/// Appends a bit where it is set, and returns the place after it.
fn append_set_bit<const N: usize>(
    out: &mut ArrayVec<u8, N>,
    place: ItemOrder,
    command: &Command,
    bit: u8,
    value: u16,
) -> ItemOrder
    requires few { bit < 16 }
    requires room { length out.old.items + 33 ≤ N }
    ensures bit { Appends (joined (codes " ") place (set_bit (command_parts command.now) value bit)) 33 out.old.items out.new.items }
    ensures place { result ≡ place_after place (set_bit (command_parts command.now) value bit) }
{
    if is_set(value, bit) {
        append_blank(out, place);
        append_bit(out, command, bit);
        ItemOrder::Later
    } else {
        place
    }
}

/// Appends a blank after another text.
fn append_blank<const N: usize>(out: &mut ArrayVec<u8, N>, place: ItemOrder)
    requires { length out.old.items + 1 ≤ N }
    ensures { Appends (between (codes " ") place) 1 out.old.items out.new.items }
{
    match place {
        ItemOrder::First => {}
        ItemOrder::Later => append(out, b" "),
    }
}

fn is_set(value: u16, bit: u8) -> bool
    requires { bit < 16 }
    ensures { result ≡ is_set value bit }
{
    (value >> bit) % 2 == 1
}

/// Appends the name of a bit, the profile's or else the standard's, or its number where it has none.
fn append_bit<const N: usize>(out: &mut ArrayVec<u8, N>, command: &Command, bit: u8)
    requires few { bit < 16 }
    requires room { length out.old.items + 32 ≤ N }
    ensures { Appends (named_bit (bit_text_in (command_parts command.now).bits (command_parts command.now).entry.code bit) bit) 32 out.old.items out.new.items }
{
    match bit_name(command.bits(), command.entry.code, bit) {
        Some(name) => append(out, name.as_bytes()),
        None => {
            append(out, b"bit");
            append(out, Buffer::new().format(bit).as_bytes());
        }
    }
}
