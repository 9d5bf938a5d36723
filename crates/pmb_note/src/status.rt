//! The set bits of status registers.
//!
//! Its rows: `tests_lines`, `src/notes/registers.rt` and `long.rt`.

ghost use Rattle.std.specs.Prelude.{◌≡◌, ◌+◌, ◌*◌, ◌^◌, ◌<◌, ◌≤◌, ◌++◌, IfSome, codes, length, option_map};
ghost use Rattle.pmb_command.specs.StatusBits.{bit_text};
ghost use Rattle.pmb_note.specs.Note.{named_bit, register_text, set_bits_text, status_text};
ghost use Rattle.pmb_note.specs.machine.Written.{Appends};

use crate::text::append;
use arrayvec::ArrayVec;
use itoa::Buffer;
use pmb_command::bit_name;

/// Appends the set bits of a status register of one byte or two; nothing for another number of bytes.
pub(crate) fn append_status<const N: usize>(out: &mut ArrayVec<u8, N>, code: u8, bytes: &[u8])
    requires { length out.old.items + 288 ≤ N }
    ensures { Appends (status_text code bytes.now) 288 out.old.items out.new.items }
{
    if bytes.len() == 1 {
        append_register(out, code, 8, u16::from(bytes[0]));
    } else if bytes.len() == 2 {
        append_register(out, code, 16, u16::from_le_bytes([bytes[0], bytes[1]]));
    }
}

// Appends the set bits of a register of so many bits.
fn append_register<const N: usize>(out: &mut ArrayVec<u8, N>, code: u8, bits: u8, value: u16)
    requires few { bits ≤ 16 }
    requires within { value < 2 ^ bits }
    requires room { length out.old.items + 288 ≤ N }
    ensures { Appends (register_text code bits value) 288 out.old.items out.new.items }
{
    if value == 0 {
        append(out, " none");
    } else {
        append_set_bits(out, code, bits, value);
    }
}

// Appends the set bits of a value of so many bits, from the highest down, and goes to each at once.
fn append_set_bits<const N: usize>(out: &mut ArrayVec<u8, N>, code: u8, bits: u8, value: u16)
    requires few { bits ≤ 16 }
    requires within { value < 2 ^ bits }
    requires room { length out.old.items + 18 * bits ≤ N }
    ensures { Appends (set_bits_text code value bits) (18 * bits) out.old.items out.new.items }
{
    if value > 0 {
        let bit = highest_bit(value, bits);
        append_set_bit(out, code, bit);
        append_set_bits(out, code, bit, without(value, bit));
    }
}

// The highest bit that is set in a value of so many bits.
#[inline]
fn highest_bit(value: u16, bits: u8) -> u8
    requires some { 0 < value }
    requires few { bits ≤ 16 }
    requires within { value < 2 ^ bits }
    ensures within { result < bits }
    ensures set { 2 ^ result ≤ value }
    ensures highest { value < 2 * 2 ^ result }
{
    15 - value.leading_zeros() as u8
}

// A value without its highest bit.
#[inline]
fn without(value: u16, bit: u8) -> u16
    requires few { bit < 16 }
    requires set { 2 ^ bit ≤ value }
    requires highest { value < 2 * 2 ^ bit }
    ensures others { result + 2 ^ bit ≡ value }
    ensures within { result < 2 ^ bit }
{
    value - (1 << bit)
}

// Appends a bit that is set.
fn append_set_bit<const N: usize>(out: &mut ArrayVec<u8, N>, code: u8, bit: u8)
    requires few { bit < 16 }
    requires room { length out.old.items + 18 ≤ N }
    ensures { Appends (codes " " ++ named_bit (bit_text code bit) bit) 18 out.old.items out.new.items }
{
    append(out, " ");
    append_bit(out, code, bit);
}

// Appends the name of a bit, or its number where it has none.
fn append_bit<const N: usize>(out: &mut ArrayVec<u8, N>, code: u8, bit: u8)
    requires few { bit < 16 }
    requires room { length out.old.items + 17 ≤ N }
    ensures { Appends (named_bit (bit_text code bit) bit) 17 out.old.items out.new.items }
{
    match name_of_bit(code, bit) {
        Some(name) => append(out, name),
        None => {
            append(out, "bit");
            append(out, Buffer::new().format(bit));
        }
    }
}

// The name of a bit, which is short.
fn name_of_bit(code: u8, bit: u8) -> Option<&'static str>
    ensures name { option_map (λ name. name.now) result ≡ bit_text code bit }
    ensures short { IfSome result (λ name. length name.now ≤ 17) }
{
    bit_name(code, bit)
}
