//! The names of the bits of status registers.
//!
//! Its rows: `tests_commands`, `src/command_data.rt`.

ghost use Rattle.std.specs.Prelude.{◌≡◌, ◌≤◌, IfSome, find, length, map, nat_eq, option_map};
ghost use Rattle.pmb_command.specs.Parts.{name_of_bit};
ghost use Rattle.pmb_command.specs.StatusBits.{bit_text};
ghost use Rattle.pmb_keys.specs.CommandView.{bit_parts};
ghost use Rattle.pmb_command_data.specs.Bits.{bit_text_in};

use pmb_command::bit_name as standard_bit_name;
use pmb_keys::NamedBit;

/// The first of some bits that is this one.
fn find_bit(bits: &[NamedBit], bit: u8) -> Option<&NamedBit>
    ensures { option_map (λ b. bit_parts b.now) result ≡ find (λ b. nat_eq b.bit bit) (map bit_parts bits.now) }
{
    for named in bits {
        if named.bit == bit {
            return Some(named);
        }
    }
    None
}

/// The name of a bit that the standard gives it.
fn standard_name(code: u8, bit: u8) -> Option<&'static str>
    ensures name { option_map (λ name. name.now) result ≡ bit_text code bit }
    ensures short { IfSome result (λ name. length name.now ≤ 17) }
{
    standard_bit_name(code, bit)
}

/// The name of a bit of the status register with a code, counted from 0 at the lowest: the one
/// among these names, which are the profile's, else the standard's. It has at most 32 bytes.
pub fn bit_name(bits: &[NamedBit], code: u8, bit: u8) -> Option<&str>
    ensures name { option_map (λ name. name.now) result ≡ bit_text_in (map bit_parts bits.now) code bit }
    ensures short { IfSome result (λ name. length name.now ≤ 32) }
{
    match find_bit(bits, bit) {
        Some(named) => Some(named.name.as_str()),
        None => standard_name(code, bit),
    }
}
