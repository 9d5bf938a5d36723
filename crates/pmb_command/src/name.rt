//! The names of commands and devices, and the texts of units.
//!
//! Its rows: `tests/rows/profiles.txt`.

ghost use Rattle.std.specs.Prelude.{◌≡◌, ◌<◌, ℕ, IsTrue, slice_index};
ghost use Rattle.std.specs.List.{list_all};
ghost use Rattle.hex.specs.Hex.{lower_digits};
ghost use Rattle.pmb_command.specs.Names.{IsDeviceName, IsNameOf, IsUnit, code_name, is_device_name, is_name, is_name_byte, is_printable, is_unit};

use arrayvec::ArrayString;

/// The name of a command or a device.
pub type Name = ArrayString<32>;

/// Whether a byte is one of A to Z, 0 to 9 and `_`.
const fn is_name_byte(byte: u8) -> bool
    ensures { result ≡ is_name_byte byte }
{
    matches!(byte, b'A'..=b'Z' | b'0'..=b'9' | b'_')
}

/// Whether a text has bytes of a name alone.
fn has_name_bytes(text: &str) -> bool
    ensures { result ≡ list_all is_name_byte text.now }
{
    text.as_bytes().iter().all(|byte| is_name_byte(*byte))
}

/// Whether a text is 1 to 32 of A to Z, 0 to 9 and `_`.
pub fn is_name(text: &str) -> bool
    ensures value { result ≡ is_name text.now }
    ensures fits { IsTrue result → (code : ℕ) → IsNameOf code text.now }
{
    !text.is_empty() && text.len() <= 32 && has_name_bytes(text)
}

/// Whether a byte is a printable character of ASCII.
const fn is_printable(byte: u8) -> bool
    ensures { result ≡ is_printable byte }
{
    matches!(byte, b' '..=b'~')
}

/// Whether a text has printable characters alone.
fn has_printable_bytes(text: &str) -> bool
    ensures { result ≡ list_all is_printable text.now }
{
    text.as_bytes().iter().all(|byte| is_printable(*byte))
}

/// Whether a text may be the name of a device: 1 to 32 characters from 20h to 7eh.
#[tactic(auto, using(crate::proofs::NameLemmas::device_name))]
pub fn is_device_name(text: &str) -> bool
    ensures value { result ≡ is_device_name text.now }
    ensures fits { IsTrue result → IsDeviceName text.now }
{
    !text.is_empty() && text.len() <= 32 && has_printable_bytes(text)
}

/// Whether a text may be a unit: 1 to 16 characters from 20h to 7eh.
#[tactic(auto, using(crate::proofs::NameLemmas::unit_text))]
pub fn is_unit(text: &str) -> bool
    ensures value { result ≡ is_unit text.now }
    ensures fits { IsTrue result → IsUnit text.now }
{
    !text.is_empty() && text.len() <= 16 && has_printable_bytes(text)
}

/// A digit below 16, in lower case.
fn lower_digit(digit: u8) -> u8
    requires { digit < 16 }
    ensures value { result ≡ slice_index lower_digits digit }
    ensures is_ascii { result < 128 }
{
    b"0123456789abcdef"[usize::from(digit)]
}

/// The name of a command for which a profile gives only the code: `CMD_` and two lower-case digits.
pub fn name_of_code(code: u8) -> Name
    ensures value { result.bytes ≡ code_name code }
    ensures fits { IsNameOf code result.bytes }
{
    let mut name = Name::new();
    name.push_str("CMD_");
    name.push(char::from(lower_digit(code / 16)));
    name.push(char::from(lower_digit(code % 16)));
    name
}
