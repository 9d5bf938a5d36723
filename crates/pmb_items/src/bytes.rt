//! Bytes in rooms of fixed lengths, and numbers that may be missing.

ghost use Rattle.std.specs.Prelude.{◌≡◌, ◌≤◌, length, option_map};
ghost use Rattle.std.specs.Option.{ForSome};
ghost use Rattle.pmb_items.specs.Bytes.{flag, leg, or_none, padded, text};

use crate::item::{ItemLeg, ItemText, NONE};

/// A number, where there is one.
pub(crate) fn or_none(number: Option<u8>) -> u16
    ensures { result ≡ or_none number }
{
    match number {
        Some(number) => u16::from(number),
        None => NONE,
    }
}

/// 1 or 0.
pub(crate) fn flag(holds: bool) -> u8
    ensures { result ≡ flag holds }
{
    if holds { 1 } else { 0 }
}

/// Bytes, and 0 after them.
fn padded<const N: usize>(bytes: &[u8]) -> [u8; N]
    requires { length bytes.now ≤ N }
    ensures { result ≡ padded N bytes.now }
{
    let mut room = [0; N];
    room[..bytes.len()].copy_from_slice(bytes);
    room
}

/// A leg that may be missing.
pub(crate) fn leg(bytes: Option<&[u8]>) -> ItemLeg
    requires { ForSome bytes (λ b. length b.now ≤ 258) }
    ensures { result ≡ leg (option_map (λ b. b.now) bytes.entry) }
{
    match bytes {
        Some(bytes) => ItemLeg {
            length: bytes.len() as u16,
            bytes: padded(bytes),
        },
        None => ItemLeg {
            length: NONE,
            bytes: [0; 258],
        },
    }
}

/// A text that may be missing.
pub(crate) fn text(bytes: Option<&[u8]>) -> ItemText
    requires { ForSome bytes (λ b. length b.now ≤ 40) }
    ensures { result ≡ text (option_map (λ b. b.now) bytes.entry) }
{
    match bytes {
        Some(bytes) => ItemText {
            length: bytes.len() as u16,
            bytes: padded(bytes),
        },
        None => ItemText {
            length: NONE,
            bytes: [0; 40],
        },
    }
}
