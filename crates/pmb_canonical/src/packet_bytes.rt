//! The bytes of a packet.
//!
//! An `ArrayVec` clears each place that is no longer in use. Here they stay as they are: none is
//! read before a byte is put there, and a packet pays for none that it doesn't use.
//!
//! Its rows: `tests_reader`, `src/canonical/rows.rt` and `compared.rt`.

ghost use Rattle.std.specs.Prelude.{◌≡◌, ◌≤◌, ◌<◌, ◌+◌, ◌*◌, ◌++◌, ◌∷◌, [], false, length, nat_eq};
ghost use Rattle.pmb_canonical.specs.Front.{NoneAcked, TakenFront};

use crate::words::front_acked;
use std::marker::Model;

/// How many bytes a packet has at most: those of a block process call, with two address bytes, a
/// code, two blocks of a count and 255 bytes each, and a packet error code.
const PLACES: usize = 516;

/// The bytes of a packet, one after the other.
#[derive(Drop)]
pub(crate) struct PacketBytes {
    places: [u8; 516],
    len: usize,
}

impl Model for PacketBytes {
    ghost use Rattle.std.specs.Prelude.{◌≡◌, ◌≤◌, length, take};
    ghost use Rattle.pmb_canonical.specs.PacketBytes.{PacketBytesData};

    ghost Value = { PacketBytesData };

    ghost view = { λ bytes. record { items = take bytes.len bytes.places } };

    ghost invariant = { λ bytes. (bytes.len ≤ 516) × (length bytes.places ≡ 516) };
}

impl PacketBytes {
    /// None.
    pub(crate) fn new() -> PacketBytes
        ensures { result.items ≡ [] }
    {
        PacketBytes {
            places: [0; 516],
            len: 0,
        }
    }

    /// Forgets them.
    #[inline(always)]
    pub(crate) fn clear(&mut self)
        ensures { self.new.items ≡ [] }
    {
        self.len = 0;
    }

    /// How many there are.
    #[inline(always)]
    pub(crate) fn len(&self) -> usize
        ensures { result ≡ length self.now.items }
    {
        self.len
    }

    /// Whether there is no room for another one.
    #[inline(always)]
    pub(crate) fn is_full(&self) -> bool
        ensures value { result ≡ nat_eq (length self.now.items) 516 }
        ensures room { result ≡ false → length self.now.items < 516 }
    {
        self.len == PLACES
    }

    /// How many more find room.
    #[inline(always)]
    pub(crate) fn room(&self) -> usize
        ensures { length self.now.items + result ≡ 516 }
    {
        PLACES - self.len
    }

    /// Puts the acknowledged bytes at the front of a text after the others, and returns the text after
    /// them. All that the text may have find room. Their count is kept once, at the end.
    #[inline(always)]
    pub(crate) fn push_acked<'t>(&mut self, text: &'t [u8]) -> &'t [u8]
        requires { 5 * length self.old.items + length text.now ≤ 2580 }
        ensures taken { TakenFront text.now self.old.items self.new.items result.now }
        ensures all { NoneAcked result.now }
    {
        let mut len = self.len;
        let mut rest = text;
        while let Some(byte) = front_acked(rest) {
            self.places[len] = byte;
            len += 1;
            rest = &rest[5..];
        }
        self.len = len;
        rest
    }

    /// Puts one after the others.
    #[inline(always)]
    pub(crate) fn push(&mut self, byte: u8)
        requires { length self.old.items < 516 }
        ensures { self.new.items ≡ self.old.items ++ byte ∷ [] }
    {
        let len = self.len;
        self.places[len] = byte;
        self.len = len + 1;
    }

    /// All of them.
    #[inline(always)]
    pub(crate) fn as_slice(&self) -> &[u8]
        ensures value { result.now ≡ self.now.items }
        ensures fits { length result.now ≤ 516 }
    {
        &self.places[..self.len]
    }
}
