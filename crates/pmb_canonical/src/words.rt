//! Words at the front of a text.
//!
//! Each word is taken with the one space that follows it. `DIGITS` is laid out 16 bytes a row, the
//! high digit of the byte down and the low digit across; the proof of `digit_value` computes over
//! the whole table that each entry is the value of its digit.
//!
//! Its rows: `tests_reader`, `src/canonical/rows.rt` and `compared.rt`.

ghost use Rattle.std.specs.Prelude.{◌≡◌, ◌↔◌, ◌⊎◌, ◌≤◌, ◌<◌, List, [], ◌∷◌, ◌++◌, ◌%◌, ℕ, IfSome, IsSome, Some, drop, length, nat_eq, true};
ghost use Rattle.pmb_bus.specs.declared.event.Event.{Event as BusEvent};
ghost use Rattle.pmb_bus.specs.Event.{canonical_text};
ghost use Rattle.pmb_command.specs.Wire.{AreByteValues};
ghost use Rattle.pmb_canonical.specs.Front.{NoneAcked, TakenFront, acked_text, end_text, lower_digit};

use crate::packet_bytes::PacketBytes;

/// What is no digit: no sum with it is a byte.
const NONE: u32 = 0x100;

/// The value of each hexadecimal digit in lower case.
#[rattlefmt::skip]
const DIGITS: [u32; 256] = [
    NONE, NONE, NONE, NONE, NONE, NONE, NONE, NONE, NONE, NONE, NONE, NONE, NONE, NONE, NONE, NONE,
    NONE, NONE, NONE, NONE, NONE, NONE, NONE, NONE, NONE, NONE, NONE, NONE, NONE, NONE, NONE, NONE,
    NONE, NONE, NONE, NONE, NONE, NONE, NONE, NONE, NONE, NONE, NONE, NONE, NONE, NONE, NONE, NONE,
    0x00, 0x01, 0x02, 0x03, 0x04, 0x05, 0x06, 0x07, 0x08, 0x09, NONE, NONE, NONE, NONE, NONE, NONE,
    NONE, NONE, NONE, NONE, NONE, NONE, NONE, NONE, NONE, NONE, NONE, NONE, NONE, NONE, NONE, NONE,
    NONE, NONE, NONE, NONE, NONE, NONE, NONE, NONE, NONE, NONE, NONE, NONE, NONE, NONE, NONE, NONE,
    NONE, 0x0a, 0x0b, 0x0c, 0x0d, 0x0e, 0x0f, NONE, NONE, NONE, NONE, NONE, NONE, NONE, NONE, NONE,
    NONE, NONE, NONE, NONE, NONE, NONE, NONE, NONE, NONE, NONE, NONE, NONE, NONE, NONE, NONE, NONE,
    NONE, NONE, NONE, NONE, NONE, NONE, NONE, NONE, NONE, NONE, NONE, NONE, NONE, NONE, NONE, NONE,
    NONE, NONE, NONE, NONE, NONE, NONE, NONE, NONE, NONE, NONE, NONE, NONE, NONE, NONE, NONE, NONE,
    NONE, NONE, NONE, NONE, NONE, NONE, NONE, NONE, NONE, NONE, NONE, NONE, NONE, NONE, NONE, NONE,
    NONE, NONE, NONE, NONE, NONE, NONE, NONE, NONE, NONE, NONE, NONE, NONE, NONE, NONE, NONE, NONE,
    NONE, NONE, NONE, NONE, NONE, NONE, NONE, NONE, NONE, NONE, NONE, NONE, NONE, NONE, NONE, NONE,
    NONE, NONE, NONE, NONE, NONE, NONE, NONE, NONE, NONE, NONE, NONE, NONE, NONE, NONE, NONE, NONE,
    NONE, NONE, NONE, NONE, NONE, NONE, NONE, NONE, NONE, NONE, NONE, NONE, NONE, NONE, NONE, NONE,
    NONE, NONE, NONE, NONE, NONE, NONE, NONE, NONE, NONE, NONE, NONE, NONE, NONE, NONE, NONE, NONE,
];

/// The value of a digit, and `NONE` of what is none.
#[inline(always)]
fn digit_value(digit: u8) -> u32
    ensures spelled { result < 16 → lower_digit result ≡ digit }
    ensures only { (value : ℕ) → value < 16 → lower_digit value ≡ digit → result ≡ value }
    ensures known { (result < 16) ⊎ (result ≡ 256) }
{
    DIGITS[digit as usize]
}

/// The byte that two digits in lower case and a space spell. What both digits are is looked up before
/// it is asked whether they are digits, so that one test is enough.
#[inline(always)]
pub(crate) fn spelled_byte(first: u8, second: u8, space: u8) -> Option<u8>
    ensures spelled { IfSome result (λ byte. canonical_text (BusEvent.Byte byte ∷ []) ≡ first ∷ second ∷ space ∷ []) }
    ensures small { IfSome result (λ byte. byte < 256) }
    ensures only { (byte : ℕ) → byte < 256 → canonical_text (BusEvent.Byte byte ∷ []) ≡ first ∷ second ∷ space ∷ [] → result ≡ Some byte }
{
    if space != b' ' {
        return None;
    }
    let high = digit_value(first);
    let low = digit_value(second);
    let byte = high * 16 + low;
    if byte < 256 { Some(byte as u8) } else { None }
}

/// Whether two bytes are a letter and what separates it from the next word: both in one comparison.
#[inline(always)]
fn are_word(first: u8, second: u8, letter: u8, separator: u8) -> bool
    ensures { (result ≡ true) ↔ ((first ≡ letter) × (second ≡ separator)) }
{
    u16::from_le_bytes([first, second]) == u16::from_le_bytes([letter, separator])
}

/// The byte at the front of a text, with ACK after it: five bytes of the text.
#[inline(always)]
pub(crate) fn front_acked(text: &[u8]) -> Option<u8>
    ensures spelled { IfSome result (λ byte. text.now ≡ acked_text (byte ∷ []) ++ drop 5 text.now) }
    ensures small { IfSome result (λ byte. byte < 256) }
    ensures within { IfSome result (λ byte. 5 ≤ length text.now) }
    ensures only { (byte : ℕ) (rest : List ℕ) → byte < 256 → text.now ≡ acked_text (byte ∷ []) ++ rest → result ≡ Some byte }
{
    let [first, second, space, ack, last, ..] = text else {
        return None;
    };
    if !are_word(*ack, *last, b'A', b' ') {
        return None;
    }
    spelled_byte(*first, *second, *space)
}

/// The byte at the front of a text, with NACK and STOP after it: seven bytes of the text.
#[inline(always)]
pub(crate) fn front_last(text: &[u8]) -> Option<u8>
    ensures spelled { IfSome result (λ byte. text.now ≡ end_text byte ++ drop 7 text.now) }
    ensures small { IfSome result (λ byte. byte < 256) }
    ensures only { (byte : ℕ) (rest : List ℕ) → byte < 256 → text.now ≡ end_text byte ++ rest → result ≡ Some byte }
{
    let [first, second, space, nack, behind, stop, last, ..] = text else {
        return None;
    };
    if !are_word(*nack, *behind, b'N', b' ') {
        return None;
    }
    if !are_word(*stop, *last, b'P', b'\n') {
        return None;
    }
    spelled_byte(*first, *second, *space)
}

/// The text after START, where that stands in front.
#[inline(always)]
pub(crate) fn behind_start(text: &[u8]) -> Option<&[u8]>
    ensures spelled { IfSome result (λ behind. text.now ≡ canonical_text (BusEvent.Start ∷ []) ++ behind.now) }
    ensures found { (rest : List ℕ) → text.now ≡ canonical_text (BusEvent.Start ∷ []) ++ rest → IsSome result }
{
    let [first, second, behind @ ..] = text else {
        return None;
    };
    if are_word(*first, *second, b'S', b' ') {
        Some(behind)
    } else {
        None
    }
}

/// The text after STOP, where that stands in front.
#[inline(always)]
pub(crate) fn behind_stop(text: &[u8]) -> Option<&[u8]>
    ensures spelled { IfSome result (λ behind. text.now ≡ canonical_text (BusEvent.Stop ∷ []) ++ behind.now) }
    ensures found { (rest : List ℕ) → text.now ≡ canonical_text (BusEvent.Stop ∷ []) ++ rest → IsSome result }
{
    let [first, second, behind @ ..] = text else {
        return None;
    };
    if are_word(*first, *second, b'P', b'\n') {
        Some(behind)
    } else {
        None
    }
}

/// Whether the byte at the front of a text, where one stands there, is even, as the address byte of a
/// leg that is written is.
#[inline(always)]
pub(crate) fn is_even(text: &[u8]) -> bool
    ensures { (byte : ℕ) (rest : List ℕ) → byte < 256 → text.now ≡ canonical_text (BusEvent.Byte byte ∷ []) ++ rest → result ≡ nat_eq (byte % 2) 0 }
{
    let [_, digit, ..] = text else {
        return false;
    };
    digit_value(*digit) % 2 == 0
}

/// Puts the acknowledged bytes at the front of a text after others, as many as there are and find
/// room, and returns the text after them.
#[inline(always)]
pub(crate) fn take_acked<'t>(text: &'t [u8], bytes: &mut PacketBytes) -> &'t [u8]
    ensures taken { TakenFront text.now bytes.old.items bytes.new.items result.now }
    // Where all find room, none is left.
    ensures all { (front rest : List ℕ) → AreByteValues front → NoneAcked rest → length (bytes.old.items ++ front) ≤ 516
        → text.now ≡ acked_text front ++ rest → (bytes.new.items ≡ bytes.old.items ++ front) × (result.now ≡ rest) }
{
    // No more of the text than finds room, so that no byte has to be asked whether it does.
    let front = &text[..text.len().min(5 * bytes.room())];
    let rest = bytes.push_acked(front);
    &text[front.len() - rest.len()..]
}
