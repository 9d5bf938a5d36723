//! What the bytes of capture text are to a word.
//!
//! A token is one of four letters, or two hexadecimal digits. `CLASSES` is drawn as the code charts
//! are, 16 bytes a row, so that it is checked by looking at it; the proofs of `digit` and
//! `is_separator` compute over the whole table that it is what the definitions say.
//!
//! Its rows: `tests_bytes`, `src/bus/tokens.rt`, `src/bus/steps.rt`.

ghost use Rattle.std.specs.Prelude.{◌≡◌, ◌↔◌, ℕ, ◌<◌, ◌≤◌, IsSome, IfSome, None, drop, length};
ghost use Rattle.pmb_bus.specs.declared.event.Event.{Event as BusEvent};
ghost use Rattle.hex.specs.Hex.{hex_digit_value};
ghost use Rattle.pmb_bus.specs.Event.{letter_event, byte_event};
ghost use Rattle.pmb_bus.specs.Text.{is_separator};
ghost use Rattle.pmb_bus.specs.Lexer.{BeginsAcked};
ghost use Rattle.pmb_bus.specs.machine.Bytes.{ends_word, starts_token, option_event, BeginsWithToken};

use crate::event::Event;

/// The class of a separator.
const SP: u8 = 0x10;

/// The class of a byte that is neither a digit nor a separator.
const XX: u8 = 0xff;

/// The class of each byte: the value of a hexadecimal digit of either case, `SP` or `XX`.
#[rattlefmt::skip]
const CLASSES: [u8; 256] = [
    XX, XX, XX, XX, XX, XX, XX, XX, XX, SP, SP, XX, XX, SP, XX, XX, // tab, LF, CR
    XX, XX, XX, XX, XX, XX, XX, XX, XX, XX, XX, XX, XX, XX, XX, XX,
    SP, XX, XX, XX, XX, XX, XX, XX, XX, XX, XX, XX, XX, XX, XX, XX, // space
     0,  1,  2,  3,  4,  5,  6,  7,  8,  9, XX, XX, XX, XX, XX, XX, // 0 to 9
    XX, 10, 11, 12, 13, 14, 15, XX, XX, XX, XX, XX, XX, XX, XX, XX, // A to F
    XX, XX, XX, XX, XX, XX, XX, XX, XX, XX, XX, XX, XX, XX, XX, XX,
    XX, 10, 11, 12, 13, 14, 15, XX, XX, XX, XX, XX, XX, XX, XX, XX, // a to f
    XX, XX, XX, XX, XX, XX, XX, XX, XX, XX, XX, XX, XX, XX, XX, XX,
    XX, XX, XX, XX, XX, XX, XX, XX, XX, XX, XX, XX, XX, XX, XX, XX,
    XX, XX, XX, XX, XX, XX, XX, XX, XX, XX, XX, XX, XX, XX, XX, XX,
    XX, XX, XX, XX, XX, XX, XX, XX, XX, XX, XX, XX, XX, XX, XX, XX,
    XX, XX, XX, XX, XX, XX, XX, XX, XX, XX, XX, XX, XX, XX, XX, XX,
    XX, XX, XX, XX, XX, XX, XX, XX, XX, XX, XX, XX, XX, XX, XX, XX,
    XX, XX, XX, XX, XX, XX, XX, XX, XX, XX, XX, XX, XX, XX, XX, XX,
    XX, XX, XX, XX, XX, XX, XX, XX, XX, XX, XX, XX, XX, XX, XX, XX,
    XX, XX, XX, XX, XX, XX, XX, XX, XX, XX, XX, XX, XX, XX, XX, XX,
];

#[inline]
fn is_separator(byte: u8) -> bool
    ensures { result ≡ is_separator byte }
{
    CLASSES[byte as usize] == SP
}

/// Whether a byte outside comments ends a word.
#[inline]
pub(crate) fn ends_word(byte: u8) -> bool
    ensures { result ≡ ends_word byte }
{
    is_separator(byte) || byte == b'#'
}

/// The event that one letter spells.
#[inline]
pub(crate) fn letter(byte: u8) -> Option<Event>
    ensures { result ≡ letter_event byte }
{
    match byte {
        b'S' => Some(Event::Start),
        b'P' => Some(Event::Stop),
        b'A' => Some(Event::Ack),
        b'N' => Some(Event::Nack),
        _ => None,
    }
}

#[inline]
fn digit(byte: u8) -> Option<u8>
    ensures value { result ≡ hex_digit_value byte }
    ensures small { IfSome result (λ value. value < 16) }
{
    let class = CLASSES[byte as usize];
    if class < 16 { Some(class) } else { None }
}

/// The byte that two digits spell.
#[inline]
pub(crate) fn digits(first: u8, second: u8) -> Option<u8>
    ensures { option_event result ≡ byte_event (hex_digit_value first) (hex_digit_value second) }
{
    let high = digit(first)?;
    let low = digit(second)?;
    Some(high * 16 + low)
}

/// Whether some token begins with a byte.
#[inline]
pub(crate) fn starts_token(byte: u8) -> bool
    ensures { result ≡ starts_token byte }
{
    letter(byte).is_some() || digit(byte).is_some()
}

/// A token at the front of a text, and how many bytes it has with the separator after it.
#[derive(Clone, Copy)]
pub(crate) struct FrontToken {
    pub(crate) event: Event,
    pub(crate) used: usize,
}

/// The token at the front of a text of three bytes or more, where it and a separator after it lie
/// in the first three.
#[inline(always)]
pub(crate) fn front_token(bytes: &[u8]) -> Option<FrontToken>
    ensures token { IfSome result (λ token. BeginsWithToken bytes.now token.event token.used) }
    ensures missed { result ≡ None → 3 ≤ length bytes.now → (event : BusEvent) → (used : ℕ) → used ≤ 3
        → BeginsWithToken bytes.now event used → ⊥ }
{
    let [first, second, third, ..] = bytes else {
        return None;
    };
    if is_separator(*second) {
        let event = letter(*first)?;
        return Some(FrontToken { event, used: 2 });
    }
    if is_separator(*third) {
        let byte = digits(*first, *second)?;
        return Some(FrontToken {
            event: Event::Byte(byte),
            used: 3,
        });
    }
    None
}

/// The byte that stands with ACK after it at the front of a text, where both and a space after each
/// are its first five bytes.
#[inline(always)]
pub(crate) fn front_acked(bytes: &[u8]) -> Option<u8>
    ensures tokens { IfSome result (λ byte. BeginsWithToken bytes.now (BusEvent.Byte byte) 3 × BeginsWithToken (drop 3 bytes.now) BusEvent.Ack 2) }
    ensures within { IfSome result (λ byte. 5 ≤ length bytes.now) }
    ensures exactly { IsSome result ↔ BeginsAcked bytes.now }
{
    let [first, second, behind, ack, last, ..] = bytes else {
        return None;
    };
    if *ack != b'A' {
        return None;
    }
    if *behind != b' ' {
        return None;
    }
    if *last != b' ' {
        return None;
    }
    digits(*first, *second)
}
