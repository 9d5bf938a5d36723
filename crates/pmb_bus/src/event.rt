//! An event of a capture, and its text.
//!
//! Its rows: `tests_bytes`, `src/bus/event_text.rt`, `src/bus/tokens.rt`.

ghost use Rattle.std.specs.Prelude.{◌≡◌, ◌≤◌, length};
ghost use Rattle.pmb_bus.specs.Event.{text_of};

use arrayvec::ArrayString;

/// What happens on a bus, in the order in which a capture shows it (SMBus 3.0 section 4).
///
/// The first byte after a START has the 7-bit address of a device in its bits 7:1 and the direction
/// in bit 0, where 0 is a write and 1 a read.
#[derive(Clone, Copy, Debug, PartialEq, Eq)]
pub enum Event {
    /// START, or a repeated START.
    Start,
    /// Eight bits of data or of an address.
    Byte(u8),
    /// The byte before was acknowledged.
    Ack,
    /// The byte before was not acknowledged.
    Nack,
    /// STOP.
    Stop,
}

/// The text of one event: at most two characters and what separates it from the next.
pub type Token = ArrayString<3>;

fn token(text: &str) -> Token
    requires { length text.now ≤ 3 }
    ensures { result.bytes ≡ text.now }
{
    let mut token = Token::new();
    token.push_str(text);
    token
}

/// The canonical text of an event: `S `, `P` and a LF, `A `, `N `, or a byte's two hexadecimal
/// digits in lower case and a space.
///
/// The texts of a capture's events, one after the other, are the capture's canonical text. A
/// [`Lexer`](crate::Lexer) reads those events from it.
pub fn event_text(event: Event) -> Token
    ensures { result.bytes ≡ text_of event }
{
    match event {
        Event::Start => token("S "),
        Event::Byte(byte) => byte_text(byte),
        Event::Ack => token("A "),
        Event::Nack => token("N "),
        Event::Stop => token("P\n"),
    }
}

fn byte_text(byte: u8) -> Token
    ensures { result.bytes ≡ text_of (Event.Byte byte) }
{
    let mut text = [b' '; 3];
    let digits = [byte];
    let _ = hex::encode_to_slice(digits, &mut text[..2]);
    Token::from_byte_string(&text).unwrap()
}
