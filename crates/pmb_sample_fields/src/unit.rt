//! The unit of time that the name of a column says.

ghost use Rattle.std.specs.Prelude.{◌≡◌};
ghost use Rattle.std.specs.Str.{bytes_eq};
ghost use Rattle.pmb_sample_fields.specs.Units.{begins_letter, is_capital, is_letter, letters_at, small as small_letter, unit_named, unit_said as unit_of, word_begins};

use crate::time::Unit;

/// The unit that the first word of a name says which is a unit's: `ms`, `us`, `ns`, `seconds`,
/// `milliseconds`, `microseconds` or `nanoseconds`, in any case of letters.
pub fn unit_said(name: &[u8]) -> Option<Unit>
    ensures { result ≡ unit_of name.now }
{
    let mut is_inside = false;
    let mut left = name;
    while let [byte, rest @ ..] = left {
        if let Some(unit) = word_unit(is_inside, left) {
            return Some(unit);
        }
        is_inside = letter(*byte);
        left = rest;
    }
    None
}

/// The unit of the word that begins a text, unless the text begins inside a word.
fn word_unit(is_inside: bool, text: &[u8]) -> Option<Unit>
    ensures { result ≡ word_begins is_inside text.now }
{
    if is_inside {
        return None;
    }
    first_unit(text)
}

fn first_unit(text: &[u8]) -> Option<Unit>
    ensures { result ≡ unit_named (letters_at text.now) }
{
    if is_first(b"seconds", text) {
        Some(Unit::Seconds)
    } else if is_first(b"ms", text) || is_first(b"milliseconds", text) {
        Some(Unit::Milliseconds)
    } else if is_first(b"us", text) || is_first(b"microseconds", text) {
        Some(Unit::Microseconds)
    } else if is_first(b"ns", text) || is_first(b"nanoseconds", text) {
        Some(Unit::Nanoseconds)
    } else {
        None
    }
}

/// Whether the letters with which a text begins are a word of small letters, in any case.
fn is_first(word: &[u8], text: &[u8]) -> bool
    ensures { result ≡ bytes_eq (letters_at text.now) word.now }
{
    let mut word_left = word;
    let mut left = text;
    while let [wanted, others @ ..] = word_left {
        let [byte, rest @ ..] = left else {
            return false;
        };
        if !letter(*byte) || small(*byte) != *wanted {
            return false;
        }
        word_left = others;
        left = rest;
    }
    !begins_with_letter(left)
}

fn begins_with_letter(text: &[u8]) -> bool
    ensures { result ≡ begins_letter text.now }
{
    match text {
        [byte, ..] => letter(*byte),
        [] => false,
    }
}

fn letter(byte: u8) -> bool
    ensures { result ≡ is_letter byte }
{
    capital(byte) || (byte >= b'a' && byte <= b'z')
}

fn capital(byte: u8) -> bool
    ensures { result ≡ is_capital byte }
{
    byte >= b'A' && byte <= b'Z'
}

fn small(byte: u8) -> u8
    ensures { result ≡ small_letter byte }
{
    if capital(byte) { byte + 32 } else { byte }
}
