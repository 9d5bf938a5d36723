//! The colours of the names of status bits.

ghost use Rattle.std.specs.Prelude.{◌≡◌};
ghost use Rattle.std.specs.List.{list_all, list_any};
ghost use Rattle.pmb_colour.specs.Bits.{bit_colour, has_part, is_bit, is_capital, is_digit, is_harmless, is_name, is_name_byte, is_number_of_bit, is_warning};

use crate::colour::Colour;

fn is_capital(byte: u8) -> bool
    ensures { result ≡ is_capital byte }
{
    b'A' <= byte && byte <= b'Z'
}

pub(crate) fn is_digit(byte: u8) -> bool
    ensures { result ≡ is_digit byte }
{
    b'0' <= byte && byte <= b'9'
}

pub(crate) fn is_name_byte(byte: u8) -> bool
    ensures { result ≡ is_name_byte byte }
{
    is_capital(byte) || is_digit(byte) || byte == b'_'
}

fn has_name_bytes(word: &[u8]) -> bool
    ensures { result ≡ list_all is_name_byte word.now }
{
    word.iter().all(|byte| is_name_byte(*byte))
}

pub(crate) fn has_capital(word: &[u8]) -> bool
    ensures { result ≡ list_any is_capital word.now }
{
    word.iter().any(|byte| is_capital(*byte))
}

fn has_digits(word: &[u8]) -> bool
    ensures { result ≡ list_all is_digit word.now }
{
    word.iter().all(|byte| is_digit(*byte))
}

#[tactic(auto, unfolding(crate::specs::Bits::is_name))]
fn is_name(word: &[u8]) -> bool
    ensures { result ≡ is_name word.now }
{
    has_name_bytes(word) && has_capital(word)
}

/// Whether a word stands for a bit without a name.
#[tactic(auto, unfolding(crate::specs::Bits::is_number_of_bit))]
fn is_number_of_bit(word: &[u8]) -> bool
    ensures { result ≡ is_number_of_bit word.now }
{
    word.starts_with(b"bit") && word.len() >= 4 && has_digits(&word[3..])
}

#[tactic(auto, unfolding(crate::specs::Bits::is_bit))]
pub(crate) fn is_bit(word: &[u8]) -> bool
    ensures { result ≡ is_bit word.now }
{
    is_name(word) || is_number_of_bit(word)
}

fn has_part(part: &[u8], text: &[u8]) -> bool
    ensures { result ≡ has_part part.now text.now }
{
    for index in 0..text.len() {
        if text[index..].starts_with(part) {
            return true;
        }
    }
    false
}

/// Whether a name is that of a warning.
fn is_warning(word: &[u8]) -> bool
    ensures { result ≡ is_warning word.now }
{
    has_part(b"WARN", word)
}

/// Whether a name is that of a bit which tells of no fault.
#[tactic(auto, unfolding(crate::specs::Bits::is_harmless))]
fn is_harmless(word: &[u8]) -> bool
    ensures { result ≡ is_harmless word.now }
{
    word == b"BUSY".as_slice()
        || word == b"OFF".as_slice()
        || word == b"POWER_GOOD_N".as_slice()
        || word.ends_with(b"_OVERRIDE")
}

/// The colour of a bit by its name: none of what is no bit's.
pub(crate) fn bit_colour(word: &[u8]) -> Option<Colour>
    ensures { result ≡ bit_colour word.now }
{
    if !is_bit(word) {
        None
    } else if is_warning(word) {
        Some(Colour::Yellow)
    } else if is_harmless(word) {
        None
    } else {
        Some(Colour::Red)
    }
}
