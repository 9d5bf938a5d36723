//! The words behind the head of a VCD.

ghost use Rattle.std.specs.Prelude.{◌≡◌};
ghost use Rattle.pmb_words.specs.Numbers.{fitting_of};
ghost use Rattle.pmb_vcd.specs.Tokens.{at_time, is_dump as names_dump, level_of, named, number_or_text as number_or_text_of, one_level as one_level_of, section as section_of, sets, token_of, vector as vector_of, word_of};

use pmb_wires::Level;
use pmb_words::fitting_decimal;

/// A section, which ends at `$end`.
#[derive(Clone, Copy, Debug, PartialEq, Eq)]
pub enum Section {
    /// Levels stand in it, also those that a wire has already.
    Dump,
    /// What stands in it says nothing.
    Other,
}

/// A value whose signal is the next word.
#[derive(Clone, Copy, Debug, PartialEq, Eq)]
pub enum Value {
    /// A vector of one level.
    Level(Level),
    /// A longer vector, or one with another byte.
    Vector,
    /// A real number or a text.
    Other,
}

/// What a word is.
#[derive(Clone, Copy, Debug, PartialEq, Eq)]
pub enum Token<'a> {
    /// A time, as a number of time units.
    Time(u64),
    /// A level, and the ID of its signal.
    Level(Level, &'a [u8]),
    /// A value.
    Value(Value),
    /// A section begins.
    Section(Section),
    /// A section ends.
    End,
    /// Nothing of these.
    NoSense,
}

/// What a word is.
pub fn read_token(word: &[u8]) -> Token<'_>
    ensures { word_of result ≡ token_of word.now }
{
    let [first, rest @ ..] = word else {
        return Token::NoSense;
    };
    match *first {
        b'#' => time_word(rest),
        b'$' => section_word(rest),
        b'b' | b'B' => vector_word(rest),
        b'r' | b'R' | b's' | b'S' => number_or_text(rest),
        first => level_and_id(level_said(first), rest),
    }
}

/// The level that a letter or a digit says.
pub fn level_said(byte: u8) -> Option<Level>
    ensures { result ≡ level_of byte }
{
    match byte {
        b'0' | b'l' | b'L' => Some(Level::Low),
        b'1' | b'h' | b'H' | b'z' | b'Z' => Some(Level::High),
        b'x' | b'X' | b'u' | b'U' | b'w' | b'W' | b'-' => Some(Level::Unknown),
        _ => None,
    }
}

fn time_word<'a>(digits: &[u8]) -> Token<'a>
    ensures { word_of result ≡ at_time (fitting_of digits.now) }
{
    match fitting_decimal(digits) {
        Some(time) => Token::Time(time),
        None => Token::NoSense,
    }
}

fn level_and_id(level: Option<Level>, id: &[u8]) -> Token<'_>
    ensures { word_of result ≡ sets level id.now }
{
    match level {
        Some(level) if !id.is_empty() => Token::Level(level, id),
        _ => Token::NoSense,
    }
}

fn vector_word<'a>(bytes: &[u8]) -> Token<'a>
    ensures { word_of result ≡ vector_of bytes.now }
{
    match bytes {
        [] => Token::NoSense,
        [byte] => Token::Value(one_level(*byte)),
        _ => Token::Value(Value::Vector),
    }
}

fn one_level(byte: u8) -> Value
    ensures { result ≡ one_level_of (level_of byte) }
{
    match level_said(byte) {
        Some(level) => Value::Level(level),
        None => Value::Vector,
    }
}

fn number_or_text<'a>(bytes: &[u8]) -> Token<'a>
    ensures { word_of result ≡ number_or_text_of bytes.now }
{
    if bytes.is_empty() {
        return Token::NoSense;
    }
    Token::Value(Value::Other)
}

fn section_word<'a>(name: &[u8]) -> Token<'a>
    ensures { word_of result ≡ section_of name.now }
{
    match name {
        [] => Token::NoSense,
        [_, ..] => named_section(name),
    }
}

fn named_section<'a>(name: &[u8]) -> Token<'a>
    ensures { word_of result ≡ named name.now }
{
    if name == b"end".as_slice() {
        return Token::End;
    }
    if is_dump(name) {
        return Token::Section(Section::Dump);
    }
    Token::Section(Section::Other)
}

/// Whether a section has this name in which levels stand.
fn is_dump(name: &[u8]) -> bool
    ensures { result ≡ names_dump name.now }
{
    name == b"dumpvars".as_slice()
        || name == b"dumpall".as_slice()
        || name == b"dumpon".as_slice()
        || name == b"dumpoff".as_slice()
}
