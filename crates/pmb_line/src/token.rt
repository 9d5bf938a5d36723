//! What a word says.
//!
//! `DIGITS` is drawn as the code charts are, 16 bytes a row, so that it is checked by looking at it;
//! the proof of `digit` computes over the whole table that it is what the definition says.
//!
//! Its rows: `tests_lines`, `src/lines/rows.rt`.

ghost use Rattle.std.specs.Prelude.{◌≡◌, ◌<◌, IfSome};
ghost use Rattle.hex.specs.Hex.{hex_digit_value};
ghost use Rattle.pmb_line.specs.Token.{keyword_of, token_of as token_of_word};
ghost use Rattle.pmb_line.specs.machine.Reading.{SpellsByte};

/// What a word of a transaction line says.
#[derive(Clone, Copy, Debug, PartialEq, Eq)]
pub enum Token {
    /// Two hexadecimal digits.
    Byte(u8),
    /// `write`
    Write,
    /// `read`
    Read,
    /// `call`
    Call,
    /// `refused`
    Refused,
    /// `alert`
    Alert,
    /// `none`
    Nobody,
    /// `pec`
    Pec,
    /// `+`
    Plus,
    /// `:`
    Colon,
}

/// The value of a byte that is no digit.
const XX: u8 = 0xff;

/// The value of each hexadecimal digit, of either case.
#[rattlefmt::skip]
const DIGITS: [u8; 256] = [
    XX, XX, XX, XX, XX, XX, XX, XX, XX, XX, XX, XX, XX, XX, XX, XX,
    XX, XX, XX, XX, XX, XX, XX, XX, XX, XX, XX, XX, XX, XX, XX, XX,
    XX, XX, XX, XX, XX, XX, XX, XX, XX, XX, XX, XX, XX, XX, XX, XX,
     0,  1,  2,  3,  4,  5,  6,  7,  8,  9, XX, XX, XX, XX, XX, XX, // 0 to 9
    XX, 10, 11, 12, 13, 14, 15, XX, XX, XX, XX, XX, XX, XX, XX, XX, // A to F
    XX, XX, XX, XX, XX, XX, XX, XX, XX, XX, XX, XX, XX, XX, XX, XX,
    XX, 10, 11, 12, 13, 14, 15, XX, XX, XX, XX, XX, XX, XX, XX, XX, // a to f
    XX, XX, XX, XX, XX, XX, XX, XX, XX, XX, XX, XX, XX, XX, XX, XX,
    XX, XX, XX, XX, XX, XX, XX, XX, XX, XX, XX, XX, XX, XX, XX, XX,
    XX, XX, XX, XX, XX, XX, XX, XX, XX, XX, XX, XX, XX, XX, XX, XX,
    XX, XX, XX, XX, XX, XX, XX, XX, XX, XX, XX, XX, XX, XX, XX, XX,
    XX, XX, XX, XX, XX, XX, XX, XX, XX, XX, XX, XX, XX, XX, XX, XX,
    XX, XX, XX, XX, XX, XX, XX, XX, XX, XX, XX, XX, XX, XX, XX, XX,
    XX, XX, XX, XX, XX, XX, XX, XX, XX, XX, XX, XX, XX, XX, XX, XX,
    XX, XX, XX, XX, XX, XX, XX, XX, XX, XX, XX, XX, XX, XX, XX, XX,
    XX, XX, XX, XX, XX, XX, XX, XX, XX, XX, XX, XX, XX, XX, XX, XX,
];

#[inline]
fn digit(byte: u8) -> Option<u8>
    ensures value { result ≡ hex_digit_value byte }
    ensures small { IfSome result (λ value. value < 16) }
{
    let value = DIGITS[byte as usize];
    if value < 16 { Some(value) } else { None }
}

/// The byte that two digits spell.
#[inline]
pub(crate) fn byte(word: &[u8]) -> Option<u8>
    ensures { SpellsByte word.now result }
{
    let [high, low] = word else {
        return None;
    };
    let high = digit(*high)?;
    let low = digit(*low)?;
    Some(high * 16 + low)
}

/// The keyword that a word is.
fn keyword(word: &[u8]) -> Option<Token>
    ensures { result ≡ keyword_of word.now }
{
    if word == b"refused".as_slice() {
        return Some(Token::Refused);
    }
    match word {
        b"write" => Some(Token::Write),
        b"read" => Some(Token::Read),
        b"call" => Some(Token::Call),
        b"alert" => Some(Token::Alert),
        b"none" => Some(Token::Nobody),
        b"pec" => Some(Token::Pec),
        b"+" => Some(Token::Plus),
        b":" => Some(Token::Colon),
        _ => None,
    }
}

/// What a word says, if anything.
#[inline]
pub fn token_of(word: &[u8]) -> Option<Token>
    ensures { result ≡ token_of_word word.now }
{
    match byte(word) {
        Some(byte) => Some(Token::Byte(byte)),
        None => keyword(word),
    }
}
