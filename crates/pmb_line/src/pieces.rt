//! Pieces of a line: a byte, bytes, a word that is wanted or may come, the end.
//!
//! Its rows: `tests_lines`, `src/lines/rows.rt` and `long.rt`; `tests/rows/lines.txt`.

ghost use Rattle.std.specs.Prelude.{◌≡◌, ◌<◌, ◌≤◌, length};
ghost use Rattle.pmb_line.specs.machine.Left.{left, end};
ghost use Rattle.pmb_line.specs.machine.Pieces.{TakesBytes, TakesEnd, TakesIf, TakesPlus, TakesToken};

use crate::token::Token;
use crate::word_fault::WordFault;
use crate::words::Words;
use arrayvec::ArrayVec;

/// A byte of a line and its place.
#[derive(Clone, Copy, Drop)]
pub(crate) struct ByteWord {
    pub(crate) at: usize,
    pub(crate) byte: u8,
}

impl ByteWord {
    ghost use Rattle.pmb_line.specs.machine.Pieces.{TakesByte};

    /// Takes a word that is a byte.
    #[inline(always)]
    pub(crate) fn take(words: &mut Words) -> Result<ByteWord, WordFault>
        ensures takes { TakesByte (left words.old) (end words.old) result (left words.new) }
        ensures end { end words.new ≡ end words.old }
    {
        match words.next_byte() {
            Some(word) => Ok(word),
            None => ByteWord::take_any(words),
        }
    }

    /// The same for a word that may stand otherwise than in most lines.
    #[inline(never)]
    fn take_any(words: &mut Words) -> Result<ByteWord, WordFault>
        ensures takes { TakesByte (left words.old) (end words.old) result (left words.new) }
        ensures end { end words.new ≡ end words.old }
    {
        let Some(word) = words.next() else {
            return Err(WordFault::BadWord(words.end()));
        };
        let Some(token) = word.token else {
            return Err(WordFault::BadWord(word.at));
        };
        match token {
            Token::Byte(byte) => Ok(ByteWord { at: word.at, byte }),
            _ => Err(WordFault::BadWord(word.at)),
        }
    }
}

/// Takes the `:`, which is wanted.
pub(crate) fn take_colon(words: &mut Words) -> Result<(), WordFault>
    ensures takes { TakesToken Token.Colon (left words.old) (end words.old) result (left words.new) }
    ensures end { end words.new ≡ end words.old }
{
    let Some(word) = words.next() else {
        return Err(WordFault::BadWord(words.end()));
    };
    let Some(token) = word.token else {
        return Err(WordFault::BadWord(word.at));
    };
    match token {
        Token::Colon => Ok(()),
        _ => Err(WordFault::BadWord(word.at)),
    }
}

/// Takes the `+` after the `pec` of a refused packet's part.
pub(crate) fn take_wanted_plus(words: &mut Words) -> Result<(), WordFault>
    ensures takes { TakesToken Token.Plus (left words.old) (end words.old) result (left words.new) }
    ensures end { end words.new ≡ end words.old }
{
    let Some(word) = words.next() else {
        return Err(WordFault::BadWord(words.end()));
    };
    let Some(token) = word.token else {
        return Err(WordFault::BadWord(word.at));
    };
    match token {
        Token::Plus => Ok(()),
        _ => Err(WordFault::BadWord(word.at)),
    }
}

/// Takes `pec` where it comes, and tells whether it did.
#[inline]
pub(crate) fn take_pec(words: &mut Words) -> bool
    ensures takes { TakesIf Token.Pec (left words.old) result (left words.new) }
    ensures end { end words.new ≡ end words.old }
{
    let mut ahead = *words;
    let Some(word) = ahead.next() else {
        return false;
    };
    let Some(token) = word.token else {
        return false;
    };
    match token {
        Token::Pec => {
            *words = ahead;
            true
        }
        _ => false,
    }
}

/// Takes bytes as long as they come, and adds them to a list.
#[inline]
pub(crate) fn take_bytes<const N: usize>(
    words: &mut Words,
    bytes: &mut ArrayVec<u8, N>,
) -> Result<(), WordFault>
    ensures takes { TakesBytes N (left words.old) bytes.old.items result bytes.new.items (left words.new) }
    ensures end { end words.new ≡ end words.old }
    ensures shrinks { length (left words.new) ≤ length (left words.old) }
    ensures fits { length bytes.new.items ≤ N }
{
    let mut ahead = *words;
    let mut is_full = bytes.is_full();
    while let Some(word) = ahead.next() {
        let Some(token) = word.token else {
            return Ok(());
        };
        let Token::Byte(byte) = token else {
            return Ok(());
        };
        if is_full {
            return Err(WordFault::TooLong(word.at));
        }
        bytes.push(byte);
        is_full = bytes.is_full();
        *words = ahead;
    }
    Ok(())
}

/// Takes a `+`, or wants no word more: tells whether it was a `+`.
pub(crate) fn take_plus(words: &mut Words) -> Result<bool, WordFault>
    ensures takes { TakesPlus (left words.old) result (left words.new) }
    ensures end { end words.new ≡ end words.old }
{
    let Some(word) = words.next() else {
        return Ok(false);
    };
    let Some(token) = word.token else {
        return Err(WordFault::BadWord(word.at));
    };
    match token {
        Token::Plus => Ok(true),
        _ => Err(WordFault::BadWord(word.at)),
    }
}

/// Wants no word more.
pub(crate) fn take_end(words: &mut Words) -> Result<(), WordFault>
    ensures takes { TakesEnd (left words.old) result }
    ensures end { end words.new ≡ end words.old }
{
    match words.next() {
        Some(word) => Err(WordFault::BadWord(word.at)),
        None => Ok(()),
    }
}
