//! Pieces of a request line: an address and a code, the bytes of a call, a quantity's text, the end.
//!
//! A contract says what is answered where all words of a line are given, and those so far stand where
//! the piece begins: `Partial` of `specs/machine/Reading` lists the places.
//!
//! Its rows: `tests_lines`, `src/requests/rows.rt`, `src/requests/long.rt`.

ghost use Rattle.std.specs.Prelude.{◌≡◌, ◌↔◌, ℕ, true, Some, List, Ok, Err};
ghost use Rattle.pmb_line.specs.Left.{end, words_left};
ghost use Rattle.pmb_line.specs.Token.{token_of as token_of_word};
ghost use Rattle.pmb_line.specs.Words.{Word};
ghost use Rattle.pmb_request.specs.Spelling.{Task, to_call, to_set};
ghost use Rattle.pmb_request.specs.machine.Reading.{Partial, at_address, at_quantity, behind, StandsAt};
ghost use Rattle.pmb_request.specs.machine.Pieces.{NoMoreBytes, TakesByte, TakesBytes, TakesEnd, TakesQuantity, WantsByte, said_byte};

use crate::verb::Verb;
use arrayvec::ArrayVec;
use pmb_line::{Token, WordFault, Words, token_of};

/// A device's address and a command code.
#[derive(Clone, Copy, Drop)]
pub(crate) struct Target {
    pub(crate) addr: u8,
    pub(crate) code: u8,
}

impl Target {
    ghost use Rattle.pmb_request.specs.machine.Pieces.{TakesTarget};

    /// Takes an address and a code.
    pub(crate) fn take(words: &mut Words) -> Result<Target, WordFault>
        ensures takes { (all : List Word) (verb : Verb) → StandsAt all (at_address verb) (words_left words.old)
            → TakesTarget all (end words.old) verb result (words_left words.new) }
        ensures end { end words.new ≡ end words.old }
    {
        let addr = take_byte(words)?;
        let code = take_byte(words)?;
        Ok(Target { addr, code })
    }
}

/// Takes a word that is a byte.
fn take_byte(words: &mut Words) -> Result<u8, WordFault>
    ensures takes { (all : List Word) (s : Partial) (next : ℕ → Partial) → WantsByte s next → StandsAt all s (words_left words.old)
        → TakesByte all (end words.old) next result (words_left words.new) }
    ensures end { end words.new ≡ end words.old }
{
    let Some(word) = words.next_word() else {
        return Err(WordFault::BadWord(words.end()));
    };
    match byte_of(word.text) {
        Some(byte) => Ok(byte),
        None => Err(WordFault::BadWord(word.at)),
    }
}

/// Takes the bytes of a call as long as they come, and adds them to a list.
pub(crate) fn take_bytes(words: &mut Words, bytes: &mut ArrayVec<u8, 255>) -> Result<(), WordFault>
    ensures takes { (all : List Word) (a c : ℕ) → StandsAt all (behind a c (to_call bytes.old.items)) (words_left words.old)
        → TakesBytes all (end words.old) a c result bytes.new.items (words_left words.new) }
    ensures end { end words.new ≡ end words.old }
{
    let mut ahead = *words;
    while let Some(word) = ahead.next_word() {
        let Some(byte) = byte_of(word.text) else {
            return Ok(());
        };
        if bytes.is_full() {
            return Err(WordFault::TooLong(word.at));
        }
        bytes.push(byte);
        *words = ahead;
    }
    Ok(())
}

/// Takes the text of a quantity, whatever it spells.
pub(crate) fn take_quantity<'a>(words: &mut Words<'a>) -> Result<&'a [u8], WordFault>
    ensures takes { (all : List Word) (a c : ℕ) → StandsAt all (at_quantity a c) (words_left words.old)
        → TakesQuantity all (end words.old) a c result (words_left words.new) }
    ensures end { end words.new ≡ end words.old }
{
    match words.next_word() {
        Some(word) => Ok(word.text),
        None => Err(WordFault::BadWord(words.end())),
    }
}

/// Takes `pec`, where it comes, and wants no word more. Returns whether it came.
pub(crate) fn take_end(words: &mut Words) -> Result<bool, WordFault>
    ensures { (all : List Word) (a c : ℕ) (task : Task) → StandsAt all (behind a c task) (words_left words.old) → NoMoreBytes task (words_left words.old)
        → TakesEnd all (end words.old) a c task result }
{
    let Some(word) = words.next_word() else {
        return Ok(false);
    };
    if !is_pec(word.text) {
        return Err(WordFault::BadWord(word.at));
    }
    match words.next_word() {
        Some(extra) => Err(WordFault::BadWord(extra.at)),
        None => Ok(true),
    }
}

/// The byte that a word spells.
fn byte_of(word: &[u8]) -> Option<u8>
    ensures { result ≡ said_byte (token_of_word word.now) }
{
    match token_of(word) {
        Some(Token::Byte(byte)) => Some(byte),
        _ => None,
    }
}

fn is_pec(word: &[u8]) -> bool
    ensures { result ≡ true ↔ token_of_word word.now ≡ Some Token.Pec }
{
    matches!(token_of(word), Some(Token::Pec))
}
