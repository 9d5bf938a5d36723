//! Reading what a device refused.
//!
//! Its rows: `tests_lines`, `src/lines/rows.rt` and `long.rt`; `tests/rows/lines.txt`.

ghost use Rattle.std.specs.Prelude.{◌≡◌, ◌<◌, List, [], length, map, true, Ok};
ghost use Rattle.pmb_transaction.specs.Transaction.{Refused as says_refused, part_data};
ghost use Rattle.pmb_line.specs.declared.words.Located.{Located as Place};
ghost use Rattle.pmb_line.specs.machine.Reading.{LineStandsAt, refused_next, refused_sent};
ghost use Rattle.pmb_line.specs.machine.Left.{left, end};
ghost use Rattle.pmb_line.specs.machine.Pieces.{IsNoByteNext, PushesPart, ReadsLine, ReadsLeg};

use crate::pieces::{ByteWord, take_bytes, take_end, take_wanted_plus};
use crate::token::Token;
use crate::word_fault::WordFault;
use crate::words::Words;
use arrayvec::ArrayVec;
use pmb_transaction::Part;

/// Reads what stands after `refused`.
pub(crate) fn read_refused(
    words: &mut Words,
    parts: &mut ArrayVec<Part, 15>,
    addr: &mut u8,
    sent: &mut ArrayVec<u8, 258>,
    at_read: &mut bool,
) -> Result<(), WordFault>
    ensures { (all : List Place) → LineStandsAt all (refused_next []) (left words.old)
        → ReadsLine all (end words.old) (says_refused (record { parts = map part_data parts.new.items; addr = addr.new; sent = sent.new.items; at_read = at_read.new })) result }
{
    parts.clear();
    let mut goes_on = true;
    while goes_on {
        goes_on = read_leg(words, parts, addr, sent, at_read)?;
    }
    Ok(())
}

/// Reads an address and the bytes after it. Tells whether they are a part with a `+` after it;
/// else they are what was sent to the device that refused.
fn read_leg(
    words: &mut Words,
    parts: &mut ArrayVec<Part, 15>,
    addr: &mut u8,
    sent: &mut ArrayVec<u8, 258>,
    at_read: &mut bool,
) -> Result<bool, WordFault>
    ensures reads { (all : List Place) → LineStandsAt all (refused_next (map part_data parts.old.items)) (left words.old)
        → ReadsLeg all (end words.old) (map part_data parts.new.items) addr.new sent.new.items at_read.new result (left words.new) }
    ensures end { end words.new ≡ end words.old }
    ensures shrinks { result ≡ Ok true → length (left words.new) < length (left words.old) }
{
    *addr = ByteWord::take(words)?.byte;
    sent.clear();
    take_bytes(words, sent)?;
    end_leg(words, parts, *addr, sent.as_slice(), at_read)
}

/// Reads what stands after the bytes that were sent to an address: a `+` after a part, or the line's
/// end. Tells whether it was a `+`.
#[inline(always)]
fn end_leg(
    words: &mut Words,
    parts: &mut ArrayVec<Part, 15>,
    addr: u8,
    sent: &[u8],
    at_read: &mut bool,
) -> Result<bool, WordFault>
    ensures reads { (all : List Place) → LineStandsAt all (refused_sent (map part_data parts.old.items) addr sent.now) (left words.old)
        → IsNoByteNext (left words.old) → ReadsLeg all (end words.old) (map part_data parts.new.items) addr sent.now at_read.new result (left words.new) }
    ensures end { end words.new ≡ end words.old }
    ensures shrinks { result ≡ Ok true → length (left words.new) < length (left words.old) }
{
    let Some(word) = words.next() else {
        *at_read = false;
        return Ok(false);
    };
    let Some(token) = word.token else {
        return Err(WordFault::BadWord(word.at));
    };
    match token {
        Token::Read => {
            *at_read = true;
            take_end(words)?;
            Ok(false)
        }
        Token::Pec => {
            push_part(parts, addr, sent, true, word.at)?;
            take_wanted_plus(words)?;
            Ok(true)
        }
        Token::Plus => {
            push_part(parts, addr, sent, false, word.at)?;
            Ok(true)
        }
        _ => Err(WordFault::BadWord(word.at)),
    }
}

/// Appends the part of bytes that were sent, the first of which is its code. `at` is the place of
/// the word that makes them a part.
fn push_part(
    parts: &mut ArrayVec<Part, 15>,
    addr: u8,
    sent: &[u8],
    pec: bool,
    at: usize,
) -> Result<(), WordFault>
    ensures { PushesPart (map part_data parts.old.items) addr sent.now pec at result (map part_data parts.new.items) }
{
    let [code, data @ ..] = sent else {
        return Err(WordFault::BadWord(at));
    };
    if parts.is_full() {
        return Err(WordFault::TooLong(at));
    }
    let mut bytes = ArrayVec::new();
    if bytes.try_extend_from_slice(data).is_err() {
        return Err(WordFault::TooLong(at));
    }
    parts.push(Part {
        addr,
        code: *code,
        bytes,
        pec,
    });
    Ok(())
}
