//! Reading the parts of a write.
//!
//! A contract says what is answered where all words of a line are given, and those so far stand
//! where this kind begins: `LineStandsAt` of `specs/machine/Reading` lists the places.
//!
//! Its rows: `tests_lines`, `src/lines/rows.rt` and `long.rt`; `tests/rows/lines.txt`.

ghost use Rattle.std.specs.Prelude.{◌≡◌, ◌+◌, ◌<◌, ◌≤◌, ◌++◌, ◌∷◌, List, [], length, map, take, true, IfOk, Ok};
ghost use Rattle.pmb_transaction.specs.Transaction.{Write as says_write, PartData, part_data};
ghost use Rattle.pmb_line.specs.declared.words.Located.{Located as Place};
ghost use Rattle.pmb_line.specs.machine.Reading.{LineStandsAt, write_code, write_next};
ghost use Rattle.pmb_line.specs.machine.Left.{left, end};
ghost use Rattle.pmb_line.specs.machine.Pieces.{ReadsLine, ReadsPart};

use crate::pieces::{ByteWord, take_bytes, take_pec, take_plus};
use crate::word_fault::WordFault;
use crate::words::Words;
use arrayvec::ArrayVec;
use pmb_transaction::Part;

/// Reads what stands after `write`, over the parts that are there: those are large to write anew.
pub(crate) fn read_write(words: &mut Words, parts: &mut ArrayVec<Part, 16>) -> Result<(), WordFault>
    ensures { (all : List Place) → LineStandsAt all (write_next []) (left words.old)
        → ReadsLine all (end words.old) (says_write (map part_data parts.new.items)) result }
{
    let mut count = 0;
    let mut goes_on = true;
    while goes_on {
        goes_on = read_part(words, parts, count)?;
        count += 1;
    }
    parts.truncate(count);
    Ok(())
}

/// Reads the part of a write with this number, and tells whether a `+` follows.
fn read_part(
    words: &mut Words,
    parts: &mut ArrayVec<Part, 16>,
    number: usize,
) -> Result<bool, WordFault>
    requires { number ≤ length parts.old.items }
    ensures reads { (all : List Place) → LineStandsAt all (write_next (map part_data (take number parts.old.items))) (left words.old)
        → ReadsPart all (end words.old) (map part_data (take (number + 1) parts.new.items)) result (left words.new) }
    ensures there { IfOk result (λ goes_on. number < length parts.new.items) }
    ensures few { IfOk result (λ goes_on. number < 16) }
    ensures end { end words.new ≡ end words.old }
    ensures shrinks { result ≡ Ok true → length (left words.new) < length (left words.old) }
{
    let addr = ByteWord::take(words)?;
    if number >= 16 {
        return Err(WordFault::TooLong(addr.at));
    }
    have_part(parts, number);
    let part = &mut parts.as_mut_slice()[number];
    part.addr = addr.byte;
    read_data(words, part)
}

/// Has a part with this number, where all before it are there.
fn have_part(parts: &mut ArrayVec<Part, 16>, number: usize)
    requires next { number ≤ length parts.old.items }
    requires few { number < 16 }
    ensures there { number < length parts.new.items }
    ensures same { take number parts.new.items ≡ take number parts.old.items }
{
    if number == parts.len() {
        parts.push(Part {
            addr: 0,
            code: 0,
            bytes: ArrayVec::new(),
            pec: false,
        });
    }
}

/// Reads the part of a write after its address, and tells whether a `+` follows.
fn read_data(words: &mut Words, part: &mut Part) -> Result<bool, WordFault>
    ensures reads { (all : List Place) (ps : List PartData) → LineStandsAt all (write_code ps part.old.addr) (left words.old)
        → ReadsPart all (end words.old) (ps ++ part_data part.new ∷ []) result (left words.new) }
    ensures end { end words.new ≡ end words.old }
    ensures shrinks { result ≡ Ok true → length (left words.new) < length (left words.old) }
{
    part.code = ByteWord::take(words)?.byte;
    part.bytes.clear();
    take_bytes(words, &mut part.bytes)?;
    part.pec = take_pec(words);
    take_plus(words)
}
