//! Reading what stands after `read` and after `call`, up to the reply's end.
//!
//! Its rows: `tests_lines`, `src/lines/rows.rt` and `long.rt`; `tests/rows/lines.txt`.

ghost use Rattle.std.specs.Prelude.{List};
ghost use Rattle.pmb_transaction.specs.Transaction.{Read as says_read, Call as says_call};
ghost use Rattle.pmb_line.specs.declared.words.Located.{Located as Place};
ghost use Rattle.pmb_line.specs.machine.Reading.{LineStandsAt, read_next, call_next};
ghost use Rattle.pmb_line.specs.machine.Left.{left, end};
ghost use Rattle.pmb_line.specs.machine.Pieces.{Asked, NoDataNext, ReadsLine, at_colon, replied};

use crate::pieces::{ByteWord, take_bytes, take_colon, take_end, take_pec};
use crate::word_fault::WordFault;
use crate::words::Words;
use arrayvec::ArrayVec;

/// Reads what stands after `read`.
pub(crate) fn read_read(
    words: &mut Words,
    addr: &mut u8,
    code: &mut u8,
    reply: &mut ArrayVec<u8, 255>,
    pec: &mut bool,
) -> Result<(), WordFault>
    ensures { (all : List Place) → LineStandsAt all read_next (left words.old)
        → ReadsLine all (end words.old) (says_read (record { addr = addr.new; code = code.new; reply = reply.new.items; pec = pec.new })) result }
{
    *addr = ByteWord::take(words)?.byte;
    *code = ByteWord::take(words)?.byte;
    read_reply(words, reply, pec)
}

/// Reads what stands after `call`.
pub(crate) fn read_call(
    words: &mut Words,
    addr: &mut u8,
    code: &mut u8,
    bytes: &mut ArrayVec<u8, 255>,
    reply: &mut ArrayVec<u8, 255>,
    pec: &mut bool,
) -> Result<(), WordFault>
    ensures { (all : List Place) → LineStandsAt all call_next (left words.old)
        → ReadsLine all (end words.old) (says_call (record { addr = addr.new; code = code.new; bytes = bytes.new.items; reply = reply.new.items; pec = pec.new })) result }
{
    *addr = ByteWord::take(words)?.byte;
    *code = ByteWord::take(words)?.byte;
    bytes.clear();
    take_bytes(words, bytes)?;
    read_reply(words, reply, pec)
}

/// Reads the `:` of a read or a call, and what stands after it.
#[inline(always)]
fn read_reply(
    words: &mut Words,
    reply: &mut ArrayVec<u8, 255>,
    pec: &mut bool,
) -> Result<(), WordFault>
    ensures { (all : List Place) (asked : Asked) → LineStandsAt all (at_colon asked) (left words.old) → NoDataNext asked (left words.old)
        → ReadsLine all (end words.old) (replied asked reply.new.items pec.new) result }
{
    take_colon(words)?;
    reply.clear();
    take_bytes(words, reply)?;
    *pec = take_pec(words);
    take_end(words)
}
