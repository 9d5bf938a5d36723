//! A task over the lines of a whole input.
//!
//! Its rows: `tests/rows/lines.txt`, `tests/rows/requests.txt`, `tests/rows/recordings.txt`.

ghost use Rattle.std.specs.Prelude.{◌≡◌, ℕ, ◌++◌, ◌∷◌, [], List, OnOk};
ghost use Rattle.pmb_io.specs.Calls.{WriterTells};
ghost use Rattle.pmb_io.specs.Engines.{PutsOut};
ghost use Rattle.pmb_io.specs.Lines.{TextLine, ended_line as ended_text, last_line as last_text, last_lines, line_text, lines_of};
ghost use Rattle.pmb_whole_input.specs.Whole.{WritesOrNoMemory};

use crate::buffer::empty_buffer;
use memchr::memchr;
use pmb_io::laws::texts_add_up;
use pmb_io::{InputLine, LineTask, RunFault, Sink, Tally, ToolFault, Waiting, send};
use std::alloc::Global;

/// Hands the lines of an input to a task that was given nothing yet, one after the other, and their
/// end, and writes what the task puts out, by a buffer on the heap. Returns what it has counted.
///
/// A line has at most `MOST` bytes, a CR at its end counted; of a longer one only that it is too long
/// is handed on.
///
/// # Errors
///
/// `Memory` where there was none for the buffer: nothing was written. `Write` where the writer failed.
pub fn whole_lines<T: LineTask, W: Sink, const MOST: usize>(
    alloc: Global,
    task: &mut T,
    input: &[u8],
    writer: &mut W,
) -> Result<Tally, ToolFault>
    requires most { MOST ≡ T.most }
    requires begins { T.Stands task.old task.old [] [] }
    ensures { WritesOrNoMemory W.told (T.job task.old) input.now writer.old writer.new result }
{
    let Some(mut waiting) = empty_buffer(alloc) else {
        return Err(ToolFault::Memory);
    };
    let Ok(()) = put_all::<T, W, MOST>(task, input, &mut *waiting, writer) else {
        return Err(ToolFault::Write);
    };
    let Ok(()) = send(&mut *waiting, writer) else {
        return Err(ToolFault::Write);
    };
    Ok(task.tally())
}

/// Hands the lines of an input and their end to a task.
fn put_all<T: LineTask, W: Sink, const MOST: usize>(
    task: &mut T,
    input: &[u8],
    waiting: &mut Waiting,
    writer: &mut W,
) -> Result<(), RunFault>
    requires { T.Stands task.old task.old [] [] }
    ensures puts { OnOk result (PutsOut (λ text. T.Ends task.old task.new (lines_of MOST input.now) text)
        (W.told writer.old).held waiting.old.items (W.told writer.new).held waiting.new.items) }
    ensures failed { WriterTells (W.told writer.old) (W.told writer.new) result }
{
    texts_add_up();
    let mut rest = input;
    while let Some(len) = memchr(b'\n', rest) {
        task.take_line(ended(&rest[..len], MOST), waiting, writer)?;
        rest = &rest[len + 1..];
    }
    take_last::<T, W, MOST>(task, rest, waiting, writer)?;
    task.end(waiting, writer)
}

/// Hands on what follows the last LF, where it is not empty.
fn take_last<T: LineTask, W: Sink, const MOST: usize>(
    task: &mut T,
    rest: &[u8],
    waiting: &mut Waiting,
    writer: &mut W,
) -> Result<(), RunFault>
    ensures takes { (start : T) (lines : List TextLine) (text : List ℕ) → T.Stands start task.old lines text
        → OnOk result (PutsOut (λ more. T.Stands start task.new (lines ++ last_lines MOST rest.now) (text ++ more))
        (W.told writer.old).held waiting.old.items (W.told writer.new).held waiting.new.items) }
    ensures failed { WriterTells (W.told writer.old) (W.told writer.new) result }
{
    texts_add_up();
    if rest.is_empty() {
        return Ok(());
    }
    task.take_line(last(rest, MOST), waiting, writer)
}

/// A line that an LF ended.
fn ended(line: &[u8], most: usize) -> InputLine<'_>
    ensures { line_text result ≡ ended_text most line.now }
{
    if line.len() > most {
        InputLine::TooLong
    } else {
        InputLine::Ended(line)
    }
}

/// The line after the last LF.
fn last(line: &[u8], most: usize) -> InputLine<'_>
    ensures { line_text result ≡ last_text most line.now }
{
    if line.len() > most {
        InputLine::TooLong
    } else {
        InputLine::Last(line)
    }
}
