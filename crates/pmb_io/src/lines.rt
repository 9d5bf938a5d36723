//! The lines of an input, from its pieces.
//!
//! A line that lies whole in a piece is lent from there. Of one that is cut by pieces as much is kept
//! as a line may have, and whether it has more: it is handed on when its LF comes, or the end.
//!
//! Its rows: `tests/rows/lines.txt`, `tests/rows/requests.txt`, `tests/rows/failures.txt`.

ghost use Rattle.std.specs.Prelude.{◌≡◌, ℕ, ◌++◌, ◌∷◌, [], false, List, OnOk, length, nat_lt, take};
ghost use Rattle.pmb_io.specs.Calls.{WriterTells};
ghost use Rattle.pmb_io.specs.Engines.{PutsOut};
ghost use Rattle.pmb_io.specs.Lines.{HasNoLf, LinesFit, line_feed, line_text, lines_of};
ghost use Rattle.pmb_io.specs.Runs.{AsTool, Ran};
ghost use Rattle.pmb_io.specs.machine.Lines.{StandsInLine, ended_kept};

use crate::engine::{Engine, Flow};
use crate::fault::{RunFault, ToolFault};
use crate::input_line::InputLine;
use crate::line_task::LineTask;
use crate::output::Waiting;
use crate::pieces::each_piece;
use crate::sink::Sink;
use crate::source::Source;
use crate::tally::Tally;
use arrayvec::ArrayVec;
use memchr::memchr;

/// Hands the lines of the text that is `first` and what the reader gives to a task that was given
/// nothing yet, one after the other, up to the end. Returns what the task has counted.
///
/// A line has at most `MOST` bytes, a CR at its end counted; of a longer one only that it is too long
/// is handed on. The text for the lines of a piece is written before the next is read.
///
/// # Errors
///
/// As those of [`each_piece`].
pub fn each_line<T: LineTask + Drop, R: Source, W: Sink, const MOST: usize>(
    task: T,
    first: &[u8],
    reader: &mut R,
    writer: &mut W,
) -> Result<Tally, ToolFault>
    requires most { MOST ≡ T.most }
    requires room { LinesFit T.row MOST.row }
    requires begins { T.Stands task task [] [] }
    ensures { AsTool (Ran R.told W.told (T.job task) first.now (reader.old, writer.old) (reader.new, writer.new)) result }
{
    let mut lines = Lines::<T, MOST>::new(task);
    each_piece(&mut lines, first, reader, writer)?;
    Ok(lines.task.tally())
}

/// The lines of an input, handed to a task one after the other, as an [`Engine`] for [`each_piece`].
#[derive(Drop)]
pub(crate) struct Lines<T, const MOST: usize> {
    task: T,
    /// The front of the line under way.
    line: ArrayVec<u8, MOST>,
    /// Whether it has more bytes.
    is_longer: bool,
}

impl<T: LineTask, const MOST: usize> Lines<T, MOST> {
    /// Nothing was handed to the task yet.
    fn new(task: T) -> Lines<T, MOST>
        ensures task { result.task ≡ task }
        ensures begins { T.Stands task task [] [] → ⟦<Lines<T, MOST> as Engine>⟧.Stands result result [] [] }
    {
        Lines {
            task,
            line: ArrayVec::new(),
            is_longer: false,
        }
    }

    /// Takes the bytes before an LF, which ends the line under way. A line that lies whole in a piece
    /// is handed on from there.
    fn take_ended<W: Sink>(
        &mut self,
        bytes: &[u8],
        waiting: &mut Waiting,
        writer: &mut W,
    ) -> Result<(), RunFault>
        requires { HasNoLf bytes.now }
        ensures takes { (start : T) (before text : List ℕ) → StandsInLine (T.Stands start self.old.task) MOST self.old.line.items self.old.is_longer before text
            → OnOk result (PutsOut (λ more. StandsInLine (T.Stands start self.new.task) MOST self.new.line.items self.new.is_longer (before ++ (bytes.now ++ line_feed ∷ [])) (text ++ more))
            (W.told writer.old).held waiting.old.items (W.told writer.new).held waiting.new.items) }
        ensures failed { WriterTells (W.told writer.old) (W.told writer.new) result }
    {
        if self.line.is_empty() && !self.is_longer {
            let line = ended_line(bytes, bytes.len() > MOST);
            return self.task.take_line(line, waiting, writer);
        }
        self.keep(bytes);
        let line = ended_line(self.line.as_slice(), self.is_longer);
        self.task.take_line(line, waiting, writer)?;
        self.line.clear();
        self.is_longer = false;
        Ok(())
    }

    /// Takes the end of the input: what follows the last LF is a line where it is not empty.
    fn take_last<W: Sink>(&mut self, waiting: &mut Waiting, writer: &mut W) -> Result<(), RunFault>
        ensures takes { (start : T) (bytes text : List ℕ) → StandsInLine (T.Stands start self.old.task) MOST self.old.line.items self.old.is_longer bytes text
            → OnOk result (PutsOut (λ more. T.Stands start self.new.task (lines_of MOST bytes) (text ++ more))
            (W.told writer.old).held waiting.old.items (W.told writer.new).held waiting.new.items) }
        ensures failed { WriterTells (W.told writer.old) (W.told writer.new) result }
    {
        if self.is_longer {
            return self.task.take_line(InputLine::TooLong, waiting, writer);
        }
        if self.line.is_empty() {
            return Ok(());
        }
        self.task
            .take_line(InputLine::Last(self.line.as_slice()), waiting, writer)
    }

    /// Keeps bytes of the line under way, as far as it has room.
    fn keep(&mut self, bytes: &[u8])
        ensures task { self.new.task ≡ self.old.task }
        ensures kept { (rest : List ℕ) → self.old.line.items ≡ take MOST rest → self.new.line.items ≡ take MOST (rest ++ bytes.now) }
        ensures longer { (rest : List ℕ) → self.old.line.items ≡ take MOST rest → self.old.is_longer ≡ nat_lt MOST (length rest)
            → self.new.is_longer ≡ nat_lt MOST (length (rest ++ bytes.now)) }
    {
        let room = self.line.remaining_capacity();
        self.is_longer = self.is_longer || bytes.len() > room;
        let kept = bytes.len().min(room);
        let _ = self.line.try_extend_from_slice(&bytes[..kept]);
    }
}

/// The line that an LF ended, of which these bytes are kept.
fn ended_line(kept: &[u8], is_longer: bool) -> InputLine<'_>
    ensures { line_text result ≡ ended_kept kept.now is_longer }
{
    if is_longer {
        InputLine::TooLong
    } else {
        InputLine::Ended(kept)
    }
}

impl<T: LineTask, const MOST: usize> Engine for Lines<T, MOST> {
    ghost Stands = { λ start now bytes text. StandsInLine (T.Stands start.task now.task) MOST now.line.items now.is_longer bytes text };

    ghost Stops = { λ start now bytes text. ⊥ };

    ghost Ends = { λ start now bytes text. T.Ends start.task now.task (lines_of MOST bytes) text };

    fn take<W: Sink>(
        &mut self,
        piece: &[u8],
        waiting: &mut Waiting,
        writer: &mut W,
    ) -> Result<Flow, RunFault> {
        let mut rest = piece;
        while let Some(len) = memchr(b'\n', rest) {
            self.take_ended(&rest[..len], waiting, writer)?;
            rest = &rest[len + 1..];
        }
        self.keep(rest);
        Ok(Flow::More)
    }

    fn end<W: Sink>(&mut self, waiting: &mut Waiting, writer: &mut W) -> Result<(), RunFault> {
        self.take_last(waiting, writer)?;
        self.task.end(waiting, writer)
    }

    ghost stops_for_good = { λ start now bytes text more never. never };
}
