//! What is done with the lines of an input.

ghost use Rattle.std.specs.Prelude.{◌≡◌, ℕ, List, [], ◌∷◌, ◌++◌, OnOk};
ghost use Rattle.pmb_io.specs.Calls.{WriterTells};
ghost use Rattle.pmb_io.specs.Engines.{PutsOut};
ghost use Rattle.pmb_io.specs.Lines.{TextLine, ended_lines, line_text, lines_of};
ghost use Rattle.pmb_io.specs.Runs.{Job};
ghost use Rattle.pmb_io.specs.declared.tally.Tally.{Tally as Counted};

use crate::fault::RunFault;
use crate::input_line::InputLine;
use crate::output::Waiting;
use crate::sink::Sink;
use crate::tally::Tally;

/// What is done with the lines of an input, one after the other: a text is put out for each.
pub trait LineTask {
    /// The most bytes of a line, a CR at its end counted.
    ghost most: { ℕ };

    /// Between a task that was given nothing and the task that it has become: these lines were given
    /// meanwhile, and this text was put out for them.
    ghost Stands: { Self → Self → List TextLine → List ℕ → Type 0 };

    /// The same of a task whose lines have ended, and the text that was put out for them and for
    /// their end.
    ghost Ends: { Self → Self → List TextLine → List ℕ → Type 0 };

    /// What a task has counted.
    ghost counted: { Self → Counted };

    /// What is to be written for an input by a task that was given nothing.
    ghost job: { Self → Job Counted };

    /// The text for all lines of an input and their end is what is to be written for it.
    ghost writes_all: { (start now : Self) (bytes text : List ℕ) → Ends start now (lines_of most bytes) text
        → (job start).Whole (counted now) bytes text };

    /// The text for the lines that have ended is what is to be written for a front of an input.
    ghost writes_front: { (start now : Self) (bytes text : List ℕ) → Stands start now (ended_lines most bytes) text
        → (job start).Front bytes text };

    /// Takes the next line, and puts out the text for it.
    fn take_line<W: Sink>(
        &mut self,
        line: InputLine<'_>,
        waiting: &mut Waiting,
        writer: &mut W,
    ) -> Result<(), RunFault>
        ensures takes { (start : Self) (lines : List TextLine) (text : List ℕ) → Stands start self.old lines text
            → OnOk result (PutsOut (λ more. Stands start self.new (lines ++ line_text line.entry ∷ []) (text ++ more))
            (W.told writer.old).held waiting.old.items (W.told writer.new).held waiting.new.items) }
        ensures failed { WriterTells (W.told writer.old) (W.told writer.new) result };

    /// Takes the end of the lines, and puts out the text for it.
    fn end<W: Sink>(&mut self, waiting: &mut Waiting, writer: &mut W) -> Result<(), RunFault>
        ensures ends { (start : Self) (lines : List TextLine) (text : List ℕ) → Stands start self.old lines text
            → OnOk result (PutsOut (λ more. Ends start self.new lines (text ++ more))
            (W.told writer.old).held waiting.old.items (W.told writer.new).held waiting.new.items) }
        ensures failed { WriterTells (W.told writer.old) (W.told writer.new) result };

    /// What was counted so far.
    fn tally(&self) -> Tally
        ensures { result ≡ counted self.now };
}
