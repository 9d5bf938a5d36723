//! The lines of an input, built one after the other.
//!
//! Its rows: `tests/rows/lines.txt`; `tests_tasks`, `src/lines.rt`.

ghost use Rattle.std.specs.Prelude.{◌≡◌, ◌≢◌, ℕ, ◌++◌, ◌∷◌, [], List, OnOk};
ghost use Rattle.pmb_io.specs.Calls.{WriterTells};
ghost use Rattle.pmb_io.specs.Count.{raised};
ghost use Rattle.pmb_io.specs.Engines.{PutsOut};
ghost use Rattle.pmb_io.specs.Outgoing.{PutsText};
ghost use Rattle.pmb_io.specs.Tally.{with_refusal};
ghost use Rattle.pmb_line.specs.LineFault.{IsLineFault};
ghost use Rattle.pmb_build.specs.Answer.{most_build_line, numbered_fault};
ghost use Rattle.pmb_build.specs.Lines.{building};
ghost use Rattle.pmb_build.specs.machine.Building.{BuilderStands, BuilderTakes};

use crate::common_lines::QuickReader;
use crate::fault_line::numbered_line;
use crate::packet::put_packet;
use pmb_io::{InputLine, LineTask, RunFault, Sink, Tally, Waiting, put};
use pmb_line::LineFault;
use pmb_table::Profile;

/// The most bytes of a line, a CR at its end counted.
pub(crate) const MOST_BYTES: usize = 32768;

/// From lines to the packets of their transactions.
#[derive(Drop)]
pub(crate) struct Builder<'a> {
    profile: &'a Profile,
    reader: QuickReader,
    /// How many lines were taken; stays at the greatest `u64`.
    lines: u64,
    tally: Tally,
}

impl<'a> Builder<'a> {
    /// No line was taken yet.
    pub(crate) fn new(profile: &'a Profile) -> Builder<'a>
        ensures profile { result.profile.now ≡ profile.entry.now }
        ensures begins { BuilderStands result result [] [] }
    {
        Builder {
            profile,
            reader: QuickReader::new(),
            lines: 0,
            tally: Tally::new(),
        }
    }

    /// Counts a line, and puts out the packet that it spells, or its fault.
    fn take_text<W: Sink>(
        &mut self,
        line: &[u8],
        waiting: &mut Waiting,
        writer: &mut W,
    ) -> Result<(), RunFault>
        ensures takes { OnOk result (BuilderTakes self.old self.new line.now (W.told writer.old).held waiting.old.items (W.told writer.new).held waiting.new.items) }
        ensures failed { WriterTells (W.told writer.old) (W.told writer.new) result }
    {
        match self.reader.read(self.profile, line) {
            Ok(transaction) => {
                put_packet(self.profile, transaction, waiting, writer)?;
                self.tally.count_packet();
                Ok(())
            }
            Err(fault) => {
                if fault == LineFault::Blank {
                    return Ok(());
                }
                self.take_fault(fault, waiting, writer)
            }
        }
    }

    /// Counts the fault of a line, and puts it out.
    fn take_fault<W: Sink>(
        &mut self,
        fault: LineFault,
        waiting: &mut Waiting,
        writer: &mut W,
    ) -> Result<(), RunFault>
        ensures profile { self.new.profile ≡ self.old.profile }
        ensures lines { self.new.lines ≡ self.old.lines }
        ensures counted { self.new.tally ≡ with_refusal self.old.tally }
        ensures writes { OnOk result (PutsText (W.told writer.old).held waiting.old.items (W.told writer.new).held waiting.new.items (numbered_fault self.old.lines fault)) }
        ensures failed { WriterTells (W.told writer.old) (W.told writer.new) result }
    {
        self.tally.count_refusal();
        let line = numbered_line(self.lines, fault.text().as_slice());
        put(waiting, line.as_slice(), writer)
    }
}

impl<'a> LineTask for Builder<'a> {
    ghost most = { most_build_line };

    ghost Stands = { BuilderStands };

    ghost Ends = { BuilderStands };

    ghost counted = { λ builder. builder.tally };

    ghost job = { λ start. building start.profile.now };

    ghost writes_all = { λ start now bytes text stands. stands.answered };

    ghost writes_front = { λ start now bytes text stands. stands.answered.given };

    fn take_line<W: Sink>(
        &mut self,
        line: InputLine<'_>,
        waiting: &mut Waiting,
        writer: &mut W,
    ) -> Result<(), RunFault> {
        self.lines = self.lines.saturating_add(1);
        match line {
            InputLine::Ended(text) => self.take_text(text, waiting, writer),
            InputLine::Last(text) => self.take_text(text, waiting, writer),
            InputLine::TooLong => self.take_fault(LineFault::TooLong(MOST_BYTES), waiting, writer),
        }
    }

    fn end<W: Sink>(&mut self, _waiting: &mut Waiting, _writer: &mut W) -> Result<(), RunFault> {
        Ok(())
    }

    fn tally(&self) -> Tally {
        self.tally
    }
}
