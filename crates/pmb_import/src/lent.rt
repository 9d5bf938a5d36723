//! A machine that is lent to the loop over the lines, so that it is made in its place and not moved.

ghost use Rattle.std.specs.Prelude.{◌≡◌};

use pmb_io::{InputLine, LineTask, RunFault, Sink, Tally, Waiting};

/// A machine of some source, which stays where it is.
#[derive(Drop)]
pub(crate) struct Lent<'a, T> {
    pub(crate) machine: &'a mut T,
}

impl<'a, T: LineTask> LineTask for Lent<'a, T> {
    ghost most = { T.most };

    ghost Stands = { λ start now. T.Stands start.machine.now now.machine.now };

    ghost Ends = { λ start now. T.Ends start.machine.now now.machine.now };

    ghost counted = { λ lent. T.counted lent.machine.now };

    ghost job = { λ lent. T.job lent.machine.now };

    ghost writes_all = { λ start now. T.writes_all start.machine.now now.machine.now };

    ghost writes_front = { λ start now. T.writes_front start.machine.now now.machine.now };

    fn take_line<W: Sink>(
        &mut self,
        line: InputLine<'_>,
        waiting: &mut Waiting,
        writer: &mut W,
    ) -> Result<(), RunFault> {
        self.machine.take_line(line, waiting, writer)
    }

    fn end<W: Sink>(&mut self, waiting: &mut Waiting, writer: &mut W) -> Result<(), RunFault> {
        self.machine.end(waiting, writer)
    }

    fn tally(&self) -> Tally {
        self.machine.tally()
    }
}
