//! No line for a packet, and one for the tally at the end.
//!
//! Its rows: `tests/rows/captures.txt`, by `check`.

ghost use Rattle.pmb_capture.specs.Check.{checked_output};

use crate::lines::tally_line;
use crate::output::Output;
use pmb_io::{RunFault, Sink, Tally, Waiting, put};
use pmb_transaction::Transaction;

/// Writes nothing of a packet, and the tally's line at the end.
#[derive(Clone, Copy)]
pub(crate) struct TallyAlone;

impl Output for TallyAlone {
    ghost text = { λ _. checked_output };

    ghost Stands = { λ _ _. Unit {0} };

    #[inline]
    fn put_packet<W: Sink>(
        &mut self,
        _transaction: &Transaction,
        _waiting: &mut Waiting,
        _writer: &mut W,
    ) -> Result<(), RunFault> {
        Ok(())
    }

    fn put_end<W: Sink>(
        &self,
        tally: Tally,
        waiting: &mut Waiting,
        writer: &mut W,
    ) -> Result<(), RunFault> {
        let line = tally_line(tally);
        put(waiting, line.as_slice(), writer)
    }
}
