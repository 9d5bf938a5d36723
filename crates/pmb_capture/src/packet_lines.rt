//! A line with a note for each packet.
//!
//! Its rows: `tests/rows/captures.txt`.

ghost use Rattle.std.specs.Prelude.{◌≡◌, ◌+◌, ◌≤◌, ◌++◌, ◌∷◌, [], List, length, OnOk};
ghost use Rattle.pmb_io.specs.Calls.{WriterTells};
ghost use Rattle.pmb_io.specs.Outgoing.{PutsText};
ghost use Rattle.pmb_note.specs.Context.{HasSeen};
ghost use Rattle.pmb_transaction.specs.Transaction.{TransactionData, transaction_data};
ghost use Rattle.pmb_capture.specs.Show.{noted_line, shown_output};

use crate::lines::append;
use crate::output::Output;
use pmb_io::{ROOM, RunFault, Sink, Tally, Waiting, make_room};
use pmb_line::append_line;
use pmb_note::Context;
use pmb_table::Profile;
use pmb_transaction::Transaction;

/// The most bytes of what is written of a packet: a transaction's line, the mark of a comment, a
/// note and LF.
const MOST: usize = 12544 + 3 + 8192 + 1;

/// Writes the line of each packet's transaction with its note, and nothing at the end.
#[derive(Drop)]
pub(crate) struct PacketLines<'p> {
    profile: &'p Profile,
    /// What the transactions so far tell, which the note of the next is made by.
    context: Context<'p>,
}

impl<'p> PacketLines<'p> {
    pub(crate) fn new(profile: &'p Profile) -> PacketLines<'p>
        ensures text { result.profile.now ≡ profile.now }
        ensures begins { HasSeen result.context profile.now [] }
    {
        PacketLines {
            profile,
            context: Context::new(profile),
        }
    }

    /// Has the line of the next packet's transaction wait after what waits, and takes what that one
    /// tells.
    fn append_transaction(&mut self, transaction: &Transaction, waiting: &mut Waiting)
        requires { length waiting.old.items + MOST ≤ ROOM }
        ensures profile { self.new.profile ≡ self.old.profile }
        ensures line { (before : List TransactionData) → HasSeen self.old.context self.old.profile.now before
            → waiting.new.items ≡ waiting.old.items ++ noted_line self.old.profile.now before (transaction_data transaction.now) }
        ensures seen { (before : List TransactionData) → HasSeen self.old.context self.old.profile.now before
            → HasSeen self.new.context self.old.profile.now (before ++ transaction_data transaction.now ∷ []) }
    {
        append_line(transaction, waiting);
        append(waiting, b" # ");
        self.context.append_note(transaction, waiting);
        append(waiting, b"\n");
        self.context.observe(transaction);
    }
}

impl<'p> Output for PacketLines<'p> {
    ghost text = { λ lines. shown_output lines.profile.now };

    ghost Stands = { λ lines before. HasSeen lines.context lines.profile.now before };

    fn put_packet<W: Sink>(
        &mut self,
        transaction: &Transaction,
        waiting: &mut Waiting,
        writer: &mut W,
    ) -> Result<(), RunFault> {
        make_room(waiting, MOST, writer)?;
        self.append_transaction(transaction, waiting);
        Ok(())
    }

    fn put_end<W: Sink>(
        &self,
        _tally: Tally,
        _waiting: &mut Waiting,
        _writer: &mut W,
    ) -> Result<(), RunFault> {
        Ok(())
    }
}
