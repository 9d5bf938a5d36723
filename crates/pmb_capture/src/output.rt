//! What a command writes of a capture.

ghost use Rattle.std.specs.Prelude.{◌≡◌, ◌++◌, ◌∷◌, [], List, OnOk};
ghost use Rattle.pmb_io.specs.Calls.{WriterTells};
ghost use Rattle.pmb_io.specs.Outgoing.{PutsText};
ghost use Rattle.pmb_transaction.specs.Transaction.{TransactionData, transaction_data};
ghost use Rattle.pmb_capture.specs.Output.{OutputText};

use pmb_io::{RunFault, Sink, Tally, Waiting};
use pmb_transaction::Transaction;

/// What a command writes of the packets of a capture, which come in their order, and at its end.
/// Refusals are written in one way by each.
pub(crate) trait Output {
    /// The texts.
    ghost text: { Self → OutputText };

    /// The packets of these transactions came.
    ghost Stands: { Self → List TransactionData → Type 0 };

    /// Puts out the text of the next packet's transaction.
    fn put_packet<W: Sink>(
        &mut self,
        transaction: &Transaction,
        waiting: &mut Waiting,
        writer: &mut W,
    ) -> Result<(), RunFault>
        ensures same { text self.new ≡ text self.old }
        ensures stands { (before : List TransactionData) → Stands self.old before
            → OnOk result (Stands self.new (before ++ transaction_data transaction.now ∷ [])) }
        ensures puts { (before : List TransactionData) → Stands self.old before
            → OnOk result (PutsText (W.told writer.old).held waiting.old.items (W.told writer.new).held waiting.new.items ((text self.old).of_packet before (transaction_data transaction.now))) }
        ensures failed { WriterTells (W.told writer.old) (W.told writer.new) result };

    /// Puts out the text of the end.
    fn put_end<W: Sink>(
        &self,
        tally: Tally,
        waiting: &mut Waiting,
        writer: &mut W,
    ) -> Result<(), RunFault>
        ensures puts { OnOk result (PutsText (W.told writer.old).held waiting.old.items (W.told writer.new).held waiting.new.items ((text self.now).at_end tally)) }
        ensures failed { WriterTells (W.told writer.old) (W.told writer.new) result };
}
