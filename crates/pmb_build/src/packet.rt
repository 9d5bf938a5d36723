//! Packets as text.
//!
//! Its rows: `tests/rows/lines.txt`.

ghost use Rattle.std.specs.Prelude.{OnOk};
ghost use Rattle.pmb_bus.specs.Event.{text_of};
ghost use Rattle.pmb_io.specs.Calls.{WriterTells};
ghost use Rattle.pmb_io.specs.Engines.{PutsOut};
ghost use Rattle.pmb_io.specs.Outgoing.{PutsText};
ghost use Rattle.pmb_transaction.specs.Transaction.{transaction_data};
ghost use Rattle.pmb_writer.specs.Invalid.{HasPacket};
ghost use Rattle.pmb_build.specs.Answer.{IsPacketText};

use pmb_bus::Event;
use pmb_io::laws::texts_add_up;
use pmb_io::{RunFault, Sink, Waiting, make_room};
use pmb_table::Profile;
use pmb_transaction::Transaction;
use pmb_writer::{append_event, append_packet, most_text};

/// The most bytes of an event's text.
const MOST: usize = 3;

/// Puts out the packet of a transaction as canonical text.
pub(crate) fn put_packet<W: Sink>(
    profile: &Profile,
    transaction: &Transaction,
    waiting: &mut Waiting,
    writer: &mut W,
) -> Result<(), RunFault>
    requires { HasPacket profile.now (transaction_data transaction.now) }
    ensures puts { OnOk result (PutsOut (IsPacketText profile.now (transaction_data transaction.now))
        (W.told writer.old).held waiting.old.items (W.told writer.new).held waiting.new.items) }
    ensures failed { WriterTells (W.told writer.old) (W.told writer.new) result }
{
    texts_add_up();
    make_room(waiting, most_text(transaction), writer)?;
    append_packet(profile, transaction, waiting);
    Ok(())
}

/// Puts out the canonical text of an event. What waits is sent first where the text doesn't fit after it.
///
/// # Errors
///
/// `Write` where the writer failed.
#[inline]
pub fn put_event<W: Sink>(
    event: Event,
    waiting: &mut Waiting,
    writer: &mut W,
) -> Result<(), RunFault>
    ensures writes { OnOk result (PutsText (W.told writer.old).held waiting.old.items (W.told writer.new).held waiting.new.items (text_of event)) }
    ensures failed { WriterTells (W.told writer.old) (W.told writer.new) result }
{
    make_room(waiting, MOST, writer)?;
    append_event(event, waiting);
    Ok(())
}
