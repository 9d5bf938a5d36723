//! What is done with what a scan comes upon.
//!
//! Its rows: `tests_reader`, `src/scan/scans.rt`.

ghost use Rattle.std.specs.Prelude.{◌≡◌, ◌++◌, ◌∷◌, [], ℕ, List, OnOk, length};
ghost use Rattle.pmb_bus.specs.declared.event.Event.{Event as BusEvent};
ghost use Rattle.pmb_bus.specs.Text.{EndsBetween, Spells};
ghost use Rattle.pmb_io.specs.Calls.{WriterTells};
ghost use Rattle.pmb_io.specs.Engines.{PutsOut};
ghost use Rattle.pmb_reader.specs.Reader.{Open};
ghost use Rattle.pmb_reader.specs.Refusal.{refusal_data};
ghost use Rattle.pmb_scan.specs.Reached.{Reached, IsWhole, MayGoOn, behind_bytes, behind_event, behind_packet, behind_refusal, behind_whole};
ghost use Rattle.pmb_transaction.specs.Packet.{Packet};
ghost use Rattle.pmb_transaction.specs.Reading.{RefusedAt};
ghost use Rattle.pmb_transaction.specs.Transaction.{transaction_data};

use pmb_bus::Event;
use pmb_io::{RunFault, Sink, Waiting};
use pmb_reader::Refusal;
use pmb_transaction::Transaction;

/// Is told what a scan comes upon, in its order, and may put out a text for each event, packet and
/// refusal.
///
/// Bytes come first, then what their word's end comes to: an event, a packet or a refusal. So the text
/// up to there spells the events with this one: the word of this event is the text's last. A canonical
/// packet whose text lies whole in front may come at once instead.
pub trait Visitor {
    /// A visitor that began as the first has become the second. Meanwhile it was told what was
    /// reached, and put out this text.
    ghost Stands: { Self → Self → Reached → List ℕ → Type 0 };

    /// These bytes of the text are used. A word may be under way at their end.
    fn visit_bytes(&mut self, bytes: &[u8])
        ensures { (start : Self) (reached : Reached) (text : List ℕ) → Stands start self.old reached text
            → Stands start self.new (behind_bytes reached bytes.now) text };

    /// An event came that ends no packet: one of the packet under way, or one that is passed over,
    /// which comes after a refusal, up to and including the next STOP.
    fn visit_event<W: Sink>(
        &mut self,
        event: Event,
        waiting: &mut Waiting,
        writer: &mut W,
    ) -> Result<(), RunFault>
        ensures visits { (start : Self) (reached : Reached) (text : List ℕ) → Stands start self.old reached text
            → Spells reached.text (reached.events ++ event ∷ []) → MayGoOn reached.standing event
            → OnOk result (PutsOut (λ more. Stands start self.new (behind_event reached event) (text ++ more))
            (W.told writer.old).held waiting.old.items (W.told writer.new).held waiting.new.items) }
        ensures failed { WriterTells (W.told writer.old) (W.told writer.new) result };

    /// An event came, a STOP, and ends the packet of this transaction.
    fn visit_packet<W: Sink>(
        &mut self,
        transaction: &Transaction,
        waiting: &mut Waiting,
        writer: &mut W,
    ) -> Result<(), RunFault>
        ensures visits { (start : Self) (reached : Reached) (text : List ℕ) (n : ℕ) (front : List BusEvent) (event : BusEvent) → Stands start self.old reached text
            → Spells reached.text (reached.events ++ event ∷ []) → reached.standing ≡ Open n front → Packet reached.profile (transaction_data transaction.now) (front ++ event ∷ [])
            → OnOk result (PutsOut (λ more. Stands start self.new (behind_packet reached n front event (transaction_data transaction.now)) (text ++ more))
            (W.told writer.old).held waiting.old.items (W.told writer.new).held waiting.new.items) }
        ensures failed { WriterTells (W.told writer.old) (W.told writer.new) result };

    /// A whole canonical packet came at once, between two packets: the bytes of its text, how many events
    /// these spell, and its transaction. Nothing else is told of it.
    fn visit_whole<W: Sink>(
        &mut self,
        bytes: &[u8],
        count: usize,
        transaction: &Transaction,
        waiting: &mut Waiting,
        writer: &mut W,
    ) -> Result<(), RunFault>
        ensures visits { (start : Self) (reached : Reached) (text : List ℕ) (n : ℕ) (events : List BusEvent) → Stands start self.old reached text
            → EndsBetween reached.text → Spells reached.text reached.events → reached.standing ≡ Open n []
            → IsWhole reached.profile (transaction_data transaction.now) events bytes.now → count ≡ length events
            → OnOk result (PutsOut (λ more. Stands start self.new (behind_whole reached n bytes.now events (transaction_data transaction.now)) (text ++ more))
            (W.told writer.old).held waiting.old.items (W.told writer.new).held waiting.new.items) }
        ensures failed { WriterTells (W.told writer.old) (W.told writer.new) result };

    /// An event came that no packet can have there, and is refused. It is the first that is passed
    /// over.
    fn visit_refusal<W: Sink>(
        &mut self,
        event: Event,
        refusal: Refusal,
        waiting: &mut Waiting,
        writer: &mut W,
    ) -> Result<(), RunFault>
        ensures visits { (start : Self) (reached : Reached) (text : List ℕ) (n : ℕ) (front : List BusEvent) → Stands start self.old reached text
            → Spells reached.text (reached.events ++ event ∷ []) → reached.standing ≡ Open n front → RefusedAt reached.profile n front event (refusal_data refusal)
            → OnOk result (PutsOut (λ more. Stands start self.new (behind_refusal reached n front event (refusal_data refusal)) (text ++ more))
            (W.told writer.old).held waiting.old.items (W.told writer.new).held waiting.new.items) }
        ensures failed { WriterTells (W.told writer.old) (W.told writer.new) result };
}
