//! Groups and others that come at once. Their facts need the place of each START, or of the address
//! byte, so they are taken event by event.
//!
//! Its rows: `tests/rows/json_objects.txt`.

ghost use Rattle.std.specs.Prelude.{◌≡◌, ◌++◌, ◌∷◌, [], ℕ, List, IfOk, OnOk, false, length};
ghost use Rattle.pmb_bus.specs.declared.event.Event.{Event as BusEvent};
ghost use Rattle.pmb_bus.specs.declared.event.Event.TheVariants.{Stop};
ghost use Rattle.pmb_bus.specs.Event.{canonical_text, text_of};
ghost use Rattle.pmb_bus.specs.Text.{EndsBetween, Spells};
ghost use Rattle.pmb_canonical.specs.Inside.{AreInside};
ghost use Rattle.pmb_io.specs.Calls.{WriterTells};
ghost use Rattle.pmb_io.specs.Engines.{PutsOut};
ghost use Rattle.pmb_reader.specs.Reader.{Open};
ghost use Rattle.pmb_scan.specs.Reached.{Reached, IsWhole, behind_whole};
ghost use Rattle.pmb_transaction.specs.Transaction.{transaction_data};
ghost use Rattle.pmb_fact_stream.specs.declared.kept_stream.KeptStream.{KeptStream as Kept};
ghost use Rattle.pmb_fact_stream.specs.Stream.{StreamStands};
ghost use Rattle.pmb_fact_stream.specs.machine.Inside.{HasOneStart, TakenInside};

use crate::kept_stream::KeptStream;
use pmb_bus::Event;
use pmb_bus::laws::{canonical_text_spells, texts_may_be_cut_between_words};
use pmb_canonical::front_event;
use pmb_io::{RunFault, Sink, Waiting};
use pmb_keeper::Keeper;
use pmb_scan::Visitor;
use pmb_table::laws::accepted_bus;
use pmb_transaction::Transaction;
use pmb_transaction::laws::{packet_ends_with_stop, packets_are_bytes};

/// Whether a transaction is the write of a group, or what is refused after parts of one.
#[inline]
pub(crate) fn is_group(transaction: &Transaction) -> bool
    ensures { result ≡ false → HasOneStart (transaction_data transaction.now) }
{
    match transaction {
        Transaction::Write { parts } => parts.len() > 1,
        Transaction::Refused { parts, .. } => !parts.is_empty(),
        Transaction::Read { .. }
        | Transaction::Call { .. }
        | Transaction::Alert { .. }
        | Transaction::NoAlert => false,
    }
}

/// How many bytes an event's canonical text has.
#[inline]
fn text_length(event: Event) -> usize
    ensures { result ≡ length (text_of event) }
{
    match event {
        Event::Byte(_) => 3,
        Event::Start | Event::Ack | Event::Nack | Event::Stop => 2,
    }
}

impl<'p, K: Keeper> KeptStream<'p, K> {
    /// Takes the events of a packet before STOP from its canonical text, and returns what is left of it.
    fn take_inside<'t, W: Sink>(
        &mut self,
        text: &'t [u8],
        waiting: &mut Waiting,
        writer: &mut W,
    ) -> Result<&'t [u8], RunFault>
        ensures takes { (start : Kept K) (reached : Reached) (put : List ℕ) (n : ℕ) (inside : List BusEvent) → StreamStands K.Keeps start self.old reached put
            → EndsBetween reached.text → Spells reached.text reached.events → reached.standing ≡ Open n [] → AreInside inside
            → text.now ≡ canonical_text (inside ++ Stop ∷ [])
            → IfOk result (λ rest. PutsOut (λ more. TakenInside K.Keeps start self.new reached (put ++ more) n inside rest.now)
            (W.told writer.old).held waiting.old.items (W.told writer.new).held waiting.new.items) }
        ensures failed { WriterTells (W.told writer.old) (W.told writer.new) result }
    {
        canonical_text_spells();
        texts_may_be_cut_between_words();
        let mut rest = text;
        while let Some(event) = front_event(rest) {
            let used = text_length(event);
            self.visit_bytes(&rest[..used]);
            self.visit_event(event, waiting, writer)?;
            rest = &rest[used..];
        }
        Ok(rest)
    }

    /// Takes a group, or an other, that came at once.
    pub(crate) fn take_group<W: Sink>(
        &mut self,
        bytes: &[u8],
        transaction: &Transaction,
        waiting: &mut Waiting,
        writer: &mut W,
    ) -> Result<(), RunFault>
        ensures visits { (start : Kept K) (reached : Reached) (text : List ℕ) (n : ℕ) (events : List BusEvent) → StreamStands K.Keeps start self.old reached text
            → EndsBetween reached.text → Spells reached.text reached.events → reached.standing ≡ Open n []
            → IsWhole reached.profile (transaction_data transaction.now) events bytes.now
            → OnOk result (PutsOut (λ more. StreamStands K.Keeps start self.new (behind_whole reached n bytes.now events (transaction_data transaction.now)) (text ++ more))
            (W.told writer.old).held waiting.old.items (W.told writer.new).held waiting.new.items) }
        ensures failed { WriterTells (W.told writer.old) (W.told writer.new) result }
    {
        accepted_bus(self.stream.profile);
        packets_are_bytes();
        packet_ends_with_stop();
        texts_may_be_cut_between_words();
        canonical_text_spells();
        let stop = self.take_inside(bytes, waiting, writer)?;
        self.visit_bytes(stop);
        self.visit_packet(transaction, waiting, writer)
    }
}
