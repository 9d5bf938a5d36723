//! What a scan tells.
//!
//! Its rows: `tests/rows/json_objects.txt`.

ghost use Rattle.std.specs.Prelude.{◌≡◌, ◌<◌, ◌+◌, ◌∷◌, [], ◌++◌, ◌&&◌, ℕ, List, None, OnOk, Some, is_some, length, not, take};
ghost use Rattle.std.specs.List.{Contains};
ghost use Rattle.pmb_bus.specs.declared.event.Event.{Event as BusEvent};
ghost use Rattle.pmb_bus.specs.declared.event.Event.TheVariants.{Stop};
ghost use Rattle.pmb_bus.specs.Event.{AreBytes, canonical_text};
ghost use Rattle.pmb_bus.specs.Text.{EndsBetween, Spells};
ghost use Rattle.pmb_command.specs.Parts.{DeviceParts};
ghost use Rattle.pmb_io.specs.Count.{capped};
ghost use Rattle.pmb_json_objects.specs.Counts.{after_packet, after_refusal};
ghost use Rattle.pmb_places.specs.Places.{PlacesStandAt, place_of_last_word};
ghost use Rattle.pmb_reader.specs.Reader.{behind_passed};
ghost use Rattle.pmb_partial_packet.specs.PartialPacket.{reply, said_device};
ghost use Rattle.pmb_partial_packet.specs.Standing.{SaidStandsAt};
ghost use Rattle.pmb_scan.specs.Reached.{MayGoOn, Reached, behind_event, standing_after};
ghost use Rattle.pmb_times.specs.Times.{TimesStandAt};
ghost use Rattle.pmb_transaction.specs.Capture.{Viable};
ghost use Rattle.pmb_transaction.specs.Transaction.{transaction_data};
ghost use Rattle.pmb_unknown_start.specs.Past.{Said};
ghost use Rattle.pmb_fact_stream.specs.declared.kept_stream.KeptStream.{KeptStream as Kept};
ghost use Rattle.pmb_fact_stream.specs.Before.{Before, past_of, with_reached};
ghost use Rattle.pmb_io.specs.Calls.{WriterTells};
ghost use Rattle.pmb_io.specs.Engines.{PutsOut};
ghost use Rattle.pmb_fact_stream.specs.Stream.{IsSame, StreamAt, StreamKnows, StreamStands, stream_choice, stream_profile};
ghost use Rattle.pmb_fact_stream.specs.Lost.{dropped_if, has_write, heard};
ghost use Rattle.pmb_fact_stream.specs.machine.Front.{front_of, other_begun_at};
ghost use Rattle.pmb_fact_stream.specs.machine.Begun.{begun_behind};
ghost use Rattle.pmb_fact_stream.specs.machine.Knowing.{IsCleared, KeepsSame, KeepsTimes, KeepsUnderWay, passes_on as passes_on_of};
ghost use Rattle.pmb_fact_stream.specs.machine.Losing.{IsFresh, KnowsLost, WritesBehind, WritesStandAt};
ghost use Rattle.pmb_fact_stream.specs.machine.OpenTime.{HasTime, KeepsTime};

use crate::front::{Front, is_other};
use crate::groups::is_group;
use crate::kept_stream::KeptStream;
use crate::stream::{Begun, STARTS, Stream};
use crate::writes::Writes;
use pmb_bus::Event;
use pmb_bus::laws::texts_may_be_cut_between_words;
use pmb_io::{RunFault, Sink, Waiting};
use pmb_keeper::Keeper;
use pmb_places::laws::{texts_end_between_words, the_last_word_stands_there};
use pmb_reader::Refusal;
use pmb_scan::Visitor;
use pmb_table::laws::accepted_bus;
use pmb_transaction::Transaction;
use pmb_transaction::laws::{packet_ends_with_stop, packets_are_bytes};

impl<'p> Stream<'p> {
    /// Takes an event that ends no packet, and is not refused.
    #[inline]
    pub(crate) fn take_event(&mut self, event: Event)
        ensures packet { (b : Before) (reached : Reached) → StreamAt b self.old reached → Spells reached.text (reached.events ++ event ∷ [])
            → KeepsUnderWay b self.new reached.text (standing_after reached.standing event) }
        ensures time { (text : List ℕ) (events : List BusEvent) → KeepsTime self.old.time text events → TimesStandAt self.old.times text
            → Spells text (events ++ event ∷ []) → KeepsTime self.new.time text (events ++ event ∷ []) }
        ensures times { self.new.times ≡ self.old.times }
        ensures knows { (b : Before) (reached : Reached) → StreamAt b self.old reached → MayGoOn reached.standing event
            → StreamKnows (record (with_reached (stream_choice self.old).ignored b reached) { past = b.past ++ past_of (behind_event reached event) }) self.new }
        ensures loses { (b : Before) (reached : Reached) → StreamAt b self.old reached → MayGoOn reached.standing event
            → KnowsLost self.new.writes (behind_event reached event) (standing_after reached.standing event) }
        ensures same { IsSame self.old self.new }
    {
        the_last_word_stands_there();
        self.time.begin(&self.times);
        self.time.take(event);
        if self.passing {
            self.pass(event);
        } else {
            self.keep(event);
        }
    }

    /// Takes an event that is passed over. With the first write in what is passed over, what is known of
    /// PAGE, PHASE and VOUT_MODE is forgotten, if it was not where the packet was refused.
    fn pass(&mut self, event: Event)
        ensures knows { (b : Before) (taken : List BusEvent) → StreamKnows b self.old → WritesStandAt (stream_profile self.old) self.old.writes taken
            → StreamKnows (record b { past = b.past ++ dropped_if (not (has_write (stream_profile self.old) taken) && has_write (stream_profile self.old) (taken ++ event ∷ [])) }) self.new }
        ensures writes { (taken : List BusEvent) → WritesStandAt (stream_profile self.old) self.old.writes taken
            → WritesBehind (stream_profile self.old) self.new.writes (taken ++ event ∷ []) event }
        ensures passing { self.new.passing ≡ passes_on_of event }
        ensures cleared { IsCleared self.old → IsCleared self.new }
        ensures same { IsSame self.old self.new }
        ensures times { KeepsTimes self.old self.new }
    {
        let writes = self.writes.after(event, self.profile);
        self.lose(!self.writes.has_write && writes.has_write);
        self.passing = passes_on(event);
        self.writes = writes.behind(event);
    }

    /// Keeps what an event of the packet under way says.
    #[inline]
    fn keep(&mut self, event: Event)
        ensures said { (events : List BusEvent) → SaidStandsAt self.old.said events → SaidStandsAt self.new.said (events ++ event ∷ []) }
        ensures front { (front : List BusEvent) → self.old.front ≡ front_of (stream_choice self.old).ignored front
            → self.new.front ≡ front_of (stream_choice self.old).ignored (front ++ event ∷ []) }
        ensures begun { (text : List ℕ) → PlacesStandAt self.old.places text
            → self.new.begun.items ≡ begun_behind self.old.begun.items self.old.count (place_of_last_word text) event }
        ensures writes { (events : List BusEvent) → WritesStandAt (stream_profile self.old) self.old.writes events
            → WritesStandAt (stream_profile self.old) self.new.writes (events ++ event ∷ []) }
        ensures passing { self.new.passing ≡ self.old.passing }
        ensures times { KeepsTimes self.old self.new }
        ensures knows { (b : Before) → StreamKnows b self.old → StreamKnows b self.new }
        ensures same { IsSame self.old self.new }
    {
        self.said.take(event);
        self.front = self.front.after(event, &self.choice);
        self.writes = self.writes.after(event, self.profile);
        match event {
            Event::Start => self.keep_start(),
            Event::Byte(_) | Event::Ack | Event::Nack | Event::Stop => {}
        }
    }

    /// Keeps a START, if there are not too many.
    #[inline]
    fn keep_start(&mut self)
        ensures begun { (text : List ℕ) → PlacesStandAt self.old.places text
            → self.new.begun.items ≡ take 17 (self.old.begun.items ++ record { at = self.old.count; place = place_of_last_word text } ∷ []) }
        ensures said { self.new.said ≡ self.old.said }
        ensures front { self.new.front ≡ self.old.front }
        ensures writes { self.new.writes ≡ self.old.writes }
        ensures passing { self.new.passing ≡ self.old.passing }
        ensures times { KeepsTimes self.old self.new }
        ensures knows { (b : Before) → StreamKnows b self.old → StreamKnows b self.new }
        ensures same { IsSame self.old self.new }
    {
        if self.begun.len() < STARTS {
            self.begun.push(Begun {
                at: self.count,
                place: self.places.word(),
            });
        }
    }

    /// Counts an event.
    #[inline]
    pub(crate) fn count_event(&mut self)
        ensures knows { (b : Before) → StreamKnows b self.old → StreamKnows (record b { n = b.n + 1 }) self.new }
        ensures same { IsSame self.old self.new }
        ensures packet { KeepsSame self.old self.new }
        ensures times { KeepsTimes self.old self.new }
    {
        self.count = self.count.saturating_add(1);
    }

    /// Takes the transaction of the packet that ends, and forgets the packet.
    pub(crate) fn take_packet(&mut self, transaction: &Transaction)
        ensures knows { (b : Before) → StreamKnows b self.old
            → StreamKnows (record b { n = b.n + 1; past = b.past ++ Said (transaction_data transaction.now) ∷ []; counts = after_packet b.counts (transaction_data transaction.now) }) self.new }
        ensures cleared { IsCleared self.new }
        ensures fresh { IsFresh self.new.writes }
        ensures same { IsSame self.old self.new }
        ensures passing { self.new.passing ≡ self.old.passing }
        ensures time { (text : List ℕ) (events : List BusEvent) → KeepsTime self.new.time text (events ++ Stop ∷ []) }
        ensures times { self.new.times ≡ self.old.times }
    {
        self.counts.count_packet(transaction);
        self.tally.count_packet();
        self.end_packet(transaction);
    }

    /// Takes STOP and the transaction of the packet that it ends, and forgets the packet.
    fn end_packet(&mut self, transaction: &Transaction)
        ensures knows { (b : Before) → StreamKnows b self.old
            → StreamKnows (record b { n = b.n + 1; past = b.past ++ Said (transaction_data transaction.now) ∷ [] }) self.new }
        ensures cleared { IsCleared self.new }
        ensures fresh { IsFresh self.new.writes }
        ensures same { IsSame self.old self.new }
        ensures passing { self.new.passing ≡ self.old.passing }
        ensures time { (text : List ℕ) (events : List BusEvent) → KeepsTime self.new.time text (events ++ Stop ∷ []) }
        ensures times { self.new.times ≡ self.old.times }
    {
        self.late.observe(transaction);
        self.count_event();
        self.clear();
        self.time.end();
    }

    /// Takes the rest of a packet's line, given only its length in bytes and how many events it
    /// spells before STOP, of which nothing is kept. STOP is left for `take_packet` to count.
    #[inline]
    fn take_line(&mut self, bytes: usize, count: usize)
        ensures knows { (b : Before) (front : List BusEvent) → StreamKnows b self.old → EndsBetween b.read → AreBytes front → (Contains front Stop → ⊥)
            → bytes ≡ length (canonical_text (front ++ Stop ∷ [])) → count ≡ length front
            → StreamKnows (record b { read = b.read ++ canonical_text (front ++ Stop ∷ []); n = b.n + length front }) self.new }
        ensures same { IsSame self.old self.new }
        ensures passing { self.new.passing ≡ self.old.passing }
        ensures times { (text : List ℕ) (front : List BusEvent) → TimesStandAt self.old.times text → EndsBetween text → AreBytes front → 0 < length front
            → TimesStandAt self.new.times (text ++ canonical_text (front ++ Stop ∷ [])) }
    {
        texts_may_be_cut_between_words();
        texts_end_between_words();
        self.places.take_line(bytes);
        self.times.take_line();
        self.count = self.count.saturating_add(count as u64);
    }

    /// Counts a refusal, and takes the refused event, with what devices were written then.
    fn take_refused(&mut self, event: Event, writes: Writes)
        ensures knows { (b : Before) (front : List BusEvent) → StreamKnows b self.old → SaidStandsAt self.old.said front
            → StreamKnows (record b { n = b.n + 1; past = b.past ++ dropped_if writes.has_write; counts = after_refusal b.counts (said_device front) }) self.new }
        ensures writes { (profile : List DeviceParts) (taken : List BusEvent) → WritesStandAt profile writes taken → WritesBehind profile self.new.writes taken event }
        ensures packet { (b : Before) (text : List ℕ) (n : ℕ) → KeepsUnderWay b self.new text (behind_passed n event) }
        ensures same { IsSame self.old self.new }
        ensures time { (text : List ℕ) (events : List BusEvent) → HasTime self.old.time text events → KeepsTime self.new.time text (events ++ event ∷ []) }
        ensures times { self.new.times ≡ self.old.times }
    {
        self.count_refusal();
        self.pass_over(event, writes);
    }

    /// Takes an event that is refused, the first that is passed over, and forgets the packet, with what
    /// is known of PAGE, PHASE and VOUT_MODE if devices may have been written to.
    fn pass_over(&mut self, event: Event, writes: Writes)
        ensures knows { (b : Before) → StreamKnows b self.old
            → StreamKnows (record b { n = b.n + 1; past = b.past ++ dropped_if writes.has_write }) self.new }
        ensures writes { (profile : List DeviceParts) (taken : List BusEvent) → WritesStandAt profile writes taken → WritesBehind profile self.new.writes taken event }
        ensures packet { (b : Before) (text : List ℕ) (n : ℕ) → KeepsUnderWay b self.new text (behind_passed n event) }
        ensures same { IsSame self.old self.new }
        ensures time { (text : List ℕ) (events : List BusEvent) → HasTime self.old.time text events → KeepsTime self.new.time text (events ++ event ∷ []) }
        ensures times { self.new.times ≡ self.old.times }
    {
        self.lose(writes.has_write);
        self.count_event();
        self.clear();
        self.time.take(event);
        self.passing = passes_on(event);
        self.writes = writes.behind(event);
    }

    /// What devices were written with the event that is refused: by a reply, and by what said that it is to
    /// be read, they weren't.
    fn writes_with(&self, event: Event) -> Writes
        ensures { (front : List BusEvent) → Viable (stream_profile self.now) front → SaidStandsAt self.now.said front → WritesStandAt (stream_profile self.now) self.now.writes front
            → WritesStandAt (stream_profile self.now) result (heard (is_some (reply front)) front (event ∷ [])) }
    {
        let before = if self.said.reply().is_some() {
            Writes::new()
        } else {
            self.writes
        };
        before.after(event, self.profile)
    }

    /// Forgets what is known of PAGE, PHASE and VOUT_MODE, if something may have been lost.
    fn lose(&mut self, loses: bool)
        ensures knows { (b : Before) → StreamKnows b self.old → StreamKnows (record b { past = b.past ++ dropped_if loses }) self.new }
        ensures same { IsSame self.old self.new }
        ensures packet { KeepsSame self.old self.new }
        ensures times { KeepsTimes self.old self.new }
    {
        if loses {
            self.late.drop_line();
        }
    }
}

/// Whether events are passed over after one that is: up to the next STOP.
#[inline]
fn passes_on(event: Event) -> bool
    ensures { result ≡ passes_on_of event }
{
    match event {
        Event::Stop => false,
        Event::Start | Event::Byte(_) | Event::Ack | Event::Nack => true,
    }
}

impl<'p, K: Keeper> KeptStream<'p, K> {
    /// Takes the next event, which ends no packet, is not refused and begins no other, and counts it.
    #[inline]
    fn take_next(&mut self, event: Event)
        ensures { (start : Kept K) (reached : Reached) (text : List ℕ) → StreamStands K.Keeps start self.old reached text
            → Spells reached.text (reached.events ++ event ∷ []) → MayGoOn reached.standing event
            → other_begun_at (stream_choice self.old.stream).ignored reached.standing event ≡ None
            → StreamStands K.Keeps start self.new (behind_event reached event) text }
    {
        self.stream.take_event(event);
        self.stream.count_event();
    }

    /// Takes the address byte of an other, and puts out its fact.
    fn take_other<W: Sink>(
        &mut self,
        event: Event,
        addr: u8,
        waiting: &mut Waiting,
        writer: &mut W,
    ) -> Result<(), RunFault>
        ensures visits { (start : Kept K) (reached : Reached) (text : List ℕ) → StreamStands K.Keeps start self.old reached text
            → Spells reached.text (reached.events ++ event ∷ []) → MayGoOn reached.standing event
            → other_begun_at (stream_choice self.old.stream).ignored reached.standing event ≡ Some addr
            → OnOk result (PutsOut (λ more. StreamStands K.Keeps start self.new (behind_event reached event) (text ++ more))
            (W.told writer.old).held waiting.old.items (W.told writer.new).held waiting.new.items) }
        ensures failed { WriterTells (W.told writer.old) (W.told writer.new) result }
    {
        the_last_word_stands_there();
        let place = self.stream.places.word();
        self.stream
            .put_other(&mut self.keeper, addr, place, waiting, writer)?;
        self.stream.take_event(event);
        self.stream.count_event();
        self.stream.counts.count_other(addr);
        Ok(())
    }
}

impl<'p, K: Keeper> Visitor for KeptStream<'p, K> {
    ghost Stands = { StreamStands K.Keeps };

    #[inline]
    fn visit_bytes(&mut self, bytes: &[u8]) {
        self.stream.take_text(bytes);
    }

    #[inline]
    fn visit_event<W: Sink>(
        &mut self,
        event: Event,
        waiting: &mut Waiting,
        writer: &mut W,
    ) -> Result<(), RunFault> {
        match self.stream.front.begins_other(event, &self.stream.choice) {
            None => {
                self.take_next(event);
                Ok(())
            }
            Some(addr) => self.take_other(event, addr, waiting, writer),
        }
    }

    fn visit_packet<W: Sink>(
        &mut self,
        transaction: &Transaction,
        waiting: &mut Waiting,
        writer: &mut W,
    ) -> Result<(), RunFault> {
        packet_ends_with_stop();
        if let Front::Other = self.stream.front {
            self.stream.end_packet(transaction);
            return Ok(());
        }
        self.stream
            .put_packet(&mut self.keeper, transaction, waiting, writer)?;
        self.stream.take_packet(transaction);
        Ok(())
    }

    fn visit_whole<W: Sink>(
        &mut self,
        bytes: &[u8],
        count: usize,
        transaction: &Transaction,
        waiting: &mut Waiting,
        writer: &mut W,
    ) -> Result<(), RunFault> {
        if is_group(transaction) {
            return self.take_group(bytes, transaction, waiting, writer);
        }
        if is_other(bytes, &self.stream.choice) {
            return self.take_group(bytes, transaction, waiting, writer);
        }
        accepted_bus(self.stream.profile);
        packets_are_bytes();
        packet_ends_with_stop();
        texts_may_be_cut_between_words();
        texts_end_between_words();
        // Of the text the facts need only where the first START stands, which is kept as for any
        // packet.
        self.visit_bytes(b"S ");
        self.take_next(Event::Start);
        self.stream
            .put_packet(&mut self.keeper, transaction, waiting, writer)?;
        self.stream
            .take_line(bytes.len().saturating_sub(2), count.saturating_sub(2));
        self.stream.take_packet(transaction);
        Ok(())
    }

    fn visit_refusal<W: Sink>(
        &mut self,
        event: Event,
        refusal: Refusal,
        waiting: &mut Waiting,
        writer: &mut W,
    ) -> Result<(), RunFault> {
        the_last_word_stands_there();
        let stream = &mut self.stream;
        let keeper = &mut self.keeper;
        let writes = stream.writes_with(event);
        stream.time.begin(&stream.times);
        let place = stream.places.word();
        if let Some(addr) = stream.front.begins_other(event, &stream.choice) {
            stream.put_other(keeper, addr, place, waiting, writer)?;
            stream.counts.count_other(addr);
            stream.pass_over(event, writes);
            return Ok(());
        }
        if let Front::Other = stream.front {
            stream.pass_over(event, writes);
            return Ok(());
        }
        stream.put_refusal(keeper, Some(event), place, refusal, waiting, writer)?;
        stream.take_refused(event, writes);
        Ok(())
    }
}
