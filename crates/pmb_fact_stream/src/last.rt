//! Refusals, words that are no token, others, and the end.
//!
//! Its rows: `tests/rows/json_objects.txt`, `log.txt`.

ghost use Rattle.std.specs.Prelude.{◌≡◌, ◌+◌, ◌<◌, ◌∷◌, [], ◌++◌, List, OnOk, filter};
ghost use Rattle.pmb_bus.specs.declared.event.Event.{Event as BusEvent};
ghost use Rattle.pmb_bus.specs.Text.{Spells, open_word};
ghost use Rattle.pmb_io.specs.Calls.{WriterTells};
ghost use Rattle.pmb_io.specs.Count.{capped};
ghost use Rattle.pmb_io.specs.Outgoing.{PutsText};
ghost use Rattle.pmb_io.specs.Tally.{with_refusal};
ghost use Rattle.pmb_json_objects.specs.Counts.{after_bad_token, after_refusal, end_objects};
ghost use Rattle.pmb_json_objects.specs.Object.{object_lines};
ghost use Rattle.pmb_places.specs.Places.{place_of_last_word};
ghost use Rattle.pmb_partial_packet.specs.PartialPacket.{said_device};
ghost use Rattle.pmb_partial_packet.specs.Standing.{SaidStandsAt};
ghost use Rattle.pmb_scan.specs.Reached.{Reached};
ghost use Rattle.pmb_scan.specs.Scan.{Truncates, end_spans};
ghost use Rattle.pmb_spans.specs.Spans.{moved_spans};
ghost use Rattle.pmb_transaction.specs.Capture.{Viable};
ghost use Rattle.pmb_fact_stream.specs.Before.{Before, past_of};
ghost use Rattle.pmb_fact_stream.specs.Choice.{gives_others};
ghost use Rattle.pmb_fact_stream.specs.Lost.{lost_in};
ghost use Rattle.pmb_fact_stream.specs.Others.{is_untold};
ghost use Rattle.pmb_fact_stream.specs.Spans.{CountsTally, IsNoneOutside, after_spans, bad_token_fact, event_place, event_time, other_fact, refusal_fact, span_facts};
ghost use Rattle.pmb_fact_stream.specs.Stream.{IsSame, KeepsFacts, StreamAt, StreamKnows, stream_choice, stream_last_lines, stream_lines, stream_profile, stream_tally, stream_time};
ghost use Rattle.pmb_fact_stream.specs.machine.Counts.{counts_of};
ghost use Rattle.pmb_fact_stream.specs.machine.Knowing.{KeepsTimes};
ghost use Rattle.pmb_fact_stream.specs.machine.Putting.{PutsFacts};

use crate::front::Front;
use crate::stream::Stream;
use crate::telling::Telling;
use pmb_bus::Event;
use pmb_facts::{Fact, What};
use pmb_io::{RunFault, Sink, Waiting, make_room};
use pmb_json_objects::{OBJECT, device_line, end_line, is_wanted};
use pmb_keeper::Keeper;
use pmb_places::Place;
use pmb_places::laws::each_word_has_a_place;
use pmb_reader::Refusal;

impl<'p> Stream<'p> {
    /// Puts out the fact of the word under way, which is no token, and counts it.
    ///
    /// # Errors
    ///
    /// `Write` where the writer failed.
    pub fn put_bad_word<W: Sink, K: Keeper>(
        &mut self,
        keeper: &mut K,
        waiting: &mut Waiting,
        writer: &mut W,
    ) -> Result<(), RunFault>
        ensures puts { (b : Before) → StreamKnows b self.old
            → OnOk result (PutsText (W.told writer.old).held waiting.old.items (W.told writer.new).held waiting.new.items
            (stream_lines self.old (bad_token_fact (record { at = capped b.n; place = place_of_last_word b.read; time = stream_time self.old }) (open_word b.read) ∷ []))) }
        ensures kept { (b : Before) → StreamKnows b self.old
            → OnOk result (KeepsFacts K.Keeps self.old keeper.old keeper.new (bad_token_fact (record { at = capped b.n; place = place_of_last_word b.read; time = stream_time self.old }) (open_word b.read) ∷ [])) }
        ensures knows { (b : Before) → StreamKnows b self.old → OnOk result (StreamKnows (record b { counts = after_bad_token b.counts }) self.new) }
        ensures same { IsSame self.old self.new }
        ensures failed { WriterTells (W.told writer.old) (W.told writer.new) result }
    {
        self.put_word(keeper, waiting, writer)?;
        self.counts.count_bad_token();
        self.tally.count_refusal();
        Ok(())
    }

    /// Puts out the fact of the word under way.
    fn put_word<W: Sink, K: Keeper>(
        &self,
        keeper: &mut K,
        waiting: &mut Waiting,
        writer: &mut W,
    ) -> Result<(), RunFault>
        ensures puts { (b : Before) → StreamKnows b self.now
            → OnOk result (PutsText (W.told writer.old).held waiting.old.items (W.told writer.new).held waiting.new.items
            (stream_lines self.now (bad_token_fact (record { at = capped b.n; place = place_of_last_word b.read; time = stream_time self.now }) (open_word b.read) ∷ []))) }
        ensures kept { (b : Before) → StreamKnows b self.now
            → OnOk result (KeepsFacts K.Keeps self.now keeper.old keeper.new (bad_token_fact (record { at = capped b.n; place = place_of_last_word b.read; time = stream_time self.now }) (open_word b.read) ∷ [])) }
        ensures failed { WriterTells (W.told writer.old) (W.told writer.new) result }
    {
        let head = self.head_at(self.count, self.places.word());
        let what = What::BadToken {
            word: self.word.bytes(),
        };
        self.put_fact(keeper, Fact { head, what }, waiting, writer)
    }

    /// Puts out the fact of an end inside a packet, if it is one, and the last lines, of what was counted.
    ///
    /// # Errors
    ///
    /// `Write` where the writer failed.
    pub fn put_end<W: Sink, K: Keeper>(
        &mut self,
        keeper: &mut K,
        end: Option<Refusal>,
        waiting: &mut Waiting,
        writer: &mut W,
    ) -> Result<(), RunFault>
        ensures puts { (b : Before) (reached : Reached) → StreamAt b self.old reached → Spells reached.text reached.events → Truncates reached end → IsNoneOutside reached end
            → OnOk result (PutsText (W.told writer.old).held waiting.old.items (W.told writer.new).held waiting.new.items
            (stream_lines self.old
            (span_facts (stream_choice self.old).ignored (event_place b.read b.n reached.text) (event_time b.n reached.text) (lost_in reached.profile b.n reached.events) (b.past ++ past_of reached)
            (moved_spans b.n (filter (is_untold (stream_choice self.old).ignored) (end_spans reached.standing end))))
            ++ stream_last_lines self.old (after_spans (stream_choice self.old).ignored b.counts (reached.spans ++ end_spans reached.standing end)))) }
        ensures kept { (b : Before) (reached : Reached) → StreamAt b self.old reached → Spells reached.text reached.events → Truncates reached end → IsNoneOutside reached end
            → OnOk result (KeepsFacts K.Keeps self.old keeper.old keeper.new
            (span_facts (stream_choice self.old).ignored (event_place b.read b.n reached.text) (event_time b.n reached.text) (lost_in reached.profile b.n reached.events) (b.past ++ past_of reached)
            (moved_spans b.n (filter (is_untold (stream_choice self.old).ignored) (end_spans reached.standing end))))) }
        ensures tally { (b : Before) (reached : Reached) → StreamAt b self.old reached → Truncates reached end → IsNoneOutside reached end
            → OnOk result (CountsTally (after_spans (stream_choice self.old).ignored b.counts (reached.spans ++ end_spans reached.standing end)) (stream_tally self.new)) }
        ensures same { IsSame self.old self.new }
        ensures failed { WriterTells (W.told writer.old) (W.told writer.new) result }
    {
        each_word_has_a_place();
        match end {
            None => self.put_counts(waiting, writer),
            Some(refusal) => {
                // The fact of an other is out since its address byte.
                if let Front::Other = self.front {
                    return self.put_counts(waiting, writer);
                }
                self.put_refusal(keeper, None, self.places.end(), refusal, waiting, writer)?;
                self.count_refusal();
                self.put_counts(waiting, writer)
            }
        }
    }

    /// Puts out the last lines, of what was counted: objects alone have some.
    ///
    /// # Errors
    ///
    /// `Write` where the writer failed.
    pub fn put_counts<W: Sink>(&self, waiting: &mut Waiting, writer: &mut W) -> Result<(), RunFault>
        ensures puts { (b : Before) → StreamKnows b self.now
            → OnOk result (PutsText (W.told writer.old).held waiting.old.items (W.told writer.new).held waiting.new.items (stream_last_lines self.now b.counts)) }
        ensures failed { WriterTells (W.told writer.old) (W.told writer.new) result }
    {
        match self.choice.telling {
            Telling::Objects => self.put_count_objects(waiting, writer),
            Telling::Lines(_) | Telling::Items | Telling::Nothing => Ok(()),
        }
    }

    /// Puts out the objects of the counts.
    fn put_count_objects<W: Sink>(
        &self,
        waiting: &mut Waiting,
        writer: &mut W,
    ) -> Result<(), RunFault>
        ensures puts { (b : Before) → StreamKnows b self.now
            → OnOk result (PutsText (W.told writer.old).held waiting.old.items (W.told writer.new).held waiting.new.items (object_lines (stream_choice self.now).devices (end_objects (stream_profile self.now) (gives_others (stream_choice self.now)) b.counts))) }
        ensures failed { WriterTells (W.told writer.old) (W.told writer.new) result }
    {
        for addr in 0..128u8 {
            self.put_device(addr, waiting, writer)?;
        }
        make_room(waiting, OBJECT, writer)?;
        end_line(waiting, self.choice.gives_others(), &self.counts);
        Ok(())
    }

    /// Puts out how often a device came, if it has come and is wanted.
    fn put_device<W: Sink>(
        &self,
        addr: u8,
        waiting: &mut Waiting,
        writer: &mut W,
    ) -> Result<(), RunFault>
        requires { addr < 128 }
        ensures puts { (b : Before) → StreamKnows b self.now
            → OnOk result (PutsText (W.told writer.old).held waiting.old.items (W.told writer.new).held waiting.new.items
            (object_lines (stream_choice self.now).devices (counts_of (stream_profile self.now) (gives_others (stream_choice self.now)) b.counts.of_device (addr ∷ [])))) }
        ensures failed { WriterTells (W.told writer.old) (W.told writer.new) result }
    {
        let Some(device) = self.counts.device(addr) else {
            return Ok(());
        };
        if !device.has_come() {
            return Ok(());
        }
        if !is_wanted(self.choice.devices, Some(addr)) {
            return Ok(());
        }
        make_room(waiting, OBJECT, writer)?;
        device_line(
            waiting,
            self.profile,
            self.choice.gives_others(),
            addr,
            device,
        );
        Ok(())
    }

    /// Puts out the fact of a refusal: of an event, or of the end.
    pub(crate) fn put_refusal<W: Sink, K: Keeper>(
        &self,
        keeper: &mut K,
        event: Option<Event>,
        place: Place,
        refusal: Refusal,
        waiting: &mut Waiting,
        writer: &mut W,
    ) -> Result<(), RunFault>
        ensures puts { (some : Before) (front : List BusEvent) → StreamKnows some self.now → Viable (stream_profile self.now) front → SaidStandsAt self.now.said front
            → OnOk result (PutsFacts K.Keeps self.now keeper.old keeper.new (λ b. refusal_fact b.past (record { at = capped b.n; place = place; time = stream_time self.now }) front event refusal.reason refusal.expected ∷ [])
            (W.told writer.old).held waiting.old.items (W.told writer.new).held waiting.new.items) }
        ensures failed { WriterTells (W.told writer.old) (W.told writer.new) result }
    {
        let head = self.head_at(self.count, place);
        let what = What::Refusal {
            said: &self.said,
            event,
            reason: refusal.reason,
            expected: refusal.expected,
        };
        self.put_fact(keeper, Fact { head, what }, waiting, writer)
    }

    /// Puts out the fact of an other, whose address byte is the event that comes next and stands there.
    pub(crate) fn put_other<W: Sink, K: Keeper>(
        &self,
        keeper: &mut K,
        addr: u8,
        place: Place,
        waiting: &mut Waiting,
        writer: &mut W,
    ) -> Result<(), RunFault>
        ensures puts { (some : Before) → StreamKnows some self.now → OnOk result (PutsFacts K.Keeps self.now keeper.old keeper.new (λ b. other_fact (record { at = capped b.n; place = place; time = stream_time self.now }) addr ∷ [])
            (W.told writer.old).held waiting.old.items (W.told writer.new).held waiting.new.items) }
        ensures failed { WriterTells (W.told writer.old) (W.told writer.new) result }
    {
        let head = self.head_at(self.count, place);
        self.put_fact(
            keeper,
            Fact {
                head,
                what: What::Other { addr },
            },
            waiting,
            writer,
        )
    }

    /// Counts a refusal in the packet under way.
    pub(crate) fn count_refusal(&mut self)
        ensures knows { (b : Before) (front : List BusEvent) → StreamKnows b self.old → SaidStandsAt self.old.said front
            → StreamKnows (record b { counts = after_refusal b.counts (said_device front) }) self.new }
        ensures tally { self.new.tally ≡ with_refusal self.old.tally }
        ensures same { IsSame self.old self.new }
        ensures times { KeepsTimes self.old self.new }
    {
        self.counts.count_refusal(self.said.device());
        self.tally.count_refusal();
    }
}
