//! Packets, put together from the lines of a VCD.

ghost use Rattle.std.specs.Prelude.{◌≡◌, true, option_copied, option_map, Some, IfOk, OnOk};
ghost use Rattle.pmb_io.specs.Calls.{WriterTells};
ghost use Rattle.pmb_io.specs.Lines.{line_text};
ghost use Rattle.pmb_io.specs.Outgoing.{PutsText};
ghost use Rattle.pmb_recording.specs.Content.{most_line};
ghost use Rattle.pmb_recording.specs.Runs.{Ends, Stands, importing, tally_of};
ghost use Rattle.pmb_recording.proofs.Runs.{imports_all};
ghost use Rattle.pmb_vcd.specs.Words.{words};
ghost use Rattle.pmb_vcd_recording.specs.Lines.{both, end_at, faulted, fed, given, recording_of, start, take_content as content_step, take_end, take_line, take_word as word_step, take_words as words_step, with_fault};
ghost use Rattle.pmb_vcd_recording.specs.Source.{body_gives, head_gives, head_word, items_of, take_word as source_word, unread, unread_at, why_text};
ghost use Rattle.pmb_vcd_recording.specs.declared.lines.Place.TheVariants as at;
ghost use Rattle.pmb_vcd.specs.Body.{hear as hear_step};

use crate::lines::{Place, VcdLines, is_rest_read};
use pmb_io::laws::texts_add_up;
use pmb_io::{InputLine, LineTask, RunFault, Sink, Tally, Waiting, put};
use pmb_recording::content;
use pmb_vcd::{Heard, Why, first_word};
use pmb_wire_names::Reason;
use pmb_wire_packets::WireReader;
use pmb_wires::Moment;

/// A recording of two wires in a VCD.
#[derive(Drop)]
pub struct Vcd {
    /// Its lines.
    pub lines: VcdLines,
    /// What reads the wires.
    pub reader: WireReader,
}

impl Vcd {
    /// Nothing came yet. The wires have these names, or the usual ones. Runs shorter than `glitch`
    /// femtoseconds are spikes; SCL may be low within a packet for `timeout` thousandths of a second,
    /// or for any time if that is 0. A simulator may write a level that a wire has already.
    pub fn new(
        scl: Option<&[u8]>,
        sda: Option<&[u8]>,
        glitch: u128,
        timeout: u64,
        is_simulated: bool,
    ) -> Vcd
        ensures { result ≡ start (option_copied scl.entry) (option_copied sda.entry) glitch timeout is_simulated }
    {
        Vcd {
            lines: VcdLines::new(scl, sda, is_simulated),
            reader: WireReader::new(glitch, timeout, 0),
        }
    }

    /// Takes a line of the input.
    fn take_next<W: Sink>(
        &mut self,
        line: InputLine<'_>,
        waiting: &mut Waiting,
        writer: &mut W,
    ) -> Result<(), RunFault>
        ensures now { OnOk result (self.new ≡ (take_line self.old (line_text line.entry)).now) }
        ensures puts { OnOk result (PutsText (W.told writer.old).held waiting.old.items (W.told writer.new).held waiting.new.items (take_line self.old (line_text line.entry)).text) }
        ensures failed { WriterTells (W.told writer.old) (W.told writer.new) result }
    {
        let is_first = self.lines.line == 0;
        self.lines.count();
        self.take_content(content(is_first, line), waiting, writer)
    }

    /// Takes what a line holds.
    fn take_content<W: Sink>(
        &mut self,
        text: Option<&[u8]>,
        waiting: &mut Waiting,
        writer: &mut W,
    ) -> Result<(), RunFault>
        ensures now { OnOk result (self.new ≡ (content_step self.old (option_copied text.entry)).now) }
        ensures puts { OnOk result (PutsText (W.told writer.old).held waiting.old.items (W.told writer.new).held waiting.new.items (content_step self.old (option_copied text.entry)).text) }
        ensures failed { WriterTells (W.told writer.old) (W.told writer.new) result }
    {
        match text {
            Some(text) => self.take_words(text, waiting, writer),
            None => self.take_unread(waiting, writer),
        }
    }

    /// Takes the words of a line.
    fn take_words<W: Sink>(
        &mut self,
        text: &[u8],
        waiting: &mut Waiting,
        writer: &mut W,
    ) -> Result<(), RunFault>
        ensures now { OnOk result (self.new ≡ (words_step self.old (words text.now)).now) }
        ensures puts { OnOk result (PutsText (W.told writer.old).held waiting.old.items (W.told writer.new).held waiting.new.items (words_step self.old (words text.now)).text) }
        ensures failed { WriterTells (W.told writer.old) (W.told writer.new) result }
    {
        texts_add_up();
        let mut left = text;
        while let Some(found) = first_word(left) {
            let reads_on = self.take_word(found.0, waiting, writer)?;
            if !reads_on {
                return Ok(());
            }
            left = found.1;
        }
        Ok(())
    }

    /// Takes a word. Returns whether the rest of its line is read.
    fn take_word<W: Sink>(
        &mut self,
        word: &[u8],
        waiting: &mut Waiting,
        writer: &mut W,
    ) -> Result<bool, RunFault>
        ensures rest { IfOk result (λ reads_on. reads_on ≡ (source_word self.old.lines word.now).reads_on) }
        ensures now { OnOk result (self.new ≡ (word_step self.old word.now).now) }
        ensures puts { OnOk result (PutsText (W.told writer.old).held waiting.old.items (W.told writer.new).held waiting.new.items (word_step self.old word.now).text) }
        ensures failed { WriterTells (W.told writer.old) (W.told writer.new) result }
    {
        texts_add_up();
        match self.lines.place {
            Place::Head => self.take_head(word, waiting, writer),
            Place::Body => self.take_body(word, waiting, writer),
            Place::Over => Ok(true),
        }
    }

    /// Takes a word of the head.
    fn take_head<W: Sink>(
        &mut self,
        word: &[u8],
        waiting: &mut Waiting,
        writer: &mut W,
    ) -> Result<bool, RunFault>
        ensures rest { IfOk result (λ reads_on. reads_on ≡ true) }
        ensures now { OnOk result (self.new ≡ (fed self.old (head_gives (head_word self.old.lines word.now))).now) }
        ensures puts { OnOk result (PutsText (W.told writer.old).held waiting.old.items (W.told writer.new).held waiting.new.items (fed self.old (head_gives (head_word self.old.lines word.now))).text) }
        ensures failed { WriterTells (W.told writer.old) (W.told writer.new) result }
    {
        let why = self.lines.hear_head(word);
        self.take_reason(&why, waiting, writer)?;
        Ok(true)
    }

    /// Takes why nothing more is read, where that is so.
    fn take_reason<W: Sink>(
        &mut self,
        why: &Option<Reason>,
        waiting: &mut Waiting,
        writer: &mut W,
    ) -> Result<(), RunFault>
        ensures now { OnOk result (self.new ≡ (faulted self.old (option_map items_of why.now)).now) }
        ensures puts { OnOk result (PutsText (W.told writer.old).held waiting.old.items (W.told writer.new).held waiting.new.items (faulted self.old (option_map items_of why.now)).text) }
        ensures failed { WriterTells (W.told writer.old) (W.told writer.new) result }
    {
        texts_add_up();
        match why {
            Some(why) => self.break_off(why.as_slice(), waiting, writer),
            None => Ok(()),
        }
    }

    /// Takes a fault of the line, in words.
    fn break_off<W: Sink>(
        &mut self,
        why: &[u8],
        waiting: &mut Waiting,
        writer: &mut W,
    ) -> Result<(), RunFault>
        ensures now { OnOk result (self.new ≡ (faulted self.old (Some why.now)).now) }
        ensures puts { OnOk result (PutsText (W.told writer.old).held waiting.old.items (W.told writer.new).held waiting.new.items (faulted self.old (Some why.now)).text) }
        ensures failed { WriterTells (W.told writer.old) (W.told writer.new) result }
    {
        self.reader.break_off(self.lines.line, why, waiting, writer)
    }

    /// Takes a word behind the head.
    fn take_body<W: Sink>(
        &mut self,
        word: &[u8],
        waiting: &mut Waiting,
        writer: &mut W,
    ) -> Result<bool, RunFault>
        ensures rest { IfOk result (λ reads_on. reads_on ≡ (body_gives self.old.lines (hear_step self.old.lines.body self.old.lines.line word.now)).reads_on) }
        ensures now { OnOk result (self.new ≡ (fed self.old (body_gives self.old.lines (hear_step self.old.lines.body self.old.lines.line word.now))).now) }
        ensures puts { OnOk result (PutsText (W.told writer.old).held waiting.old.items (W.told writer.new).held waiting.new.items (fed self.old (body_gives self.old.lines (hear_step self.old.lines.body self.old.lines.line word.now))).text) }
        ensures failed { WriterTells (W.told writer.old) (W.told writer.new) result }
    {
        let heard = self.lines.hear_body(word);
        self.take_heard(&heard, waiting, writer)?;
        Ok(is_rest_read(&heard))
    }

    /// Takes what was heard: what the wires got, and then a fault.
    fn take_heard<W: Sink>(
        &mut self,
        heard: &Heard,
        waiting: &mut Waiting,
        writer: &mut W,
    ) -> Result<(), RunFault>
        ensures now { OnOk result (self.new ≡ (both self.old heard.now.moment (option_map why_text heard.now.fault)).now) }
        ensures puts { OnOk result (PutsText (W.told writer.old).held waiting.old.items (W.told writer.new).held waiting.new.items (both self.old heard.now.moment (option_map why_text heard.now.fault)).text) }
        ensures failed { WriterTells (W.told writer.old) (W.told writer.new) result }
    {
        texts_add_up();
        self.take_moment(heard.moment, waiting, writer)?;
        self.take_fault(heard.fault, waiting, writer)
    }

    /// Takes what the wires got at a time, if they got anything.
    fn take_moment<W: Sink>(
        &mut self,
        moment: Option<Moment>,
        waiting: &mut Waiting,
        writer: &mut W,
    ) -> Result<(), RunFault>
        ensures now { OnOk result (self.new ≡ (given self.old moment).now) }
        ensures puts { OnOk result (PutsText (W.told writer.old).held waiting.old.items (W.told writer.new).held waiting.new.items (given self.old moment).text) }
        ensures failed { WriterTells (W.told writer.old) (W.told writer.new) result }
    {
        texts_add_up();
        match moment {
            Some(moment) => self.reader.take(&moment, waiting, writer),
            None => Ok(()),
        }
    }

    /// Takes a fault of the line, if there is one.
    fn take_fault<W: Sink>(
        &mut self,
        fault: Option<Why>,
        waiting: &mut Waiting,
        writer: &mut W,
    ) -> Result<(), RunFault>
        ensures now { OnOk result (self.new ≡ (faulted self.old (option_map why_text fault)).now) }
        ensures puts { OnOk result (PutsText (W.told writer.old).held waiting.old.items (W.told writer.new).held waiting.new.items (faulted self.old (option_map why_text fault)).text) }
        ensures failed { WriterTells (W.told writer.old) (W.told writer.new) result }
    {
        texts_add_up();
        match fault {
            Some(why) => self.break_off(words_of(why), waiting, writer),
            None => Ok(()),
        }
    }

    /// Takes a line that can't be read.
    fn take_unread<W: Sink>(
        &mut self,
        waiting: &mut Waiting,
        writer: &mut W,
    ) -> Result<(), RunFault>
        ensures now { OnOk result (self.new ≡ (fed self.old (unread self.old.lines)).now) }
        ensures puts { OnOk result (PutsText (W.told writer.old).held waiting.old.items (W.told writer.new).held waiting.new.items (fed self.old (unread self.old.lines)).text) }
        ensures failed { WriterTells (W.told writer.old) (W.told writer.new) result }
    {
        texts_add_up();
        match self.lines.place {
            Place::Head => self.take_fault(Some(Why::MakesNoSense), waiting, writer),
            Place::Body => self.fail_body(waiting, writer),
            Place::Over => Ok(()),
        }
    }

    /// Takes such a line behind the head.
    fn fail_body<W: Sink>(&mut self, waiting: &mut Waiting, writer: &mut W) -> Result<(), RunFault>
        ensures now { OnOk result (self.new ≡ (fed self.old (unread_at at.Body self.old.lines)).now) }
        ensures puts { OnOk result (PutsText (W.told writer.old).held waiting.old.items (W.told writer.new).held waiting.new.items (fed self.old (unread_at at.Body self.old.lines)).text) }
        ensures failed { WriterTells (W.told writer.old) (W.told writer.new) result }
    {
        let heard = self.lines.fail_body(Why::MakesNoSense);
        self.take_heard(&heard, waiting, writer)
    }

    /// Takes the end of the lines.
    fn take_last<W: Sink>(&mut self, waiting: &mut Waiting, writer: &mut W) -> Result<(), RunFault>
        ensures now { OnOk result (self.new ≡ (take_end self.old).now) }
        ensures puts { OnOk result (PutsText (W.told writer.old).held waiting.old.items (W.told writer.new).held waiting.new.items (take_end self.old).text) }
        ensures failed { WriterTells (W.told writer.old) (W.told writer.new) result }
    {
        match self.lines.place {
            Place::Head => self.end_headless(waiting, writer),
            Place::Body => self.end_body(waiting, writer),
            Place::Over => self.end_over(waiting, writer),
        }
    }

    /// Ends a recording of which nothing more is read.
    fn end_over<W: Sink>(&mut self, waiting: &mut Waiting, writer: &mut W) -> Result<(), RunFault>
        ensures now { OnOk result (self.new ≡ (end_at at.Over self.old).now) }
        ensures puts { OnOk result (PutsText (W.told writer.old).held waiting.old.items (W.told writer.new).held waiting.new.items (end_at at.Over self.old).text) }
        ensures failed { WriterTells (W.told writer.old) (W.told writer.new) result }
    {
        self.reader.end(waiting, writer)
    }

    /// Ends a recording whose head has not ended.
    fn end_headless<W: Sink>(
        &mut self,
        waiting: &mut Waiting,
        writer: &mut W,
    ) -> Result<(), RunFault>
        ensures now { OnOk result (self.new ≡ (end_at at.Head self.old).now) }
        ensures puts { OnOk result (PutsText (W.told writer.old).held waiting.old.items (W.told writer.new).held waiting.new.items (end_at at.Head self.old).text) }
        ensures failed { WriterTells (W.told writer.old) (W.told writer.new) result }
    {
        texts_add_up();
        self.count_fault();
        put(waiting, b"# no $enddefinitions\n", writer)?;
        self.reader.end(waiting, writer)
    }

    /// Counts a fault that no line has.
    fn count_fault(&mut self)
        ensures { self.new ≡ with_fault self.old }
    {
        self.reader.packets.recording.troubles = self
            .reader
            .packets
            .recording
            .troubles
            .saturating_add(1);
    }

    /// Ends a recording whose wires are known.
    fn end_body<W: Sink>(&mut self, waiting: &mut Waiting, writer: &mut W) -> Result<(), RunFault>
        ensures now { OnOk result (self.new ≡ (end_at at.Body self.old).now) }
        ensures puts { OnOk result (PutsText (W.told writer.old).held waiting.old.items (W.told writer.new).held waiting.new.items (end_at at.Body self.old).text) }
        ensures failed { WriterTells (W.told writer.old) (W.told writer.new) result }
    {
        texts_add_up();
        let moment = self.lines.end_body();
        self.take_moment(moment, waiting, writer)?;
        self.reader.end(waiting, writer)
    }
}

/// Why a word is a fault, in words.
fn words_of(why: Why) -> &'static [u8]
    ensures { result.now ≡ why_text why }
{
    match why {
        Why::MakesNoSense => b"makes no sense",
        Why::DoesNotFollow => b"does not follow",
    }
}

impl LineTask for Vcd {
    ghost most = { most_line };

    ghost Stands = { Stands take_line take_end recording_of };

    ghost Ends = { Ends take_line take_end recording_of };

    ghost counted = { tally_of take_line take_end recording_of };

    ghost job = { importing take_line take_end recording_of };

    ghost writes_all = { imports_all take_line take_end recording_of };

    ghost writes_front = { λ start now bytes text stands. stands.told };

    fn take_line<W: Sink>(
        &mut self,
        line: InputLine<'_>,
        waiting: &mut Waiting,
        writer: &mut W,
    ) -> Result<(), RunFault> {
        self.take_next(line, waiting, writer)
    }

    fn end<W: Sink>(&mut self, waiting: &mut Waiting, writer: &mut W) -> Result<(), RunFault> {
        self.take_last(waiting, writer)
    }

    fn tally(&self) -> Tally {
        self.reader.packets.recording.tally()
    }
}
