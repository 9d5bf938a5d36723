//! Packets, put together from the lines of samples.

ghost use Rattle.std.specs.Prelude.{◌≡◌, ◌≤◌, Some, length, option_copied, option_map, OnOk};
ghost use Rattle.pmb_io.specs.Calls.{WriterTells};
ghost use Rattle.pmb_io.specs.Lines.{line_text};
ghost use Rattle.pmb_io.specs.Outgoing.{PutsText};
ghost use Rattle.pmb_recording.specs.Content.{most_line};
ghost use Rattle.pmb_recording.specs.Runs.{Ends, Stands, importing, tally_of};
ghost use Rattle.pmb_recording.proofs.Runs.{imports_all};
ghost use Rattle.pmb_samples.specs.Lines.{ended, end_at, faulted, head_given, heard_by, recording_of, row_given, said as said_step, start, take_content as content_step, take_end, take_line, take_text as text_step, unread, unread_at, why_text, with_fault};
ghost use Rattle.pmb_samples.specs.Rows.{failed, hear as hear_row_step};
ghost use Rattle.pmb_samples.specs.Source.{head_line, items_of};
ghost use Rattle.pmb_samples.specs.declared.lines.Place.TheVariants as at;
ghost use Rattle.pmb_samples.specs.declared.row.Heard.TheVariants as heard;

use crate::lines::{Options, Place, SampleLines, says_nothing};
use crate::row::{Heard, Why};
use crate::why::{WhyText, text_of_why};
use pmb_io::laws::texts_add_up;
use pmb_io::{InputLine, LineTask, RunFault, Sink, Tally, Waiting, put};
use pmb_recording::content;
use pmb_wire_names::Reason;
use pmb_wire_packets::WireReader;
use pmb_wires::Moment;

/// A recording of two wires as samples.
#[derive(Drop)]
pub struct Samples {
    /// Its lines.
    pub lines: SampleLines,
    /// What reads the wires.
    pub reader: WireReader,
}

/// Times are counted from 10^9 s before 0 on, in femtoseconds.
const ORIGIN: u128 = 1_000_000_000_000_000_000_000_000;

impl Samples {
    /// Nothing came yet. Runs shorter than `glitch` femtoseconds are spikes; SCL may be low within a
    /// packet for `timeout` thousandths of a second, or for any time if that is 0.
    pub fn new(options: &Options<'_>, glitch: u128, timeout: u64) -> Samples
        ensures { result ≡ start options.now glitch timeout }
    {
        Samples {
            lines: SampleLines::new(options),
            reader: WireReader::new(glitch, timeout, ORIGIN),
        }
    }

    /// Takes a line of the input.
    fn take_next<W: Sink>(
        &mut self,
        line: InputLine<'_>,
        waiting: &mut Waiting,
        writer: &mut W,
    ) -> Result<(), RunFault>
        ensures now { OnOk result (self.new ≡ (take_line self.old (line_text line.entry)).now) }
        ensures puts { OnOk result (PutsText (W.told writer.old).held waiting.old.items (W.told writer.new).held waiting.new.items (take_line self.old (line_text line.entry)).text) }
        ensures failed { WriterTells (W.told writer.old) (W.told writer.new) result }
    {
        let is_first = self.lines.line == 0;
        self.lines.count();
        self.take_content(content(is_first, line), waiting, writer)
    }

    /// Takes what a line holds.
    fn take_content<W: Sink>(
        &mut self,
        text: Option<&[u8]>,
        waiting: &mut Waiting,
        writer: &mut W,
    ) -> Result<(), RunFault>
        ensures now { OnOk result (self.new ≡ (content_step self.old (option_copied text.entry)).now) }
        ensures puts { OnOk result (PutsText (W.told writer.old).held waiting.old.items (W.told writer.new).held waiting.new.items (content_step self.old (option_copied text.entry)).text) }
        ensures failed { WriterTells (W.told writer.old) (W.told writer.new) result }
    {
        match text {
            Some(text) => self.take_text(text, waiting, writer),
            None => self.take_unread(waiting, writer),
        }
    }

    /// Takes the bytes of a line.
    fn take_text<W: Sink>(
        &mut self,
        text: &[u8],
        waiting: &mut Waiting,
        writer: &mut W,
    ) -> Result<(), RunFault>
        ensures now { OnOk result (self.new ≡ (text_step self.old text.now).now) }
        ensures puts { OnOk result (PutsText (W.told writer.old).held waiting.old.items (W.told writer.new).held waiting.new.items (text_step self.old text.now).text) }
        ensures failed { WriterTells (W.told writer.old) (W.told writer.new) result }
    {
        texts_add_up();
        self.lines.notice(text);
        if says_nothing(text) {
            return Ok(());
        }
        self.take_said(text, waiting, writer)
    }

    /// Takes a line that says something.
    fn take_said<W: Sink>(
        &mut self,
        text: &[u8],
        waiting: &mut Waiting,
        writer: &mut W,
    ) -> Result<(), RunFault>
        ensures now { OnOk result (self.new ≡ (said_step self.old text.now).now) }
        ensures puts { OnOk result (PutsText (W.told writer.old).held waiting.old.items (W.told writer.new).held waiting.new.items (said_step self.old text.now).text) }
        ensures failed { WriterTells (W.told writer.old) (W.told writer.new) result }
    {
        texts_add_up();
        match self.lines.place {
            Place::Head => self.take_head(text, waiting, writer),
            Place::Rows => self.take_row(text, waiting, writer),
            Place::Over => Ok(()),
        }
    }

    /// Takes a line in front of the rows.
    fn take_head<W: Sink>(
        &mut self,
        text: &[u8],
        waiting: &mut Waiting,
        writer: &mut W,
    ) -> Result<(), RunFault>
        ensures now { OnOk result (self.new ≡ (head_given self.old (head_line self.old.lines text.now)).now) }
        ensures puts { OnOk result (PutsText (W.told writer.old).held waiting.old.items (W.told writer.new).held waiting.new.items (head_given self.old (head_line self.old.lines text.now)).text) }
        ensures failed { WriterTells (W.told writer.old) (W.told writer.new) result }
    {
        let why = self.lines.hear_head(text);
        self.take_reason(&why, waiting, writer)
    }

    /// Takes a fault in words, if there is one.
    fn take_reason<W: Sink>(
        &mut self,
        why: &Option<Reason>,
        waiting: &mut Waiting,
        writer: &mut W,
    ) -> Result<(), RunFault>
        ensures now { OnOk result (self.new ≡ (faulted self.old (option_map items_of why.now)).now) }
        ensures puts { OnOk result (PutsText (W.told writer.old).held waiting.old.items (W.told writer.new).held waiting.new.items (faulted self.old (option_map items_of why.now)).text) }
        ensures failed { WriterTells (W.told writer.old) (W.told writer.new) result }
    {
        texts_add_up();
        match why {
            Some(why) => self.break_off(why.as_slice(), waiting, writer),
            None => Ok(()),
        }
    }

    /// Takes a fault of the line, in words.
    fn break_off<W: Sink>(
        &mut self,
        why: &[u8],
        waiting: &mut Waiting,
        writer: &mut W,
    ) -> Result<(), RunFault>
        ensures now { OnOk result (self.new ≡ (faulted self.old (Some why.now)).now) }
        ensures puts { OnOk result (PutsText (W.told writer.old).held waiting.old.items (W.told writer.new).held waiting.new.items (faulted self.old (Some why.now)).text) }
        ensures failed { WriterTells (W.told writer.old) (W.told writer.new) result }
    {
        self.reader.break_off(self.lines.line, why, waiting, writer)
    }

    /// Takes a row.
    fn take_row<W: Sink>(
        &mut self,
        text: &[u8],
        waiting: &mut Waiting,
        writer: &mut W,
    ) -> Result<(), RunFault>
        ensures now { OnOk result (self.new ≡ (row_given self.old (hear_row_step self.old.lines.rows self.old.lines.line text.now)).now) }
        ensures puts { OnOk result (PutsText (W.told writer.old).held waiting.old.items (W.told writer.new).held waiting.new.items (row_given self.old (hear_row_step self.old.lines.rows self.old.lines.line text.now)).text) }
        ensures failed { WriterTells (W.told writer.old) (W.told writer.new) result }
    {
        let heard = self.lines.hear_row(text);
        self.take_heard(heard, waiting, writer)
    }

    /// Takes what a row gives.
    fn take_heard<W: Sink>(
        &mut self,
        heard: Heard,
        waiting: &mut Waiting,
        writer: &mut W,
    ) -> Result<(), RunFault>
        ensures now { OnOk result (self.new ≡ (heard_by self.old heard).now) }
        ensures puts { OnOk result (PutsText (W.told writer.old).held waiting.old.items (W.told writer.new).held waiting.new.items (heard_by self.old heard).text) }
        ensures failed { WriterTells (W.told writer.old) (W.told writer.new) result }
    {
        texts_add_up();
        match heard {
            Heard::Nothing => Ok(()),
            Heard::Moment(moment) => self.take_moment(&moment, waiting, writer),
            Heard::Fault(why) => self.take_fault(why, waiting, writer),
        }
    }

    /// Takes what the wires have at a time.
    fn take_moment<W: Sink>(
        &mut self,
        moment: &Moment,
        waiting: &mut Waiting,
        writer: &mut W,
    ) -> Result<(), RunFault>
        ensures now { OnOk result (self.new ≡ (heard_by self.old (heard.Moment moment.now)).now) }
        ensures puts { OnOk result (PutsText (W.told writer.old).held waiting.old.items (W.told writer.new).held waiting.new.items (heard_by self.old (heard.Moment moment.now)).text) }
        ensures failed { WriterTells (W.told writer.old) (W.told writer.new) result }
    {
        self.reader.take(moment, waiting, writer)
    }

    /// Takes a fault of a row.
    fn take_fault<W: Sink>(
        &mut self,
        why: Why,
        waiting: &mut Waiting,
        writer: &mut W,
    ) -> Result<(), RunFault>
        ensures now { OnOk result (self.new ≡ (heard_by self.old (heard.Fault why)).now) }
        ensures puts { OnOk result (PutsText (W.told writer.old).held waiting.old.items (W.told writer.new).held waiting.new.items (heard_by self.old (heard.Fault why)).text) }
        ensures failed { WriterTells (W.told writer.old) (W.told writer.new) result }
    {
        let text: WhyText = text_of_why(why);
        self.break_off(text.as_slice(), waiting, writer)
    }

    /// Takes a line that can't be read.
    fn take_unread<W: Sink>(
        &mut self,
        waiting: &mut Waiting,
        writer: &mut W,
    ) -> Result<(), RunFault>
        ensures now { OnOk result (self.new ≡ (unread self.old).now) }
        ensures puts { OnOk result (PutsText (W.told writer.old).held waiting.old.items (W.told writer.new).held waiting.new.items (unread self.old).text) }
        ensures failed { WriterTells (W.told writer.old) (W.told writer.new) result }
    {
        texts_add_up();
        match self.lines.place {
            Place::Head => self.take_fault(Why::MakesNoSense, waiting, writer),
            Place::Rows => self.fail_row(waiting, writer),
            Place::Over => Ok(()),
        }
    }

    /// Takes such a line behind the heading.
    fn fail_row<W: Sink>(&mut self, waiting: &mut Waiting, writer: &mut W) -> Result<(), RunFault>
        ensures now { OnOk result (self.new ≡ (unread_at at.Rows self.old).now) }
        ensures puts { OnOk result (PutsText (W.told writer.old).held waiting.old.items (W.told writer.new).held waiting.new.items (unread_at at.Rows self.old).text) }
        ensures failed { WriterTells (W.told writer.old) (W.told writer.new) result }
    {
        let heard = self.lines.fail_row(Why::MakesNoSense);
        self.take_heard(heard, waiting, writer)
    }

    /// Takes the end of the lines.
    fn take_last<W: Sink>(&mut self, waiting: &mut Waiting, writer: &mut W) -> Result<(), RunFault>
        ensures now { OnOk result (self.new ≡ (take_end self.old).now) }
        ensures puts { OnOk result (PutsText (W.told writer.old).held waiting.old.items (W.told writer.new).held waiting.new.items (take_end self.old).text) }
        ensures failed { WriterTells (W.told writer.old) (W.told writer.new) result }
    {
        match self.lines.place {
            Place::Head => self.end_headless(waiting, writer),
            Place::Rows => self.end_reader(waiting, writer),
            Place::Over => self.end_reader(waiting, writer),
        }
    }

    /// Ends the wires.
    fn end_reader<W: Sink>(&mut self, waiting: &mut Waiting, writer: &mut W) -> Result<(), RunFault>
        ensures now { OnOk result (self.new ≡ (ended self.old).now) }
        ensures puts { OnOk result (PutsText (W.told writer.old).held waiting.old.items (W.told writer.new).held waiting.new.items (ended self.old).text) }
        ensures failed { WriterTells (W.told writer.old) (W.told writer.new) result }
    {
        self.reader.end(waiting, writer)
    }

    /// Ends a recording that has no heading.
    fn end_headless<W: Sink>(
        &mut self,
        waiting: &mut Waiting,
        writer: &mut W,
    ) -> Result<(), RunFault>
        ensures now { OnOk result (self.new ≡ (end_at at.Head self.old).now) }
        ensures puts { OnOk result (PutsText (W.told writer.old).held waiting.old.items (W.told writer.new).held waiting.new.items (end_at at.Head self.old).text) }
        ensures failed { WriterTells (W.told writer.old) (W.told writer.new) result }
    {
        texts_add_up();
        self.count_fault();
        put(waiting, b"# no line names SCL and SDA\n", writer)?;
        self.reader.end(waiting, writer)
    }

    /// Counts a fault that no line has.
    fn count_fault(&mut self)
        ensures { self.new ≡ with_fault self.old }
    {
        self.reader.packets.recording.troubles = self
            .reader
            .packets
            .recording
            .troubles
            .saturating_add(1);
    }
}

impl LineTask for Samples {
    ghost most = { most_line };

    ghost Stands = { Stands take_line take_end recording_of };

    ghost Ends = { Ends take_line take_end recording_of };

    ghost counted = { tally_of take_line take_end recording_of };

    ghost job = { importing take_line take_end recording_of };

    ghost writes_all = { imports_all take_line take_end recording_of };

    ghost writes_front = { λ start now bytes text stands. stands.told };

    fn take_line<W: Sink>(
        &mut self,
        line: InputLine<'_>,
        waiting: &mut Waiting,
        writer: &mut W,
    ) -> Result<(), RunFault> {
        self.take_next(line, waiting, writer)
    }

    fn end<W: Sink>(&mut self, waiting: &mut Waiting, writer: &mut W) -> Result<(), RunFault> {
        self.take_last(waiting, writer)
    }

    fn tally(&self) -> Tally {
        self.reader.packets.recording.tally()
    }
}
