//! Packets, put together from the rows of a table of Logic 2.

ghost use Rattle.std.specs.Prelude.{◌≡◌, ◌≤◌, Some, false, length, option_copied, OnOk};
ghost use Rattle.pmb_csv.specs.Columns.{has_quote};
ghost use Rattle.pmb_csv.specs.Fields.{record_of};
ghost use Rattle.pmb_csv.specs.Left.{text_of};
ghost use Rattle.pmb_io.specs.Calls.{WriterTells};
ghost use Rattle.pmb_io.specs.Lines.{line_text};
ghost use Rattle.pmb_io.specs.Outgoing.{PutsText};
ghost use Rattle.pmb_recording.specs.Content.{most_content, most_line};
ghost use Rattle.pmb_recording.specs.Recording.{following, most_text};
ghost use Rattle.pmb_recording.specs.Runs.{Ends, Stands, importing, tally_of};
ghost use Rattle.pmb_recording.specs.Told.{reason_of};
ghost use Rattle.pmb_recording.proofs.Runs.{imports_all};
ghost use Rattle.pmb_saleae.specs.Packets.{add_byte, begin as begin_step, fault as fault_step, follow, inside, on_bus, outside};
ghost use Rattle.pmb_saleae.specs.Packets.{refuse as refuse_step, skip as skip_step, start, take_content as content_step, take_end, take_line};
ghost use Rattle.pmb_saleae.specs.Packets.{take_fields as fields_step, take_named as named_step, take_record as record_step, take_row as row_step};
ghost use Rattle.pmb_saleae.specs.Row.{value_if};
ghost use Rattle.pmb_saleae.specs.declared.event.Event.TheVariants as event;

use crate::bus::{Bus, follow_field};
use crate::columns::{Columns, heading};
use crate::event::{Event, event_of, settled};
use crate::exponent::written_out;
use crate::number::Radix;
use crate::row::Row;
use crate::time::{Unit, time_unit};
use pmb_csv::Field;
use pmb_io::laws::texts_add_up;
use pmb_io::{InputLine, LineTask, RunFault, Sink, Tally, Waiting};
use pmb_recording::{Fault, Recording, WireByte, content};

/// A recording of Logic 2, and where its packet stands.
#[derive(Drop)]
pub struct Saleae {
    /// The recording so far.
    pub recording: Recording,
    /// The columns, where they are known.
    pub columns: Option<Columns>,
    /// How bytes are written, where that is known.
    pub radix: Option<Radix>,
    /// The packet under way stands behind a START.
    pub is_at_start: bool,
}

impl Saleae {
    /// Nothing came yet. The analyzer of a name is followed, or that of the first row.
    pub fn new(bus: Option<&[u8]>) -> Saleae
        ensures { result ≡ start (option_copied bus.entry) }
    {
        Saleae {
            recording: Recording::new(bus),
            columns: None,
            radix: None,
            is_at_start: false,
        }
    }

    /// Takes a fault.
    fn fault<W: Sink>(
        &mut self,
        fault: Fault<'_>,
        waiting: &mut Waiting,
        writer: &mut W,
    ) -> Result<(), RunFault>
        ensures now { self.new ≡ (fault_step self.old (reason_of fault.entry)).now }
        ensures puts { OnOk result (PutsText (W.told writer.old).held waiting.old.items (W.told writer.new).held waiting.new.items (fault_step self.old (reason_of fault.entry)).text) }
        ensures failed { WriterTells (W.told writer.old) (W.told writer.new) result }
    {
        self.recording.take_fault(fault, waiting, writer)
    }

    /// Takes a line of the input.
    fn take_next<W: Sink>(
        &mut self,
        line: InputLine<'_>,
        waiting: &mut Waiting,
        writer: &mut W,
    ) -> Result<(), RunFault>
        ensures now { self.new ≡ (take_line self.old (line_text line.entry)).now }
        ensures puts { OnOk result (PutsText (W.told writer.old).held waiting.old.items (W.told writer.new).held waiting.new.items (take_line self.old (line_text line.entry)).text) }
        ensures failed { WriterTells (W.told writer.old) (W.told writer.new) result }
    {
        let is_first = self.recording.line == 0;
        self.recording.next_line();
        match content(is_first, line) {
            Some(text) => self.take_content(text, waiting, writer),
            None => self.fault(Fault::MakesNoSense, waiting, writer),
        }
    }

    /// Takes the bytes of the next line.
    fn take_content<W: Sink>(
        &mut self,
        text: &[u8],
        waiting: &mut Waiting,
        writer: &mut W,
    ) -> Result<(), RunFault>
        requires short { length text.now ≤ most_content }
        ensures now { self.new ≡ (content_step self.old (Some text.now)).now }
        ensures puts { OnOk result (PutsText (W.told writer.old).held waiting.old.items (W.told writer.new).held waiting.new.items (content_step self.old (Some text.now)).text) }
        ensures failed { WriterTells (W.told writer.old) (W.told writer.new) result }
    {
        texts_add_up();
        if text.is_empty() {
            return Ok(());
        }
        self.take_record(text, waiting, writer)
    }

    /// Takes a line that is not blank: a heading, or a row.
    fn take_record<W: Sink>(
        &mut self,
        line: &[u8],
        waiting: &mut Waiting,
        writer: &mut W,
    ) -> Result<(), RunFault>
        requires short { length line.now ≤ most_content }
        ensures now { self.new ≡ (record_step self.old (record_of line.now)).now }
        ensures puts { OnOk result (PutsText (W.told writer.old).held waiting.old.items (W.told writer.new).held waiting.new.items (record_step self.old (record_of line.now)).text) }
        ensures failed { WriterTells (W.told writer.old) (W.told writer.new) result }
    {
        if let Some(columns) = heading(line) {
            self.columns = Some(columns);
            return self.recording.take_heading(waiting, writer);
        }
        match self.columns {
            Some(columns) => self.take_fields(&Row { columns, line }, waiting, writer),
            None => self.fault(Fault::MakesNoSense, waiting, writer),
        }
    }

    /// Takes a line under a heading: a row if it has as many fields.
    fn take_fields<W: Sink>(
        &mut self,
        row: &Row<'_>,
        waiting: &mut Waiting,
        writer: &mut W,
    ) -> Result<(), RunFault>
        requires short { length row.now.line.now ≤ most_content }
        ensures now { self.new ≡ (fields_step self.old row.now.columns (record_of row.now.line.now)).now }
        ensures puts { OnOk result (PutsText (W.told writer.old).held waiting.old.items (W.told writer.new).held waiting.new.items (fields_step self.old row.now.columns (record_of row.now.line.now)).text) }
        ensures failed { WriterTells (W.told writer.old) (W.told writer.new) result }
    {
        if !row.is_whole() {
            return self.fault(Fault::MakesNoSense, waiting, writer);
        }
        self.take_named(&row.name(), row, waiting, writer)
    }

    /// Takes a row with the name of an analyzer, which may be empty.
    fn take_named<W: Sink>(
        &mut self,
        name: &Field<'_>,
        row: &Row<'_>,
        waiting: &mut Waiting,
        writer: &mut W,
    ) -> Result<(), RunFault>
        requires name { length (text_of name.now) ≤ most_text }
        requires short { length row.now.line.now ≤ most_content }
        ensures now { self.new ≡ (named_step self.old (text_of name.now) row.now.columns (record_of row.now.line.now)).now }
        ensures puts { OnOk result (PutsText (W.told writer.old).held waiting.old.items (W.told writer.new).held waiting.new.items (named_step self.old (text_of name.now) row.now.columns (record_of row.now.line.now)).text) }
        ensures failed { WriterTells (W.told writer.old) (W.told writer.new) result }
    {
        if name.is(b"") {
            return self.fault(Fault::MakesNoSense, waiting, writer);
        }
        self.take_on_bus(name, row, waiting, writer)
    }

    /// Takes a row of an analyzer.
    fn take_on_bus<W: Sink>(
        &mut self,
        name: &Field<'_>,
        row: &Row<'_>,
        waiting: &mut Waiting,
        writer: &mut W,
    ) -> Result<(), RunFault>
        requires name { length (text_of name.now) ≤ most_text }
        requires short { length row.now.line.now ≤ most_content }
        ensures now { self.new ≡ (on_bus (record self.old { recording = following self.old.recording (text_of name.now) }) (text_of name.now) row.now.columns (record_of row.now.line.now)).now }
        ensures puts { OnOk result (PutsText (W.told writer.old).held waiting.old.items (W.told writer.new).held waiting.new.items (on_bus (record self.old { recording = following self.old.recording (text_of name.now) }) (text_of name.now) row.now.columns (record_of row.now.line.now)).text) }
        ensures failed { WriterTells (W.told writer.old) (W.told writer.new) result }
    {
        texts_add_up();
        match follow_field(&mut self.recording, name) {
            Bus::Followed => self.take_row(row, waiting, writer),
            Bus::Cut => self.fault(Fault::MakesNoSense, waiting, writer),
            Bus::Other => {
                self.recording.pass_other_bus();
                Ok(())
            }
        }
    }

    /// Takes a row of the analyzer that is followed.
    fn take_row<W: Sink>(
        &mut self,
        row: &Row<'_>,
        waiting: &mut Waiting,
        writer: &mut W,
    ) -> Result<(), RunFault>
        requires short { length row.now.line.now ≤ most_content }
        ensures now { self.new ≡ (row_step self.old row.now.columns (record_of row.now.line.now)).now }
        ensures puts { OnOk result (PutsText (W.told writer.old).held waiting.old.items (W.told writer.new).held waiting.new.items (row_step self.old row.now.columns (record_of row.now.line.now)).text) }
        ensures failed { WriterTells (W.told writer.old) (W.told writer.new) result }
    {
        let number = row.number();
        self.radix = settled(self.radix, number);
        match event_of(self.radix, row, number) {
            Some(event) => self.take_event(event, row, waiting, writer),
            None => self.fault(Fault::MakesNoSense, waiting, writer),
        }
    }

    /// Takes what a row gives.
    fn take_event<W: Sink>(
        &mut self,
        event: Event,
        row: &Row<'_>,
        waiting: &mut Waiting,
        writer: &mut W,
    ) -> Result<(), RunFault>
        requires short { length row.now.line.now ≤ most_content }
        ensures now { self.new ≡ (follow self.old (value_if row.now.columns.start_time (record_of row.now.line.now)) event self.old.recording.packet).now }
        ensures puts { OnOk result (PutsText (W.told writer.old).held waiting.old.items (W.told writer.new).held waiting.new.items (follow self.old (value_if row.now.columns.start_time (record_of row.now.line.now)) event self.old.recording.packet).text) }
        ensures failed { WriterTells (W.told writer.old) (W.told writer.new) result }
    {
        if self.recording.packet.is_some() {
            return self.take_inside(event, waiting, writer);
        }
        self.take_outside(event, row, waiting, writer)
    }

    /// Takes an event where a packet is under way.
    fn take_inside<W: Sink>(
        &mut self,
        event: Event,
        waiting: &mut Waiting,
        writer: &mut W,
    ) -> Result<(), RunFault>
        ensures now { self.new ≡ (inside self.old event).now }
        ensures puts { OnOk result (PutsText (W.told writer.old).held waiting.old.items (W.told writer.new).held waiting.new.items (inside self.old event).text) }
        ensures failed { WriterTells (W.told writer.old) (W.told writer.new) result }
    {
        texts_add_up();
        match event {
            Event::Start if !self.is_at_start => {
                self.recording.give();
                self.is_at_start = true;
                Ok(())
            }
            Event::Stop if !self.is_at_start => self.recording.end_packet(waiting, writer),
            Event::Address(b) if self.is_at_start => self.put_byte(b, waiting, writer),
            Event::Data(b) if !self.is_at_start => self.put_byte(b, waiting, writer),
            _ => self.refuse(event, waiting, writer),
        }
    }

    /// Takes an event where no packet is under way.
    fn take_outside<W: Sink>(
        &mut self,
        event: Event,
        row: &Row<'_>,
        waiting: &mut Waiting,
        writer: &mut W,
    ) -> Result<(), RunFault>
        requires short { length row.now.line.now ≤ most_content }
        ensures now { self.new ≡ (outside self.old (value_if row.now.columns.start_time (record_of row.now.line.now)) event).now }
        ensures puts { OnOk result (PutsText (W.told writer.old).held waiting.old.items (W.told writer.new).held waiting.new.items (outside self.old (value_if row.now.columns.start_time (record_of row.now.line.now)) event).text) }
        ensures failed { WriterTells (W.told writer.old) (W.told writer.new) result }
    {
        texts_add_up();
        if self.recording.is_skipping {
            self.skip(event);
            return Ok(());
        }
        match event {
            Event::Start => self.begin(row, waiting, writer),
            Event::Stop | Event::Address(_) | Event::Data(_) => self.refuse(event, waiting, writer),
        }
    }

    /// Skips an event. STOP is the last that is skipped.
    fn skip(&mut self, event: Event)
        ensures { self.new ≡ skip_step self.old event }
    {
        match event {
            Event::Stop => self.recording.end_skipping(),
            Event::Start | Event::Address(_) | Event::Data(_) => {}
        }
    }

    /// Begins a packet, at the time of a row.
    fn begin<W: Sink>(
        &mut self,
        row: &Row<'_>,
        waiting: &mut Waiting,
        writer: &mut W,
    ) -> Result<(), RunFault>
        requires short { length row.now.line.now ≤ most_content }
        ensures now { self.new ≡ (begin_step self.old (value_if row.now.columns.start_time (record_of row.now.line.now)) event.Start).now }
        ensures puts { OnOk result (PutsText (W.told writer.old).held waiting.old.items (W.told writer.new).held waiting.new.items (begin_step self.old (value_if row.now.columns.start_time (record_of row.now.line.now)) event.Start).text) }
        ensures failed { WriterTells (W.told writer.old) (W.told writer.new) result }
    {
        match row.start_time() {
            Some(time) => self.begin_at(time, waiting, writer),
            None => self.begin_at(b"", waiting, writer),
        }
    }

    /// Begins a packet at a time, or at none where the text is no time.
    fn begin_at<W: Sink>(
        &mut self,
        time: &[u8],
        waiting: &mut Waiting,
        writer: &mut W,
    ) -> Result<(), RunFault>
        requires plain { has_quote time.now ≡ false }
        requires short { length time.now ≤ most_content }
        ensures now { self.new ≡ (begin_step self.old time.now event.Start).now }
        ensures puts { OnOk result (PutsText (W.told writer.old).held waiting.old.items (W.told writer.new).held waiting.new.items (begin_step self.old time.now event.Start).text) }
        ensures failed { WriterTells (W.told writer.old) (W.told writer.new) result }
    {
        self.is_at_start = true;
        match time_unit(time) {
            Some(Unit::Seconds) => self.recording.begin(time, b" s", waiting, writer),
            Some(Unit::Date) => self.recording.begin(time, b"", waiting, writer),
            None => {
                let seconds = written_out(time);
                self.recording
                    .begin(seconds.as_slice(), b" s", waiting, writer)
            }
        }
    }

    /// Takes an event that does not follow. Reading goes on behind a STOP.
    fn refuse<W: Sink>(
        &mut self,
        event: Event,
        waiting: &mut Waiting,
        writer: &mut W,
    ) -> Result<(), RunFault>
        ensures now { self.new ≡ (refuse_step self.old event).now }
        ensures puts { OnOk result (PutsText (W.told writer.old).held waiting.old.items (W.told writer.new).held waiting.new.items (refuse_step self.old event).text) }
        ensures failed { WriterTells (W.told writer.old) (W.told writer.new) result }
    {
        self.recording.take_fault_ending(
            Fault::DoesNotFollow,
            event == Event::Stop,
            waiting,
            writer,
        )
    }

    /// Adds a byte to the packet under way, if it has room.
    fn put_byte<W: Sink>(
        &mut self,
        b: WireByte,
        waiting: &mut Waiting,
        writer: &mut W,
    ) -> Result<(), RunFault>
        ensures now { self.new ≡ (add_byte self.old b).now }
        ensures puts { OnOk result (PutsText (W.told writer.old).held waiting.old.items (W.told writer.new).held waiting.new.items (add_byte self.old b).text) }
        ensures failed { WriterTells (W.told writer.old) (W.told writer.new) result }
    {
        texts_add_up();
        if self.recording.wire.is_full() {
            return self.recording.drop_long(false, waiting, writer);
        }
        self.recording.wire.push(b);
        self.recording.give();
        self.is_at_start = false;
        Ok(())
    }
}

impl LineTask for Saleae {
    ghost most = { most_line };

    ghost Stands = { Stands take_line take_end (λ saleae. saleae.recording) };

    ghost Ends = { Ends take_line take_end (λ saleae. saleae.recording) };

    ghost counted = { tally_of take_line take_end (λ saleae. saleae.recording) };

    ghost job = { importing take_line take_end (λ saleae. saleae.recording) };

    ghost writes_all = { imports_all take_line take_end (λ saleae. saleae.recording) };

    ghost writes_front = { λ start now bytes text stands. stands.told };

    fn take_line<W: Sink>(
        &mut self,
        line: InputLine<'_>,
        waiting: &mut Waiting,
        writer: &mut W,
    ) -> Result<(), RunFault> {
        self.take_next(line, waiting, writer)
    }

    fn end<W: Sink>(&mut self, waiting: &mut Waiting, writer: &mut W) -> Result<(), RunFault> {
        self.recording.end(None, waiting, writer)
    }

    fn tally(&self) -> Tally {
        self.recording.tally()
    }
}
