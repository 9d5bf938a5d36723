//! SMBus transfers, put together from the kernel's events of `smbus`.

ghost use Rattle.std.specs.Prelude.{◌≡◌, ◌≤◌, IfSome, OnOk, Some, length, option_copied};
ghost use Rattle.pmb_io.specs.Calls.{WriterTells};
ghost use Rattle.pmb_io.specs.Outgoing.{PutsText};
ghost use Rattle.pmb_io.specs.Lines.{line_text};
ghost use Rattle.pmb_recording.specs.Content.{most_content};
ghost use Rattle.pmb_recording.specs.Recording.{at_loss, tally_of};
ghost use Rattle.pmb_recording.specs.Told.{reason_of};
ghost use Rattle.pmb_trace.specs.Line.{in_seconds, kind_of, trace_line as traced};
ghost use Rattle.pmb_trace.specs.declared.event_name.EventKind.TheVariants.{Smbus};
ghost use Rattle.pmb_trace.specs.Views.{count_of, event_of};
ghost use Rattle.pmb_words.specs.Left.{pieces_left};
ghost use Rattle.pmb_smbus.specs.Events as events;
ghost use Rattle.pmb_smbus.specs.Transfers as steps;
ghost use Rattle.pmb_smbus.specs.Views.{IsShortEvent, said as said_with};

use crate::events::{Says, read_event};
use crate::transfer::Transfer;
use pmb_io::laws::texts_add_up;
use pmb_io::{InputLine, RunFault, Sink, Tally, Waiting, put};
use pmb_recording::{Fault, Kind, Recording, content};
use pmb_trace::{Bytes, Event, EventKind, Loss, TraceLine, bus_field, event_time, trace_line};

/// A recording of the kernel's events of `smbus`, and the transfer under way.
#[derive(Drop)]
pub struct Transfers {
    /// The recording so far.
    pub recording: Recording,
    /// The transfer under way.
    pub transfer: Transfer,
    /// How many packet error codes were computed.
    pub error_codes: u64,
}

impl Transfers {
    /// Nothing came yet.
    pub(crate) fn new(bus: Option<&[u8]>) -> Transfers
        ensures { result ≡ steps.start (option_copied bus.entry) }
    {
        Transfers {
            recording: Recording::new(bus),
            transfer: Transfer::new(),
            error_codes: 0,
        }
    }

    /// Takes the next line.
    pub(crate) fn take_line<W: Sink>(
        &mut self,
        line: InputLine<'_>,
        bytes: &mut Bytes,
        waiting: &mut Waiting,
        writer: &mut W,
    ) -> Result<(), RunFault>
        ensures now { self.new ≡ (steps.take_line self.old (line_text line.entry)).now }
        ensures puts { OnOk result (PutsText (W.told writer.old).held waiting.old.items (W.told writer.new).held waiting.new.items (steps.take_line self.old (line_text line.entry)).text) }
        ensures failed { WriterTells (W.told writer.old) (W.told writer.new) result }
    {
        let is_first = self.recording.line == 0;
        self.recording.next_line();
        self.take_content(content(is_first, line), bytes, waiting, writer)
    }

    /// Takes what a line holds.
    fn take_content<W: Sink>(
        &mut self,
        text: Option<&[u8]>,
        bytes: &mut Bytes,
        waiting: &mut Waiting,
        writer: &mut W,
    ) -> Result<(), RunFault>
        requires { IfSome text (λ text. length text.now ≤ most_content) }
        ensures now { self.new ≡ (steps.take_content self.old (option_copied text.entry)).now }
        ensures puts { OnOk result (PutsText (W.told writer.old).held waiting.old.items (W.told writer.new).held waiting.new.items (steps.take_content self.old (option_copied text.entry)).text) }
        ensures failed { WriterTells (W.told writer.old) (W.told writer.new) result }
    {
        match text {
            Some(text) => self.take_text(text, bytes, waiting, writer),
            None => self.fault(Fault::MakesNoSense, waiting, writer),
        }
    }

    /// Takes the bytes of a line.
    fn take_text<W: Sink>(
        &mut self,
        text: &[u8],
        bytes: &mut Bytes,
        waiting: &mut Waiting,
        writer: &mut W,
    ) -> Result<(), RunFault>
        requires { length text.now ≤ most_content }
        ensures now { self.new ≡ (steps.take_said self.old (traced text.now)).now }
        ensures puts { OnOk result (PutsText (W.told writer.old).held waiting.old.items (W.told writer.new).held waiting.new.items (steps.take_said self.old (traced text.now)).text) }
        ensures failed { WriterTells (W.told writer.old) (W.told writer.new) result }
    {
        texts_add_up();
        match trace_line(text) {
            TraceLine::Nothing => Ok(()),
            TraceLine::Heading => self.recording.take_heading(waiting, writer),
            TraceLine::Lost(loss) => self.take_loss(loss, waiting, writer),
            TraceLine::Says(event) => self.take_event(event, bytes, waiting, writer),
        }
    }

    /// Takes a loss of events.
    fn take_loss<W: Sink>(
        &mut self,
        loss: Loss<'_>,
        waiting: &mut Waiting,
        writer: &mut W,
    ) -> Result<(), RunFault>
        ensures now { self.new ≡ (steps.on self.old (at_loss self.old.recording (count_of loss.entry))).now }
        ensures puts { OnOk result (PutsText (W.told writer.old).held waiting.old.items (W.told writer.new).held waiting.new.items (steps.on self.old (at_loss self.old.recording (count_of loss.entry))).text) }
        ensures failed { WriterTells (W.told writer.old) (W.told writer.new) result }
    {
        match loss {
            Loss::Some => self.recording.take_loss(None, waiting, writer),
            Loss::Written(count) => self.recording.take_loss(Some(count), waiting, writer),
            Loss::Number(count) => {
                let mut buffer = itoa::Buffer::new();
                let text = buffer.format(count).as_bytes();
                self.recording.take_loss(Some(text), waiting, writer)
            }
        }
    }

    /// Takes an event.
    fn take_event<W: Sink>(
        &mut self,
        event: Event<'_>,
        bytes: &mut Bytes,
        waiting: &mut Waiting,
        writer: &mut W,
    ) -> Result<(), RunFault>
        requires { IsShortEvent (event_of event) }
        ensures now { self.new ≡ (steps.event self.old (event_of event.entry) (steps.event_says (event_of event.entry))).now }
        ensures puts { OnOk result (PutsText (W.told writer.old).held waiting.old.items (W.told writer.new).held waiting.new.items (steps.event self.old (event_of event.entry) (steps.event_says (event_of event.entry))).text) }
        ensures failed { WriterTells (W.told writer.old) (W.told writer.new) result }
    {
        texts_add_up();
        match event.name.kind() {
            EventKind::Smbus if !event.has_other => self.take_own(event, bytes, waiting, writer),
            _ => {
                self.recording.pass_other_kind();
                Ok(())
            }
        }
    }

    /// Takes an event of SMBus.
    fn take_own<W: Sink>(
        &mut self,
        event: Event<'_>,
        bytes: &mut Bytes,
        waiting: &mut Waiting,
        writer: &mut W,
    ) -> Result<(), RunFault>
        requires kind { kind_of event.name ≡ Smbus }
        requires short { IsShortEvent (event_of event) }
        ensures now { self.new ≡ (steps.event self.old (event_of event.entry) (steps.says event.entry.name (pieces_left event.entry.fields))).now }
        ensures puts { OnOk result (PutsText (W.told writer.old).held waiting.old.items (W.told writer.new).held waiting.new.items (steps.event self.old (event_of event.entry) (steps.says event.entry.name (pieces_left event.entry.fields))).text) }
        ensures failed { WriterTells (W.told writer.old) (W.told writer.new) result }
    {
        let mut fields = event.fields;
        let Some(word) = fields.next_piece() else {
            return self.fault(Fault::MakesNoSense, waiting, writer);
        };
        let said = read_event(event.name, fields, bytes);
        let time = event_time(event.front);
        match bus_field(word) {
            Some(bus) => self.take_of_bus(bus, time, said, bytes.as_slice(), waiting, writer),
            None => self.fault(Fault::MakesNoSense, waiting, writer),
        }
    }

    /// Takes an event of a bus.
    fn take_of_bus<W: Sink>(
        &mut self,
        bus: &[u8],
        time: &[u8],
        said: Says<'_>,
        bytes: &[u8],
        waiting: &mut Waiting,
        writer: &mut W,
    ) -> Result<(), RunFault>
        requires bus { length bus.now ≤ most_content }
        requires time { length time.now ≤ most_content }
        ensures now { self.new ≡ (steps.if_bus self.old (Some bus.now) (in_seconds time.now) (said_with said.entry bytes.now)).now }
        ensures puts { OnOk result (PutsText (W.told writer.old).held waiting.old.items (W.told writer.new).held waiting.new.items (steps.if_bus self.old (Some bus.now) (in_seconds time.now) (said_with said.entry bytes.now)).text) }
        ensures failed { WriterTells (W.told writer.old) (W.told writer.new) result }
    {
        texts_add_up();
        self.recording.follow(bus);
        if !self.recording.is_followed(bus) {
            self.recording.pass_other_bus();
            return Ok(());
        }
        self.take_said(time, said, bytes, waiting, writer)
    }

    /// Takes what an event says.
    fn take_said<W: Sink>(
        &mut self,
        time: &[u8],
        said: Says<'_>,
        bytes: &[u8],
        waiting: &mut Waiting,
        writer: &mut W,
    ) -> Result<(), RunFault>
        requires { length time.now ≤ most_content }
        ensures now { self.new ≡ (steps.follow self.old (in_seconds time.now) (said_with said.entry bytes.now)).now }
        ensures puts { OnOk result (PutsText (W.told writer.old).held waiting.old.items (W.told writer.new).held waiting.new.items (steps.follow self.old (in_seconds time.now) (said_with said.entry bytes.now)).text) }
        ensures failed { WriterTells (W.told writer.old) (W.told writer.new) result }
    {
        match said {
            Says::Writes(message) => self.take_write(time, message, bytes, waiting, writer),
            Says::Reads(front) => self.take_read(time, front, waiting, writer),
            Says::Replies(message) => self.take_reply(message, bytes, waiting, writer),
            Says::Result(front, writes, outcome) => {
                self.take_result(front, writes, outcome, waiting, writer)
            }
            Says::Nothing => self.fault(Fault::MakesNoSense, waiting, writer),
        }
    }

    /// Takes what can't begin a packet, where none is under way.
    pub(crate) fn take_stray<W: Sink>(
        &mut self,
        waiting: &mut Waiting,
        writer: &mut W,
    ) -> Result<(), RunFault>
        ensures now { self.new ≡ (steps.stray self.old).now }
        ensures puts { OnOk result (PutsText (W.told writer.old).held waiting.old.items (W.told writer.new).held waiting.new.items (steps.stray self.old).text) }
        ensures failed { WriterTells (W.told writer.old) (W.told writer.new) result }
    {
        texts_add_up();
        if self.recording.is_skipping {
            return Ok(());
        }
        self.fault(Fault::DoesNotFollow, waiting, writer)
    }

    /// Takes a fault.
    pub(crate) fn fault<W: Sink>(
        &mut self,
        fault: Fault<'_>,
        waiting: &mut Waiting,
        writer: &mut W,
    ) -> Result<(), RunFault>
        ensures now { self.new ≡ (steps.fault self.old (reason_of fault.entry)).now }
        ensures puts { OnOk result (PutsText (W.told writer.old).held waiting.old.items (W.told writer.new).held waiting.new.items (steps.fault self.old (reason_of fault.entry)).text) }
        ensures failed { WriterTells (W.told writer.old) (W.told writer.new) result }
    {
        self.recording.take_fault(fault, waiting, writer)
    }

    /// Takes the end.
    pub(crate) fn end<W: Sink>(
        &mut self,
        waiting: &mut Waiting,
        writer: &mut W,
    ) -> Result<(), RunFault>
        ensures now { self.new ≡ (steps.take_end self.old).now }
        ensures puts { OnOk result (PutsText (W.told writer.old).held waiting.old.items (W.told writer.new).held waiting.new.items (steps.take_end self.old).text) }
        ensures failed { WriterTells (W.told writer.old) (W.told writer.new) result }
    {
        texts_add_up();
        self.recording.end(Some(Kind::I2c), waiting, writer)?;
        put_error_codes(self.error_codes, waiting, writer)
    }

    /// Packets, and what tells that something is missing.
    pub(crate) fn tally(&self) -> Tally
        ensures { result ≡ tally_of self.now.recording }
    {
        self.recording.tally()
    }
}

/// Puts out how many packet error codes were computed, where there are any.
fn put_error_codes<W: Sink>(
    count: u64,
    waiting: &mut Waiting,
    writer: &mut W,
) -> Result<(), RunFault>
    ensures puts { OnOk result (PutsText (W.told writer.old).held waiting.old.items (W.told writer.new).held waiting.new.items (steps.error_codes_line count)) }
    ensures failed { WriterTells (W.told writer.old) (W.told writer.new) result }
{
    texts_add_up();
    if count == 0 {
        return Ok(());
    }
    put(waiting, b"# ", writer)?;
    let mut buffer = itoa::Buffer::new();
    put(waiting, buffer.format(count).as_bytes(), writer)?;
    put(
        waiting,
        b" error codes are computed, since the recording shows none\n",
        writer,
    )
}
