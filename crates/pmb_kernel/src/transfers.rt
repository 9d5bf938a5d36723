//! Transfers of messages, put together event by event.

ghost use Rattle.std.specs.Prelude.{◌≡◌, ◌<◌, ◌∷◌, length, option_copied, OnOk, IfSome};
ghost use Rattle.pmb_io.specs.Calls.{WriterTells};
ghost use Rattle.pmb_io.specs.Lines.{line_text};
ghost use Rattle.pmb_io.specs.Outgoing.{PutsText};
ghost use Rattle.pmb_recording.specs.Recording.{at_loss};
ghost use Rattle.pmb_recording.specs.Told.{reason_of};
ghost use Rattle.pmb_trace.specs.Fields.{event_bus};
ghost use Rattle.pmb_trace.specs.Line.{in_seconds, trace_line as said_by};
ghost use Rattle.pmb_trace.specs.Views.{count_of, event_of};
ghost use Rattle.pmb_words.specs.Left.{pieces_left};
ghost use Rattle.pmb_kernel.specs.Events.{OfMessage};
ghost use Rattle.pmb_kernel.specs.Transfers.{event as event_step, fault as fault_step, follow};
ghost use Rattle.pmb_kernel.specs.Transfers.{is_of_messages as of_messages};
ghost use Rattle.pmb_kernel.specs.Transfers.{on};
ghost use Rattle.pmb_kernel.specs.Transfers.{start, stray as stray_step, take_end, take_line as line_step, take_said as said_step};
ghost use Rattle.pmb_kernel.specs.Views.{AreWords, IsShort, message_with, said};

use crate::events::{Message, Says, read_event};
use arrayvec::ArrayVec;
use pmb_io::laws::texts_add_up;
use pmb_io::{InputLine, RunFault, Sink, Waiting};
use pmb_recording::{Fault, Kind, Recording, content};
use pmb_trace::{Bytes, Event, EventKind, Loss, TraceLine, bus_field, event_time, trace_line};
use pmb_words::Pieces;

/// The most messages that read of a transfer: behind so many, no message has room. Linux takes 42
/// messages of a program.
pub const MOST_READS: usize = 1024;

/// A message that reads, whose reply is to come. 65,535 stands for what is greater: no packet has that
/// many messages, and no line shows that many bytes.
#[derive(Clone, Copy, Debug, PartialEq, Eq, Default)]
pub struct Read {
    /// The number of the message.
    pub number: u16,
    /// Its address.
    pub address: u8,
    /// Its flags.
    pub flags: u16,
    /// How many bytes it asks for.
    pub length: u16,
    /// How many bytes of the messages stand before what it reads.
    pub at: u16,
}

/// A recording of the kernel's events of `i2c`, and the transfer under way.
#[derive(Drop)]
pub struct Transfers {
    /// The recording so far.
    pub recording: Recording,
    /// How many messages the transfer has.
    pub messages: u64,
    /// Those that read.
    pub reads: ArrayVec<Read, MOST_READS>,
    /// How many of them have their reply.
    pub replies: usize,
    /// How many bytes these replies have.
    pub replied: usize,
}

impl Transfers {
    /// Nothing came yet.
    pub(crate) fn new(bus: Option<&[u8]>) -> Transfers
        ensures { result ≡ start (option_copied bus.entry) }
    {
        Transfers {
            recording: Recording::new(bus),
            messages: 0,
            reads: ArrayVec::new(),
            replies: 0,
            replied: 0,
        }
    }

    /// Takes a fault.
    pub(crate) fn fault<W: Sink>(
        &mut self,
        fault: Fault<'_>,
        waiting: &mut Waiting,
        writer: &mut W,
    ) -> Result<(), RunFault>
        ensures now { self.new ≡ (fault_step self.old (reason_of fault.entry)).now }
        ensures puts { OnOk result (PutsText (W.told writer.old).held waiting.old.items (W.told writer.new).held waiting.new.items (fault_step self.old (reason_of fault.entry)).text) }
        ensures failed { WriterTells (W.told writer.old) (W.told writer.new) result }
    {
        self.recording.take_fault(fault, waiting, writer)
    }

    /// Takes the next line. The bytes that it shows are kept meanwhile.
    pub(crate) fn take_line<W: Sink>(
        &mut self,
        line: InputLine<'_>,
        bytes: &mut Bytes,
        waiting: &mut Waiting,
        writer: &mut W,
    ) -> Result<(), RunFault>
        ensures now { OnOk result (self.new ≡ (line_step self.old (line_text line.entry)).now) }
        ensures puts { OnOk result (PutsText (W.told writer.old).held waiting.old.items (W.told writer.new).held waiting.new.items (line_step self.old (line_text line.entry)).text) }
        ensures failed { WriterTells (W.told writer.old) (W.told writer.new) result }
    {
        let is_first = self.recording.line == 0;
        self.recording.next_line();
        match content(is_first, line) {
            Some(text) => self.take_content(text, bytes, waiting, writer),
            None => self.fault(Fault::MakesNoSense, waiting, writer),
        }
    }

    /// Takes the bytes of a line.
    fn take_content<W: Sink>(
        &mut self,
        text: &[u8],
        bytes: &mut Bytes,
        waiting: &mut Waiting,
        writer: &mut W,
    ) -> Result<(), RunFault>
        requires { IsShort text.now }
        ensures now { OnOk result (self.new ≡ (said_step self.old (said_by text.now)).now) }
        ensures puts { OnOk result (PutsText (W.told writer.old).held waiting.old.items (W.told writer.new).held waiting.new.items (said_step self.old (said_by text.now)).text) }
        ensures failed { WriterTells (W.told writer.old) (W.told writer.new) result }
    {
        texts_add_up();
        match trace_line(text) {
            TraceLine::Nothing => Ok(()),
            TraceLine::Heading => self.recording.take_heading(waiting, writer),
            TraceLine::Lost(loss) => self.take_loss(loss, waiting, writer),
            TraceLine::Says(event) => self.take_event(event, bytes, waiting, writer),
        }
    }

    /// Takes a loss of events.
    fn take_loss<W: Sink>(
        &mut self,
        loss: Loss<'_>,
        waiting: &mut Waiting,
        writer: &mut W,
    ) -> Result<(), RunFault>
        ensures now { self.new ≡ (on self.old (at_loss self.old.recording (count_of loss.entry))).now }
        ensures puts { OnOk result (PutsText (W.told writer.old).held waiting.old.items (W.told writer.new).held waiting.new.items (on self.old (at_loss self.old.recording (count_of loss.entry))).text) }
        ensures failed { WriterTells (W.told writer.old) (W.told writer.new) result }
    {
        match loss {
            Loss::Some => self.recording.take_loss(None, waiting, writer),
            Loss::Written(count) => self.recording.take_loss(Some(count), waiting, writer),
            Loss::Number(count) => {
                let mut buffer = itoa::Buffer::new();
                let text = buffer.format(count).as_bytes();
                self.recording.take_loss(Some(text), waiting, writer)
            }
        }
    }

    /// Takes an event.
    fn take_event<W: Sink>(
        &mut self,
        event: Event<'_>,
        bytes: &mut Bytes,
        waiting: &mut Waiting,
        writer: &mut W,
    ) -> Result<(), RunFault>
        requires words { AreWords (pieces_left event.fields) }
        requires front { IsShort event.front.now }
        ensures now { OnOk result (self.new ≡ (event_step self.old (event_of event.entry)).now) }
        ensures puts { OnOk result (PutsText (W.told writer.old).held waiting.old.items (W.told writer.new).held waiting.new.items (event_step self.old (event_of event.entry)).text) }
        ensures failed { WriterTells (W.told writer.old) (W.told writer.new) result }
    {
        texts_add_up();
        if !is_of_messages(event.name.kind(), event.has_other) {
            self.recording.pass_other_kind();
            return Ok(());
        }
        let mut fields = event.fields;
        let Some(bus) = next_bus(&mut fields) else {
            return self.fault(Fault::MakesNoSense, waiting, writer);
        };
        self.recording.follow(bus);
        if !self.recording.is_followed(bus) {
            self.recording.pass_other_bus();
            return Ok(());
        }
        let said = read_event(event.name, fields, bytes);
        let time = event_time(event.front);
        self.take_said(time, &said, bytes.as_slice(), waiting, writer)
    }

    /// Takes what an event of the bus that is followed says.
    fn take_said<W: Sink>(
        &mut self,
        time: &[u8],
        says: &Says<'_>,
        bytes: &[u8],
        waiting: &mut Waiting,
        writer: &mut W,
    ) -> Result<(), RunFault>
        requires { IsShort time.now }
        ensures now { OnOk result (self.new ≡ (follow self.old (in_seconds time.now) (said says.now bytes.now)).now) }
        ensures puts { OnOk result (PutsText (W.told writer.old).held waiting.old.items (W.told writer.new).held waiting.new.items (follow self.old (in_seconds time.now) (said says.now bytes.now)).text) }
        ensures failed { WriterTells (W.told writer.old) (W.told writer.new) result }
    {
        match says {
            Says::Message(message) => self.take_message(time, message, bytes, waiting, writer),
            Says::Result(count, outcome) => self.follow_result(*count, outcome, waiting, writer),
            Says::Nothing => self.fault(Fault::MakesNoSense, waiting, writer),
        }
    }

    /// Takes a message, or a reply, unless it is a fault by itself.
    fn take_message<W: Sink>(
        &mut self,
        time: &[u8],
        message: &Message<'_>,
        bytes: &[u8],
        waiting: &mut Waiting,
        writer: &mut W,
    ) -> Result<(), RunFault>
        requires { IsShort time.now }
        ensures now { OnOk result (self.new ≡ (follow self.old (in_seconds time.now) (OfMessage (message_with message.now bytes.now))).now) }
        ensures puts { OnOk result (PutsText (W.told writer.old).held waiting.old.items (W.told writer.new).held waiting.new.items (follow self.old (in_seconds time.now) (OfMessage (message_with message.now bytes.now))).text) }
        ensures failed { WriterTells (W.told writer.old) (W.told writer.new) result }
    {
        match message.own_fault(bytes) {
            Some(fault) => self.fault(fault, waiting, writer),
            None => self.follow_message(time, message, bytes, waiting, writer),
        }
    }

    /// Takes what can't begin a packet, where none is under way.
    pub(crate) fn take_stray<W: Sink>(
        &mut self,
        waiting: &mut Waiting,
        writer: &mut W,
    ) -> Result<(), RunFault>
        ensures now { self.new ≡ (stray_step self.old).now }
        ensures puts { OnOk result (PutsText (W.told writer.old).held waiting.old.items (W.told writer.new).held waiting.new.items (stray_step self.old).text) }
        ensures failed { WriterTells (W.told writer.old) (W.told writer.new) result }
    {
        texts_add_up();
        if self.recording.is_skipping {
            return Ok(());
        }
        self.fault(Fault::DoesNotFollow, waiting, writer)
    }

    /// Takes the end of the recording.
    pub(crate) fn end<W: Sink>(
        &mut self,
        waiting: &mut Waiting,
        writer: &mut W,
    ) -> Result<(), RunFault>
        ensures now { self.new ≡ (take_end self.old).now }
        ensures puts { OnOk result (PutsText (W.told writer.old).held waiting.old.items (W.told writer.new).held waiting.new.items (take_end self.old).text) }
        ensures failed { WriterTells (W.told writer.old) (W.told writer.new) result }
    {
        self.recording.end(Some(Kind::Smbus), waiting, writer)
    }
}

/// Whether an event is one of messages, and names none of the other kind.
fn is_of_messages(kind: EventKind, has_other: bool) -> bool
    ensures { result ≡ of_messages kind has_other }
{
    match kind {
        EventKind::I2c => !has_other,
        EventKind::Smbus => false,
    }
}

/// The bus of an event, by the first of its fields.
fn next_bus<'a>(fields: &mut Pieces<'a>) -> Option<&'a [u8]>
    ensures bus { option_copied result ≡ event_bus (pieces_left fields.old) }
    ensures left { IfSome result (λ bus. pieces_left fields.old ≡ bus.now ∷ pieces_left fields.new) }
{
    bus_field(fields.next_piece()?)
}
