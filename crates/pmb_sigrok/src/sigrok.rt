//! Packets, put together from the lines of sigrok's I2C decoder.

ghost use Rattle.std.specs.Prelude.{◌≡◌, ◌<◌, ◌≤◌, length, option_copied, true, OnOk, Some};
ghost use Rattle.pmb_io.specs.Calls.{WriterTells};
ghost use Rattle.pmb_io.specs.Lines.{line_text};
ghost use Rattle.pmb_io.specs.Outgoing.{PutsText};
ghost use Rattle.pmb_recording.specs.Content.{most_line};
ghost use Rattle.pmb_recording.specs.Recording.{most_text};
ghost use Rattle.pmb_recording.specs.Runs.{Ends, Stands, importing, tally_of};
ghost use Rattle.pmb_recording.specs.Told.{reason_of};
ghost use Rattle.pmb_recording.specs.Wire.{most_wire};
ghost use Rattle.pmb_recording.proofs.Runs.{imports_all};
ghost use Rattle.pmb_sigrok_line.specs.Annotation.{is_byte};
ghost use Rattle.pmb_sigrok_line.specs.Shown.{line_shown};
ghost use Rattle.pmb_sigrok.specs.Packets.{address_byte as byte_of_address, after_address as place_after_address, after_answer as place_after_answer};
ghost use Rattle.pmb_sigrok.specs.Packets.{after_data as place_after_data, after_mark as place_after_mark, answered, begun, fault as at_fault_of};
ghost use Rattle.pmb_sigrok.specs.Packets.{follow as event_step, go_on as step_to, inside, is_answered as is_answered_place, next_place as place_after};
ghost use Rattle.pmb_sigrok.specs.Packets.{on_bus as line_step, on_wire as event_on_wire, outside, refuse as refuse_step, said as event_said, start, stopped};
ghost use Rattle.pmb_sigrok.specs.Packets.{take_content as content_step, take_decoded as decoded_step, take_end, take_line, take_said as said_step, unanswered as byte_to_answer, wire_after};

use arrayvec::ArrayVec;
use pmb_io::laws::texts_add_up;
use pmb_io::{InputLine, LineTask, RunFault, Sink, Tally, Waiting};
use pmb_recording::{Fault, MOST_WIRE, Recording, WireByte, content};
use pmb_sigrok_line::{AddressForm, Event, Line, Rate, is_remark, time_of};

/// The highest address of seven bits.
const MOST_ADDRESS: u8 = 0x7f;

/// Where a packet stands.
#[derive(Clone, Copy, Debug, PartialEq, Eq)]
pub enum Place {
    /// Behind START: an address comes.
    Start,
    /// Behind START and `Read` or `Write`: whether it is `Read`.
    Marked(bool),
    /// Behind an address: whether it reads, and whether it had its mark.
    Address(bool, bool),
    /// Behind another byte: whether it is read.
    Data(bool),
    /// Behind ACK or NACK: whether bytes are read.
    Answered(bool),
}

/// A recording of sigrok's, and where its packet stands.
#[derive(Drop)]
pub struct Sigrok {
    /// The recording so far.
    pub recording: Recording,
    /// Where the packet under way stands.
    pub place: Place,
    /// How addresses are written.
    pub form: AddressForm,
    /// The rate of the samples, if it is known.
    pub rate: Option<Rate>,
}

impl Sigrok {
    /// Nothing came yet.
    pub fn new(bus: Option<&[u8]>, rate: Option<Rate>, form: AddressForm) -> Sigrok
        ensures { result ≡ start (option_copied bus.entry) rate form }
    {
        Sigrok {
            recording: Recording::new(bus),
            place: Place::Start,
            form,
            rate,
        }
    }

    fn fault<W: Sink>(
        &mut self,
        fault: Fault<'_>,
        waiting: &mut Waiting,
        writer: &mut W,
    ) -> Result<(), RunFault>
        ensures now { self.new ≡ (at_fault_of self.old (reason_of fault.entry)).now }
        ensures puts { OnOk result (PutsText (W.told writer.old).held waiting.old.items (W.told writer.new).held waiting.new.items (at_fault_of self.old (reason_of fault.entry)).text) }
        ensures failed { WriterTells (W.told writer.old) (W.told writer.new) result }
    {
        self.recording.take_fault(fault, waiting, writer)
    }

    /// Takes an event that does not follow. Reading goes on behind a STOP.
    fn refuse<W: Sink>(
        &mut self,
        event: Event,
        waiting: &mut Waiting,
        writer: &mut W,
    ) -> Result<(), RunFault>
        ensures now { self.new ≡ (refuse_step self.old event).now }
        ensures puts { OnOk result (PutsText (W.told writer.old).held waiting.old.items (W.told writer.new).held waiting.new.items (refuse_step self.old event).text) }
        ensures failed { WriterTells (W.told writer.old) (W.told writer.new) result }
    {
        self.recording.take_fault_ending(
            Fault::DoesNotFollow,
            event == Event::Stop,
            waiting,
            writer,
        )
    }

    /// Takes a line of the input.
    fn take_next<W: Sink>(
        &mut self,
        line: InputLine<'_>,
        waiting: &mut Waiting,
        writer: &mut W,
    ) -> Result<(), RunFault>
        ensures now { self.new ≡ (take_line self.old (line_text line.entry)).now }
        ensures puts { OnOk result (PutsText (W.told writer.old).held waiting.old.items (W.told writer.new).held waiting.new.items (take_line self.old (line_text line.entry)).text) }
        ensures failed { WriterTells (W.told writer.old) (W.told writer.new) result }
    {
        let is_first = self.recording.line == 0;
        self.recording.next_line();
        match content(is_first, line) {
            Some(text) => self.take_content(text, waiting, writer),
            None => self.fault(Fault::MakesNoSense, waiting, writer),
        }
    }

    /// Takes what a line holds.
    fn take_content<W: Sink>(
        &mut self,
        text: &[u8],
        waiting: &mut Waiting,
        writer: &mut W,
    ) -> Result<(), RunFault>
        requires { length text.now ≤ most_text }
        ensures now { self.new ≡ (content_step self.old (Some text.now)).now }
        ensures puts { OnOk result (PutsText (W.told writer.old).held waiting.old.items (W.told writer.new).held waiting.new.items (content_step self.old (Some text.now)).text) }
        ensures failed { WriterTells (W.told writer.old) (W.told writer.new) result }
    {
        texts_add_up();
        if is_remark(text) {
            return Ok(());
        }
        match Line::read(text) {
            Some(line) => self.take_decoded(line, waiting, writer),
            None => self.fault(Fault::MakesNoSense, waiting, writer),
        }
    }

    /// Takes a line of the decoder. The first that says an event settles the bus.
    fn take_decoded<W: Sink>(
        &mut self,
        line: Line<'_>,
        waiting: &mut Waiting,
        writer: &mut W,
    ) -> Result<(), RunFault>
        requires { length line.name.now ≤ most_text }
        ensures now { self.new ≡ (decoded_step self.old (Some (line_shown line.entry))).now }
        ensures puts { OnOk result (PutsText (W.told writer.old).held waiting.old.items (W.told writer.new).held waiting.new.items (decoded_step self.old (Some (line_shown line.entry))).text) }
        ensures failed { WriterTells (W.told writer.old) (W.told writer.new) result }
    {
        if line.event.is_some() {
            self.recording.follow(line.name);
        }
        if !self.recording.follows_bus {
            return self.fault(Fault::MakesNoSense, waiting, writer);
        }
        self.take_on_bus(line, waiting, writer)
    }

    /// Takes a line of a bus, which is passed over if that is not followed.
    fn take_on_bus<W: Sink>(
        &mut self,
        line: Line<'_>,
        waiting: &mut Waiting,
        writer: &mut W,
    ) -> Result<(), RunFault>
        ensures now { self.new ≡ (line_step self.old (line_shown line.entry)).now }
        ensures puts { OnOk result (PutsText (W.told writer.old).held waiting.old.items (W.told writer.new).held waiting.new.items (line_step self.old (line_shown line.entry)).text) }
        ensures failed { WriterTells (W.told writer.old) (W.told writer.new) result }
    {
        texts_add_up();
        if !self.recording.is_followed(line.name) {
            self.recording.pass_other_bus();
            return Ok(());
        }
        self.take_said(line.sample, said(self.form, line.event), waiting, writer)
    }

    /// Takes what a line of the bus says.
    fn take_said<W: Sink>(
        &mut self,
        sample: Option<u64>,
        event: Option<Event>,
        waiting: &mut Waiting,
        writer: &mut W,
    ) -> Result<(), RunFault>
        ensures now { self.new ≡ (said_step self.old sample event).now }
        ensures puts { OnOk result (PutsText (W.told writer.old).held waiting.old.items (W.told writer.new).held waiting.new.items (said_step self.old sample event).text) }
        ensures failed { WriterTells (W.told writer.old) (W.told writer.new) result }
    {
        match event {
            Some(event) => self.take_event(sample, event, waiting, writer),
            None => self.fault(Fault::MakesNoSense, waiting, writer),
        }
    }

    /// Takes an event.
    fn take_event<W: Sink>(
        &mut self,
        sample: Option<u64>,
        event: Event,
        waiting: &mut Waiting,
        writer: &mut W,
    ) -> Result<(), RunFault>
        ensures now { self.new ≡ (event_step self.old sample event).now }
        ensures puts { OnOk result (PutsText (W.told writer.old).held waiting.old.items (W.told writer.new).held waiting.new.items (event_step self.old sample event).text) }
        ensures failed { WriterTells (W.told writer.old) (W.told writer.new) result }
    {
        match event {
            Event::Start => self.begin(sample, waiting, writer),
            _ if self.recording.packet.is_some() => self.take_inside(event, waiting, writer),
            _ => self.take_outside(event, waiting, writer),
        }
    }

    /// Begins a packet at a sample.
    fn begin<W: Sink>(
        &mut self,
        sample: Option<u64>,
        waiting: &mut Waiting,
        writer: &mut W,
    ) -> Result<(), RunFault>
        ensures now { self.new ≡ (begun self.old sample).now }
        ensures puts { OnOk result (PutsText (W.told writer.old).held waiting.old.items (W.told writer.new).held waiting.new.items (begun self.old sample).text) }
        ensures failed { WriterTells (W.told writer.old) (W.told writer.new) result }
    {
        let time = time_of(sample, self.rate);
        self.place = Place::Start;
        self.recording.begin(time.as_slice(), b"", waiting, writer)
    }

    /// Takes an event that can't begin a packet, where none is under way.
    fn take_outside<W: Sink>(
        &mut self,
        event: Event,
        waiting: &mut Waiting,
        writer: &mut W,
    ) -> Result<(), RunFault>
        ensures now { self.new ≡ (outside self.old event).now }
        ensures puts { OnOk result (PutsText (W.told writer.old).held waiting.old.items (W.told writer.new).held waiting.new.items (outside self.old event).text) }
        ensures failed { WriterTells (W.told writer.old) (W.told writer.new) result }
    {
        texts_add_up();
        if !self.recording.is_skipping {
            return self.refuse(event, waiting, writer);
        }
        if event == Event::Stop {
            self.recording.end_skipping();
        }
        Ok(())
    }

    /// Takes an event of the packet under way.
    fn take_inside<W: Sink>(
        &mut self,
        event: Event,
        waiting: &mut Waiting,
        writer: &mut W,
    ) -> Result<(), RunFault>
        ensures now { self.new ≡ (inside self.old event).now }
        ensures puts { OnOk result (PutsText (W.told writer.old).held waiting.old.items (W.told writer.new).held waiting.new.items (inside self.old event).text) }
        ensures failed { WriterTells (W.told writer.old) (W.told writer.new) result }
    {
        match event {
            Event::Stop => self.stop(waiting, writer),
            _ => self.go_on(event, next_place(self.place, event), waiting, writer),
        }
    }

    /// Ends the packet under way with STOP.
    fn stop<W: Sink>(&mut self, waiting: &mut Waiting, writer: &mut W) -> Result<(), RunFault>
        ensures now { self.new ≡ (stopped self.old).now }
        ensures puts { OnOk result (PutsText (W.told writer.old).held waiting.old.items (W.told writer.new).held waiting.new.items (stopped self.old).text) }
        ensures failed { WriterTells (W.told writer.old) (W.told writer.new) result }
    {
        if !is_answered(self.place) {
            return self.refuse(Event::Stop, waiting, writer);
        }
        self.recording.end_packet(waiting, writer)
    }

    /// Goes on to a place with an event, if that may follow.
    fn go_on<W: Sink>(
        &mut self,
        event: Event,
        place: Option<Place>,
        waiting: &mut Waiting,
        writer: &mut W,
    ) -> Result<(), RunFault>
        ensures now { self.new ≡ (step_to self.old event place).now }
        ensures puts { OnOk result (PutsText (W.told writer.old).held waiting.old.items (W.told writer.new).held waiting.new.items (step_to self.old event place).text) }
        ensures failed { WriterTells (W.told writer.old) (W.told writer.new) result }
    {
        texts_add_up();
        let Some(place) = place else {
            return self.refuse(event, waiting, writer);
        };
        if event.is_byte() && self.recording.wire.is_full() {
            return self.recording.drop_long(false, waiting, writer);
        }
        put_on_wire(&mut self.recording.wire, event);
        self.recording.give();
        self.place = place;
        Ok(())
    }
}

/// Keeps what an event puts on the wire.
fn put_on_wire(wire: &mut ArrayVec<WireByte, MOST_WIRE>, event: Event)
    requires { is_byte event ≡ true → length wire.old.items < most_wire }
    ensures { wire.new.items ≡ wire_after wire.old.items event }
{
    match event {
        Event::Address(_, byte) => wire.push(unanswered(true, byte)),
        Event::Data(_, byte) => wire.push(unanswered(false, byte)),
        Event::Answer(is_acknowledged) => answer_last(wire, is_acknowledged),
        Event::Start | Event::Repeat | Event::Stop | Event::Mark(_) | Event::Bit => {}
    }
}

/// A byte whose answer is to come.
fn unanswered(follows_start: bool, byte: u8) -> WireByte
    ensures { result ≡ byte_to_answer follows_start byte }
{
    WireByte {
        follows_start,
        byte,
        is_acknowledged: false,
    }
}

/// Answers the last byte.
fn answer_last(wire: &mut ArrayVec<WireByte, MOST_WIRE>, is_acknowledged: bool)
    ensures { wire.new.items ≡ answered is_acknowledged wire.old.items }
{
    if let Some(last) = wire.as_mut_slice().last_mut() {
        last.is_acknowledged = is_acknowledged;
    }
}

/// The event that a line says, if that is in range.
fn said(form: AddressForm, event: Option<Event>) -> Option<Event>
    ensures { result ≡ event_said form event }
{
    on_wire(form, event?)
}

/// An event with the byte that is on the wire, or `None` where its address is out of range.
fn on_wire(form: AddressForm, event: Event) -> Option<Event>
    ensures { result ≡ event_on_wire form event }
{
    match event {
        Event::Address(reads, byte) => Some(Event::Address(
            reads,
            address_byte(form, reads, byte)?,
        )),
        _ => Some(event),
    }
}

/// The byte that addresses a device, or `None` where it is out of range.
fn address_byte(form: AddressForm, reads: bool, byte: u8) -> Option<u8>
    ensures { result ≡ byte_of_address form reads byte }
{
    match form {
        AddressForm::Shifted => {
            if byte > MOST_ADDRESS {
                return None;
            }
            Some(byte * 2 + u8::from(reads))
        }
        AddressForm::Unshifted => {
            if (byte % 2 == 1) != reads {
                return None;
            }
            Some(byte)
        }
    }
}

/// Where a packet stands after an event, if that may follow.
fn next_place(place: Place, event: Event) -> Option<Place>
    ensures { result ≡ place_after place event }
{
    match event {
        Event::Start | Event::Stop => None,
        Event::Repeat => {
            if is_answered(place) {
                Some(Place::Start)
            } else {
                None
            }
        }
        Event::Answer(_) => after_answer(place),
        Event::Mark(reads) => after_mark(reads, place),
        Event::Bit => Some(place),
        Event::Address(reads, _) => after_address(reads, place),
        Event::Data(reads, _) => after_data(reads, place),
    }
}

/// Whether a packet stands behind ACK or NACK.
fn is_answered(place: Place) -> bool
    ensures { result ≡ is_answered_place place }
{
    matches!(place, Place::Answered(_))
}

/// After `Read` or `Write`.
fn after_mark(reads: bool, place: Place) -> Option<Place>
    ensures { result ≡ place_after_mark reads place }
{
    match place {
        Place::Start => Some(Place::Marked(reads)),
        Place::Address(reading, false) if reading == reads => Some(Place::Address(reading, true)),
        _ => None,
    }
}

/// After an address.
fn after_address(reads: bool, place: Place) -> Option<Place>
    ensures { result ≡ place_after_address reads place }
{
    match place {
        Place::Start => Some(Place::Address(reads, false)),
        Place::Marked(marked) if marked == reads => Some(Place::Address(reads, true)),
        _ => None,
    }
}

/// After another byte.
fn after_data(reads: bool, place: Place) -> Option<Place>
    ensures { result ≡ place_after_data reads place }
{
    match place {
        Place::Answered(reading) if reading == reads => Some(Place::Data(reading)),
        _ => None,
    }
}

/// After ACK or NACK.
fn after_answer(place: Place) -> Option<Place>
    ensures { result ≡ place_after_answer place }
{
    match place {
        Place::Address(reads, _) | Place::Data(reads) => Some(Place::Answered(reads)),
        _ => None,
    }
}

impl LineTask for Sigrok {
    ghost most = { most_line };

    ghost Stands = { Stands take_line take_end (λ sigrok. sigrok.recording) };

    ghost Ends = { Ends take_line take_end (λ sigrok. sigrok.recording) };

    ghost counted = { tally_of take_line take_end (λ sigrok. sigrok.recording) };

    ghost job = { importing take_line take_end (λ sigrok. sigrok.recording) };

    ghost writes_all = { imports_all take_line take_end (λ sigrok. sigrok.recording) };

    ghost writes_front = { λ start now bytes text stands. stands.told };

    fn take_line<W: Sink>(
        &mut self,
        line: InputLine<'_>,
        waiting: &mut Waiting,
        writer: &mut W,
    ) -> Result<(), RunFault> {
        self.take_next(line, waiting, writer)
    }

    fn end<W: Sink>(&mut self, waiting: &mut Waiting, writer: &mut W) -> Result<(), RunFault> {
        self.recording.end(None, waiting, writer)
    }

    fn tally(&self) -> Tally {
        self.recording.tally()
    }
}
