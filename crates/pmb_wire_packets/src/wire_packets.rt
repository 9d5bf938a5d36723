//! Packets, put together from signals.
//!
//! Where a packet is under way `recording.packet` has its lines, and `is_at_start`, `bits`, `fell` and
//! `rose` tell where it stands. Behind a fault all is skipped up to the next STOP, but for x.

ghost use Rattle.std.specs.Prelude.{◌≡◌, ◌≤◌, length, OnOk};
ghost use Rattle.pmb_io.specs.Calls.{WriterTells};
ghost use Rattle.pmb_io.specs.Outgoing.{PutsText};
ghost use Rattle.pmb_wire_packets.specs.Bits.{byte_of, weight as weight_of};
ghost use Rattle.pmb_wire_packets.specs.Packets.{is_late, may_lack_stop};
ghost use Rattle.pmb_wire_packets.specs.Reasons.{was_low};
ghost use Rattle.pmb_wire_packets.specs.machine.Steps.{again as again_step, begin as begin_step, bit as bit_step, broken as broken_step, byte as byte_step, counted_fault};
ghost use Rattle.pmb_wire_packets.specs.machine.Steps.{cut_within, end as end_step, fall_inside, inside, outside, refuse as refuse_step, rise_inside, skip as skip_step};
ghost use Rattle.pmb_wire_packets.specs.machine.Steps.{start as start_state, start_inside, stop_inside, take as take_step, unknown as unknown_step};

use crate::time::seconds;
use crate::told::put_at_line;
use arrayvec::ArrayVec;
use itoa::Buffer;
use pmb_io::laws::texts_add_up;
use pmb_io::{RunFault, Sink, Waiting};
use pmb_recording::{Recording, WireByte};
use pmb_wires::{Place, Rise, Signal, Wire};

/// Femtoseconds in a thousandth of a second.
const MILLISECOND: u128 = 1_000_000_000_000;

/// The packets of the signals of a bus, and where the packet under way stands.
#[derive(Drop)]
pub struct WirePackets {
    /// The recording so far.
    pub recording: Recording,
    /// For how many thousandths of a second SCL may be low within a packet. 0: for any time.
    pub timeout: u64,
    /// The time that counts as 0, in femtoseconds.
    pub origin: u128,
    /// The bits of the byte under way.
    pub bits: ArrayVec<bool, 8>,
    /// The packet under way stands behind a START.
    pub is_at_start: bool,
    /// When SCL fell last in the packet under way, in femtoseconds.
    pub fell: Option<u128>,
    /// How SCL rose, if that is the last signal of the packet under way.
    pub rose: Option<Rise>,
}

impl WirePackets {
    /// Nothing came yet.
    pub fn new(timeout: u64, origin: u128) -> WirePackets
        ensures { result ≡ start_state timeout origin }
    {
        WirePackets {
            recording: Recording::new(None),
            timeout,
            origin,
            bits: ArrayVec::new(),
            is_at_start: false,
            fell: None,
            rose: None,
        }
    }

    /// Takes the next signal.
    ///
    /// # Errors
    ///
    /// `Write` where the writer failed, here and below.
    pub fn take<W: Sink>(
        &mut self,
        signal: Signal,
        waiting: &mut Waiting,
        writer: &mut W,
    ) -> Result<(), RunFault>
        ensures now { self.new ≡ (take_step self.old signal).now }
        ensures puts { OnOk result (PutsText (W.told writer.old).held waiting.old.items (W.told writer.new).held waiting.new.items (take_step self.old signal).text) }
        ensures failed { WriterTells (W.told writer.old) (W.told writer.new) result }
    {
        if self.recording.packet.is_some() {
            return self.take_inside(signal, waiting, writer);
        }
        if self.recording.is_skipping {
            return self.skip(signal, waiting, writer);
        }
        self.take_outside(signal, waiting, writer)
    }

    /// Takes a fault at a line, told in these words. A piece of the recording ends there.
    pub fn break_off<W: Sink>(
        &mut self,
        line: u64,
        why: &[u8],
        waiting: &mut Waiting,
        writer: &mut W,
    ) -> Result<(), RunFault>
        ensures now { self.new ≡ (broken_step self.old line why.now).now }
        ensures puts { OnOk result (PutsText (W.told writer.old).held waiting.old.items (W.told writer.new).held waiting.new.items (broken_step self.old line why.now).text) }
        ensures failed { WriterTells (W.told writer.old) (W.told writer.new) result }
    {
        texts_add_up();
        self.recording.line = line;
        let outcome = self.recording.take_heading(waiting, writer);
        self.count_fault();
        outcome?;
        put_at_line(line, why, waiting, writer)
    }

    /// Counts a fault. What follows is skipped.
    fn count_fault(&mut self)
        ensures { self.new ≡ counted_fault self.old }
    {
        self.recording.troubles = self.recording.troubles.saturating_add(1);
        self.recording.is_skipping = true;
    }

    /// Ends the recording.
    pub fn end<W: Sink>(&mut self, waiting: &mut Waiting, writer: &mut W) -> Result<(), RunFault>
        ensures now { self.new ≡ (end_step self.old).now }
        ensures puts { OnOk result (PutsText (W.told writer.old).held waiting.old.items (W.told writer.new).held waiting.new.items (end_step self.old).text) }
        ensures failed { WriterTells (W.told writer.old) (W.told writer.new) result }
    {
        self.recording.end(None, waiting, writer)
    }

    /// Takes a signal where a packet is under way.
    fn take_inside<W: Sink>(
        &mut self,
        signal: Signal,
        waiting: &mut Waiting,
        writer: &mut W,
    ) -> Result<(), RunFault>
        ensures now { self.new ≡ (inside self.old signal).now }
        ensures puts { OnOk result (PutsText (W.told writer.old).held waiting.old.items (W.told writer.new).held waiting.new.items (inside self.old signal).text) }
        ensures failed { WriterTells (W.told writer.old) (W.told writer.new) result }
    {
        match signal {
            Signal::Start(place) => self.take_start(place, waiting, writer),
            Signal::Stop(place) => self.take_stop(place, waiting, writer),
            Signal::Rise(rise) => self.take_rise(rise, waiting, writer),
            Signal::Fall(place) => self.take_fall(place, waiting, writer),
            Signal::Unknown(wire, place) => self.take_unknown(wire, place, waiting, writer),
        }
    }

    /// Takes a signal where none is under way, and nothing is skipped.
    fn take_outside<W: Sink>(
        &mut self,
        signal: Signal,
        waiting: &mut Waiting,
        writer: &mut W,
    ) -> Result<(), RunFault>
        ensures now { self.new ≡ (outside self.old signal).now }
        ensures puts { OnOk result (PutsText (W.told writer.old).held waiting.old.items (W.told writer.new).held waiting.new.items (outside self.old signal).text) }
        ensures failed { WriterTells (W.told writer.old) (W.told writer.new) result }
    {
        texts_add_up();
        match signal {
            Signal::Start(place) => self.begin(place, waiting, writer),
            Signal::Stop(place) => self.refuse(place, true, waiting, writer),
            Signal::Fall(place) => self.refuse(place, false, waiting, writer),
            Signal::Unknown(wire, place) => self.take_unknown(wire, place, waiting, writer),
            Signal::Rise(_) => Ok(()),
        }
    }

    /// Skips a signal. STOP is the last that is skipped, and x is told.
    fn skip<W: Sink>(
        &mut self,
        signal: Signal,
        waiting: &mut Waiting,
        writer: &mut W,
    ) -> Result<(), RunFault>
        ensures now { self.new ≡ (skip_step self.old signal).now }
        ensures puts { OnOk result (PutsText (W.told writer.old).held waiting.old.items (W.told writer.new).held waiting.new.items (skip_step self.old signal).text) }
        ensures failed { WriterTells (W.told writer.old) (W.told writer.new) result }
    {
        texts_add_up();
        match signal {
            Signal::Unknown(wire, place) => self.take_unknown(wire, place, waiting, writer),
            Signal::Stop(_) => {
                self.recording.end_skipping();
                Ok(())
            }
            Signal::Start(_) | Signal::Rise(_) | Signal::Fall(_) => Ok(()),
        }
    }

    /// Begins a packet.
    fn begin<W: Sink>(
        &mut self,
        place: Place,
        waiting: &mut Waiting,
        writer: &mut W,
    ) -> Result<(), RunFault>
        ensures now { self.new ≡ (begin_step self.old place).now }
        ensures puts { OnOk result (PutsText (W.told writer.old).held waiting.old.items (W.told writer.new).held waiting.new.items (begin_step self.old place).text) }
        ensures failed { WriterTells (W.told writer.old) (W.told writer.new) result }
    {
        self.recording.line = place.line;
        self.is_at_start = true;
        self.bits.clear();
        self.fell = None;
        self.rose = None;
        let time = seconds(self.origin, place.time);
        self.recording
            .begin(time.as_slice(), b" s", waiting, writer)
    }

    /// Takes a START within a packet.
    fn take_start<W: Sink>(
        &mut self,
        place: Place,
        waiting: &mut Waiting,
        writer: &mut W,
    ) -> Result<(), RunFault>
        ensures now { self.new ≡ (start_inside self.old place).now }
        ensures puts { OnOk result (PutsText (W.told writer.old).held waiting.old.items (W.told writer.new).held waiting.new.items (start_inside self.old place).text) }
        ensures failed { WriterTells (W.told writer.old) (W.told writer.new) result }
    {
        texts_add_up();
        if lacks_stop(self.rose) {
            let why = b"a STOP may be lost in front";
            return self.break_off(place.line, why, waiting, writer);
        }
        if !self.bits.is_empty() {
            return self.cut_off(false, waiting, writer);
        }
        if self.is_at_start {
            return self.refuse(place, false, waiting, writer);
        }
        self.start_again(place);
        Ok(())
    }

    /// Takes a repeated START.
    fn start_again(&mut self, place: Place)
        ensures { self.new ≡ again_step self.old place }
    {
        self.recording.line = place.line;
        self.recording.give();
        self.is_at_start = true;
        self.rose = None;
    }

    /// Takes a STOP within a packet.
    fn take_stop<W: Sink>(
        &mut self,
        place: Place,
        waiting: &mut Waiting,
        writer: &mut W,
    ) -> Result<(), RunFault>
        ensures now { self.new ≡ (stop_inside self.old place).now }
        ensures puts { OnOk result (PutsText (W.told writer.old).held waiting.old.items (W.told writer.new).held waiting.new.items (stop_inside self.old place).text) }
        ensures failed { WriterTells (W.told writer.old) (W.told writer.new) result }
    {
        if !self.bits.is_empty() {
            return self.cut_off(true, waiting, writer);
        }
        if self.is_at_start {
            return self.refuse(place, true, waiting, writer);
        }
        self.recording.end_packet(waiting, writer)
    }

    /// Cuts the packet under way, within a byte. What follows is skipped, unless a STOP cuts it.
    fn cut_off<W: Sink>(
        &mut self,
        is_stop: bool,
        waiting: &mut Waiting,
        writer: &mut W,
    ) -> Result<(), RunFault>
        ensures now { self.new ≡ (cut_within self.old is_stop).now }
        ensures puts { OnOk result (PutsText (W.told writer.old).held waiting.old.items (W.told writer.new).held waiting.new.items (cut_within self.old is_stop).text) }
        ensures failed { WriterTells (W.told writer.old) (W.told writer.new) result }
    {
        let outcome = self.recording.take_heading(waiting, writer);
        self.recording.is_skipping = !is_stop;
        outcome
    }

    /// Takes a rise of SCL within a packet.
    fn take_rise<W: Sink>(
        &mut self,
        rise: Rise,
        waiting: &mut Waiting,
        writer: &mut W,
    ) -> Result<(), RunFault>
        ensures now { self.new ≡ (rise_inside self.old rise).now }
        ensures puts { OnOk result (PutsText (W.told writer.old).held waiting.old.items (W.told writer.new).held waiting.new.items (rise_inside self.old rise).text) }
        ensures failed { WriterTells (W.told writer.old) (W.told writer.new) result }
    {
        texts_add_up();
        if is_over(self.timeout, self.fell, rise.place.time) {
            return self.time_out(rise.place, waiting, writer);
        }
        self.rose = Some(rise);
        Ok(())
    }

    /// Takes a rise of SCL that comes too late.
    fn time_out<W: Sink>(
        &mut self,
        place: Place,
        waiting: &mut Waiting,
        writer: &mut W,
    ) -> Result<(), RunFault>
        ensures now { self.new ≡ (broken_step self.old place.line (was_low self.old.timeout)).now }
        ensures puts { OnOk result (PutsText (W.told writer.old).held waiting.old.items (W.told writer.new).held waiting.new.items (broken_step self.old place.line (was_low self.old.timeout)).text) }
        ensures failed { WriterTells (W.told writer.old) (W.told writer.new) result }
    {
        let why = low_for(self.timeout);
        self.break_off(place.line, why.as_slice(), waiting, writer)
    }

    /// Takes a fall of SCL within a packet: a bit, if SCL rose just before.
    fn take_fall<W: Sink>(
        &mut self,
        place: Place,
        waiting: &mut Waiting,
        writer: &mut W,
    ) -> Result<(), RunFault>
        ensures now { self.new ≡ (fall_inside self.old place).now }
        ensures puts { OnOk result (PutsText (W.told writer.old).held waiting.old.items (W.told writer.new).held waiting.new.items (fall_inside self.old place).text) }
        ensures failed { WriterTells (W.told writer.old) (W.told writer.new) result }
    {
        texts_add_up();
        self.fell = Some(place.time);
        let Some(rise) = self.rose else {
            return Ok(());
        };
        self.rose = None;
        self.take_bit(rise.is_one, place, waiting, writer)
    }

    /// Takes a bit: the ninth one answers a byte.
    fn take_bit<W: Sink>(
        &mut self,
        is_one: bool,
        place: Place,
        waiting: &mut Waiting,
        writer: &mut W,
    ) -> Result<(), RunFault>
        ensures now { self.new ≡ (bit_step self.old is_one place).now }
        ensures puts { OnOk result (PutsText (W.told writer.old).held waiting.old.items (W.told writer.new).held waiting.new.items (bit_step self.old is_one place).text) }
        ensures failed { WriterTells (W.told writer.old) (W.told writer.new) result }
    {
        texts_add_up();
        self.recording.line = place.line;
        self.recording.give();
        if self.bits.is_full() {
            return self.put_byte(!is_one, waiting, writer);
        }
        self.bits.push(is_one);
        Ok(())
    }

    /// Adds the byte of eight bits to the packet under way, if it has room.
    fn put_byte<W: Sink>(
        &mut self,
        is_acknowledged: bool,
        waiting: &mut Waiting,
        writer: &mut W,
    ) -> Result<(), RunFault>
        ensures now { self.new ≡ (byte_step self.old is_acknowledged).now }
        ensures puts { OnOk result (PutsText (W.told writer.old).held waiting.old.items (W.told writer.new).held waiting.new.items (byte_step self.old is_acknowledged).text) }
        ensures failed { WriterTells (W.told writer.old) (W.told writer.new) result }
    {
        texts_add_up();
        let byte = WireByte {
            follows_start: self.is_at_start,
            byte: byte_of_bits(self.bits.as_slice()),
            is_acknowledged,
        };
        self.bits.clear();
        if self.recording.wire.is_full() {
            return self.recording.drop_long(false, waiting, writer);
        }
        self.recording.wire.push(byte);
        self.is_at_start = false;
        Ok(())
    }

    /// Takes a signal that does not follow. Reading goes on behind a STOP.
    fn refuse<W: Sink>(
        &mut self,
        place: Place,
        is_stop: bool,
        waiting: &mut Waiting,
        writer: &mut W,
    ) -> Result<(), RunFault>
        ensures now { self.new ≡ (refuse_step self.old place is_stop).now }
        ensures puts { OnOk result (PutsText (W.told writer.old).held waiting.old.items (W.told writer.new).held waiting.new.items (refuse_step self.old place is_stop).text) }
        ensures failed { WriterTells (W.told writer.old) (W.told writer.new) result }
    {
        let outcome = self.break_off(place.line, b"does not follow", waiting, writer);
        self.recording.is_skipping = !is_stop;
        outcome
    }

    /// Takes x.
    fn take_unknown<W: Sink>(
        &mut self,
        wire: Wire,
        place: Place,
        waiting: &mut Waiting,
        writer: &mut W,
    ) -> Result<(), RunFault>
        ensures now { self.new ≡ (unknown_step self.old wire place).now }
        ensures puts { OnOk result (PutsText (W.told writer.old).held waiting.old.items (W.told writer.new).held waiting.new.items (unknown_step self.old wire place).text) }
        ensures failed { WriterTells (W.told writer.old) (W.told writer.new) result }
    {
        let why = match wire {
            Wire::Scl => b"SCL is x",
            Wire::Sda => b"SDA is x",
        };
        self.break_off(place.line, why, waiting, writer)
    }
}

/// Whether SCL rose with SDA, so that a START there may follow a STOP that is lost.
fn lacks_stop(rose: Option<Rise>) -> bool
    ensures { result ≡ may_lack_stop rose }
{
    match rose {
        Some(rise) => rise.with_sda,
        None => false,
    }
}

/// Whether SCL was low for longer than a number of thousandths of a second.
fn is_over(timeout: u64, fell: Option<u128>, time: u128) -> bool
    ensures { result ≡ is_late timeout fell time }
{
    match fell {
        Some(fell) => timeout > 0 && timeout as u128 * MILLISECOND < time.saturating_sub(fell),
        None => false,
    }
}

/// The reason of a time-out.
fn low_for(timeout: u64) -> ArrayVec<u8, 64>
    ensures { result.items ≡ was_low timeout }
{
    let mut text = ArrayVec::new();
    let _ = text.try_extend_from_slice(b"SCL was low for over ");
    let _ = text.try_extend_from_slice(Buffer::new().format(timeout).as_bytes());
    let _ = text.try_extend_from_slice(b" ms");
    text
}

/// The byte of eight bits, the highest one first.
fn byte_of_bits(bits: &[bool]) -> u8
    ensures { result ≡ byte_of bits.now }
{
    let [a, b, c, d, e, f, g, h] = bits else {
        return 0;
    };
    let high = weight(*a, 128) + weight(*b, 64) + weight(*c, 32) + weight(*d, 16);
    high + weight(*e, 8) + weight(*f, 4) + weight(*g, 2) + weight(*h, 1)
}

/// What a bit adds to its byte.
fn weight(bit: bool, value: u8) -> u8
    ensures value { result ≡ weight_of bit value }
    ensures most { result ≤ value }
{
    if bit { value } else { 0 }
}
