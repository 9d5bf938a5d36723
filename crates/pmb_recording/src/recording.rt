//! What is kept of a recording while its lines come, whatever wrote it.

ghost use Rattle.std.specs.Prelude.{◌≡◌, ◌+◌, ◌≤◌, length, option_copied, take, OnOk};
ghost use Rattle.pmb_io.specs.Calls.{WriterTells};
ghost use Rattle.pmb_io.specs.Outgoing.{PutsText};
ghost use Rattle.pmb_recording.specs.Recording.{at_begin, at_end, counted_none, at_failure, at_fault, at_fault_ending, at_heading, at_hidden_bytes, at_hidden_reply, at_loss};
ghost use Rattle.pmb_recording.specs.Recording.{at_packet, at_too_long, cut, cut_text, end_text, first_line as first_of, following, fresh, given};
ghost use Rattle.pmb_recording.specs.Recording.{is_followed as follows_name, next_line as line_after, past_other_bus, past_other_kind, passed_kind};
ghost use Rattle.pmb_recording.specs.Recording.{skipped, tally_of, with_trouble, with_time, with_unit};
ghost use Rattle.pmb_recording.specs.Told.{no_packets_line, reason_of};

use crate::fault::Fault;
use crate::passed::Kind;
use crate::told::{put_failed, put_fault, put_lost, put_of, put_packet, put_passed};
use crate::wire_byte::WireByte;
use arrayvec::ArrayVec;
use pmb_io::laws::texts_add_up;
use pmb_io::{RunFault, Sink, Tally, Waiting, put};

/// The most bytes of a packet on the wire, addresses and error codes counted.
pub const MOST_WIRE: usize = 16384;

/// The most bytes of a text of a line that is kept.
pub const MOST_TEXT: usize = 65540;

/// The lines of a packet: where it began, and the last that gave it an event.
#[derive(Clone, Copy, Debug, PartialEq, Eq)]
pub struct PacketLines {
    /// The number of its first line.
    pub first: u64,
    /// The number of the last line that gave it an event.
    pub last: u64,
}

/// What is kept of a recording. (What is short stands behind what is long: with a gap before `bus` the
/// compiler makes a part of it on the stack first, where one is put on the heap.)
#[derive(Drop)]
pub struct Recording {
    /// How many lines came.
    pub line: u64,
    /// The packet under way.
    pub packet: Option<PacketLines>,
    /// Its bytes on the wire so far.
    pub wire: ArrayVec<WireByte, MOST_WIRE>,
    /// The time of its START, as it is told. Empty where none is.
    pub time: ArrayVec<u8, MOST_TEXT>,
    /// The name of the bus that is followed, as the recording writes it.
    pub bus: ArrayVec<u8, MOST_TEXT>,
    /// How many packets were written.
    pub packets: u64,
    /// How many lines told that something is missing.
    pub troubles: u64,
    /// How many lines were of other buses.
    pub other_buses: u64,
    /// How many lines were of the other kind of events.
    pub other_kind: u64,
    /// Whether lines that can't begin a packet are skipped.
    pub is_skipping: bool,
    /// Whether the bus is known that is followed.
    pub follows_bus: bool,
}

impl Recording {
    /// Nothing came yet. The bus of a name is followed, or that of the first line. Of a name that is
    /// longer than a line so much is kept that no line has it.
    pub fn new(bus: Option<&[u8]>) -> Recording
        ensures { result ≡ fresh (option_copied bus.entry) }
    {
        let mut recording = Recording {
            line: 0,
            packet: None,
            wire: ArrayVec::new(),
            time: ArrayVec::new(),
            bus: ArrayVec::new(),
            packets: 0,
            troubles: 0,
            other_buses: 0,
            other_kind: 0,
            is_skipping: false,
            follows_bus: false,
        };
        if let Some(name) = bus {
            recording.follow(kept_name(name));
        }
        recording
    }

    /// Counts a line.
    pub fn next_line(&mut self)
        ensures { self.new ≡ line_after self.old }
    {
        self.line = self.line.saturating_add(1);
    }

    /// Follows the bus of this name, unless one is followed already.
    pub fn follow(&mut self, name: &[u8])
        requires { length name.now ≤ MOST_TEXT }
        ensures { self.new ≡ following self.old name.now }
    {
        if self.follows_bus {
            return;
        }
        self.follows_bus = true;
        self.bus.clear();
        let _ = self.bus.try_extend_from_slice(name);
    }

    /// Whether the bus of this name is followed.
    #[inline]
    pub fn is_followed(&self, name: &[u8]) -> bool
        ensures { result ≡ follows_name self.now name.now }
    {
        self.bus.as_slice() == name
    }

    /// Passes over a line of another bus.
    pub fn pass_other_bus(&mut self)
        ensures { self.new ≡ past_other_bus self.old }
    {
        self.other_buses = self.other_buses.saturating_add(1);
    }

    /// Passes over a line of the other kind.
    pub fn pass_other_kind(&mut self)
        ensures { self.new ≡ past_other_kind self.old }
    {
        self.other_kind = self.other_kind.saturating_add(1);
    }

    fn count_trouble(&mut self)
        ensures { self.new ≡ with_trouble self.old }
    {
        self.troubles = self.troubles.saturating_add(1);
    }

    /// Drops the packet under way, where there is one, and counts that it is missing. Returns its
    /// lines.
    fn drop_packet(&mut self) -> Option<PacketLines>
        ensures lines { result ≡ self.old.packet }
        ensures now { self.new ≡ (cut self.old).now }
    {
        let packet = self.packet;
        if packet.is_some() {
            self.count_trouble();
        }
        self.packet = None;
        packet
    }

    /// Takes a heading: the recording begins anew.
    ///
    /// # Errors
    ///
    /// `Write` where the writer failed, here and below.
    pub fn take_heading<W: Sink>(
        &mut self,
        waiting: &mut Waiting,
        writer: &mut W,
    ) -> Result<(), RunFault>
        ensures now { self.new ≡ (at_heading self.old).now }
        ensures puts { OnOk result (PutsText (W.told writer.old).held waiting.old.items (W.told writer.new).held waiting.new.items ((at_heading self.old).text)) }
        ensures failed { WriterTells (W.told writer.old) (W.told writer.new) result }
    {
        let packet = self.drop_packet();
        self.is_skipping = false;
        put_cut(packet, waiting, writer)
    }

    /// Takes a fault.
    pub fn take_fault<W: Sink>(
        &mut self,
        fault: Fault<'_>,
        waiting: &mut Waiting,
        writer: &mut W,
    ) -> Result<(), RunFault>
        ensures now { self.new ≡ (at_fault self.old (reason_of fault.entry)).now }
        ensures puts { OnOk result (PutsText (W.told writer.old).held waiting.old.items (W.told writer.new).held waiting.new.items ((at_fault self.old (reason_of fault.entry)).text)) }
        ensures failed { WriterTells (W.told writer.old) (W.told writer.new) result }
    {
        texts_add_up();
        let packet = self.drop_packet();
        self.count_trouble();
        self.is_skipping = true;
        put_cut(packet, waiting, writer)?;
        put_fault(self.line, fault, waiting, writer)
    }

    /// Takes a fault of a line that may itself end a packet, such as a STOP or a result, whatever is
    /// wrong with it. What follows is skipped, unless the line does.
    pub fn take_fault_ending<W: Sink>(
        &mut self,
        fault: Fault<'_>,
        ends_packet: bool,
        waiting: &mut Waiting,
        writer: &mut W,
    ) -> Result<(), RunFault>
        ensures now { self.new ≡ (at_fault_ending self.old (reason_of fault.entry) ends_packet).now }
        ensures puts { OnOk result (PutsText (W.told writer.old).held waiting.old.items (W.told writer.new).held waiting.new.items ((at_fault_ending self.old (reason_of fault.entry) ends_packet).text)) }
        ensures failed { WriterTells (W.told writer.old) (W.told writer.new) result }
    {
        let outcome = self.take_fault(fault, waiting, writer);
        self.is_skipping = !ends_packet;
        outcome
    }

    /// Takes a loss of events, with their number where one is told.
    pub fn take_loss<W: Sink>(
        &mut self,
        count: Option<&[u8]>,
        waiting: &mut Waiting,
        writer: &mut W,
    ) -> Result<(), RunFault>
        ensures now { self.new ≡ (at_loss self.old (option_copied count.entry)).now }
        ensures puts { OnOk result (PutsText (W.told writer.old).held waiting.old.items (W.told writer.new).held waiting.new.items ((at_loss self.old (option_copied count.entry)).text)) }
        ensures failed { WriterTells (W.told writer.old) (W.told writer.new) result }
    {
        texts_add_up();
        let packet = self.drop_packet();
        self.count_trouble();
        self.is_skipping = true;
        put_cut(packet, waiting, writer)?;
        put_lost(self.line, count, waiting, writer)
    }

    /// Begins a packet with its time, where there is one, and the unit of that.
    pub fn begin<W: Sink>(
        &mut self,
        time: &[u8],
        unit: &[u8],
        waiting: &mut Waiting,
        writer: &mut W,
    ) -> Result<(), RunFault>
        requires { length time.now + length unit.now ≤ MOST_TEXT }
        ensures now { self.new ≡ (at_begin self.old (with_unit time.now unit.now)).now }
        ensures puts { OnOk result (PutsText (W.told writer.old).held waiting.old.items (W.told writer.new).held waiting.new.items ((at_begin self.old (with_unit time.now unit.now)).text)) }
        ensures failed { WriterTells (W.told writer.old) (W.told writer.new) result }
    {
        let packet = self.drop_packet();
        self.packet = Some(PacketLines {
            first: self.line,
            last: self.line,
        });
        self.wire.clear();
        self.set_time(time, unit);
        self.is_skipping = false;
        put_cut(packet, waiting, writer)
    }

    /// Keeps a time with its unit.
    fn set_time(&mut self, time: &[u8], unit: &[u8])
        requires { length time.now + length unit.now ≤ MOST_TEXT }
        ensures { self.new ≡ with_time self.old (with_unit time.now unit.now) }
    {
        self.time.clear();
        if time.is_empty() {
            return;
        }
        let _ = self.time.try_extend_from_slice(time);
        let _ = self.time.try_extend_from_slice(unit);
    }

    /// Takes another event of the packet under way.
    #[inline]
    pub fn give(&mut self)
        ensures { self.new ≡ given self.old }
    {
        if let Some(lines) = self.packet {
            self.packet = Some(PacketLines {
                first: lines.first,
                last: self.line,
            });
        }
    }

    /// Ends what is skipped.
    pub fn end_skipping(&mut self)
        ensures { self.new ≡ skipped self.old }
    {
        self.is_skipping = false;
    }

    /// Ends the packet under way, which is whole.
    pub fn end_packet<W: Sink>(
        &mut self,
        waiting: &mut Waiting,
        writer: &mut W,
    ) -> Result<(), RunFault>
        ensures now { self.new ≡ (at_packet self.old).now }
        ensures puts { OnOk result (PutsText (W.told writer.old).held waiting.old.items (W.told writer.new).held waiting.new.items ((at_packet self.old).text)) }
        ensures failed { WriterTells (W.told writer.old) (W.told writer.new) result }
    {
        self.packet = None;
        self.packets = self.packets.saturating_add(1);
        put_packet(self.time.as_slice(), self.wire.as_slice(), waiting, writer)
    }

    fn first_line(&self) -> u64
        ensures { result ≡ first_of self.now.packet }
    {
        match self.packet {
            Some(lines) => lines.first,
            None => 0,
        }
    }

    /// Ends the transfer under way, which failed.
    pub fn end_failure<W: Sink>(
        &mut self,
        outcome: &[u8],
        waiting: &mut Waiting,
        writer: &mut W,
    ) -> Result<(), RunFault>
        ensures now { self.new ≡ (at_failure self.old outcome.now).now }
        ensures puts { OnOk result (PutsText (W.told writer.old).held waiting.old.items (W.told writer.new).held waiting.new.items ((at_failure self.old outcome.now).text)) }
        ensures failed { WriterTells (W.told writer.old) (W.told writer.new) result }
    {
        self.packet = None;
        put_failed(self.line, outcome, self.wire.as_slice(), waiting, writer)
    }

    /// Drops the packet under way, in which the bytes of this line have no room. What follows is
    /// skipped, unless the line ends the packet.
    pub fn drop_long<W: Sink>(
        &mut self,
        is_end: bool,
        waiting: &mut Waiting,
        writer: &mut W,
    ) -> Result<(), RunFault>
        ensures now { self.new ≡ (at_too_long self.old is_end).now }
        ensures puts { OnOk result (PutsText (W.told writer.old).held waiting.old.items (W.told writer.new).held waiting.new.items ((at_too_long self.old is_end).text)) }
        ensures failed { WriterTells (W.told writer.old) (W.told writer.new) result }
    {
        let first = self.first_line();
        self.packet = None;
        self.count_trouble();
        self.is_skipping = !is_end;
        put_of(
            self.line,
            b"the packet",
            first,
            b" is too long",
            waiting,
            writer,
        )
    }

    /// Ends the transfer under way, of which the recording doesn't show the reply.
    pub fn end_hidden_reply<W: Sink>(
        &mut self,
        waiting: &mut Waiting,
        writer: &mut W,
    ) -> Result<(), RunFault>
        ensures now { self.new ≡ (at_hidden_reply self.old).now }
        ensures puts { OnOk result (PutsText (W.told writer.old).held waiting.old.items (W.told writer.new).held waiting.new.items ((at_hidden_reply self.old).text)) }
        ensures failed { WriterTells (W.told writer.old) (W.told writer.new) result }
    {
        let line = self.line;
        let first = self.first_line();
        self.packet = None;
        self.count_trouble();
        put_of(
            line,
            b"the reply of the call",
            first,
            b" is not shown",
            waiting,
            writer,
        )
    }

    /// Ends the transfer under way, of which the recording doesn't show the bytes.
    pub fn end_hidden_bytes<W: Sink>(
        &mut self,
        waiting: &mut Waiting,
        writer: &mut W,
    ) -> Result<(), RunFault>
        ensures now { self.new ≡ (at_hidden_bytes self.old).now }
        ensures puts { OnOk result (PutsText (W.told writer.old).held waiting.old.items (W.told writer.new).held waiting.new.items ((at_hidden_bytes self.old).text)) }
        ensures failed { WriterTells (W.told writer.old) (W.told writer.new) result }
    {
        let line = self.line;
        let first = self.first_line();
        self.packet = None;
        self.count_trouble();
        put_of(
            line,
            b"the bytes of the transfer",
            first,
            b" are not shown",
            waiting,
            writer,
        )
    }

    /// Ends the recording. `other` is the kind of lines that were passed over for their name.
    pub fn end<W: Sink>(
        &mut self,
        other: Option<Kind>,
        waiting: &mut Waiting,
        writer: &mut W,
    ) -> Result<(), RunFault>
        ensures now { self.new ≡ (at_end self.old other).now }
        ensures puts { OnOk result (PutsText (W.told writer.old).held waiting.old.items (W.told writer.new).held waiting.new.items ((at_end self.old other).text)) }
        ensures failed { WriterTells (W.told writer.old) (W.told writer.new) result }
    {
        texts_add_up();
        let packet = self.drop_packet();
        self.count_none();
        put_cut(packet, waiting, writer)?;
        self.put_end(other, waiting, writer)
    }

    /// Counts that there are no packets, where that is so.
    fn count_none(&mut self)
        ensures { self.new ≡ counted_none self.old }
    {
        if self.packets == 0 {
            self.count_trouble();
        }
    }

    /// Puts out what is told at the end, behind a packet that is cut.
    fn put_end<W: Sink>(
        &self,
        other: Option<Kind>,
        waiting: &mut Waiting,
        writer: &mut W,
    ) -> Result<(), RunFault>
        ensures puts { OnOk result (PutsText (W.told writer.old).held waiting.old.items (W.told writer.new).held waiting.new.items (end_text self.now other)) }
        ensures failed { WriterTells (W.told writer.old) (W.told writer.new) result }
    {
        texts_add_up();
        put_kind(other, self.other_kind, waiting, writer)?;
        put_passed(self.other_buses, b"other buses", waiting, writer)?;
        put_no_packets(self.packets, waiting, writer)
    }

    /// How many packets were written, and how often something is missing.
    pub fn tally(&self) -> Tally
        ensures { result ≡ tally_of self.now }
    {
        Tally {
            packets: self.packets,
            refusals: self.troubles,
        }
    }
}

/// The name of a bus, or so much of it that it is longer than a line still.
fn kept_name(name: &[u8]) -> &[u8]
    ensures name { result.now ≡ take MOST_TEXT name.now }
    ensures short { length result.now ≤ MOST_TEXT }
{
    if name.len() > MOST_TEXT {
        return &name[..MOST_TEXT];
    }
    name
}

/// Puts out that a packet is cut, where one is.
fn put_cut<W: Sink>(
    packet: Option<PacketLines>,
    waiting: &mut Waiting,
    writer: &mut W,
) -> Result<(), RunFault>
    ensures puts { OnOk result (PutsText (W.told writer.old).held waiting.old.items (W.told writer.new).held waiting.new.items (cut_text packet)) }
    ensures failed { WriterTells (W.told writer.old) (W.told writer.new) result }
{
    texts_add_up();
    let Some(lines) = packet else {
        return Ok(());
    };
    put_of(
        lines.last,
        b"the packet",
        lines.first,
        b" is cut",
        waiting,
        writer,
    )
}

/// Puts out how many lines of the other kind were passed over.
fn put_kind<W: Sink>(
    kind: Option<Kind>,
    count: u64,
    waiting: &mut Waiting,
    writer: &mut W,
) -> Result<(), RunFault>
    ensures puts { OnOk result (PutsText (W.told writer.old).held waiting.old.items (W.told writer.new).held waiting.new.items (passed_kind kind count)) }
    ensures failed { WriterTells (W.told writer.old) (W.told writer.new) result }
{
    texts_add_up();
    match kind {
        Some(Kind::I2c) => put_passed(count, b"i2c", waiting, writer),
        Some(Kind::Smbus) => put_passed(count, b"smbus", waiting, writer),
        None => Ok(()),
    }
}

/// Puts out that there are no packets, where that is so.
fn put_no_packets<W: Sink>(
    packets: u64,
    waiting: &mut Waiting,
    writer: &mut W,
) -> Result<(), RunFault>
    ensures puts { OnOk result (PutsText (W.told writer.old).held waiting.old.items (W.told writer.new).held waiting.new.items (no_packets_line packets)) }
    ensures failed { WriterTells (W.told writer.old) (W.told writer.new) result }
{
    texts_add_up();
    if packets == 0 {
        return put(waiting, b"# no packets\n", writer);
    }
    Ok(())
}
