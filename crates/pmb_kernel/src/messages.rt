//! The messages of a transfer.

ghost use Rattle.std.specs.Prelude.{◌≡◌, ◌≤◌, ◌<◌, ◌+◌, [], true, length, OnOk};
ghost use Rattle.pmb_io.specs.Calls.{WriterTells};
ghost use Rattle.pmb_io.specs.Outgoing.{PutsText};
ghost use Rattle.pmb_trace.specs.Line.{in_seconds};
ghost use Rattle.pmb_kernel.specs.Transfers.{add_message as message_step, begin as begin_step};
ghost use Rattle.pmb_kernel.specs.Transfers.{first_message as first_step, follow_message as message_followed};
ghost use Rattle.pmb_kernel.specs.Transfers.{has_room as room_for, in_sixteen_bits as sixteen_bits};
ghost use Rattle.pmb_kernel.specs.Transfers.{next_message as next_step, on, read_of};
ghost use Rattle.pmb_kernel.specs.Transfers.{with_message, with_read};
ghost use Rattle.pmb_kernel.specs.Views.{IsShort, message_with, role_of};

use crate::events::{Message, Role};
use crate::transfers::{MOST_READS, Read, Transfers};
use crate::wire::push_written;
use pmb_io::laws::texts_add_up;
use pmb_io::{RunFault, Sink, Waiting};
use pmb_recording::{Fault, MOST_WIRE, WireByte};

impl Transfers {
    /// Takes a message, or a reply, that is no fault by itself.
    pub(crate) fn follow_message<W: Sink>(
        &mut self,
        time: &[u8],
        message: &Message<'_>,
        bytes: &[u8],
        waiting: &mut Waiting,
        writer: &mut W,
    ) -> Result<(), RunFault>
        requires short { IsShort time.now }
        requires address { message.now.address ≤ 0x7f }
        ensures now { OnOk result (self.new ≡ (message_followed self.old (in_seconds time.now) (message_with message.now bytes.now)).now) }
        ensures puts { OnOk result (PutsText (W.told writer.old).held waiting.old.items (W.told writer.new).held waiting.new.items (message_followed self.old (in_seconds time.now) (message_with message.now bytes.now)).text) }
        ensures failed { WriterTells (W.told writer.old) (W.told writer.new) result }
    {
        if message.role.begins(message.number) {
            return self.first_message(time, message, bytes, waiting, writer);
        }
        if self.recording.packet.is_none() {
            return self.take_stray(waiting, writer);
        }
        match message.role {
            Role::Writes | Role::Reads => self.next_message(message, bytes, waiting, writer),
            Role::Replies => self.take_reply(message, bytes, waiting, writer),
        }
    }

    /// Takes the first message of a transfer.
    pub(crate) fn first_message<W: Sink>(
        &mut self,
        time: &[u8],
        message: &Message<'_>,
        bytes: &[u8],
        waiting: &mut Waiting,
        writer: &mut W,
    ) -> Result<(), RunFault>
        requires short { IsShort time.now }
        requires address { message.now.address ≤ 0x7f }
        ensures now { OnOk result (self.new ≡ (first_step self.old (in_seconds time.now) (message_with message.now bytes.now)).now) }
        ensures puts { OnOk result (PutsText (W.told writer.old).held waiting.old.items (W.told writer.new).held waiting.new.items (first_step self.old (in_seconds time.now) (message_with message.now bytes.now)).text) }
        ensures failed { WriterTells (W.told writer.old) (W.told writer.new) result }
    {
        texts_add_up();
        self.begin(time, waiting, writer)?;
        self.add_message(message, bytes, waiting, writer)
    }

    /// Begins a transfer.
    pub(crate) fn begin<W: Sink>(
        &mut self,
        time: &[u8],
        waiting: &mut Waiting,
        writer: &mut W,
    ) -> Result<(), RunFault>
        requires { IsShort time.now }
        ensures now { self.new ≡ (begin_step self.old (in_seconds time.now)).now }
        ensures puts { OnOk result (PutsText (W.told writer.old).held waiting.old.items (W.told writer.new).held waiting.new.items (begin_step self.old (in_seconds time.now)).text) }
        ensures failed { WriterTells (W.told writer.old) (W.told writer.new) result }
    {
        self.messages = 0;
        self.reads.clear();
        self.replies = 0;
        self.replied = 0;
        self.recording.begin(time, b" s", waiting, writer)
    }

    /// Takes a message after the first.
    pub(crate) fn next_message<W: Sink>(
        &mut self,
        message: &Message<'_>,
        bytes: &[u8],
        waiting: &mut Waiting,
        writer: &mut W,
    ) -> Result<(), RunFault>
        requires { message.now.address ≤ 0x7f }
        ensures now { self.new ≡ (next_step self.old (message_with message.now bytes.now)).now }
        ensures puts { OnOk result (PutsText (W.told writer.old).held waiting.old.items (W.told writer.new).held waiting.new.items (next_step self.old (message_with message.now bytes.now)).text) }
        ensures failed { WriterTells (W.told writer.old) (W.told writer.new) result }
    {
        if message.number == self.messages && self.replies == 0 {
            self.recording.give();
            return self.add_message(message, bytes, waiting, writer);
        }
        self.fault(Fault::DoesNotFollow, waiting, writer)
    }

    /// Adds a message to the transfer under way.
    pub(crate) fn add_message<W: Sink>(
        &mut self,
        message: &Message<'_>,
        bytes: &[u8],
        waiting: &mut Waiting,
        writer: &mut W,
    ) -> Result<(), RunFault>
        requires { message.now.address ≤ 0x7f }
        ensures now { self.new ≡ (message_step self.old (message_with message.now bytes.now)).now }
        ensures puts { OnOk result (PutsText (W.told writer.old).held waiting.old.items (W.told writer.new).held waiting.new.items (message_step self.old (message_with message.now bytes.now)).text) }
        ensures failed { WriterTells (W.told writer.old) (W.told writer.new) result }
    {
        texts_add_up();
        if self.has_room(bytes) {
            self.push_message(message, bytes);
            return Ok(());
        }
        self.recording.drop_long(false, waiting, writer)
    }

    /// Whether there is room for a message that shows these bytes.
    pub(crate) fn has_room(&self, bytes: &[u8]) -> bool
        ensures { result ≡ room_for self.now bytes.now }
    {
        self.recording.wire.len() + 1 + bytes.len() <= MOST_WIRE && self.reads.len() < MOST_READS
    }

    /// Puts a message to the transfer under way, which has room for it.
    pub(crate) fn push_message(&mut self, message: &Message<'_>, bytes: &[u8])
        requires address { message.now.address ≤ 0x7f }
        requires room { room_for self.old bytes.now ≡ true }
        ensures { self.new ≡ with_message self.old (message_with message.now bytes.now) }
    {
        self.recording.wire.push(WireByte {
            follows_start: true,
            byte: message.address_byte(),
            is_acknowledged: true,
        });
        self.push_read(message);
        push_written(&mut self.recording.wire, bytes);
        self.messages = self.messages.saturating_add(1);
    }

    /// Keeps a message that reads, whose address was put on the wire.
    pub(crate) fn push_read(&mut self, message: &Message<'_>)
        requires address { message.now.address ≤ 0x7f }
        requires room { length self.old.reads.items < MOST_READS }
        ensures { self.new ≡ record self.old { reads = record { items = with_read (role_of message.now.role) (read_of (length self.old.recording.wire.items) (message_with message.now [])) self.old.reads.items } } }
    {
        if message.role == Role::Reads {
            self.reads.push(Read {
                number: in_sixteen_bits(message.number),
                address: (message.address % 128) as u8,
                flags: message.flags,
                length: in_sixteen_bits(message.length),
                at: self.recording.wire.len() as u16,
            });
        }
    }
}

/// A number in sixteen bits.
fn in_sixteen_bits(number: u64) -> u16
    ensures { result ≡ sixteen_bits number }
{
    number.min(0xffff) as u16
}
