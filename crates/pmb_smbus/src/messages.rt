//! The messages of a transfer.

ghost use Rattle.std.specs.Prelude.{◌≡◌, ◌≤◌, ℕ, List, OnOk, Some, length};
ghost use Rattle.pmb_io.specs.Calls.{WriterTells};
ghost use Rattle.pmb_io.specs.Outgoing.{PutsText};
ghost use Rattle.pmb_recording.specs.Content.{most_content};
ghost use Rattle.pmb_trace.specs.Line.{in_seconds};
ghost use Rattle.pmb_smbus.specs.Events as events;
ghost use Rattle.pmb_smbus.specs.Transfers as steps;
ghost use Rattle.pmb_smbus.specs.Views.{front_of, message_with};

use crate::events::{Front, Head, Message};
use crate::transfers::Transfers;
use pmb_io::laws::texts_add_up;
use pmb_io::{RunFault, Sink, Waiting};
use pmb_recording::Fault;

impl Transfers {
    /// Takes `smbus_write`.
    pub(crate) fn take_write<W: Sink>(
        &mut self,
        time: &[u8],
        message: Message<'_>,
        bytes: &[u8],
        waiting: &mut Waiting,
        writer: &mut W,
    ) -> Result<(), RunFault>
        requires { length time.now ≤ most_content }
        ensures now { self.new ≡ (steps.follow self.old (in_seconds time.now) (events.Writes (message_with message.entry bytes.now))).now }
        ensures puts { OnOk result (PutsText (W.told writer.old).held waiting.old.items (W.told writer.new).held waiting.new.items (steps.follow self.old (in_seconds time.now) (events.Writes (message_with message.entry bytes.now))).text) }
        ensures failed { WriterTells (W.told writer.old) (W.told writer.new) result }
    {
        if let Some(fault) = message.write_fault(bytes) {
            return self.fault(fault, waiting, writer);
        }
        self.begin(
            time,
            message.front.head,
            true,
            message.shown(bytes),
            message.hides(),
            waiting,
            writer,
        )
    }

    /// Takes `smbus_read`.
    pub(crate) fn take_read<W: Sink>(
        &mut self,
        time: &[u8],
        front: Front<'_>,
        waiting: &mut Waiting,
        writer: &mut W,
    ) -> Result<(), RunFault>
        requires { length time.now ≤ most_content }
        ensures now { self.new ≡ (steps.follow self.old (in_seconds time.now) (events.Reads (front_of front.entry))).now }
        ensures puts { OnOk result (PutsText (W.told writer.old).held waiting.old.items (W.told writer.new).held waiting.new.items (steps.follow self.old (in_seconds time.now) (events.Reads (front_of front.entry))).text) }
        ensures failed { WriterTells (W.told writer.old) (W.told writer.new) result }
    {
        if let Some(fault) = front.read_fault() {
            return self.fault(fault, waiting, writer);
        }
        self.begin(time, front.head, false, b"", false, waiting, writer)
    }

    /// Begins a transfer.
    pub(crate) fn begin<W: Sink>(
        &mut self,
        time: &[u8],
        head: Head,
        writes: bool,
        bytes: &[u8],
        is_hidden: bool,
        waiting: &mut Waiting,
        writer: &mut W,
    ) -> Result<(), RunFault>
        requires time { length time.now ≤ most_content }
        requires bytes { length bytes.now ≤ 256 }
        ensures now { self.new ≡ (steps.begin self.old (in_seconds time.now) (steps.begun head writes bytes.now is_hidden)).now }
        ensures puts { OnOk result (PutsText (W.told writer.old).held waiting.old.items (W.told writer.new).held waiting.new.items (steps.begin self.old (in_seconds time.now) (steps.begun head writes bytes.now is_hidden)).text) }
        ensures failed { WriterTells (W.told writer.old) (W.told writer.new) result }
    {
        self.transfer.begin(head, writes, bytes, is_hidden);
        self.recording.begin(time, b" s", waiting, writer)
    }

    /// Takes `smbus_reply`.
    pub(crate) fn take_reply<W: Sink>(
        &mut self,
        message: Message<'_>,
        bytes: &[u8],
        waiting: &mut Waiting,
        writer: &mut W,
    ) -> Result<(), RunFault>
        ensures now { (time : List ℕ) → self.new ≡ (steps.follow self.old time (events.Replies (message_with message.entry bytes.now))).now }
        ensures puts { (time : List ℕ) → OnOk result (PutsText (W.told writer.old).held waiting.old.items (W.told writer.new).held waiting.new.items (steps.follow self.old time (events.Replies (message_with message.entry bytes.now))).text) }
        ensures failed { WriterTells (W.told writer.old) (W.told writer.new) result }
    {
        if let Some(fault) = message.reply_fault(bytes) {
            return self.fault(fault, waiting, writer);
        }
        match self.recording.packet {
            Some(_) => self.reply(
                message.front.head,
                message.shown(bytes),
                message.hides(),
                waiting,
                writer,
            ),
            None => self.take_stray(waiting, writer),
        }
    }

    /// Takes the reply of the transfer under way.
    pub(crate) fn reply<W: Sink>(
        &mut self,
        head: Head,
        bytes: &[u8],
        is_hidden: bool,
        waiting: &mut Waiting,
        writer: &mut W,
    ) -> Result<(), RunFault>
        requires { length bytes.now ≤ 256 }
        ensures now { self.new ≡ (steps.reply self.old head bytes.now is_hidden).now }
        ensures puts { OnOk result (PutsText (W.told writer.old).held waiting.old.items (W.told writer.new).held waiting.new.items (steps.reply self.old head bytes.now is_hidden).text) }
        ensures failed { WriterTells (W.told writer.old) (W.told writer.new) result }
    {
        texts_add_up();
        if !self.transfer.may_reply(head) {
            return self.fault(Fault::DoesNotFollow, waiting, writer);
        }
        self.recording.give();
        self.transfer.take_reply(bytes, is_hidden);
        Ok(())
    }
}
