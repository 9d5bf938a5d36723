//! The replies and the result of a transfer.

ghost use Rattle.std.specs.Prelude.{◌≡◌, ◌≤◌, ◌<◌, ◌+◌, length, OnOk};
ghost use Rattle.pmb_io.specs.Calls.{WriterTells};
ghost use Rattle.pmb_io.specs.Outgoing.{PutsText};
ghost use Rattle.pmb_recording.specs.Told.{DoesNotFollow};
ghost use Rattle.pmb_trace.specs.Views.{outcome_of};
ghost use Rattle.pmb_kernel.specs.Transfers.{add_reply as reply_added, end_transfer as end_step};
ghost use Rattle.pmb_kernel.specs.Transfers.{faulty_result as faulty_step, follow_result as result_followed};
ghost use Rattle.pmb_kernel.specs.Transfers.{reads_below as count_below, replies_due as due_of, reply as reply_step, reply_to as reply_to_step};
ghost use Rattle.pmb_kernel.specs.Transfers.{result as result_step, stray_result as stray_result_step};
ghost use Rattle.pmb_kernel.specs.Transfers.{with_reply};
ghost use Rattle.pmb_kernel.specs.Views.{message_with};

use crate::events::Message;
use crate::transfers::{MOST_READS, Read, Transfers};
use crate::wire::put_read;
use pmb_io::laws::texts_add_up;
use pmb_io::{RunFault, Sink, Waiting};
use pmb_recording::{Fault, MOST_WIRE};
use pmb_trace::{Outcome, OutcomeText, Told, below_zero};

impl Transfers {
    /// Takes a reply of the transfer under way.
    pub(crate) fn take_reply<W: Sink>(
        &mut self,
        message: &Message<'_>,
        bytes: &[u8],
        waiting: &mut Waiting,
        writer: &mut W,
    ) -> Result<(), RunFault>
        ensures now { self.new ≡ (reply_step self.old (message_with message.now bytes.now)).now }
        ensures puts { OnOk result (PutsText (W.told writer.old).held waiting.old.items (W.told writer.new).held waiting.new.items (reply_step self.old (message_with message.now bytes.now)).text) }
        ensures failed { WriterTells (W.told writer.old) (W.told writer.new) result }
    {
        match self.reads.as_slice().get(self.replies) {
            Some(read) => {
                let read = *read;
                self.reply_to(read, message, bytes, waiting, writer)
            }
            None => self.fault(Fault::DoesNotFollow, waiting, writer),
        }
    }

    /// Takes a reply, where this message that reads waits for one.
    pub(crate) fn reply_to<W: Sink>(
        &mut self,
        read: Read,
        message: &Message<'_>,
        bytes: &[u8],
        waiting: &mut Waiting,
        writer: &mut W,
    ) -> Result<(), RunFault>
        requires { self.old.replies < MOST_READS }
        ensures now { self.new ≡ (reply_to_step self.old read (message_with message.now bytes.now)).now }
        ensures puts { OnOk result (PutsText (W.told writer.old).held waiting.old.items (W.told writer.new).held waiting.new.items (reply_to_step self.old read (message_with message.now bytes.now)).text) }
        ensures failed { WriterTells (W.told writer.old) (W.told writer.new) result }
    {
        if message.is_reply_to(read, bytes) {
            self.recording.give();
            return self.add_reply(read, bytes, waiting, writer);
        }
        self.fault(Fault::DoesNotFollow, waiting, writer)
    }

    /// Adds the reply to a message that reads.
    pub(crate) fn add_reply<W: Sink>(
        &mut self,
        read: Read,
        bytes: &[u8],
        waiting: &mut Waiting,
        writer: &mut W,
    ) -> Result<(), RunFault>
        requires { self.old.replies < MOST_READS }
        ensures now { self.new ≡ (reply_added self.old read bytes.now).now }
        ensures puts { OnOk result (PutsText (W.told writer.old).held waiting.old.items (W.told writer.new).held waiting.new.items (reply_added self.old read bytes.now).text) }
        ensures failed { WriterTells (W.told writer.old) (W.told writer.new) result }
    {
        texts_add_up();
        if self.recording.wire.len() + bytes.len() <= MOST_WIRE {
            self.put_reply(read, bytes);
            return Ok(());
        }
        self.recording.drop_long(false, waiting, writer)
    }

    /// Puts a reply where it belongs, in a packet that has room for it.
    pub(crate) fn put_reply(&mut self, read: Read, bytes: &[u8])
        requires few { self.old.replies < MOST_READS }
        requires room { length self.old.recording.wire.items + length bytes.now ≤ MOST_WIRE }
        ensures { self.new ≡ with_reply self.old read bytes.now }
    {
        let at = usize::from(read.at).saturating_add(self.replied);
        put_read(&mut self.recording.wire, at, bytes);
        self.replies += 1;
        self.replied = self.replied.saturating_add(bytes.len());
    }

    /// Takes a result.
    pub(crate) fn follow_result<W: Sink>(
        &mut self,
        count: u64,
        outcome: &Outcome<'_>,
        waiting: &mut Waiting,
        writer: &mut W,
    ) -> Result<(), RunFault>
        ensures now { self.new ≡ (result_followed self.old count (outcome_of outcome.now)).now }
        ensures puts { OnOk result (PutsText (W.told writer.old).held waiting.old.items (W.told writer.new).held waiting.new.items (result_followed self.old count (outcome_of outcome.now)).text) }
        ensures failed { WriterTells (W.told writer.old) (W.told writer.new) result }
    {
        if self.recording.packet.is_none() {
            return self.take_stray_result(waiting, writer);
        }
        self.take_result(count, outcome, waiting, writer)
    }

    /// Takes a result where no packet is under way.
    pub(crate) fn take_stray_result<W: Sink>(
        &mut self,
        waiting: &mut Waiting,
        writer: &mut W,
    ) -> Result<(), RunFault>
        ensures now { self.new ≡ (stray_result_step self.old).now }
        ensures puts { OnOk result (PutsText (W.told writer.old).held waiting.old.items (W.told writer.new).held waiting.new.items (stray_result_step self.old).text) }
        ensures failed { WriterTells (W.told writer.old) (W.told writer.new) result }
    {
        texts_add_up();
        if self.recording.is_skipping {
            self.recording.end_skipping();
            return Ok(());
        }
        self.faulty_result(waiting, writer)
    }

    /// Takes the result of the transfer under way.
    pub(crate) fn take_result<W: Sink>(
        &mut self,
        count: u64,
        outcome: &Outcome<'_>,
        waiting: &mut Waiting,
        writer: &mut W,
    ) -> Result<(), RunFault>
        ensures now { self.new ≡ (result_step self.old count (outcome_of outcome.now)).now }
        ensures puts { OnOk result (PutsText (W.told writer.old).held waiting.old.items (W.told writer.new).held waiting.new.items (result_step self.old count (outcome_of outcome.now)).text) }
        ensures failed { WriterTells (W.told writer.old) (W.told writer.new) result }
    {
        if count == self.messages && self.replies_due(outcome.value) == self.replies {
            return self.end_transfer(outcome, waiting, writer);
        }
        self.faulty_result(waiting, writer)
    }

    /// Takes a result that doesn't follow: reading begins after it.
    pub(crate) fn faulty_result<W: Sink>(
        &mut self,
        waiting: &mut Waiting,
        writer: &mut W,
    ) -> Result<(), RunFault>
        ensures now { self.new ≡ (faulty_step self.old DoesNotFollow).now }
        ensures puts { OnOk result (PutsText (W.told writer.old).held waiting.old.items (W.told writer.new).held waiting.new.items (faulty_step self.old DoesNotFollow).text) }
        ensures failed { WriterTells (W.told writer.old) (W.told writer.new) result }
    {
        self.recording
            .take_fault_ending(Fault::DoesNotFollow, true, waiting, writer)
    }

    /// Ends the transfer under way.
    pub(crate) fn end_transfer<W: Sink>(
        &mut self,
        outcome: &Outcome<'_>,
        waiting: &mut Waiting,
        writer: &mut W,
    ) -> Result<(), RunFault>
        ensures now { self.new ≡ (end_step self.old (outcome_of outcome.now)).now }
        ensures puts { OnOk result (PutsText (W.told writer.old).held waiting.old.items (W.told writer.new).held waiting.new.items (end_step self.old (outcome_of outcome.now)).text) }
        ensures failed { WriterTells (W.told writer.old) (W.told writer.new) result }
    {
        if outcome.value == Some(self.messages) {
            return self.recording.end_packet(waiting, writer);
        }
        match outcome.text {
            OutcomeText::Written(text) => self.recording.end_failure(text, waiting, writer),
            OutcomeText::Below(number) => {
                let mut room = Told::new();
                let text = below_zero(number, &mut room);
                self.recording.end_failure(text, waiting, writer)
            }
        }
    }

    /// How many replies a transfer of such a result has.
    pub(crate) fn replies_due(&self, value: Option<u64>) -> usize
        ensures { result ≡ due_of value self.now.reads.items }
    {
        match value {
            Some(value) => reads_below(value, self.reads.as_slice()),
            None => 0,
        }
    }
}

/// How many messages that read have a number below this one.
fn reads_below(value: u64, reads: &[Read]) -> usize
    ensures { result ≡ count_below value reads.now }
{
    let mut due: usize = 0;
    for read in reads {
        if u64::from(read.number) < value {
            due += 1;
        }
    }
    due
}
