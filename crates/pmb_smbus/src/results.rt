//! The result of a transfer.

ghost use Rattle.std.specs.Prelude.{◌≡◌, ℕ, List, OnOk, Some};
ghost use Rattle.pmb_io.specs.Calls.{WriterTells};
ghost use Rattle.pmb_io.specs.Outgoing.{PutsText};
ghost use Rattle.pmb_recording.specs.Told.{reason_of};
ghost use Rattle.pmb_trace.specs.Views.{outcome_of, text_of};
ghost use Rattle.pmb_smbus.specs.Events as events;
ghost use Rattle.pmb_smbus.specs.Transfers as steps;
ghost use Rattle.pmb_smbus.specs.Views.{front_of};

use crate::events::{Front, Head};
use crate::transfers::Transfers;
use pmb_io::laws::texts_add_up;
use pmb_io::{RunFault, Sink, Waiting};
use pmb_recording::Fault;
use pmb_trace::{Outcome, OutcomeText, Told, below_zero};

impl Transfers {
    /// Takes `smbus_result`.
    pub(crate) fn take_result<W: Sink>(
        &mut self,
        front: Front<'_>,
        writes: bool,
        outcome: Outcome<'_>,
        waiting: &mut Waiting,
        writer: &mut W,
    ) -> Result<(), RunFault>
        ensures now { (time : List ℕ) → self.new ≡ (steps.follow self.old time (events.Result (front_of front.entry) writes (outcome_of outcome.entry))).now }
        ensures puts { (time : List ℕ) → OnOk result (PutsText (W.told writer.old).held waiting.old.items (W.told writer.new).held waiting.new.items (steps.follow self.old time (events.Result (front_of front.entry) writes (outcome_of outcome.entry))).text) }
        ensures failed { WriterTells (W.told writer.old) (W.told writer.new) result }
    {
        if front.is_far() {
            return self.faulty_result(Fault::MakesNoSense, waiting, writer);
        }
        match self.recording.packet {
            Some(_) => self.end_transfer(front.head, writes, outcome, waiting, writer),
            None => self.take_stray_result(waiting, writer),
        }
    }

    /// Takes a result where no packet is under way.
    pub(crate) fn take_stray_result<W: Sink>(
        &mut self,
        waiting: &mut Waiting,
        writer: &mut W,
    ) -> Result<(), RunFault>
        ensures now { self.new ≡ (steps.stray_result self.old).now }
        ensures puts { OnOk result (PutsText (W.told writer.old).held waiting.old.items (W.told writer.new).held waiting.new.items (steps.stray_result self.old).text) }
        ensures failed { WriterTells (W.told writer.old) (W.told writer.new) result }
    {
        texts_add_up();
        if self.recording.is_skipping {
            self.recording.end_skipping();
            return Ok(());
        }
        self.faulty_result(Fault::DoesNotFollow, waiting, writer)
    }

    /// Takes the result of the transfer under way.
    pub(crate) fn end_transfer<W: Sink>(
        &mut self,
        head: Head,
        writes: bool,
        outcome: Outcome<'_>,
        waiting: &mut Waiting,
        writer: &mut W,
    ) -> Result<(), RunFault>
        ensures now { self.new ≡ (steps.take_result self.old head writes (outcome_of outcome.entry)).now }
        ensures puts { OnOk result (PutsText (W.told writer.old).held waiting.old.items (W.told writer.new).held waiting.new.items (steps.take_result self.old head writes (outcome_of outcome.entry)).text) }
        ensures failed { WriterTells (W.told writer.old) (W.told writer.new) result }
    {
        if !self.transfer.may_end(head, writes) {
            return self.faulty_result(Fault::DoesNotFollow, waiting, writer);
        }
        match outcome.value {
            Some(_) => self.end_success(writes, waiting, writer),
            None => self.end_failed(outcome.text, waiting, writer),
        }
    }

    /// Takes a result that is a fault: reading begins after it.
    pub(crate) fn faulty_result<W: Sink>(
        &mut self,
        fault: Fault<'_>,
        waiting: &mut Waiting,
        writer: &mut W,
    ) -> Result<(), RunFault>
        ensures now { self.new ≡ (steps.faulty_result self.old (reason_of fault.entry)).now }
        ensures puts { OnOk result (PutsText (W.told writer.old).held waiting.old.items (W.told writer.new).held waiting.new.items (steps.faulty_result self.old (reason_of fault.entry)).text) }
        ensures failed { WriterTells (W.told writer.old) (W.told writer.new) result }
    {
        self.recording
            .take_fault_ending(fault, true, waiting, writer)
    }

    /// Ends a transfer that failed with such a result.
    pub(crate) fn end_failed<W: Sink>(
        &mut self,
        outcome: OutcomeText<'_>,
        waiting: &mut Waiting,
        writer: &mut W,
    ) -> Result<(), RunFault>
        ensures now { self.new ≡ (steps.failed self.old (text_of outcome.entry)).now }
        ensures puts { OnOk result (PutsText (W.told writer.old).held waiting.old.items (W.told writer.new).held waiting.new.items (steps.failed self.old (text_of outcome.entry)).text) }
        ensures failed { WriterTells (W.told writer.old) (W.told writer.new) result }
    {
        match outcome {
            OutcomeText::Written(text) => self.end_failure(text, waiting, writer),
            OutcomeText::Below(number) => {
                let mut room = Told::new();
                let text = below_zero(number, &mut room);
                self.end_failure(text, waiting, writer)
            }
        }
    }

    /// Ends a transfer that failed.
    pub(crate) fn end_failure<W: Sink>(
        &mut self,
        outcome: &[u8],
        waiting: &mut Waiting,
        writer: &mut W,
    ) -> Result<(), RunFault>
        ensures now { self.new ≡ (steps.failed self.old outcome.now).now }
        ensures puts { OnOk result (PutsText (W.told writer.old).held waiting.old.items (W.told writer.new).held waiting.new.items (steps.failed self.old outcome.now).text) }
        ensures failed { WriterTells (W.told writer.old) (W.told writer.new) result }
    {
        self.transfer.put_legs(&mut self.recording.wire);
        self.recording.end_failure(outcome, waiting, writer)
    }

    /// Ends a transfer that went through.
    pub(crate) fn end_success<W: Sink>(
        &mut self,
        writes: bool,
        waiting: &mut Waiting,
        writer: &mut W,
    ) -> Result<(), RunFault>
        ensures now { self.new ≡ (steps.went_through self.old writes).now }
        ensures puts { OnOk result (PutsText (W.told writer.old).held waiting.old.items (W.told writer.new).held waiting.new.items (steps.went_through self.old writes).text) }
        ensures failed { WriterTells (W.told writer.old) (W.told writer.new) result }
    {
        if !self.transfer.has_its_reply(writes) {
            return self.faulty_result(Fault::DoesNotFollow, waiting, writer);
        }
        if self.transfer.lacks_bytes() {
            return self.recording.end_hidden_bytes(waiting, writer);
        }
        if self.transfer.lacks_reply(writes) {
            return self.recording.end_hidden_reply(waiting, writer);
        }
        self.end_packet(waiting, writer)
    }

    /// Ends a transfer that is shown whole.
    pub(crate) fn end_packet<W: Sink>(
        &mut self,
        waiting: &mut Waiting,
        writer: &mut W,
    ) -> Result<(), RunFault>
        ensures now { self.new ≡ (steps.whole self.old).now }
        ensures puts { OnOk result (PutsText (W.told writer.old).held waiting.old.items (W.told writer.new).held waiting.new.items (steps.whole self.old).text) }
        ensures failed { WriterTells (W.told writer.old) (W.told writer.new) result }
    {
        self.transfer.put_packet(&mut self.recording.wire);
        if self.transfer.has_code_byte() {
            self.error_codes = self.error_codes.saturating_add(1);
        }
        self.recording.end_packet(waiting, writer)
    }
}
