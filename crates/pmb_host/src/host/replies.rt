//! The reply that a host reads: it asks for each byte, and keeps it.
//!
//! Its rows: `tests_host`, `src/host/ends.rt`, `src/host/answers.rt`.

ghost use Rattle.std.specs.Prelude.{ℕ, Bool, Some, ◌++◌, ◌<◌, List, length, [], ◌∷◌};
ghost use Rattle.pmb_host.specs.Host.{HostStanding, FirstSteps};
ghost use Rattle.pmb_command.specs.declared.form.Form.{Form};
ghost use Rattle.pmb_host.specs.machine.Replies.{IsState};
ghost use Rattle.pmb_host.specs.machine.Standing.{IsIncoming, IsRead, InReply, with_signal};
ghost use Rattle.pmb_device.specs.declared.signal.HostSignal.TheVariants as signals;
ghost use Rattle.pmb_device.specs.declared.signal.DeviceSignal.TheVariants as answers;
ghost use Rattle.pmb_devices.specs.Bus.{AnsweredSignal};

use super::{Host, HostPhase};
use crate::reply::{Incoming, ReplyState};
use crate::step::{HostFault, HostStep};
use pmb_bus::pec_next;
use pmb_device::{DeviceSignal, HostSignal};

impl Host<'_> {
    /// Asks for a byte.
    pub(super) fn ask(&mut self) -> HostStep
        ensures { (standing : HostStanding) (heard : List AnsweredSignal) → InReply self.old standing.job heard → FirstSteps standing heard result self.new }
    {
        self.phase = HostPhase::Given;
        HostStep::Send(HostSignal::Ask)
    }

    /// Takes the byte that was asked for, and gives up where there is none.
    pub(super) fn heard_of_ask(&mut self, answer: DeviceSignal) -> HostStep
        ensures { (standing : HostStanding) (heard : List AnsweredSignal) → InReply self.old standing.job heard → FirstSteps standing (with_signal heard signals.Ask answer) result self.new }
    {
        match answer {
            DeviceSignal::Byte(byte) => self.take(byte),
            _ => {
                self.fault = Some(HostFault::NoByte);
                self.stop()
            }
        }
    }

    /// Takes a byte of the reply: ACK asks for more, NACK for none.
    fn take(&mut self, byte: u8) -> HostStep
        ensures { (standing : HostStanding) (heard : List AnsweredSignal) → InReply self.old standing.job heard → FirstSteps standing (with_signal heard signals.Ask (answers.Byte byte)) result self.new }
    {
        let state = taken(&mut self.reply, byte, self.crc);
        self.crc = pec_next(self.crc, byte);
        match state {
            ReplyState::Short => {
                self.phase = HostPhase::Ask;
                HostStep::Send(HostSignal::Ack)
            }
            ReplyState::Whole => self.end_reply(),
            ReplyState::BadPec => {
                self.fault = Some(HostFault::BadPec);
                self.end_reply()
            }
        }
    }

    /// Sends NACK after the last byte of a reply.
    fn end_reply(&mut self) -> HostStep
        ensures { (standing : HostStanding) (heard : List AnsweredSignal) → IsRead self.old standing.job heard → FirstSteps standing heard result self.new }
    {
        self.phase = HostPhase::Stop;
        HostStep::Send(HostSignal::Nack)
    }
}

/// Takes a byte of a reply, after bytes with this packet error code. Where none is to come it is
/// one byte too many, and the last.
fn taken(reply: &mut Option<Incoming>, byte: u8, crc: u8) -> ReplyState
    ensures { (form : Form) (with_pec : Bool) (bytes : List ℕ) → IsIncoming reply.old (Some form) with_pec bytes → length bytes < 257
        → IsIncoming reply.new (Some form) with_pec (bytes ++ byte ∷ []) × IsState result form with_pec (bytes ++ byte ∷ []) byte crc }
{
    match reply {
        Some(reply) => reply.take(byte, crc),
        None => ReplyState::Whole,
    }
}
