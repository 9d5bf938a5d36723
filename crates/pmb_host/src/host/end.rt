//! How a host ends: STOP, and the result of the request.
//!
//! Its rows: `tests_host`, `src/host/ends.rt`, `src/host/answers.rt`.

ghost use Rattle.std.specs.Prelude.{◌≡◌, ◌≤◌, List, length};
ghost use Rattle.pmb_host.specs.Host.{HostStanding, FirstSteps};
ghost use Rattle.pmb_host.specs.Steps.{reply_data, told_word};
ghost use Rattle.pmb_value.specs.WordFault.{value_in};
ghost use Rattle.pmb_host.specs.machine.Replies.{told_data};
ghost use Rattle.pmb_host.specs.machine.Standing.{AtStop, Tells};
ghost use Rattle.pmb_devices.specs.Bus.{AnsweredSignal};

use super::{Host, HostPhase};
use crate::step::{HostStep, Reply};
use arrayvec::ArrayVec;
use pmb_device::HostSignal;
use pmb_value::NumberFormat;

impl Host<'_> {
    /// Sends STOP.
    pub(super) fn stop(&mut self) -> HostStep
        ensures { (standing : HostStanding) (heard : List AnsweredSignal) → AtStop self.old standing.job heard → FirstSteps standing heard result self.new }
    {
        self.phase = HostPhase::End;
        HostStep::Send(HostSignal::Stop)
    }

    /// Tells how it ended.
    pub(super) fn end(&self) -> HostStep
        ensures { Tells self.now result }
    {
        if let Some(fault) = self.fault {
            return HostStep::Failed(fault);
        }
        match &self.reply {
            None => HostStep::Done(Reply::Written),
            Some(reply) => HostStep::Done(reply_of(self.number, reply.data())),
        }
    }
}

/// The quantity that a word is in a format, if it is one.
fn word_reply(format: NumberFormat, word: u16) -> Reply
    ensures { reply_data result ≡ told_word (value_in format word) }
{
    match format.value(word) {
        Ok(quantity) => Reply::Value(quantity),
        Err(_) => Reply::NoValue,
    }
}

/// The data of a reply, or the quantity that they are in a format.
fn reply_of(number: Option<NumberFormat>, data: &[u8]) -> Reply
    ensures { length «data».now ≤ 255 → reply_data result ≡ told_data number «data».now }
{
    match (number, data) {
        (Some(format), [low, high]) => word_reply(format, u16::from_le_bytes([*low, *high])),
        _ => {
            let mut bytes = ArrayVec::new();
            let _ = bytes.try_extend_from_slice(data);
            Reply::Bytes(bytes)
        }
    }
}
