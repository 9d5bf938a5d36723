//! A whole request on a wire.
//!
//! Its rows: `tests_host`, `src/host/longest.rt`, `src/exchange/bench.rt`.

ghost use Rattle.std.specs.Prelude.{List, [], ◌∷◌, ◌++◌};
ghost use Rattle.pmb_devices.specs.Bus.{AnsweredSignal};
ghost use Rattle.pmb_host.specs.Host.{HostStandsAt, Job};
ghost use Rattle.pmb_host.specs.Run.{Drives, beginning};

use crate::host::Host;
use crate::step::{HostFault, HostStep, Reply};
use pmb_device::{DeviceSignal, HostSignal};

/// The host's end of a wire.
pub trait Wire {
    /// It stands at these signals, each with the answer to it: those that were put on it, as far as it is
    /// known. It need not keep them.
    ghost StandsAt: { Self → List AnsweredSignal → Type 0 };

    /// Puts a signal on it, and returns the answer.
    fn put(&mut self, signal: HostSignal) -> DeviceSignal
        ensures { (told : List AnsweredSignal) → StandsAt self.old told → StandsAt self.new (told ++ record { signal = signal; result = result } ∷ []) };
}

/// How many calls of [`Host::next`] a request takes at most: one for each signal, and one for its end.
const MOST_CALLS: u16 = 4162;

/// Makes the request of a new host on a wire, and returns how it ended.
///
/// Each signal of the host is put on the wire, and the host is given the answer to it: at most 4,161
/// signals, STOP the last and the only one. It returns `Ok` exactly where each byte was acknowledged, each
/// Ask given a byte, and the packet error code right where one was asked for. It takes no memory, and
/// ends whatever is answered. The host has ended then, and tells the same again.
///
/// # Errors
///
/// `Refused` by the first byte that was not acknowledged, `NoByte` by the first Ask to which no byte was
/// given, and `BadPec` where all else went well.
pub fn drive<W: Wire>(host: &mut Host<'_>, wire: &mut W) -> Result<Reply, HostFault>
    ensures { (job : Job) → HostStandsAt host.old (beginning job) → Drives job (W.StandsAt wire.old) (W.StandsAt wire.new) host.new result }
{
    let mut answer = DeviceSignal::Silent;
    for _ in 0..MOST_CALLS {
        match host.next(answer) {
            HostStep::Send(signal) => answer = wire.put(signal),
            HostStep::Done(reply) => return Ok(reply),
            HostStep::Failed(fault) => return Err(fault),
        }
    }
    // No new host comes here: it has told its end.
    Err(HostFault::NoByte)
}
