//! An exchange.
//!
//! The host is given the bus's answer to the signal before, and the bus the host's signal, until
//! the host tells how it ended.
//!
//! Its rows: `tests_host`, `src/exchange/rows.rt`; `tests/rows/requests.txt`.

ghost use Rattle.std.specs.Prelude.{List};
ghost use Rattle.pmb_command.specs.Parts.{DeviceParts};
ghost use Rattle.pmb_devices.specs.declared.bus.Bus.{Bus as BusParts};
ghost use Rattle.pmb_request.specs.Request.{RequestData};
ghost use Rattle.pmb_exchange.specs.Steps.{Begins, ExchangeStanding, ExchangeStandsAt, StepsTo, beginning};

use crate::laws::runs_are_exchanges;
use pmb_device::DeviceSignal;
use pmb_devices::laws_on_replies::states_fit;
use pmb_devices::{Bus, Recorded};
use pmb_host::{Host, HostStep};

/// What an exchange does next.
#[derive(Debug, Drop)]
pub enum ExchangeStep {
    /// The host sent a signal, of which this was recorded.
    Recorded(Recorded),
    /// The host told how it ended.
    End(HostStep),
}

/// A host on a bus of simulated devices.
#[derive(Drop)]
pub struct Exchange<'p> {
    host: Host<'p>,
    /// The answer to the signal before.
    answer: DeviceSignal,
}

impl<'p> Exchange<'p> {
    /// An exchange in which nothing was sent. The host is to be new, and the bus that of its
    /// profile, between packets.
    pub fn new(host: Host<'p>) -> Self
        ensures { (profile : List DeviceParts) (request : RequestData) (bus : BusParts) (b : Begins profile request host.entry bus)
            → ExchangeStandsAt result bus (beginning profile request host.entry bus b) }
    {
        states_fit();
        Exchange {
            host,
            answer: DeviceSignal::Silent,
        }
    }

    /// The next signal and what is recorded of it, or how the host ended: there are at most 4,161
    /// signals, the last of them STOP, at which the devices act. After the end it is told again,
    /// and the bus is left alone. It is always the same bus.
    pub fn next(&mut self, bus: &mut Bus<'p>) -> ExchangeStep
        ensures { (standing : ExchangeStanding) → ExchangeStandsAt self.old bus.old standing → StepsTo standing result self.new bus.new }
    {
        runs_are_exchanges();
        match self.host.next(self.answer) {
            HostStep::Send(signal) => {
                let recorded = bus.signal(signal);
                self.answer = recorded.answer();
                ExchangeStep::Recorded(recorded)
            }
            HostStep::Done(reply) => ExchangeStep::End(HostStep::Done(reply)),
            HostStep::Failed(fault) => ExchangeStep::End(HostStep::Failed(fault)),
        }
    }
}
