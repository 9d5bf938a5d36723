//! What is recorded of a signal.
//!
//! Its rows: `tests_devices`, `src/devices/sessions.rt`; `tests_host`, `src/exchange/rows.rt`.

ghost use Rattle.std.specs.Prelude.{◌≡◌};
ghost use Rattle.pmb_devices.specs.Bus.{acknowledged, given, recorded};

use pmb_bus::Event;
use pmb_device::{DeviceSignal, HostSignal};
use std::marker::Model;

/// The result of one signal of the host: the events that are recorded of it, one or two, and the
/// answer on the bus.
#[derive(Clone, Debug, Drop)]
pub struct Recorded {
    /// The events; where there is one, it stands twice.
    events: [Event; 2],
    /// Whether there are two.
    two: bool,
    answer: DeviceSignal,
}

impl Model for Recorded {
    ghost use Rattle.pmb_devices.specs.Recorded.{RecordedData};

    ghost Value = { RecordedData };

    ghost use Rattle.std.specs.Prelude.{take, if◌then◌else◌};

    ghost view = { λ r. record { result = r.answer; events = take (if r.two then 2 else 1) r.events } };
}

/// The answer to a byte, on the wire.
fn acknowledged(answer: DeviceSignal) -> Event
    ensures { result ≡ acknowledged answer }
{
    match answer {
        DeviceSignal::Ack => Event::Ack,
        DeviceSignal::Silent | DeviceSignal::Nack | DeviceSignal::Byte(_) => Event::Nack,
    }
}

/// The byte that a device gave, or NACK.
fn given(answer: DeviceSignal) -> Event
    ensures { result ≡ given answer }
{
    match answer {
        DeviceSignal::Byte(byte) => Event::Byte(byte),
        DeviceSignal::Silent | DeviceSignal::Ack | DeviceSignal::Nack => Event::Nack,
    }
}

impl Recorded {
    /// What is recorded of a signal and the answer to it.
    pub(crate) fn new(signal: HostSignal, answer: DeviceSignal) -> Self
        ensures { result ≡ record { result = answer; events = recorded signal answer } }
    {
        let first = match signal {
            HostSignal::Start => Event::Start,
            HostSignal::Byte(byte) => Event::Byte(byte),
            HostSignal::Ask => given(answer),
            HostSignal::Ack => Event::Ack,
            HostSignal::Nack => Event::Nack,
            HostSignal::Stop => Event::Stop,
        };
        let two = matches!(signal, HostSignal::Byte(_));
        let second = if two { acknowledged(answer) } else { first };
        Recorded {
            events: [first, second],
            two,
            answer,
        }
    }

    /// The events: a byte of the host and its ACK or NACK, or one event.
    pub fn events(&self) -> &[Event]
        ensures { result.now ≡ self.now.events }
    {
        if self.two {
            &self.events
        } else {
            &self.events[..1]
        }
    }

    /// The answer of the device that is not silent, if one is.
    pub fn answer(&self) -> DeviceSignal
        ensures { result ≡ self.now.result }
    {
        self.answer
    }
}
