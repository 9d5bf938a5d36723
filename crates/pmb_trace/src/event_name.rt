//! The names of events.

ghost use Rattle.std.specs.Prelude.{◌≡◌};
ghost use Rattle.pmb_trace.specs.Line.{differs as kinds_differ, kind_of};

/// The events of transfers on a bus.
#[derive(Clone, Copy, Debug, PartialEq, Eq)]
pub enum EventName {
    /// A message that writes.
    I2cWrite,
    /// A message that reads.
    I2cRead,
    /// What a message read.
    I2cReply,
    /// The end of a transfer of messages.
    I2cResult,
    /// An SMBus transfer that writes, or a process call.
    SmbusWrite,
    /// An SMBus transfer that reads.
    SmbusRead,
    /// What it read.
    SmbusReply,
    /// Its end.
    SmbusResult,
}

/// The systems that events are of.
#[derive(Clone, Copy, Debug, PartialEq, Eq)]
pub enum EventKind {
    /// Messages.
    I2c,
    /// SMBus transfers.
    Smbus,
}

impl EventName {
    /// The system that the event is of.
    pub fn kind(self) -> EventKind
        ensures { result ≡ kind_of self }
    {
        match self {
            EventName::I2cWrite | EventName::I2cRead | EventName::I2cReply | EventName::I2cResult =>
                EventKind::I2c,
            EventName::SmbusWrite
            | EventName::SmbusRead
            | EventName::SmbusReply
            | EventName::SmbusResult => EventKind::Smbus,
        }
    }
}

impl EventKind {
    /// Whether it is the other kind.
    pub(crate) fn differs(self, other: EventKind) -> bool
        ensures { result ≡ kinds_differ self other }
    {
        match (self, other) {
            (EventKind::I2c, EventKind::I2c) | (EventKind::Smbus, EventKind::Smbus) => false,
            (EventKind::I2c, EventKind::Smbus) | (EventKind::Smbus, EventKind::I2c) => true,
        }
    }
}
