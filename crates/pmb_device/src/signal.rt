//! What a host puts on a bus, and what a device answers.
//!
//! Its rows: `tests_devices`, `src/devices/sessions.rt`, `src/devices/calls.rt`.

/// What a host puts on a bus.
#[derive(Clone, Copy, Debug, PartialEq, Eq)]
pub enum HostSignal {
    /// START, also a repeated one.
    Start,
    /// A byte, to which the devices answer.
    Byte(u8),
    /// The clocks for a byte that a device is to put on the bus.
    Ask,
    /// ACK after such a byte.
    Ack,
    /// NACK after such a byte.
    Nack,
    /// STOP.
    Stop,
}

/// What a device answers to a signal.
#[derive(Clone, Copy, Debug, PartialEq, Eq)]
pub enum DeviceSignal {
    /// Nothing.
    Silent,
    /// ACK, to a byte.
    Ack,
    /// NACK, to a byte.
    Nack,
    /// A byte, where it was asked for one.
    Byte(u8),
}
