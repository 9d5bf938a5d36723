//! What a host does next, and how it ends.
//!
//! Its rows: `tests_host`, `src/host/ends.rt`, `src/host/faults.rt`.

use arrayvec::ArrayVec;
use pmb_device::HostSignal;
use pmb_value::{ModeFault, Quantity, RangeFault};
use pmb_writer::Invalid;

/// What a host does next.
#[derive(Clone, Debug, Drop, PartialEq, Eq)]
pub enum HostStep {
    /// It puts a signal on the bus.
    Send(HostSignal),
    /// It did what was asked for.
    Done(Reply),
    /// It didn't.
    Failed(HostFault),
}

/// The result of a request.
#[derive(Clone, Debug, Drop, PartialEq, Eq)]
pub enum Reply {
    /// All was written.
    Written,
    /// The data that were read, without count and packet error code.
    Bytes(ArrayVec<u8, 255>),
    /// The quantity that was read.
    Value(Quantity),
    /// A word was read that has no value in the command's format.
    NoValue,
}

/// Why a request can't be made, or failed on the bus.
#[derive(Clone, Copy, Debug, PartialEq, Eq)]
pub enum HostFault {
    /// It has no packet.
    Invalid(Invalid),
    /// The command's data are no number.
    NotAQuantity,
    /// The command's format is that of a VOUT_MODE which is not known.
    ModeUnknown,
    /// VOUT_MODE names none of the formats that a host writes.
    Mode(ModeFault),
    /// The quantity is outside the format's range.
    Range(RangeFault),
    /// A byte was not acknowledged: the leg that it stands in, from 1, and its place there, 0 for the
    /// address and 1 for the command code; `at_read` where it is the address for reading.
    Refused { leg: u8, byte: u16, at_read: bool },
    /// The device gave no byte where it was asked for one.
    NoByte,
    /// The packet error code of the reply is wrong.
    BadPec,
}
