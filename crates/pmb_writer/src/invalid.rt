//! Why a transaction has no packet. Its rows: `tests_packets`, `src/writer/faults.rt`;
//! `tests/rows/lines.txt`.

use thiserror::Error;

/// Why a transaction has no packet. Where there are several reasons, `check` answers the first one
/// in its order. The text of each is its name.
#[derive(Clone, Copy, Debug, PartialEq, Eq, Error)]
pub enum Invalid {
    /// A write has no part.
    #[error("NoParts")]
    NoParts,
    /// No device of the profile has the address, or it has more than seven bits.
    #[error("UnknownDevice")]
    UnknownDevice,
    /// An earlier part of the group has the address.
    #[error("AddressTwice")]
    AddressTwice,
    /// The device has no command with the code.
    #[error("UnknownCommand")]
    UnknownCommand,
    /// The command isn't written, read or called, as the transaction would have it.
    #[error("NotAllowed")]
    NotAllowed,
    /// The command takes data of another length.
    #[error("WrongLength")]
    WrongLength,
    /// The device never takes a packet error code and there is one, or it always does and there is
    /// none.
    #[error("PecMode")]
    PecMode,
}
