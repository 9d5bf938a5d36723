//! What goes wrong with a reader or a writer, and with a run over them.
//!
//! Its rows: `tests_bytes`, `src/io/faults.rt`, `src/io/interrupted.rt`.

use thiserror::Error;

/// A read or a write failed.
#[derive(Clone, Copy, Debug, PartialEq, Eq)]
pub struct IoFault;

/// Why a run over a reader and a writer ended early.
#[derive(Clone, Copy, Debug, PartialEq, Eq)]
pub enum RunFault {
    /// The reader failed. What was written before it stays.
    Read,
    /// The writer failed. How much of the text went out is unknown.
    Write,
    /// The reader gave bytes in 2^32 reads and had not ended.
    TooManyReads,
}

/// Why the tool ended early. The text is what goes to standard error, after `pmb: `.
#[derive(Clone, Copy, Debug, PartialEq, Eq, Error)]
pub enum ToolFault {
    /// The reader failed. What was written before it stays.
    #[error("read failed")]
    Read,
    /// The writer failed. How much of the text went out is unknown.
    #[error("write failed")]
    Write,
    /// The reader gave bytes in 2^32 reads and had not ended.
    #[error("too many reads")]
    TooManyReads,
    /// The profile has more than 1,048,576 bytes.
    #[error("profile too long")]
    ProfileTooLong,
    /// There was no memory.
    #[error("no memory")]
    Memory,
}

impl From<RunFault> for ToolFault {
    ghost use Rattle.std.specs.Prelude.{◌≡◌};
    ghost use Rattle.pmb_io.specs.Runs.{as_tool_fault};

    ghost from_gives = { λ fault tool. tool ≡ as_tool_fault fault };

    fn from(fault: RunFault) -> ToolFault {
        match fault {
            RunFault::Read => ToolFault::Read,
            RunFault::Write => ToolFault::Write,
            RunFault::TooManyReads => ToolFault::TooManyReads,
        }
    }
}
