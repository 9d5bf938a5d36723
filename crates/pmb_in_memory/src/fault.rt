//! Why a whole input was not worked on to its end.
//!
//! Its rows: `tests_tasks`, `src/whole.rt`.

ghost use Rattle.std.specs.Prelude.{◌≡◌};
ghost use Rattle.pmb_in_memory.specs.Fault.{of_profile, of_tool};

use pmb_io::ToolFault;
use pmb_table::{FaultKind, ProfileFault};

/// Why a whole input was not worked on to its end.
#[derive(Clone, Copy, Debug, PartialEq, Eq)]
pub enum WholeFault {
    /// The profile's text has this fault, which is not `OutOfMemory`. Nothing was written.
    Profile(ProfileFault),
    /// There was no memory. Nothing was written.
    Memory,
    /// The writer failed. It is not said how much of the text went out.
    Write,
}

impl WholeFault {
    /// What a profile's fault comes to.
    pub(crate) fn of_profile(fault: ProfileFault) -> WholeFault
        ensures { result ≡ of_profile fault }
    {
        match fault.what {
            FaultKind::OutOfMemory => WholeFault::Memory,
            _ => WholeFault::Profile(fault),
        }
    }

    /// What a fault of a run over bytes at hand comes to. It reads nothing, so of its faults there are
    /// `Write` and `Memory` alone.
    pub(crate) fn of_tool(fault: ToolFault) -> WholeFault
        ensures { result ≡ of_tool fault }
    {
        match fault {
            ToolFault::Write => WholeFault::Write,
            ToolFault::Memory
            | ToolFault::Read
            | ToolFault::TooManyReads
            | ToolFault::ProfileTooLong => WholeFault::Memory,
        }
    }
}
