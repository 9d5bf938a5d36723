//! Why there is no first profile.
//!
//! Its rows: `tests/rows/scan.txt`.

ghost use Rattle.pmb_draft.specs.Result.{IsTextFault};

use pmb_io::ToolFault;
use pmb_keys::FaultKind;
use pmb_table::ProfileFault;

/// Why there is no first profile. Nothing was written then.
#[derive(Clone, Copy, Debug, PartialEq, Eq)]
pub enum DraftFault {
    /// Reading or writing failed, or there was no memory.
    Tool(ToolFault),
    /// The text has more bytes than a profile may have.
    TooLong,
    /// The text is no profile that is accepted, or lacks a device or a command: a mistake in this program.
    Refused,
}

impl DraftFault {
    /// The fault of a text.
    pub(crate) fn of(fault: ProfileFault) -> DraftFault
        ensures { IsTextFault result }
    {
        if fault.what == FaultKind::OutOfMemory {
            DraftFault::Tool(ToolFault::Memory)
        } else {
            DraftFault::Refused
        }
    }
}
