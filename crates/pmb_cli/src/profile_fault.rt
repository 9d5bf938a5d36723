//! What is written of a fault of a profile on standard error.
//!
//! Its rows: `tests/rows/hints.txt`, `tests/rows/preambles.txt`.

ghost use Rattle.std.specs.Prelude.{◌≡◌, ◌⊎◌};
ghost use Rattle.pmb_cli.specs.ProfileFault.{IsReported};

use pmb_args::{ExitStatus, report, report_text};
use pmb_hints::{explanation, fault_text};
use pmb_io::{Sink, ToolFault};
use pmb_table::{FaultKind, ProfileFault};
use std::alloc::Global;

/// Reports on `err` what is wrong with a profile, and where.
pub(crate) fn report_profile<E: Sink>(fault: ProfileFault, err: &mut E) -> ExitStatus
    ensures { IsReported fault.what result (E.told err.old) (E.told err.new) }
{
    if fault.what == FaultKind::OutOfMemory {
        return report(ToolFault::Memory, err);
    }
    report_text(fault_text(fault).as_str(), err);
    ExitStatus::BadArguments
}

/// Reports on `err` what is wrong with the profile of a board, and where, and returns the exit status.
pub fn report_board<E: Sink>(fault: ProfileFault, err: &mut E) -> u8
    ensures { (result ≡ 2) ⊎ (result ≡ 4) }
{
    if report_profile(fault, err).code() == 4 {
        4
    } else {
        2
    }
}

/// Reports the same of the profile in `text`, and then the lines that help, all in one write.
pub(crate) fn explain_profile<E: Sink>(
    alloc: Global,
    text: &[u8],
    fault: ProfileFault,
    err: &mut E,
) -> ExitStatus
    ensures { IsReported fault.what result (E.told err.old) (E.told err.new) }
{
    if fault.what == FaultKind::OutOfMemory {
        return report(ToolFault::Memory, err);
    }
    let lines = explanation(alloc, text, fault);
    let _ = err.write_all(lines.text.as_str().as_bytes());
    ExitStatus::BadArguments
}
