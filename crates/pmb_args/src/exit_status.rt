//! The exit statuses, and what is written of them on standard error.
//!
//! Its rows: `tests/rows/arguments.txt`.

ghost use Rattle.std.specs.Prelude.{◌≡◌};
ghost use Rattle.pmb_args.specs.ExitStatus.{EndedWell, Failed, IsTold, code_of, run_status, status_of};

use arrayvec::ArrayString;
use pmb_convert::FormatFault;
use pmb_io::{Sink, Tally, ToolFault};
use std::fmt::Write;

/// How the program ended: its exit status.
#[derive(Clone, Copy)]
pub enum ExitStatus {
    /// Nothing went wrong.
    Done,
    /// The capture has refusals, or lines have faults, or requests failed, or a recording lacks
    /// something.
    Refusals,
    /// The words are no command or name no format, or the profile has a fault or is too long.
    BadArguments,
    /// A read or a write failed, or there were too many reads.
    IoFailed,
    /// There was no memory.
    NoMemory,
}

impl ExitStatus {
    /// The number of the status, with which the process exits: 0 to 4.
    pub fn code(self) -> u8
        ensures { result ≡ code_of self }
    {
        match self {
            ExitStatus::Done => 0,
            ExitStatus::Refusals => 1,
            ExitStatus::BadArguments => 2,
            ExitStatus::IoFailed => 3,
            ExitStatus::NoMemory => 4,
        }
    }
}

/// The status of a run that ended. Its fault is reported on `err`.
pub fn ended<E: Sink>(outcome: Result<Tally, ToolFault>, err: &mut E) -> ExitStatus
    ensures status { result ≡ run_status outcome }
    ensures quiet { EndedWell result → err.new ≡ err.old }
    ensures err_told { Failed result → IsTold (E.told err.old) (E.told err.new) }
{
    match outcome {
        Ok(tally) if tally.refusals == 0 => ExitStatus::Done,
        Ok(_) => ExitStatus::Refusals,
        Err(fault) => report(fault, err),
    }
}

/// Writes `pmb: ` and a text on `err`. If `err` fails, nothing else changes.
pub fn report_text<E: Sink>(text: &str, err: &mut E)
    ensures { IsTold (E.told err.old) (E.told err.new) }
{
    let mut line = ArrayString::<128>::new();
    let _ = line.try_push_str("pmb: ");
    let _ = line.try_push_str(text);
    let _ = err.write_all(line.as_str().as_bytes());
}

/// Reports a fault on `err`, and returns its status.
pub fn report<E: Sink>(fault: ToolFault, err: &mut E) -> ExitStatus
    ensures status { result ≡ status_of fault }
    ensures err_told { IsTold (E.told err.old) (E.told err.new) }
{
    let mut text = ArrayString::<32>::new();
    let _ = write!(text, "{fault}\n");
    report_text(text.as_str(), err);
    match fault {
        ToolFault::Read | ToolFault::Write | ToolFault::TooManyReads => ExitStatus::IoFailed,
        ToolFault::ProfileTooLong => ExitStatus::BadArguments,
        ToolFault::Memory => ExitStatus::NoMemory,
    }
}

/// Reports on `err` why a FORMAT names no format.
pub fn report_format<E: Sink>(fault: FormatFault, err: &mut E) -> ExitStatus
    ensures status { result ≡ ExitStatus.BadArguments }
    ensures err_told { IsTold (E.told err.old) (E.told err.new) }
{
    let mut text = ArrayString::<32>::new();
    let _ = write!(text, "format: {fault}\n");
    report_text(text.as_str(), err);
    ExitStatus::BadArguments
}

/// Reports on `err` that the words ask for nothing.
pub fn report_nothing<E: Sink>(err: &mut E) -> ExitStatus
    ensures status { result ≡ ExitStatus.BadArguments }
    ensures err_told { IsTold (E.told err.old) (E.told err.new) }
{
    report_text("no command\n", err);
    ExitStatus::BadArguments
}
