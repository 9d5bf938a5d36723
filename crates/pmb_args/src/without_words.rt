//! Where the process's words can't be had.
//!
//! Its rows: `tests_tasks`, `src/program.rt`.

ghost use Rattle.std.specs.Prelude.{◌≡◌, ◌≢◌};
ghost use Rattle.std.specs.declared.io.ErrorKind.TheVariants.{OutOfMemory};
ghost use Rattle.pmb_args.specs.ExitStatus.{IsTold};

use crate::exit_status::{ExitStatus, report};
use pmb_io::{Sink, ToolFault};
use std::io;

/// The exit status where the process's words can't be had: there is no memory for them, or they are
/// not UTF-8, which is reported on `err` as other bad words are.
pub fn no_words<E: Sink>(kind: io::ErrorKind, err: &mut E) -> ExitStatus
    ensures memory { kind ≡ OutOfMemory → result ≡ ExitStatus.NoMemory }
    ensures others { kind ≢ OutOfMemory → result ≡ ExitStatus.BadArguments }
    ensures err_told { IsTold (E.told err.old) (E.told err.new) }
{
    if kind == io::ErrorKind::OutOfMemory {
        return report(ToolFault::Memory, err);
    }
    let _ = err.write_all(b"error: the words of the command are not UTF-8\n");
    ExitStatus::BadArguments
}
