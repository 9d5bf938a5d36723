//! Why the words of `stats` ask for nothing.
//!
//! Its rows: `tests/rows/arguments.txt`.

ghost use Rattle.std.specs.Prelude.{◌≡◌};
ghost use Rattle.pmb_args.specs.ExitStatus.{IsTold};

use crate::exit_status::{ExitStatus, report_text};
use crate::facts_fault::{FactsFault, report_facts};
use pmb_io::Sink;

/// Why the words of `stats` ask for nothing.
#[derive(Clone, Copy, Debug, PartialEq, Eq)]
pub(crate) enum StatsFault {
    /// The flags that `json` has too have a fault.
    Facts(FactsFault),
    /// WHAT is no list of words that `--fail-on` knows.
    BadFailOn,
}

/// Reports on `err` why the words of `stats` ask for nothing.
pub(crate) fn report_stats<E: Sink>(fault: StatsFault, err: &mut E) -> ExitStatus
    ensures status { result ≡ ExitStatus.BadArguments }
    ensures err_told { IsTold (E.told err.old) (E.told err.new) }
{
    match fault {
        StatsFault::Facts(fault) => report_facts("stats", fault, err),
        StatsFault::BadFailOn => {
            report_text("stats: BadFailOn\n", err);
            ExitStatus::BadArguments
        }
    }
}
