//! Why the flags that `json`, `log` and `stats` have ask for nothing.
//!
//! Its rows: `tests/rows/arguments.txt`.

ghost use Rattle.std.specs.Prelude.{◌≡◌};
ghost use Rattle.pmb_args.specs.ExitStatus.{IsTold};

use crate::exit_status::{ExitStatus, report_text};
use arrayvec::ArrayString;
use pmb_io::Sink;
use std::fmt::Write;

/// Why the flags that `json`, `log` and `stats` have ask for nothing.
#[derive(Clone, Copy, Debug, PartialEq, Eq)]
pub(crate) enum FactsFault {
    /// `--fixed-vout-mode` stands without `--late`.
    NeedsLate,
    /// N is no number from 0 to 12.
    BadDigits,
    /// HH is no address of seven bits.
    BadAddress,
}

/// Reports on `err` why the words of the subcommand of this name ask for nothing.
pub(crate) fn report_facts<E: Sink>(name: &str, fault: FactsFault, err: &mut E) -> ExitStatus
    ensures status { result ≡ ExitStatus.BadArguments }
    ensures err_told { IsTold (E.told err.old) (E.told err.new) }
{
    let word = match fault {
        FactsFault::NeedsLate => "NeedsLate",
        FactsFault::BadDigits => "BadDigits",
        FactsFault::BadAddress => "BadAddress",
    };
    let mut text = ArrayString::<32>::new();
    let _ = write!(text, "{name}: {word}\n");
    report_text(text.as_str(), err);
    ExitStatus::BadArguments
}
