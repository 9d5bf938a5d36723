//! Why the words of `import` ask for nothing.
//!
//! Its rows: `tests/rows/arguments.txt`.

ghost use Rattle.std.specs.Prelude.{◌≡◌};
ghost use Rattle.pmb_args.specs.ExitStatus.{IsTold};

use crate::exit_status::{ExitStatus, report_text};
use pmb_io::Sink;
use pmb_recorder::RecorderFault;

/// Why the words of `import` ask for nothing.
#[derive(Clone, Copy, Debug, PartialEq, Eq)]
pub(crate) enum ImportFault {
    /// SOURCE is none of the five.
    BadSource,
    /// The flags do not fit the source, or HZ is no rate.
    Recorder(RecorderFault),
}

/// Reports on `err` why the words of `import` ask for nothing.
pub(crate) fn report_import<E: Sink>(fault: ImportFault, err: &mut E) -> ExitStatus
    ensures status { result ≡ ExitStatus.BadArguments }
    ensures err_told { IsTold (E.told err.old) (E.told err.new) }
{
    let text = match fault {
        ImportFault::BadSource => "import: BadSource\n",
        ImportFault::Recorder(RecorderFault::BadRate) => "import: BadRate\n",
        ImportFault::Recorder(RecorderFault::SigrokOnly) => "import: SigrokOnly\n",
        ImportFault::Recorder(RecorderFault::NoBus) => "import: NoBus\n",
    };
    report_text(text, err);
    ExitStatus::BadArguments
}
