//! The task that the words ask for.
//!
//! Its rows: `tests/rows/arguments.txt`, `tests/rows/numbers.txt`, `tests/rows/recordings.txt`.

ghost use Rattle.std.specs.Prelude.{◌≡◌, ◌≢◌};
ghost use Rattle.pmb_cli.specs.Tasks.{DidTask, conversion_of};
ghost use Rattle.pmb_recorder.specs.Recorded.{recorded_of};
ghost use Rattle.pmb_args.specs.Asked.{Convert, Import, Scan, asking_of};
ghost use Rattle.pmb_args.specs.ExitStatus.{EndedWell, Failed, IsTold};
ghost use Rattle.pmb_cli.specs.Drafts.{draft_status};

use crate::works::{run_under_front, run_under_sample};
use pmb_args::{Direction, ExitStatus, ProfilePlace, Task, ended, report_format, report_text};
use pmb_convert::laws::one_format;
use pmb_convert::{Conversion, NumberFormat, convert_lines, parse_format};
use pmb_draft::{DraftFault, write_draft};
use pmb_import::{Recorder, import};
use pmb_io::{Sink, Source, Tally};
use pmb_table::SAMPLE;
use std::alloc::Global;

/// Runs a task, and returns the exit status.
pub(crate) fn run_task<R: Source, W: Sink, E: Sink>(
    task: Task<'_>,
    alloc: Global,
    reader: &mut R,
    out: &mut W,
    err: &mut E,
) -> ExitStatus
    ensures { DidTask R.told W.told E.told SAMPLE.now (asking_of task.entry) (reader.old, out.old, err.old) (reader.new, out.new, err.new) result }
{
    match task {
        Task::UnderProfile(place, work) => match place {
            ProfilePlace::Sample => run_under_sample(&work, alloc, reader, out, err),
            ProfilePlace::Front => run_under_front(&work, alloc, reader, out, err),
        },
        Task::Convert(direction, format) => run_lines(direction, format, reader, out, err),
        Task::Import(recorder) => run_import(recorder, reader, out, err),
        Task::Scan => run_scan(alloc, reader, out, err),
    }
}

/// Writes the capture of the recording that the reader gives, and returns the exit status. It takes no
/// memory, and so wants none.
fn run_import<R: Source, W: Sink, E: Sink>(
    recorder: Recorder<'_>,
    reader: &mut R,
    out: &mut W,
    err: &mut E,
) -> ExitStatus
    ensures did { DidTask R.told W.told E.told SAMPLE.now (Import (recorded_of recorder.entry)) (reader.old, out.old, err.old) (reader.new, out.new, err.new) result }
    ensures needless { result ≢ ExitStatus.NoMemory }
{
    ended(import(recorder, &[], reader, out), err)
}

/// Writes the first profile of the capture that the reader gives, and returns the exit status.
fn run_scan<R: Source, W: Sink, E: Sink>(
    alloc: Global,
    reader: &mut R,
    out: &mut W,
    err: &mut E,
) -> ExitStatus
    ensures { DidTask R.told W.told E.told SAMPLE.now Scan (reader.old, out.old, err.old) (reader.new, out.new, err.new) result }
{
    let drafted = write_draft(alloc, &[], reader, out);
    end_draft(drafted, err)
}

/// The status of a first profile that was made. A fault is reported on `err`.
fn end_draft<E: Sink>(drafted: Result<Tally, DraftFault>, err: &mut E) -> ExitStatus
    ensures status { result ≡ draft_status drafted }
    ensures quiet { EndedWell result → err.new ≡ err.old }
    ensures err_told { Failed result → IsTold (E.told err.old) (E.told err.new) }
{
    match drafted {
        Ok(tally) => ended(Ok(tally), err),
        Err(DraftFault::Tool(fault)) => ended(Err(fault), err),
        Err(DraftFault::TooLong) => {
            report_text("scan: profile too long\n", err);
            ExitStatus::BadArguments
        }
        Err(DraftFault::Refused) => {
            report_text(
                "scan: the profile is not accepted: please report this\n",
                err,
            );
            ExitStatus::BadArguments
        }
    }
}

/// Converts the lines that the reader gives in the format that a text names, and returns the exit
/// status. It takes no memory, and so wants none.
fn run_lines<R: Source, W: Sink, E: Sink>(
    direction: Direction,
    format: &str,
    reader: &mut R,
    out: &mut W,
    err: &mut E,
) -> ExitStatus
    ensures did { DidTask R.told W.told E.told SAMPLE.now (Convert direction format.now) (reader.old, out.old, err.old) (reader.new, out.new, err.new) result }
    ensures needless { result ≢ ExitStatus.NoMemory }
{
    // A text names one format at most.
    one_format();
    match parse_format(format) {
        Ok(format) => ended(
            convert_lines(conversion(direction, format), &[], reader, out),
            err,
        ),
        Err(fault) => report_format(fault, err),
    }
}

// The conversion in a format.
fn conversion(direction: Direction, format: NumberFormat) -> Conversion
    ensures { result ≡ conversion_of direction format }
{
    match direction {
        Direction::Encode => Conversion::Encode(format),
        Direction::Decode => Conversion::Decode(format),
    }
}
