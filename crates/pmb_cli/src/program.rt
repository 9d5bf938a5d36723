//! The whole program over a reader and two writers.
//!
//! Its rows: `tests_tasks`, `src/program.rt`; `tests/rows/arguments.txt`, `tests/rows/failures.txt`.

ghost use Rattle.std.specs.Prelude.{◌≡◌, ◌≢◌, ◌≤◌, map};
ghost use Rattle.pmb_cli.specs.Program.{RanProgram};
ghost use Rattle.pmb_args.specs.ExitStatus.{IsTold, OfCode};
ghost use Rattle.std.specs.declared.io.ErrorKind.TheVariants.{OutOfMemory};

use crate::tasks::run_task;
use pmb_accepted::laws::json_is_lines;
use pmb_args::laws::one_asking;
use pmb_args::{no_words as without_words, parse_command};
use pmb_io::{Sink, Source};
use pmb_stats_json::laws::sums_are_lines;
use pmb_table::SAMPLE;
use std::alloc::Global;
use std::convert::AsStr;
use std::io;

/// Runs `pmb` as its words say, the program's own name first, and returns its exit status.
///
/// | status | |
/// | --- | --- |
/// | 0 | done, or help or the version was asked for |
/// | 1 | the capture has refusals, lines have faults, requests failed, or a recording lacks something |
/// | 2 | the words are no command, name no format or ask `json`, `log`, `stats` or `import` for what there is not, or the profile has a fault or is too long |
/// | 3 | a read or a write failed, or there were too many reads |
/// | 4 | there was no memory |
///
/// Faults of the statuses 2 to 4 are reported on `err`. The words are looked at before anything is
/// read, and then the format; then the profile is read, and then the capture or the lines. Want of
/// memory is reported before the capture or the lines are read, and nothing was written on `out` then.
pub fn tool<S: AsStr, R: Source, W: Sink, E: Sink>(
    alloc: Global,
    words: &[S],
    reader: &mut R,
    out: &mut W,
    err: &mut E,
) -> u8
    ensures ran { OfCode (RanProgram R.told W.told E.told SAMPLE.now (map S.text words.now) (reader.old, out.old, err.old) (reader.new, out.new, err.new)) result }
    ensures within { result ≤ 4 }
{
    // Words ask for one thing at most.
    one_asking();
    // Under whatever a text says as a profile, `json` and `stats --json` write lines of JSON.
    json_is_lines();
    sums_are_lines();
    match parse_command(alloc, words, out, err) {
        Ok(task) => run_task(task, alloc, reader, out, err).code(),
        Err(status) => status.code(),
    }
}

/// The exit status where the process's words can't be had: there is no memory for them, or they are
/// not UTF-8, which is reported on `err` as other bad words are.
pub fn no_words<E: Sink>(kind: io::ErrorKind, err: &mut E) -> u8
    ensures memory { kind ≡ OutOfMemory → result ≡ 4 }
    ensures others { kind ≢ OutOfMemory → result ≡ 2 }
    ensures err_told { IsTold (E.told err.old) (E.told err.new) }
{
    without_words(kind, err).code()
}
