//! The words of the command, as `clap` reads them, and what it says of them.
//!
//! Its rows: `tests/rows/arguments.txt`.

ghost use Rattle.std.specs.Prelude.{◌≡◌, ◌≢◌, ◌⊎◌, [], map, IfOk};
ghost use Rattle.std.specs.Io.KnownBytes.{Appends};
ghost use Rattle.clap.specs.Words.{FailsBy, kind_of, subcommand_of, subcommand_rows_of};
ghost use Rattle.pmb_args.specs.ExitStatus.{IsTold};
ghost use Rattle.pmb_args.specs.Texts.{WroteText};
ghost use Rattle.pmb_args.specs.Words.{IsTelling, faults_of, pmb_app};

use crate::commands::pmb_command;
use crate::exit_status::{ExitStatus, report, report_format};
use clap::error::ErrorKind;
use clap::{ArgMatches, Error};
use pmb_convert::FormatFault;
use pmb_io::{Sink, ToolFault};
use std::alloc::Global;
use std::convert::AsStr;

/// What the words say, or the first fault in them.
pub(crate) fn parse<'a, S: AsStr>(alloc: Global, words: &'a [S]) -> Result<ArgMatches<'a>, Error>
    ensures kinds { FailsBy (faults_of (map S.text words.entry.now)) result }
    ensures matches { IfOk result (λ matches. subcommand_rows_of matches ≡ subcommand_of pmb_app (map S.text words.entry.now)) }
{
    pmb_command(alloc)?.try_get_matches_from(words)
}

// Whether the words are those of `encode` or `decode` with a FORMAT that begins with one `-`, which
// `clap` takes for a flag. No format begins so; what begins with `--` was meant as a flag.
fn has_flag_for_format<S: AsStr>(words: &[S]) -> bool {
    match words {
        [_, subcommand, format] => {
            (subcommand.as_str() == "encode" || subcommand.as_str() == "decode")
                && format.as_str().starts_with('-')
                && !format.as_str().starts_with("--")
        }
        _ => false,
    }
}

/// Writes what `clap` says of the words, and returns the exit status: help and the version on `out`,
/// a fault on `err`. What it takes for an unknown flag in the place of FORMAT is reported as a format.
pub(crate) fn report_words<S: AsStr, W: Sink, E: Sink>(
    alloc: Global,
    words: &[S],
    error: &Error,
    out: &mut W,
    err: &mut E,
) -> ExitStatus
    // Help and the version go to `out` alone, and a fault to `err`.
    ensures wrote { WroteText W.told E.told (out.old, err.old) (out.new, err.new) result }
    ensures refused { (¬ IsTelling (kind_of error.now)) → (result ≡ ExitStatus.BadArguments) ⊎ (result ≡ ExitStatus.NoMemory) }
    ensures told { IsTelling (kind_of error.now) → (result ≡ ExitStatus.Done) ⊎ (result ≡ ExitStatus.IoFailed) ⊎ (result ≡ ExitStatus.NoMemory) }
    ensures memory { kind_of error.now ≡ ErrorKind.OutOfMemory → result ≡ ExitStatus.NoMemory }
    ensures unwritten { (¬ IsTelling (kind_of error.now)) → out.new ≡ out.old }
{
    let kind = error.kind();
    if kind == ErrorKind::OutOfMemory {
        return report(ToolFault::Memory, err);
    }
    if kind == ErrorKind::UnknownArgument && has_flag_for_format(words) {
        return report_format(FormatFault::BadFormat, err);
    }
    let Ok(text) = error.to_string(alloc) else {
        return report(ToolFault::Memory, err);
    };
    let text = or_name(text.as_str());
    if error.use_stderr() {
        report_fault(text, err)
    } else {
        report_about(text, out, err)
    }
}

// Writes help or the version on `out`, and returns the exit status.
fn report_about<W: Sink, E: Sink>(text: &str, out: &mut W, err: &mut E) -> ExitStatus
    requires some { text.now ≢ [] }
    ensures said { result ≡ ExitStatus.Done → Appends (W.told out.old).held (W.told out.new).held text.now }
    ensures told { (result ≡ ExitStatus.Done) ⊎ (result ≡ ExitStatus.IoFailed) }
    ensures wrote { WroteText W.told E.told (out.old, err.old) (out.new, err.new) result }
{
    match out.write_all(text.as_bytes()) {
        Ok(()) => ExitStatus::Done,
        Err(_) => report(ToolFault::Write, err),
    }
}

// Writes a fault of the words on `err`, and returns the exit status.
fn report_fault<E: Sink>(text: &str, err: &mut E) -> ExitStatus
    requires some { text.now ≢ [] }
    ensures status { result ≡ ExitStatus.BadArguments }
    ensures err_told { IsTold (E.told err.old) (E.told err.new) }
{
    let _ = err.write_all(text.as_bytes());
    ExitStatus::BadArguments
}

/// What `clap` says, or the program's name where it says nothing.
fn or_name(text: &str) -> &str
    ensures some { result.now ≢ [] }
    ensures same { text.now ≢ [] → result.now ≡ text.now }
{
    if text.is_empty() { "pmb\n" } else { text }
}
