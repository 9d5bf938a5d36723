//! What the words of the command ask for.
//!
//! Its rows: `tests/rows/arguments.txt`.

ghost use Rattle.std.specs.Prelude.{◌≡◌, ◌⊎◌, IfErr, IfOk, MatchOption, MatchResult, map};
ghost use Rattle.clap.specs.Words.{found_of, rows_of, subcommand_rows_of};
ghost use Rattle.pmb_args.specs.Texts.{WroteText};
ghost use Rattle.pmb_args.specs.Asked.{AskFor, AskForNothing, Asking, AsksNothing, NameAsks, SubcommandAsks, Wanted, asking_of, converter, place_in, wanted_of};
ghost use Rattle.pmb_args.specs.Found.{ComeTo};
ghost use Rattle.pmb_args.specs.declared.direction.Direction.{Direction};
ghost use Rattle.pmb_args.specs.Words.{AreRefused, AskToTell, MayBeRefused};

use crate::direction::Direction;
use crate::exit_status::{ExitStatus, report_nothing};
use crate::fact_words::{JSON_DIGITS, read_facts};
use crate::facts_fault::{FactsFault, report_facts};
use crate::flags::has_flag;
use crate::import_fault::{ImportFault, report_import};
use crate::import_words::read_import;
use crate::profile_place::ProfilePlace;
use crate::stats_fault::{StatsFault, report_stats};
use crate::stats_words::read_stats;
use crate::subcommand::Subcommand;
use crate::words::{parse, report_words};
use crate::words_found::WordsFound;
use clap::ArgMatches;
use clap::error::ErrorKind;
use pmb_io::Sink;
use pmb_recorder::Recorder;
use pmb_recorder::laws::one_recorder;
use std::alloc::{AllocError, Global};
use std::convert::AsStr;

/// The most digits after the point of a number, where `log` has no `--digits`.
const LOG_DIGITS: u8 = 4;

/// What is to be done.
#[derive(Drop)]
pub enum Task<'a> {
    /// A capture is made of what this recorded.
    Import(Recorder<'a>),
    /// Something is done under the profile that is there.
    UnderProfile(ProfilePlace, Subcommand),
    /// Lines are converted in the format that a text names.
    Convert(Direction, &'a str),
    /// A first profile is made of a capture.
    Scan,
}

// Why there is nothing to be done.
#[derive(Clone, Copy)]
enum NoTask {
    // The words name no command.
    NoCommand,
    // The words of `import` have a fault.
    Import(ImportFault),
    // The words of `json` have a fault.
    Json(FactsFault),
    // The words of `log` have a fault.
    Log(FactsFault),
    // The words of `stats` have a fault.
    Stats(StatsFault),
}

/// What the words ask for, the program's own name first. Where they ask for nothing to be done, the
/// text for that is written at once: help and the version on `out`, and a fault on `err`.
///
/// # Errors
///
/// The exit status of what was written: `Done` for help or the version, `BadArguments` for words that are
/// no command and for those of `import`, `json`, `log` or `stats` that ask for nothing, `IoFailed` where
/// `out` failed, and `NoMemory` where there was no memory.
pub fn parse_command<'a, S: AsStr, W: Sink, E: Sink>(
    alloc: Global,
    words: &'a [S],
    out: &mut W,
    err: &mut E,
) -> Result<Task<'a>, ExitStatus>
    ensures ok { IfOk result (λ task. AskFor (map S.text words.entry.now) (asking_of task)) }
    ensures ok_quiet { IfOk result (λ _. (out.new ≡ out.old) × (err.new ≡ err.old)) }

    // Where they ask for something, only memory is lacking.
    ensures memory { IfErr result (λ status. (asking : Asking) → AskFor (map S.text words.entry.now) asking → status ≡ ExitStatus.NoMemory) }
    ensures nothing { IfErr result (λ status. AskForNothing (map S.text words.entry.now) → (status ≡ ExitStatus.BadArguments) ⊎ (status ≡ ExitStatus.NoMemory)) }
    ensures refused { IfErr result (λ status. AreRefused (map S.text words.entry.now) → (status ≡ ExitStatus.BadArguments) ⊎ (status ≡ ExitStatus.NoMemory)) }
    ensures told { IfErr result (λ status. status ≡ ExitStatus.BadArguments → MayBeRefused (map S.text words.entry.now) ⊎ AskForNothing (map S.text words.entry.now)) }
    ensures helped { IfErr result (λ status. AskToTell (map S.text words.entry.now) → (status ≡ ExitStatus.Done) ⊎ (status ≡ ExitStatus.IoFailed) ⊎ (status ≡ ExitStatus.NoMemory)) }

    // Help and the version go to `out` alone, and a fault to `err`.
    ensures wrote { IfErr result (WroteText W.told E.told (out.old, err.old) (out.new, err.new)) }
    ensures unwritten { IfErr result (λ status. AreRefused (map S.text words.entry.now) → out.new ≡ out.old) }
{
    let matches = match parse(alloc, words) {
        Ok(matches) => matches,
        Err(error) => return Err(report_words(alloc, words, &error, out, err)),
    };
    match task_of(&matches) {
        Ok(task) => Ok(task),
        Err(NoTask::NoCommand) => Err(report_nothing(err)),
        Err(NoTask::Import(fault)) => Err(report_import(fault, err)),
        Err(NoTask::Json(fault)) => Err(report_facts("json", fault, err)),
        Err(NoTask::Log(fault)) => Err(report_facts("log", fault, err)),
        Err(NoTask::Stats(fault)) => Err(report_stats(fault, err)),
    }
}

/// What the words come to, the program's own name first, without a word about it.
///
/// # Errors
///
/// There was no memory.
pub fn find_task<S: AsStr>(alloc: Global, words: &[S]) -> Result<WordsFound, AllocError>
    ensures { IfOk result (ComeTo (map S.text words.now)) }
{
    let matches = match parse(alloc, words) {
        Ok(matches) => matches,
        Err(error) if error.kind() == ErrorKind::OutOfMemory => return Err(AllocError),
        Err(_) => return Ok(WordsFound::Fault),
    };
    match task_of(&matches) {
        Ok(_) => Ok(WordsFound::Task),
        Err(_) => Ok(WordsFound::Nothing),
    }
}

// What the words ask for, by the subcommand among them.
fn task_of<'a>(matches: &ArgMatches<'a>) -> Result<Task<'a>, NoTask>
    ensures { MatchResult result (λ task. SubcommandAsks (subcommand_rows_of matches.now) (asking_of task)) (λ _. AsksNothing (subcommand_rows_of matches.now)) }
{
    let Some((name, arguments)) = matches.subcommand() else {
        return Err(NoTask::NoCommand);
    };
    if name == "import" {
        one_recorder();
        return match read_import(arguments) {
            Ok(recorder) => Ok(Task::Import(recorder)),
            Err(fault) => Err(NoTask::Import(fault)),
        };
    }
    if name == "scan" {
        return Ok(Task::Scan);
    }
    if let Some(direction) = direction_of(name) {
        let format = arguments.get_str("FORMAT").unwrap_or("");
        return Ok(Task::Convert(direction, format));
    }
    match work_of(name, arguments) {
        Ok(work) => Ok(Task::UnderProfile(profile_place(arguments), work)),
        Err(fault) => Err(fault),
    }
}

// The direction in which a subcommand converts.
fn direction_of(name: &str) -> Option<Direction>
    ensures { MatchOption result ((direction : Direction) → ¬ (name.now ≡ converter direction)) (λ direction. name.now ≡ converter direction) }
{
    if name == "encode" {
        Some(Direction::Encode)
    } else if name == "decode" {
        Some(Direction::Decode)
    } else {
        None
    }
}

// What a subcommand asks for under a profile, by its name, and for `json`, `log` and `stats` by its flags.
fn work_of(name: &str, arguments: &ArgMatches<'_>) -> Result<Subcommand, NoTask>
    ensures { MatchResult result (λ work. NameAsks name.now (rows_of (found_of arguments.now)) (wanted_of work)) (λ _. (wanted : Wanted) → ¬ (NameAsks name.now (rows_of (found_of arguments.now)) wanted)) }
{
    if name == "show" {
        Ok(Subcommand::Show)
    } else if name == "check" {
        Ok(Subcommand::Check)
    } else if name == "json" {
        match read_facts(arguments, JSON_DIGITS) {
            Ok(choice) => Ok(Subcommand::Json(choice)),
            Err(fault) => Err(NoTask::Json(fault)),
        }
    } else if name == "log" {
        match read_facts(arguments, LOG_DIGITS) {
            Ok(choice) => Ok(Subcommand::Log(choice)),
            Err(fault) => Err(NoTask::Log(fault)),
        }
    } else if name == "stats" {
        match read_stats(arguments) {
            Ok(choice) => Ok(Subcommand::Stats(choice)),
            Err(fault) => Err(NoTask::Stats(fault)),
        }
    } else if name == "build" {
        Ok(Subcommand::Build)
    } else if name == "run" {
        Ok(Subcommand::Run)
    } else if name == "profile" {
        Ok(Subcommand::Profile)
    } else {
        Err(NoTask::NoCommand)
    }
}

// Where the profile is, by `--sample`.
fn profile_place(arguments: &ArgMatches<'_>) -> ProfilePlace
    ensures { result ≡ place_in (rows_of (found_of arguments.now)) }
{
    if has_flag(arguments, "sample") {
        ProfilePlace::Sample
    } else {
        ProfilePlace::Front
    }
}
