//! Words that name files and contradict each other.
//!
//! Its rows: `tests/files/rows.txt`.

ghost use Rattle.std.specs.Prelude.{◌≡◌, MatchOption, false};
ghost use Rattle.pmb_files.specs.Contradictions.{has_two_inputs, has_two_profiles, subcommand_name};
ghost use Rattle.pmb_files.specs.Faults.{IsReported, IsSaid, command_line};
ghost use Rattle.pmb_files.specs.machine.Contradicts.{Contradict, contradiction_name};
ghost use Rattle.pmb_files.specs.machine.Words.{file_words_of};

use crate::faults::report_command;
use crate::words::FileWords;
use pmb_args::ExitStatus;
use pmb_io::Sink;
use std::alloc::Global;

/// How words contradict each other.
#[derive(Clone, Copy, Debug, PartialEq, Eq)]
pub(crate) enum Contradiction {
    /// There are two profiles, or one and the sample.
    TwoProfiles,
    /// Standard input is named twice, or for a profile, or several files are named where one is read.
    TwoInputs,
}

impl Contradiction {
    /// The name in the line that reports it.
    fn name(self) -> &'static str
        ensures { result.now ≡ contradiction_name self }
    {
        match self {
            Contradiction::TwoProfiles => "TwoProfiles",
            Contradiction::TwoInputs => "TwoInputs",
        }
    }
}

/// How words contradict each other, if they do.
pub(crate) fn find_contradiction(said: &FileWords<'_>) -> Option<Contradiction>
    ensures { MatchOption result ((has_two_profiles (file_words_of said.now) ≡ false) × (has_two_inputs (file_words_of said.now) ≡ false)) (Contradict (file_words_of said.now)) }
{
    if said.has_two_profiles() {
        Some(Contradiction::TwoProfiles)
    } else if said.has_two_inputs() {
        Some(Contradiction::TwoInputs)
    } else {
        None
    }
}

/// Reports on `err` that words contradict each other, and returns the exit status.
pub(crate) fn report_contradiction<E: Sink>(
    alloc: Global,
    said: &FileWords<'_>,
    found: Contradiction,
    err: &mut E,
) -> ExitStatus
    ensures { IsReported (IsSaid (command_line (subcommand_name (file_words_of said.now).tool) (contradiction_name found))) (E.told err.old) (E.told err.new) result }
{
    report_command(alloc, said.name(), found.name(), err)
}
