//! What the words ask for, after those of `--color` are taken out of them.
//!
//! Its rows: `tests/files/rows.txt`.

ghost use Rattle.std.specs.Prelude.{◌≡◌, true, false, map, IfOk};
ghost use Rattle.pmb_args.specs.ExitStatus.{OfCode};
ghost use Rattle.pmb_explained.specs.Kept.{kept_told};
ghost use Rattle.pmb_files.specs.Asked.{HasFault, HasNoFault, RanAsked};
ghost use Rattle.pmb_files.specs.Words.{split_words};

use crate::color::take_color;
use crate::faults::report_command;
use crate::opener::Opener;
use crate::program::run_split;
use crate::words::split_words;
use pmb_args::{WordsFound, find_task, report};
use pmb_explained::KeptOutput;
use pmb_io::{Sink, ToolFault};
use pmb_table::SAMPLE;
use std::alloc::{AllocError, Global};
use std::convert::AsStr;

/// Runs `pmb` as its words say, which don't ask what a name means. A word of `--color` that is none of the
/// three is reported after the faults of the other words.
pub(crate) fn run_asked<S: AsStr, F: Opener, W: Sink, E: Sink>(
    alloc: Global,
    words: &[S],
    files: &F,
    out: &mut KeptOutput<W>,
    err: &mut E,
) -> u8
    ensures ran { OfCode (RanAsked F.known F.Opened.remaining (kept_told W.told) E.told SAMPLE.now files.now (map S.text words.now) (out.old, err.old) (out.new, err.new)) result }
{
    let Ok(asked) = take_color(alloc, words) else {
        return report(ToolFault::Memory, err).code();
    };
    let left = asked.left.as_slice();
    match asked.choice() {
        Some(_) => run_split(alloc, left, files, out, err),
        None => match has_fault(alloc, left) {
            Ok(true) => run_split(alloc, left, files, out, err),
            Ok(false) => report_command(alloc, asked.name(), "BadColor", err).code(),
            Err(_) => report(ToolFault::Memory, err).code(),
        },
    }
}

// Whether the words without those of `--color` have a fault.
fn has_fault(alloc: Global, words: &[&str]) -> Result<bool, AllocError>
    ensures fault { IfOk result (λ has. has ≡ true → HasFault (split_words (map (λ word. word.now) words.now))) }
    ensures none { IfOk result (λ has. has ≡ false → HasNoFault (split_words (map (λ word. word.now) words.now))) }
{
    let said = split_words(alloc, words)?;
    match find_task(alloc, said.tool.as_slice())? {
        WordsFound::Fault => Ok(true),
        WordsFound::Nothing | WordsFound::Task => {
            Ok(said.has_two_profiles() || said.has_two_inputs())
        }
    }
}
