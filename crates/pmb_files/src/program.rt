//! The whole program over files.
//!
//! Its rows: `tests/files/rows.txt`.

ghost use Rattle.std.specs.Prelude.{◌≡◌, ◌≢◌, ◌++◌, ◌∷◌, [], false, IfErr, IfOk, MatchResult, OnOk, map};
ghost use Rattle.std.specs.List.{All};
ghost use Rattle.pmb_args.specs.ExitStatus.{OfCode};
ghost use Rattle.pmb_explained.specs.Asked.{asks_to_explain};
ghost use Rattle.pmb_explained.specs.Kept.{kept_told};
ghost use Rattle.pmb_files.specs.Asked.{RanAsked};
ghost use Rattle.pmb_files.specs.Contradictions.{names_of};
ghost use Rattle.pmb_files.specs.Over.{RanOver};
ghost use Rattle.pmb_files.specs.Program.{AskOver, Asks, FirstFault, IsHead, MayBeFine, RanFiles};
ghost use Rattle.pmb_files.specs.Words.{split_words};
ghost use Rattle.pmb_files.specs.machine.FailsHead.{FailsHead};
ghost use Rattle.pmb_files.specs.machine.Words.{file_words_of};

use crate::asked::run_asked;
use crate::contradiction::{find_contradiction, report_contradiction};
use crate::each::run_each;
use crate::faults::{report_failure, report_file, report_mark, report_too_long};
use crate::file_fault::FileFault;
use crate::head::{HeadFault, make_head, read_text};
use crate::joined::Joined;
use crate::opener::Opener;
use crate::run::{Naming, run_over};
use crate::values::values_text;
use crate::words::{FileWords, split_words};
use pmb_args::{ExitStatus, WordsFound, find_task, report};
use pmb_explained::{KeptOutput, asks_to_explain, explain_name};
use pmb_io::{Io, Sink, ToolFault};
use pmb_table::SAMPLE;
use std::alloc::Global;
use std::convert::AsStr;

/// Runs `pmb` as its words say, the program's own name first, over the files that they name, and returns
/// its exit status.
///
/// Without FILE, and for a FILE `-`, standard input is read, which is a file of that name. Where faults are
/// explained, what explains them comes on `err` after each run. `pmb explain NAME` says what a name means,
/// and reads nothing.
pub fn run_files<S: AsStr, F: Opener, W: Sink, E: Sink>(
    alloc: Global,
    words: &[S],
    files: &F,
    out: &mut KeptOutput<W>,
    err: &mut E,
) -> u8
    ensures ran { asks_to_explain (map S.text words.now) ≡ false
        → OfCode (RanAsked F.known F.Opened.remaining (kept_told W.told) E.told SAMPLE.now files.now (map S.text words.now) (out.old, err.old) (out.new, err.new)) result }
{
    if asks_to_explain(words) {
        return explain_name(alloc, words, out, err);
    }
    run_asked(alloc, words, files, out, err)
}

/// Runs `pmb` as its words say, without those of `--color`.
pub(crate) fn run_split<S: AsStr, F: Opener, W: Sink, E: Sink>(
    alloc: Global,
    words: &[S],
    files: &F,
    out: &mut KeptOutput<W>,
    err: &mut E,
) -> u8
    ensures ran { OfCode (RanFiles F.known F.Opened.remaining (kept_told W.told) E.told SAMPLE.now files.now (split_words (map S.text words.now)) (out.old, err.old) (out.new, err.new)) result }
{
    match split_words(alloc, words) {
        Ok(said) => run_said(alloc, &said, files, out, err),
        Err(_) => report(ToolFault::Memory, err).code(),
    }
}

// Runs `pmb` as its words say, which were split. Where they name nothing, the tool alone looks at them.
fn run_said<F: Opener, W: Sink, E: Sink>(
    alloc: Global,
    said: &FileWords<'_>,
    files: &F,
    out: &mut KeptOutput<W>,
    err: &mut E,
) -> u8
    ensures ran { OfCode (RanFiles F.known F.Opened.remaining (kept_told W.told) E.told SAMPLE.now files.now (file_words_of said.now) (out.old, err.old) (out.new, err.new)) result }
{
    if !said.names_nothing() {
        return run_words(alloc, said, files, out, err);
    }
    run_over(
        alloc,
        said.tool.as_slice(),
        files,
        &[],
        said.names(),
        Naming::None,
        out,
        err,
    )
}

// Runs `pmb` as its words say, which name a file, or are values.
fn run_words<F: Opener, W: Sink, E: Sink>(
    alloc: Global,
    said: &FileWords<'_>,
    files: &F,
    out: &mut KeptOutput<W>,
    err: &mut E,
) -> u8
    ensures ran { OfCode (RanFiles F.known F.Opened.remaining (kept_told W.told) E.told SAMPLE.now files.now (file_words_of said.now) (out.old, err.old) (out.new, err.new)) result }
{
    match find_task(alloc, said.tool.as_slice()) {
        Ok(WordsFound::Fault) => run_over_nothing(alloc, said, files, out, err),
        Ok(WordsFound::Nothing) => match find_contradiction(said) {
            Some(found) => report_contradiction(alloc, said, found, err).code(),
            None => run_over_nothing(alloc, said, files, out, err),
        },
        Ok(WordsFound::Task) => match find_contradiction(said) {
            Some(found) => report_contradiction(alloc, said, found, err).code(),
            None => run_task(alloc, said, files, out, err),
        },
        Err(_) => report(ToolFault::Memory, err).code(),
    }
}

// Runs the tool, which reads nothing by its words.
fn run_over_nothing<F: Opener, W: Sink, E: Sink>(
    alloc: Global,
    said: &FileWords<'_>,
    files: &F,
    out: &mut KeptOutput<W>,
    err: &mut E,
) -> u8
    ensures { OfCode (RanOver F.known F.Opened.remaining (kept_told W.told) E.told SAMPLE.now files.now (file_words_of said.now).tool [] [] (out.old, err.old) (out.new, err.new)) result }
{
    run_over(
        alloc,
        said.tool.as_slice(),
        files,
        &[],
        &[],
        Naming::None,
        out,
        err,
    )
}

// Runs a task over the values among its words, or over the files that they name.
fn run_task<F: Opener, W: Sink, E: Sink>(
    alloc: Global,
    said: &FileWords<'_>,
    files: &F,
    out: &mut KeptOutput<W>,
    err: &mut E,
) -> u8
    requires { Asks (file_words_of said.now) }
    ensures ran { OfCode (RanFiles F.known F.Opened.remaining (kept_told W.told) E.told SAMPLE.now files.now (file_words_of said.now) (out.old, err.old) (out.new, err.new)) result }
{
    if said.values.is_empty() {
        run_over_files(alloc, said, files, out, err)
    } else {
        run_over_values(alloc, said, files, out, err)
    }
}

// Runs a task over the values among its words.
fn run_over_values<F: Opener, W: Sink, E: Sink>(
    alloc: Global,
    said: &FileWords<'_>,
    files: &F,
    out: &mut KeptOutput<W>,
    err: &mut E,
) -> u8
    requires asks { Asks (file_words_of said.now) }
    requires some { (file_words_of said.now).values ≢ [] }
    ensures ran { OfCode (RanFiles F.known F.Opened.remaining (kept_told W.told) E.told SAMPLE.now files.now (file_words_of said.now) (out.old, err.old) (out.new, err.new)) result }
{
    match values_text(alloc, said.values.as_slice()) {
        Ok(text) => run_over(
            alloc,
            said.tool.as_slice(),
            files,
            text.as_slice(),
            &[],
            Naming::None,
            out,
            err,
        ),
        Err(_) => report(ToolFault::Memory, err).code(),
    }
}

// Runs a task over the files that its words name, which are looked at first.
fn run_over_files<F: Opener, W: Sink, E: Sink>(
    alloc: Global,
    said: &FileWords<'_>,
    files: &F,
    out: &mut KeptOutput<W>,
    err: &mut E,
) -> u8
    requires { AskOver (file_words_of said.now) }
    ensures ran { OfCode (RanFiles F.known F.Opened.remaining (kept_told W.told) E.told SAMPLE.now files.now (file_words_of said.now) (out.old, err.old) (out.new, err.new)) result }
{
    match look_at_all(files, said) {
        Ok(()) => run_under_profile(alloc, said, files, out, err),
        Err((name, fault)) => report_file(alloc, name, fault, err).code(),
    }
}

// Runs a task over the files that its words name, under the profile that they name, if there is one.
fn run_under_profile<F: Opener, W: Sink, E: Sink>(
    alloc: Global,
    said: &FileWords<'_>,
    files: &F,
    out: &mut KeptOutput<W>,
    err: &mut E,
) -> u8
    requires asks { AskOver (file_words_of said.now) }
    requires fine { All (λ name. MayBeFine (F.known files.now name)) ((file_words_of said.now).profiles ++ names_of (file_words_of said.now)) }
    ensures ran { OfCode (RanFiles F.known F.Opened.remaining (kept_told W.told) E.told SAMPLE.now files.now (file_words_of said.now) (out.old, err.old) (out.new, err.new)) result }
{
    match said.profiles.as_slice() {
        [] => run_under(alloc, said, files, &[], out, err),
        [profile, ..] => match read_head(alloc, files, profile, err) {
            Ok(head) => run_under(alloc, said, files, head.as_slice(), out, err),
            Err(status) => status.code(),
        },
    }
}

// Runs a task with a head over the files that its words name, as one or each on its own.
fn run_under<F: Opener, W: Sink, E: Sink>(
    alloc: Global,
    said: &FileWords<'_>,
    files: &F,
    head: &[u8],
    out: &mut KeptOutput<W>,
    err: &mut E,
) -> u8
    requires asks { AskOver (file_words_of said.now) }
    requires fine { All (λ name. MayBeFine (F.known files.now name)) ((file_words_of said.now).profiles ++ names_of (file_words_of said.now)) }
    requires head { IsHead (F.known files.now) (file_words_of said.now).profiles head.now }
    ensures ran { OfCode (RanFiles F.known F.Opened.remaining (kept_told W.told) E.told SAMPLE.now files.now (file_words_of said.now) (out.old, err.old) (out.new, err.new)) result }
{
    let words = said.tool.as_slice();
    let names = said.names();
    if said.has_several() {
        run_each(alloc, words, files, said.heading(), head, names, out, err)
    } else {
        run_over(alloc, words, files, head, names, Naming::None, out, err)
    }
}

// Looks at the profile and the files, and returns the first that can't be read, and why.
fn look_at_all<'a, F: Opener>(
    files: &F,
    said: &'a FileWords<'a>,
) -> Result<(), (&'a str, FileFault)>
    ensures { MatchResult result (λ _. All (λ name. MayBeFine (F.known files.now name)) ((file_words_of said.now).profiles ++ names_of (file_words_of said.now))) (λ found. FirstFault (F.known files.now) ((file_words_of said.now).profiles ++ names_of (file_words_of said.now)) found.0.now found.1) }
{
    match look_at(files, said.profiles.as_slice()) {
        Ok(()) => look_at(files, said.names()),
        Err(found) => Err(found),
    }
}

// Looks at files, and returns the first that can't be read, and why.
fn look_at<'a, F: Opener>(files: &F, names: &[&'a str]) -> Result<(), (&'a str, FileFault)>
    ensures { MatchResult result (λ _. All (λ name. MayBeFine (F.known files.now name)) (map (λ name. name.now) names.now)) (λ found. FirstFault (F.known files.now) (map (λ name. name.now) names.now) found.0.now found.1) }
{
    for name in names {
        if let Err(fault) = files.look(name) {
            return Err((name, fault));
        }
    }
    Ok(())
}

// The head that a profile makes. Why it makes none is reported on `err`.
fn read_head<F: Opener, E: Sink>(
    alloc: Global,
    files: &F,
    profile: &str,
    err: &mut E,
) -> Result<Vec<u8>, ExitStatus>
    ensures head { IfOk result (λ head. IsHead (F.known files.now) (profile.now ∷ []) head.items) }
    ensures quiet { OnOk result (err.new ≡ err.old) }
    ensures fault { IfErr result (FailsHead (F.known files.now profile.now) profile.now (E.told err.old) (E.told err.new)) }
{
    let names = [profile];
    let mut reader = Io::new(Joined::new(files, &[], &names));
    let text = match read_text(alloc, &mut reader) {
        Ok(text) => text,
        Err(ToolFault::Memory) => return Err(report(ToolFault::Memory, err)),
        Err(_) => return Err(report_failure(alloc, reader.into_inner().failure(), err)),
    };
    match make_head(alloc, text) {
        Ok(head) => Ok(head),
        Err(HeadFault::TooLong) => Err(report_too_long(alloc, profile, err)),
        Err(HeadFault::Mark(line)) => Err(report_mark(alloc, profile, line, err)),
        Err(HeadFault::Memory) => Err(report(ToolFault::Memory, err)),
    }
}
