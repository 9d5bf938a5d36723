//! A run of the tool over files as one.
//!
//! Its rows: `tests/files/rows.txt`.

ghost use Rattle.std.specs.Prelude.{◌≡◌, ◌≢◌, ◌≤◌, ◌<◌, [], ◌⊎◌, map};
ghost use Rattle.pmb_args.specs.ExitStatus.{IsTold, OfCode};
ghost use Rattle.pmb_explained.specs.Grown.{Grew};
ghost use Rattle.pmb_explained.specs.Kept.{kept_told};
ghost use Rattle.pmb_files.specs.Over.{RanOver};
ghost use Rattle.pmb_files.specs.machine.Said.{said_text, said_told};

use crate::faults::{failure_line, named_line, named_lines};
use crate::joined::{Joined, ReadFailure};
use crate::opener::Opener;
use crate::said::Said;
use pmb_args::report;
use pmb_cli::tool;
use pmb_explained::{KeptInput, KeptOutput, write_text};
use pmb_io::{Io, Sink, ToolFault};
use pmb_table::SAMPLE;
use std::alloc::{AllocError, Global};

/// Whether faults are reported of a file by its name.
#[derive(Clone, Copy, Debug, PartialEq, Eq)]
pub(crate) enum Naming {
    /// The file is one of several.
    Each,
    /// It is the only one, or they are joined.
    None,
}

/// What the tool writes where a read failed.
const READ_FAILED: &[u8] = b"pmb: read failed\n";

/// Runs the tool with these words over `head`, and then the files of these names as one, and returns its
/// exit status.
///
/// Its line on a read that failed is replaced by one that names the file and the cause, unless that is
/// standard input. What explains the run comes after what the tool said.
pub(crate) fn run_over<F: Opener, W: Sink, E: Sink>(
    alloc: Global,
    words: &[&str],
    files: &F,
    head: &[u8],
    names: &[&str],
    naming: Naming,
    out: &mut KeptOutput<W>,
    err: &mut E,
) -> u8
    ensures { OfCode (RanOver F.known F.Opened.remaining (kept_told W.told) E.told SAMPLE.now files.now (map (λ word. word.now) words.now) head.now (map (λ name. name.now) names.now) (out.old, err.old) (out.new, err.new)) result }
{
    let joined = Joined::new(files, head, names);
    let input = Io::new(joined);
    let mut reader = KeptInput::new(alloc, input, out.limit());
    let mut said = Said::new(alloc);
    let ended = tool(alloc, words, &mut reader, out, &mut said);
    let (read, kept) = reader.into_parts();
    let failure = read.into_inner().failure();
    let name = named(naming, names);
    let code = tell(alloc, ended, &said, name, failure, err);
    explain(
        alloc,
        words,
        code,
        kept.as_slice(),
        out,
        said.text(),
        name,
        err,
    );
    code
}

// Writes on `err` what explains the run: of its words, its status, its input, its output and what it said.
// Apart from the others, so that the text is not on the stack while the tool runs.
#[inline(never)]
fn explain<W, E: Sink>(
    alloc: Global,
    words: &[&str],
    code: u8,
    input: &[u8],
    out: &KeptOutput<W>,
    said: &[u8],
    name: Option<&str>,
    err: &mut E,
)
    ensures { Grew (E.told err.old) (E.told err.new) }
{
    let explanation = out.explanation(alloc, words, code, input, said);
    let text = explanation.as_str().as_bytes();
    match name {
        Some(name) => match named_lines(alloc, name, text) {
            Ok(lines) => write_text(lines.as_slice(), err),
            Err(_) => write_text(text, err),
        },
        None => write_text(text, err),
    }
}

// Says on `err` what the tool said, if its exit status is that of a fault, and returns that of the run. Where there
// was no memory for it, that is the fault, unless a read or a write failed.
fn tell<E: Sink>(
    alloc: Global,
    code: u8,
    said: &Said,
    name: Option<&str>,
    failure: Option<ReadFailure<'_>>,
    err: &mut E,
) -> u8
    requires said { 2 ≤ code → (said_told said.now).failures ≡ 0 → said_text said.now ≢ [] }
    ensures quiet { code < 2 → (err.new ≡ err.old) × (result ≡ code) }
    ensures told { 2 ≤ code → IsTold (E.told err.old) (E.told err.new) }
    ensures kept { code ≢ 2 ⊎ (said_told said.now).failures ≡ 0 → code ≤ 4 → result ≡ code }
    ensures no_memory { code ≡ 2 → (said_told said.now).failures ≢ 0 → result ≡ 4 }
{
    if code < 2 {
        return code;
    }
    if said.is_whole() {
        say(alloc, said.text(), name, failure, err);
        return code;
    }
    let fault = match (code, failure) {
        (3, Some(_)) => ToolFault::Read,
        (3, None) => ToolFault::Write,
        _ => ToolFault::Memory,
    };
    report(fault, err).code()
}

// The file that a fault is reported of.
fn named<'a>(naming: Naming, names: &[&'a str]) -> Option<&'a str> {
    match (naming, names) {
        (Naming::Each, [name, ..]) => Some(name),
        _ => None,
    }
}

// Says on `err` what the tool said: of a read that failed, in which file, and why, and of another fault
// in which file, where it is one of several.
fn say<E: Sink>(
    alloc: Global,
    text: &[u8],
    name: Option<&str>,
    failure: Option<ReadFailure<'_>>,
    err: &mut E,
)
    requires { text.now ≢ [] }
    ensures { IsTold (E.told err.old) (E.told err.new) }
{
    let line = match (failure, name) {
        (Some(failure), _) if text == READ_FAILED && failure.name != "-" => {
            failure_line(alloc, failure)
        }
        (_, Some(name)) => named_line(alloc, name, text),
        _ => Err(AllocError),
    };
    let _ = match line {
        Ok(line) => err.write_all(line.as_slice()),
        Err(_) => err.write_all(text),
    };
}
