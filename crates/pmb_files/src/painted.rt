//! The whole program over files, with what it writes in its colours.
//!
//! Its rows: `tests/files/rows.txt`.

ghost use Rattle.std.specs.Prelude.{◌≡◌, [], false, map};
ghost use Rattle.pmb_args.specs.ExitStatus.{OfCode};
ghost use Rattle.pmb_explained.specs.Asked.{asks_to_explain};
ghost use Rattle.pmb_explained.specs.Kept.{kept_told};
ghost use Rattle.pmb_colour.specs.Painted.{painted_text, writer_of};
ghost use Rattle.pmb_files.specs.Painted.{RanPainted, WentOn};

use crate::opener::Opener;
use crate::program::run_files;
use pmb_args::report;
use pmb_colour::{Lines, Painted, Start};
use pmb_explained::{Explaining, KeptOutput};
use pmb_io::{Sink, ToolFault};
use pmb_table::SAMPLE;
use std::alloc::Global;
use std::convert::AsStr;

/// Runs `pmb` as [`run_files`] does, and has what it writes go on to `out`: in colour, where lines are
/// painted, and else as it is. Returns that writer, and the exit status. Where there is no memory for a line
/// under way, that is the fault.
///
/// What is held of the last line goes on when the run has ended, also where it ended with a fault. What
/// explains faults is kept of the lines before they have colour.
pub fn run_painted<S: AsStr, F: Opener, W: Sink, B: Start, E: Sink>(
    alloc: Global,
    words: &[S],
    files: &F,
    lines: Option<Lines>,
    explaining: Explaining,
    out: W,
    err: &mut E,
) -> (W, u8)
    requires before { (W.told out).held ≡ B.before }
    requires lines { lines ≡ B.lines }
    ensures ran { asks_to_explain (map S.text words.now) ≡ false
        → OfCode (RanPainted F.known F.Opened.remaining (kept_told ⟦<Painted<W, B> as Sink>⟧.told) W.told E.told SAMPLE.now files.now (map S.text words.now) B.lines B.before (out, err.old) (result.0, err.new)) result.1 }
{
    match Painted::<W, B>::new(alloc, out, lines) {
        Ok(painted) => run_on(alloc, words, files, painted, explaining, err),
        Err(out) => (out, report(ToolFault::Memory, err).code()),
    }
}

// Runs `pmb` over a writer that paints, to which nothing was told yet.
fn run_on<S: AsStr, F: Opener, W: Sink, B: Start, E: Sink>(
    alloc: Global,
    words: &[S],
    files: &F,
    painted: Painted<W, B>,
    explaining: Explaining,
    err: &mut E,
) -> (W, u8)
    requires { painted_text painted ≡ [] }
    ensures ran { asks_to_explain (map S.text words.now) ≡ false
        → OfCode (WentOn F.known F.Opened.remaining (kept_told ⟦<Painted<W, B> as Sink>⟧.told) W.told E.told SAMPLE.now files.now (map S.text words.now) B.lines B.before (writer_of painted, err.old) (result.0, err.new)) result.1 }
{
    let mut kept = KeptOutput::new(painted, explaining, words);
    let status = run_files(alloc, words, files, &mut kept, err);
    let (out, ended) = kept.into_inner().end();
    match ended {
        Ok(()) => (out, status),
        Err(_) => (out, report(ToolFault::Write, err).code()),
    }
}
