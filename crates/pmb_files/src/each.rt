//! Files that are captures of their own, each announced by its name.
//!
//! Its rows: `tests/files/rows.txt`.

ghost use Rattle.std.specs.Prelude.{◌≡◌, IfErr, IfOk, OnErr, map, max};
ghost use Rattle.pmb_args.specs.ExitStatus.{OfCode};
ghost use Rattle.pmb_explained.specs.Kept.{kept_told};
ghost use Rattle.pmb_files.specs.Each.{RanEach, RanFile, heading_line};
ghost use Rattle.pmb_files.specs.machine.Unannounced.{Unannounced};

use crate::faults::append_name;
use crate::heading::Heading;
use crate::opener::Opener;
use crate::run::{Naming, run_over};
use pmb_args::report;
use pmb_explained::KeptOutput;
use pmb_io::{Sink, ToolFault};
use pmb_table::SAMPLE;
use std::alloc::{AllocError, Global};

/// Runs the tool over each file, with `head` before it, and returns the greatest of the exit statuses. It
/// ends where standard output fails when a file is announced.
pub(crate) fn run_each<F: Opener, W: Sink, E: Sink>(
    alloc: Global,
    words: &[&str],
    files: &F,
    heading: Heading,
    head: &[u8],
    names: &[&str],
    out: &mut KeptOutput<W>,
    err: &mut E,
) -> u8
    ensures { OfCode (RanEach F.known F.Opened.remaining (kept_told W.told) E.told SAMPLE.now files.now (map (λ word. word.now) words.now) heading head.now (map (λ name. name.now) names.now) (out.old, err.old) (out.new, err.new)) result }
{
    let mut status = 0;
    for name in names {
        let last = match run_file(alloc, words, files, heading, head, name, out, err) {
            Ok(last) => last,
            Err(fault) => return greatest(status, report(fault, err).code()),
        };
        status = greatest(status, last);
    }
    status
}

// Announces a file, and runs the tool over it. Where it can't be announced, nothing is run.
fn run_file<F: Opener, W: Sink, E: Sink>(
    alloc: Global,
    words: &[&str],
    files: &F,
    heading: Heading,
    head: &[u8],
    name: &str,
    out: &mut KeptOutput<W>,
    err: &mut E,
) -> Result<u8, ToolFault>
    ensures ran { IfOk result (OfCode (RanFile F.known F.Opened.remaining (kept_told W.told) E.told SAMPLE.now files.now (map (λ word. word.now) words.now) heading head.now name.now (out.old, err.old) (out.new, err.new))) }
    ensures fault { IfErr result (Unannounced (kept_told W.told) out.old out.new) }
    ensures quiet { OnErr result (err.new ≡ err.old) }
{
    let Ok(line) = heading_line(alloc, heading, name) else {
        return Err(ToolFault::Memory);
    };
    match out.write_all(line.as_slice()) {
        Ok(()) => {
            out.begin();
            let one = [name];
            Ok(run_over(alloc, words, files, head, &one, Naming::Each, out, err))
        }
        Err(_) => Err(ToolFault::Write),
    }
}

// The line that announces a file.
fn heading_line(alloc: Global, heading: Heading, name: &str) -> Result<Vec<u8>, AllocError>
    ensures { IfOk result (λ line. line.items ≡ heading_line heading name.now) }
{
    let mut line = Vec::new(alloc);
    match heading {
        Heading::Comment => {
            line.extend_from_slice(b"# file ")?;
            append_name(&mut line, name)?;
            line.push(b'\n')?;
        }
        Heading::Object => {
            line.extend_from_slice(b"{\"kind\":\"file\",\"file\":\"")?;
            append_name(&mut line, name)?;
            line.extend_from_slice(b"\"}\n")?;
        }
    }
    Ok(line)
}

// The greater of two exit statuses.
fn greatest(a: u8, b: u8) -> u8
    ensures { result ≡ max a b }
{
    if a <= b { b } else { a }
}
