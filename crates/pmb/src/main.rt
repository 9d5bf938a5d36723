//! The program `pmb`: [`pmb_files::run_painted`] over the words, the files and the streams of the process; and
//! `parts`, which looks into folders.
//!
//! Where nobody reads standard output any more, as in `pmb .. | head`, no line says so: whoever closed the
//! pipe knows. The exit status does.
#![tactic(auto)]

mod disk;
mod folders;
mod part_words;
mod parts;
mod progress;
mod streams;
mod terminal;

use crate::disk::Disk;
use crate::part_words::{name_parts, run_under_parts};
use crate::parts::{no_memory, parts_asked, run_parts};
use crate::progress::Progress;
use crate::streams::{Faults, Output};
use crate::terminal::{chosen_style, run_over};
use pmb_cli::{Io, Sink, no_words};
use std::cell::Cell;
use std::io;
use std::process::ExitCode;

fn words(rt: &HostRuntime) -> io::Result<Vec<String>> {
    Ok(std::env::args(rt)?.collect(rt.alloc())?)
}

/// Runs `pmb` as its words say, and returns standard output and the exit status.
fn run<W: Sink, E: Sink>(
    rt: &HostRuntime,
    words: &[String],
    progress: &Progress<'_>,
    out: W,
    err: &mut E,
) -> (W, u8) {
    if let Some(names) = parts_asked(words) {
        let mut out = out;
        let status = run_parts(rt, names, &mut out, err);
        return (out, status);
    }
    if read_capture(words) {
        progress.count_packets();
    }
    let Ok(style) = chosen_style(rt, words) else {
        return (out, no_memory(err));
    };
    if name_parts(words) {
        return run_under_parts(rt, words, style, progress, out, err);
    }
    let files = Disk::new(rt, b"", progress);
    run_over(rt.alloc(), words, &files, style, out, err)
}

/// Whether the words are of a subcommand that reads a capture.
fn read_capture(words: &[String]) -> bool {
    match words {
        [_, task, ..] => matches!(
            task.as_str(),
            "show" | "check" | "json" | "log" | "stats" | "scan"
        ),
        _ => false,
    }
}

fn main(rt: HostRuntime) -> ExitCode {
    let progress = Progress::new(&rt);
    let is_closed = Cell::new(false);
    let mut err = Io::new(Faults::new(rt.stderr(), &progress, &is_closed));
    let status = match words(&rt) {
        Ok(words) => {
            let out = Io::new(Output::new(rt.stdout(), &progress, &is_closed));
            run(&rt, words.as_slice(), &progress, out, &mut err).1
        }
        Err(error) => no_words(error.kind(), &mut err),
    };
    progress.wipe();
    ExitCode::from(status)
}
