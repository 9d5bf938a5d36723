//! How the output is made for who reads it: whether faults are explained, and which lines have colour.

use pmb_cli::Sink;
use pmb_colour::{Lines, Output};
use pmb_explained::Explaining;
use pmb_files::{Opener, run_painted, take_color};
use std::alloc::{AllocError, Global};
use std::convert::AsStr;
use std::env::{self, VarError};
use std::io::IsTerminal;
use std::marker::Brand;

/// What a variable has whose value is no text.
const NO_TEXT: &str = "?";

/// How the output is made.
#[derive(Clone, Copy)]
pub(crate) struct Style {
    /// The lines that are painted, if any are.
    lines: Option<Lines>,
    explaining: Explaining,
}

/// How the output is made that the words of a command line ask for.
///
/// # Errors
///
/// There was no memory.
pub(crate) fn chosen_style(rt: &HostRuntime, words: &[String]) -> Result<Style, AllocError> {
    Ok(Style {
        lines: painted_lines(rt, words)?,
        explaining: explaining(rt),
    })
}

/// Runs `pmb` over files, and has what it writes go on to `out`, which it returns with the exit status.
pub(crate) fn run_over<S: AsStr, F: Opener, W: Sink, E: Sink>(
    alloc: Global,
    words: &[S],
    files: &F,
    style: Style,
    out: W,
    err: &mut E,
) -> (W, u8) {
    let Style { lines, explaining } = style;
    run_painted::<S, F, W, Brand, E>(alloc, words, files, lines, explaining, out, err)
}

/// Whether faults are explained: where standard error is a terminal, and as `PMB_EXPLAIN` says.
fn explaining(rt: &HostRuntime) -> Explaining {
    let is_on = match env::var(rt, "PMB_EXPLAIN") {
        Ok(text) => text.as_str() == "1",
        Err(_) => rt.stderr().is_terminal(),
    };
    if is_on {
        Explaining::On
    } else {
        Explaining::Off
    }
}

/// The lines that are painted, if any are. Where the words have a fault, none are: the run itself reports that.
fn painted_lines(rt: &HostRuntime, words: &[String]) -> Result<Option<Lines>, AllocError> {
    let asked = take_color(rt.alloc(), words)?;
    if asked.lines().is_none() {
        return Ok(None);
    }
    let no_color = env::var(rt, "NO_COLOR");
    let term = env::var(rt, "TERM");
    Ok(asked.painted(standard_output(rt), value(&no_color), value(&term)))
}

/// What standard output is.
fn standard_output(rt: &HostRuntime) -> Output {
    if rt.stdout().is_terminal() {
        Output::Terminal
    } else {
        Output::Other
    }
}

/// The value of a variable, where it is set.
fn value(found: &Result<String, VarError>) -> Option<&str> {
    match found {
        Ok(text) => Some(text.as_str()),
        Err(VarError::NotPresent) => None,
        Err(VarError::NotUnicode | VarError::OutOfMemory) => Some(NO_TEXT),
    }
}
