//! What explains the faults of a run: a function of its words, of what it read, and of what it wrote.
//!
//! Its rows: `tests/rows/explanations.txt`.

use crate::arguments::words_correction;
use crate::captures::capture_correction;
use crate::decimals::explain_decimals;
use crate::explanation::{Explanation, add};
use crate::lines::line_correction;
use crate::matter::{matter_of, profile_of};
use crate::profiles::explain_profile;
use crate::report::{Report, Where};
use crate::reports::{FirstReport, Reports};
use arrayvec::ArrayString;
use pmb_explain::{Said, all_faults, is_of_name};
use pmb_preamble::sample_profile;
use pmb_table::BusProfile;
use std::alloc::Global;
use std::convert::AsStr;
use std::fmt::Write;

/// What was run, as far as it explains faults.
#[derive(Clone, Copy)]
pub(crate) struct Run<'w, 'i, 'b> {
    /// The subcommand.
    pub(crate) command: &'w str,
    /// The word after it, and no text if there is none.
    pub(crate) word: &'w str,
    /// What follows the profile, or all of the input where there is none.
    pub(crate) matter: &'i [u8],
    /// The profile that it ran under.
    pub(crate) bus: Option<&'b BusProfile>,
}

/// Explains the faults of a run on `err`, the first of each name: those of its words and of its profile that it
/// wrote there, and those that are in the lines of its output.
pub(crate) fn explain_run<S: AsStr>(
    alloc: Global,
    words: &[S],
    input: &[u8],
    out: &Reports,
    err: &Reports,
    text: &mut Explanation,
) {
    if let Some(first) = err.firsts().first() {
        explain_refused(alloc, words, input, &first.report, text);
        return;
    }
    let has_profile = reads_profile(words);
    if word_at(words, 1) == "profile" && has_profile {
        explain_decimals(profile_of(input), text);
        return;
    }
    if out.firsts().is_empty() {
        return;
    }
    let bus = if has_profile {
        BusProfile::from_toml(alloc, profile_of(input)).ok()
    } else {
        sample_profile(alloc).ok()
    };
    let run = Run {
        command: word_at(words, 1),
        word: word_at(words, 2),
        matter: matter_of(input, has_profile),
        bus: bus.as_ref(),
    };
    for first in out.firsts() {
        explain_report(alloc, run, first, text);
    }
}

/// Explains why nothing was done: the words, FORMAT or the profile.
fn explain_refused<S: AsStr>(
    alloc: Global,
    words: &[S],
    input: &[u8],
    report: &Report,
    text: &mut Explanation,
) {
    if report.place == Where::Profile {
        explain_profile(alloc, input, word_at(words, 1) == "profile", text);
        return;
    }
    let lines = words_correction(alloc, words, report.name.as_str());
    add(text, lines.as_str());
}

/// Whether a profile comes first in the input.
fn reads_profile<S: AsStr>(words: &[S]) -> bool {
    match word_at(words, 1) {
        "encode" | "decode" | "import" => return false,
        _ => {}
    }
    for word in words {
        if word.as_str() == "--sample" {
            return false;
        }
    }
    true
}

/// The word at a place, and no text if there is none.
fn word_at<S: AsStr>(words: &[S], at: usize) -> &str {
    match words.get(at) {
        Some(word) => word.as_str(),
        None => "",
    }
}

/// Explains the first fault of a name.
fn explain_report(
    alloc: Global,
    run: Run<'_, '_, '_>,
    first: &FirstReport,
    text: &mut Explanation,
) {
    let heading = heading_of(first);
    add(text, heading.as_str());
    let correction = match first.report.place {
        Where::Event(_) | Where::Byte(_) | Where::Column(..) => capture_correction(
            run,
            &first.report,
        ),
        Where::Line(..) | Where::Same => line_correction(alloc, run, &first.report, first.line),
        Where::Request | Where::Words | Where::Profile => None,
    };
    match correction {
        Some(lines) => {
            add(text, lines.as_str());
        }
        None => explain_by_name(first.report.name.as_str(), run.command, text),
    }
}

/// The line that names a fault and its place, and how many there are of its name.
fn heading_of(first: &FirstReport) -> ArrayString<160> {
    let mut line = ArrayString::new();
    let name = first.report.name.as_str();
    let _ = match first.report.place {
        Where::Event(number) => write!(line, "pmb: event {number}: {name}"),
        Where::Byte(at) => write!(line, "pmb: byte {at}: {name}"),
        Where::Column(number, column) => {
            write!(line, "pmb: line {number} column {column}: {name}")
        }
        Where::Line(number, None) => write!(line, "pmb: line {number}: {name}"),
        Where::Line(number, Some(at)) => write!(line, "pmb: line {number}: {name} at {at}"),
        Where::Same => {
            let number = first.line;
            write!(line, "pmb: line {number}: {name}")
        }
        Where::Request | Where::Words | Where::Profile => write!(line, "pmb: {name}"),
    };
    let count = first.count;
    if count > 1 {
        let _ = write!(line, ", the first of {count}");
    }
    let _ = line.try_push_str("\n");
    line
}

/// Writes what is said of a name, where its line is not at hand.
fn explain_by_name(name: &str, command: &str, text: &mut Explanation) {
    for fault in all_faults() {
        if is_of_name(*fault, name) && is_printed_by(fault.subject(), command) {
            add_said(fault.said(), text);
            return;
        }
    }
}

/// Whether a command prints faults of a subject.
fn is_printed_by(subject: &str, command: &str) -> bool {
    match command {
        "encode" | "decode" => subject == "in a line of encode or decode",
        "build" => subject == "in a line of build or run",
        "run" => subject == "in a line of build or run" || subject == "in a request of run",
        _ => subject == "a protocol error in a capture" || subject == "in a capture",
    }
}

/// Adds the lines of what is said, each after two blanks.
fn add_said(said: Said, text: &mut Explanation) {
    for line in said.text.split('\n') {
        add(text, "  ");
        add(text, line);
        add(text, "\n");
    }
}
