//! `--part PART@HH`: the profile of a board of parts, in the place of a PROFILE.

use crate::disk::{AT_HAND, Disk};
use crate::parts::{board_of, no_memory};
use crate::progress::Progress;
use crate::terminal::{Style, run_over};
use pmb_args::{WordsFound, find_task};
use pmb_cli::Sink;
use pmb_files::{split_words, take_color};
use std::alloc::{AllocError, Global};

/// The flag.
const FLAG: &str = "--part";

/// The words of a command line without those that name parts.
#[derive(Drop)]
struct PartWords<'a> {
    /// The words that are left, with `-p` and the name of the profile that is at hand in the place of the
    /// first flag.
    left: Vec<&'a str>,
    /// Each PART@HH.
    parts: Vec<&'a str>,
}

/// What the next word is.
#[derive(Clone, Copy)]
enum Next {
    /// Nothing is known of it.
    Any,
    /// The value of another flag.
    Value,
    /// A part.
    Part,
    /// No flag, and so are all after it.
    Name,
}

/// Whether the words are of a subcommand that reads a profile, and one is the flag.
pub(crate) fn name_parts(words: &[String]) -> bool {
    match words {
        [_, task, rest @ ..] => reads_profile(task.as_str()) && has_flag(rest),
        _ => false,
    }
}

/// Whether a subcommand reads a profile.
fn reads_profile(task: &str) -> bool {
    matches!(
        task,
        "show" | "check" | "json" | "log" | "stats" | "build" | "run" | "profile"
    )
}

/// Whether a word is the flag.
fn has_flag(words: &[String]) -> bool {
    for word in words {
        if word.as_str() == FLAG {
            return true;
        }
    }
    false
}

/// Runs `pmb` as its words say, under the profile of the board of the parts that they name, and returns
/// standard output and the exit status. Faults in the words come first, then those of the parts.
pub(crate) fn run_under_parts<W: Sink, E: Sink>(
    rt: &HostRuntime,
    words: &[String],
    style: Style,
    progress: &Progress<'_>,
    out: W,
    err: &mut E,
) -> (W, u8) {
    let alloc = rt.alloc();
    let Ok(taken) = take_parts(alloc, words) else {
        return (out, no_memory(err));
    };
    let Ok(runs) = has_no_fault(alloc, taken.left.as_slice()) else {
        return (out, no_memory(err));
    };
    let mut profile = Vec::new(alloc);
    if runs && !taken.parts.is_empty() {
        match board_of(rt, taken.parts.as_slice(), err) {
            Ok(text) => profile = text,
            Err(status) => return (out, status),
        }
    }
    let files = Disk::new(rt, profile.as_slice(), progress);
    run_over(alloc, taken.left.as_slice(), &files, style, out, err)
}

/// Whether the words have no fault, so that files are looked at next.
fn has_no_fault(alloc: Global, words: &[&str]) -> Result<bool, AllocError> {
    let asked = take_color(alloc, words)?;
    let said = split_words(alloc, asked.left.as_slice())?;
    if asked.choice().is_none() || said.has_two_profiles() || said.has_two_inputs() {
        return Ok(false);
    }
    match find_task(alloc, said.tool.as_slice())? {
        WordsFound::Task => Ok(true),
        WordsFound::Fault | WordsFound::Nothing => Ok(false),
    }
}

/// Takes the words that name parts out of those of a command line. A last flag without a part is left.
fn take_parts<'a>(alloc: Global, words: &'a [String]) -> Result<PartWords<'a>, AllocError> {
    let mut taken = PartWords {
        left: Vec::new(alloc),
        parts: Vec::new(alloc),
    };
    let mut next = Next::Any;
    for word in words {
        let word = word.as_str();
        next = match next {
            Next::Any if word == FLAG => Next::Part,
            Next::Part => {
                taken.take_part(word)?;
                Next::Any
            }
            Next::Any => {
                taken.left.push(word)?;
                after(word)
            }
            Next::Value => {
                taken.left.push(word)?;
                Next::Any
            }
            Next::Name => {
                taken.left.push(word)?;
                Next::Name
            }
        };
    }
    if let Next::Part = next {
        taken.left.push(FLAG)?;
    }
    Ok(taken)
}

/// What comes after a word that may be a flag.
fn after(word: &str) -> Next {
    match word {
        "--" => Next::Name,
        "-p" | "--profile" | "--color" | "--digits" | "--device" | "--fail-on" => Next::Value,
        _ => Next::Any,
    }
}

impl<'a> PartWords<'a> {
    /// Takes a part. The first one brings the profile.
    fn take_part(&mut self, word: &'a str) -> Result<(), AllocError> {
        if self.parts.is_empty() {
            self.left.push("-p")?;
            self.left.push(AT_HAND)?;
        }
        self.parts.push(word)?;
        Ok(())
    }
}
