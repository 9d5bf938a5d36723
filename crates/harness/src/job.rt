//! What reads bytes and writes others, and what a run of it comes to.

use crate::way::{Way, each_cut};
use pmb_io::{Failing, Io, Sink, Source, Tally, ToolFault};
use std::alloc::{AllocError, Global};

/// What the subcommands return: how many packets and refusals there were, or why they stopped.
pub type Told = Result<Tally, ToolFault>;

/// What reads bytes to their end and writes others, as each subcommand does.
pub trait Job {
    /// What a run returns.
    type Answer: Drop + PartialEq;

    /// Runs over the bytes `first` and those that a reader gives.
    fn run<R: Source, W: Sink>(&self, first: &[u8], from: &mut R, to: &mut W) -> Self::Answer;
}

/// What a run returned and wrote, and how it was handed its bytes.
#[derive(Debug, Drop)]
pub struct Ran<A> {
    pub way: Way,
    pub answer: A,
    pub written: Vec<u8>,
}

/// A reader that gives bytes in some way.
fn reader_of(bytes: &[u8], way: Way) -> Failing<Io<&[u8]>> {
    let mut reader = Failing::new(Io::new(bytes));
    match way {
        Way::Whole | Way::CutAt(_) => {}
        Way::AtMost(most) => reader.give_at_most(most.max(1)),
        Way::OneByOne | Way::FailingWrite(_) => reader.give_at_most(1),
        Way::FailingRead(reads) => {
            reader.give_at_most(1);
            reader.fail_after(reads);
        }
    }
    reader
}

/// What a task comes to over some bytes that are handed to it in some way.
pub fn run_in<T: Job>(alloc: Global, task: &T, bytes: &[u8], way: Way) -> Ran<T::Answer> {
    let at = match way {
        Way::CutAt(at) => at.min(bytes.len()),
        _ => 0,
    };
    let (first, rest) = bytes.split_at(at);
    let mut written = Vec::new(alloc);
    let mut writer = Failing::new(Io::new(&mut written));
    if let Way::FailingWrite(writes) = way {
        writer.fail_after(writes);
    }
    let answer = task.run(first, &mut reader_of(rest, way), &mut writer);
    Ran {
        way,
        answer,
        written,
    }
}

/// The first of some ways in which a task returns or writes something else than this.
pub fn unlike<T: Job>(
    alloc: Global,
    task: &T,
    bytes: &[u8],
    ways: &[Way],
    answer: T::Answer,
    written: &[u8],
) -> Option<Ran<T::Answer>> {
    for way in ways {
        let ran = run_in(alloc, task, bytes, *way);
        if ran.answer != answer || ran.written.as_slice() != written {
            return Some(ran);
        }
    }
    None
}

/// The first of the ways in which no call fails, whole, one by one and cut at each place, in which a task
/// returns or writes something else than this.
pub fn unlike_cut<T: Job>(
    alloc: Global,
    task: &T,
    bytes: &[u8],
    answer: T::Answer,
    written: &[u8],
) -> Result<Option<Ran<T::Answer>>, AllocError> {
    let ways = each_cut(alloc, bytes.len())?;
    Ok(unlike(alloc, task, bytes, ways.as_slice(), answer, written))
}
