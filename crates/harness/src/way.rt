//! How its bytes are handed to a task.

use std::alloc::{AllocError, Global};

/// How its bytes are handed to a task, and which call fails.
#[derive(Clone, Copy, Debug, PartialEq, Eq)]
pub enum Way {
    /// In reads of any size.
    Whole,
    /// One by one.
    OneByOne,
    /// In reads of at most this many bytes, and at least one.
    AtMost(usize),
    /// This many of them before the first read, and the others in reads of any size.
    CutAt(usize),
    /// One by one, where the read after this many fails.
    FailingRead(u64),
    /// One by one, where the write after this many fails.
    FailingWrite(u64),
}

/// The ways in which this many bytes come and no call fails: whole, one by one, and cut at each place.
pub fn each_cut(alloc: Global, bytes: usize) -> Result<Vec<Way>, AllocError> {
    let mut ways = Vec::new(alloc);
    ways.push(Way::Whole)?;
    ways.push(Way::OneByOne)?;
    for at in 0..=bytes {
        ways.push(Way::CutAt(at))?;
    }
    Ok(ways)
}
