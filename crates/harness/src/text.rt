//! Long texts.

use std::alloc::{AllocError, Global};

/// A front, a piece this many times, and what follows.
pub fn repeated(
    alloc: Global,
    front: &str,
    piece: &str,
    times: usize,
    rest: &str,
) -> Result<String, AllocError> {
    let mut text = String::from_str(alloc, front)?;
    for _ in 0..times {
        text.push_str(piece)?;
    }
    text.push_str(rest)?;
    Ok(text)
}
