//! Input that is at hand as a whole: engines and tasks over it, and what they put out.
//!
//! `each_piece` and `each_line` of `pmb_io` have a piece, a line and a buffer on the stack, up to 160 KB.
//! Here nothing is read: an engine takes the whole input as its only piece, a task each line from where
//! it lies, and the buffer is on the heap. What is written is the same.
#![tactic(auto)]

mod buffer;
mod engines;
mod tasks;

pub use engines::whole_input;
pub use tasks::whole_lines;
