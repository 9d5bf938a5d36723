//! How tests hand bytes to what reads and writes: whole, byte by byte, cut in two, in short reads, or with
//! a call that fails; and what it answered and wrote.
#![tactic(auto)]

mod job;
mod lines;
mod senseless;
mod text;
mod way;

pub use job::{Job, Ran, Told, run_in, unlike, unlike_cut};
pub use lines::{is_front, tally_of};
pub use senseless::{senseless_bytes, senseless_words};
pub use text::repeated;
pub use way::{Way, each_cut};
