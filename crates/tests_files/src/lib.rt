//! Files in memory, and runs of the program over them: each public function of `pmb_files` once, with
//! values by hand. `tests/files/rows.txt` tries the rest, over files of the system.
#![tactic(auto)]

#[cfg(test)]
mod color;
#[cfg(test)]
mod joined;
mod memory;
#[cfg(test)]
mod program;
#[cfg(test)]
mod words;

pub use memory::{Entry, Memory};
