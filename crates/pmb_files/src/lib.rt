//! `pmb` over files: the words of the command line that name them, readers that join them, and the
//! program.
//!
//! [`run_files`] is [`pmb_cli::tool`] over the files that its words name, and [`run_painted`] has what it
//! writes go on in its colours. What opens a file is an [`Opener`]: the system, or files in memory.
#![tactic(auto)]

mod asked;
mod color;
mod contradiction;
mod each;
mod faults;
mod file_fault;
mod file_use;
mod head;
mod heading;
mod joined;
mod opener;
mod painted;
mod program;
mod run;
mod said;
mod values;
mod words;

pub use color::{ColorWords, take_color};
pub use file_fault::FileFault;
pub use joined::{Joined, ReadFailure};
pub use opener::Opener;
pub use painted::run_painted;
pub use program::run_files;
pub use words::{FileWords, split_words};
