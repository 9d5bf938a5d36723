//! The command line: what its arguments ask for, what is printed where they ask for nothing to be done,
//! and the exit statuses, with what is written of a fault on standard error.
//!
//! No other crate knows `clap`.
//!
//! ```rust
//! let mut out = Io::new(Vec::new(rt.alloc()));
//! let mut err = Io::new(Vec::new(rt.alloc()));
//! let task = parse_command(rt.alloc(), &["pmb", "check", "--sample"], &mut out, &mut err);
//! assert!(rt; matches!(task, Ok(Task::UnderProfile(ProfilePlace::Sample, Subcommand::Check))));
//! ```
#![tactic(auto)]

mod command_arguments;
mod commands;
mod direction;
mod exit_status;
mod fact_arguments;
mod fact_commands;
mod fact_words;
mod facts_fault;
mod fail_list;
mod fail_words;
mod flags;
mod import_fault;
mod import_words;
pub mod laws;
mod profile_place;
mod stats_arguments;
mod stats_fault;
mod stats_words;
mod subcommand;
mod tasks;
mod without_words;
mod words;
mod words_found;

pub use direction::Direction;
pub use exit_status::{ExitStatus, ended, report, report_format, report_nothing, report_text};
pub use fact_arguments::FactArguments;
pub use fail_list::FailList;
pub use profile_place::ProfilePlace;
pub use stats_arguments::{StatsArguments, StatsForm};
pub use subcommand::Subcommand;
pub use tasks::{Task, find_task, parse_command};
pub use without_words::no_words;
pub use words_found::WordsFound;
