//! What explains the faults of a run: of its words, of what it read and of what it wrote, so that nothing of
//! the run knows of it.
//!
//! The program runs its tool over a [`KeptInput`] and a [`KeptOutput`], which read and write what
//! those inside do, and then writes what [`KeptOutput::explanation`] makes of what they kept.
#![tactic(auto)]

mod arguments;
mod asked;
mod captures;
mod decimals;
mod events;
mod explain_run;
mod explaining;
mod explanation;
mod import_end;
mod kept_input;
mod kept_output;
mod lines;
mod matter;
mod meanings;
mod parts;
mod profiles;
mod report;
mod reports;
mod run_end;
mod watch;

pub use asked::asks_to_explain;
pub use explaining::Explaining;
pub use explanation::{Explanation, write_text};
pub use kept_input::KeptInput;
pub use kept_output::KeptOutput;
pub use meanings::explain_name;
