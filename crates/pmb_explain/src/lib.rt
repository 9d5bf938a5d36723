//! What faults mean, by their names: the list of all that the program has, and what is said of each.
//!
//! ```rust
//! let fault = Fault::Format(FormatFault::BadFormat);
//! assert_eq!(rt; fault.name(), "BadFormat");
//! assert!(rt; is_explained("badformat"));
//! ```
#![tactic(auto)]

mod fault;
pub mod laws;
mod list;
mod said;
mod said_of_arguments;
mod said_of_lines;
mod said_of_numbers;
mod said_of_profiles;
mod said_of_reasons;

pub use fault::{ArgumentFault, Fault};
pub use list::{all_faults, is_explained, is_of_name};
pub use said::Said;
