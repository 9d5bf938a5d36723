//! What is counted of a capture: facts by their sorts, packets, words that are no token, and what may
//! make the status 1.
//!
//! [`SortCounts`] counts the facts that it is given, one count for each [`Sort`]; [`Totals`] also
//! counts packets and bad tokens. [`Signs`] says of each [`Fail`] whether it holds. None of them takes
//! memory. By the [`laws`] counts of pieces add up, and the counts of a whole are those of its devices
//! and of what names none.
//!
//! ```rust
//! let mut counts = SortCounts::new();
//! counts.count(What::Refused { parts: 1, addr: 0x58, sent: &[0x06], at_read: false });
//! assert_eq!(rt; counts.of(Sort::Nacks(NackPlace::Code)), 1);
//! assert_eq!(rt; counts.of(Sort::Writes), 0);
//! ```
#![tactic(auto)]

mod counts;
mod fail;
mod faults;
pub mod laws;
mod sort;
mod totals;

pub use counts::SortCounts;
pub use fail::{Fail, Signs};
pub use sort::{NackPlace, Sort, sort_of};
pub use totals::Totals;
