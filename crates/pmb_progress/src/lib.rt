//! The line of progress, which `pmb` keeps on a terminal while it reads for long.
//!
//! [`is_due`] says when it is written, [`progress_line`] what it says, and [`stops`] how many packets end in a
//! text. [`written_over`] puts a line in the place of the one before, and [`wiped`] takes it away. No sequence of a
//! terminal is needed for that, only CR.
//!
//! ```rust
//! let (packets, _) = stops(Place::Between, b"S b0 A 03 A P # P\n");
//! assert_eq!(rt; packets, 1);
//! let line = progress_line(Some(100_000_000), 43_000_000, 3_500, Some(120_345));
//! assert_eq!(rt; line.as_slice(), b"pmb: 43%  12.2 MB/s  packets 120345");
//! ```
#![tactic(auto)]

mod due;
pub mod laws;
mod line;
mod number;
mod over;
mod place;

pub use due::is_due;
pub use line::progress_line;
pub use over::{COLUMNS, wiped, written_over};
pub use place::{Place, stops};
