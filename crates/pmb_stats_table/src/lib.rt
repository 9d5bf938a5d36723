//! The table of `pmb stats`: a paragraph for each device with what was counted of it, which of its status
//! bits were read set and when, and its numbers; and a line of the whole capture.
//!
//! [`put_table`] puts it out from [`Statistics`](pmb_stats::Statistics), line by line, and takes no
//! memory. What it is, `specs/Table` says from the facts of the capture alone: `specs/Row` what a line of
//! cells is, `specs/Counts` what is said of counts, `specs/Rows` which columns bits and numbers have.
//!
//! ```rust
//! let profile = Profile::from_toml(rt.alloc(), SAMPLE.as_bytes())?;
//! let stats = Statistics::new(rt.alloc(), &profile)?;
//! let digits = Digits::new(4).ok_or("digits")?;
//! let mut waiting = Waiting::new();
//! let mut writer = Io::new(Vec::new(rt.alloc()));
//! put_table(&stats, digits, &[], &mut waiting, &mut writer)?;
//! assert_eq!(rt; waiting.as_slice(), b"total  packets 0\n".as_slice());
//! ```
#![tactic(auto)]

mod bits;
mod counts;
mod head;
mod numbers;
mod pages;
mod put_bits;
mod put_numbers;
mod row;
mod spot;
mod table;
mod times;
mod total;
mod widths;

pub use table::put_table;
