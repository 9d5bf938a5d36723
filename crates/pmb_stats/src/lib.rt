//! What `pmb stats` keeps of a capture: what is counted of the whole and of each device, the first and
//! the last time, what may make the status 1, and for each command of each device, page by page and
//! phase by phase, the histories of its status bits, or that of its numbers.
//!
//! [`Statistics`] is a [`Keeper`](pmb_keeper::Keeper): it takes one fact after the other, and takes no
//! memory for them, since all that it needs is taken when it is made. By the [`laws`] the counts of a
//! status bit on the pages of a device, and in the phases of its command, are together how many
//! reads found it set, and add up over pieces.
//!
//! ```rust
//! let profile = Profile::from_toml(rt.alloc(), SAMPLE.as_bytes())?;
//! let mut stats = Statistics::new(rt.alloc(), &profile)?;
//! let late = Late::new(&profile, Start::AllKnown);
//! let seen = Seen { digits: Digits::default(), profile: &profile, late: &late };
//! let head = Head { at: 5, place: Place { line: 2, column: 7 }, time: Some(b"0.25") };
//! let what = What::Read { addr: 0x58, code: 0x79, reply: &[0x40, 0x00], pec: false };
//! stats.keep(&seen, Fact { head, what });
//! assert_eq!(rt; stats.counts(0x58).of(Sort::Reads), 1);
//! let (page, phase) = (PageKey::OnPage(0), PhaseKey::Unphased);
//! let spot = Spot { addr: 0x58, code: 0x79, page, phase };
//! let bits = stats.register(spot).ok_or("no register")?;
//! assert_eq!(rt; bits[6].first(), Some(b"0.25".as_slice()));
//! ```
#![tactic(auto)]

mod device_counts;
pub mod laws;
mod observed;
mod place;
mod statistics;
mod time_span;
mod word;

pub use statistics::Statistics;
