//! The lines of `pmb log`: what a capture says, for people.
//!
//! [`append_log_line`] appends the line of a [`Fact`](pmb_facts::Fact) to bytes that the caller has, and
//! takes no memory. The columns before what the line says are as wide as the [`Layout`] of the profile
//! tells. A line has at most [`LINE`] bytes.
//!
//! ```rust
//! let profile = Profile::from_toml(rt.alloc(), SAMPLE.as_bytes())?;
//! let late = Late::new(&profile, Start::AllKnown);
//! let digits = Digits::new(4).ok_or("digits")?;
//! let seen = Seen { digits, profile: &profile, late: &late };
//! let head = Head { at: 5, place: Place { line: 2, column: 7 }, time: Some(b"0.25") };
//! let fact = Fact { head, what: What::Alert { byte: 0xb0, pec: false } };
//! let mut out = ArrayVec::<u8, LINE>::new();
//! append_log_line(&mut out, Layout::of(&profile), &seen, fact);
//! let line = b"      0.25  58                                answered an alert\n";
//! assert_eq!(rt; out.as_slice(), &line[..]);
//! ```
#![tactic(auto)]

mod columns;
mod hints;
mod layout;
mod line;
mod packets;
mod refusals;
mod refused;

pub use layout::Layout;
pub use line::append_log_line;

/// The most bytes of a line with its LF.
pub const LINE: usize = 4096;
