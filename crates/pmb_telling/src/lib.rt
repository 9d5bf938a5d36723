//! What a capture says, told fact by fact.
//!
//! [`tell`] writes a line for each packet, each refusal and each word that is no token, as soon as it
//! has ended: as an object of `json` or as a line of `log`, as the
//! [`Telling`](pmb_fact_stream::Telling) of its choice has it. A line tells the time that a comment told
//! before its packet. A packet to an address that speaks no PMBus ([`ignored`](pmb_fact_stream::Choice))
//! has one line, which is written as soon as the address has come. After a word that is no token reading
//! ends, or continues with the next line ([`AfterBadToken`]). [`tell_kept`] hands each fact to a
//! [`Keeper`](pmb_keeper::Keeper) too.
//!
//! ```rust
//! let choice = Choice {
//!     digits: Digits::default(),
//!     start: Start::AllKnown,
//!     devices: &[],
//!     ignored: None,
//!     telling: Telling::Objects,
//! };
//! let mut reader = Io::new(b" 18 A f8 A P".as_slice());
//! let mut writer = Io::new(Vec::new(rt.alloc()));
//! let first = b"# 0.25 s\nS b0 A 21 A 00 A";
//! let tally = tell(&profile, choice, AfterBadToken::End, first, &mut reader, &mut writer)?;
//! assert_eq!(rt; tally, Tally { packets: 1, refusals: 0 });
//! ```
#![tactic(auto)]

mod capture_teller;
mod engine;
pub mod laws;
mod run;
mod whole;
mod word_end;
mod word_laws;

pub use capture_teller::CaptureTeller;
pub use pmb_scan::AfterBadToken;
pub use run::{tell, tell_kept};
pub use whole::tell_whole;
