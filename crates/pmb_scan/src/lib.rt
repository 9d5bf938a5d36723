//! The engine of all that reads a capture's text.
//!
//! A [`Scan`] takes the text in pieces, lexes its words and hands the events to the reader. A
//! [`Visitor`] is told what comes: the bytes that are used, each event, each packet and each refusal.
//! At a word that is no token the scan stops, and says how many bytes of the piece it used.
//!
//! ```rust
//! // A visitor that keeps the events: `Log` of the crate `tests_reader`.
//! let mut log = Log::default();
//! let profile = Profile::from_toml(rt.alloc(), SAMPLE.as_bytes())?;
//! let mut scan = Scan::new(&profile);
//! let text = b"S b0 A 03 A P oops".as_slice();
//! let taken = scan.take_words(text, &mut log, &mut Waiting::new(), &mut writer)?;
//! let fault = LexFault::BadToken { at: 14 };
//! assert_eq!(rt; taken, PieceEnd::Fault { used: 14, fault });
//! assert_eq!(rt; log.events.as_slice(), b"S b0 A 03 A packet ".as_slice());
//! assert_eq!(rt; scan.truncation(), None);
//! ```
#![tactic(auto)]

mod after_bad_token;
mod blank;
pub mod laws;
mod reported;
mod scan;
mod visitor;

pub use after_bad_token::AfterBadToken;
pub use scan::{PieceEnd, Scan};
pub use visitor::Visitor;
