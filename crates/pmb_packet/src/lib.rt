//! Packets: transactions, the events of each, the reader of a capture, the lines that say them, and
//! the notes that tell what they mean.
//!
//! Re-exports of the five packet crates: `pmb_transaction`, `pmb_writer`, `pmb_reader`, `pmb_line`
//! and `pmb_note`. Their contracts come with the names.
//!
//! ```rust
//! let profile = Profile::from_toml(rt.alloc(), SAMPLE.as_bytes())?;
//! let set_vout = parse_line(&profile, b"write 58 21 00 18 pec")?;
//! let mut reader = Reader::new(&profile);
//! for event in events_of(&profile, &set_vout) {
//!     let _ = reader.take(event);
//! }
//! assert_eq!(rt; reader.packet(), &set_vout);
//! assert_eq!(rt; Context::new(&profile).note(&set_vout).as_str(), "VOUT_COMMAND 12");
//! ```
#![tactic(auto)]

pub use pmb_line::{
    FaultText, Line, LineFault, LineReader, WordFault, append_line, line_of, parse_line, read_line,
    read_words, word_at,
};
pub use pmb_note::{Context, Note};
pub use pmb_reader::{Feed, Outcome, Reader, Refusal, Took};
pub use pmb_transaction::{Part, Reason, Transaction};
pub use pmb_writer::{Events, Invalid, check, events_of};
