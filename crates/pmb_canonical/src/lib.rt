//! Whole canonical packets, taken at once from the text of a capture.
//!
//! A capture is writes, to one device or to a group, reads and process calls, every byte acknowledged,
//! packets in which an address or a byte is refused, and alerts. Where the canonical text of such a
//! packet lies whole at the front of a piece, [`CanonicalReader::take`] takes it at once: one space between
//! words, digits in lower case and a LF after STOP. Other spellings are left to be taken event by event,
//! and so is what is no packet.
//!
//! ```rust
//! let profile = Profile::from_toml(rt.alloc(), SAMPLE.as_bytes())?;
//! let mut canonical = CanonicalReader::new();
//! let mut kept = TransactionSlot::new();
//! let taken = canonical.take(&mut kept, &profile, b"S b0 A 03 A P\nS b0 ");
//! assert_eq!(rt; taken, Some(TakenPacket { used: 14, events: 6 }));
//! assert_eq!(rt; line_of(kept.last()).as_str(), "write 58 03");
//! assert_eq!(rt; canonical.take(&mut kept, &profile, b"S b0 "), None);
//! ```
#![tactic(auto)]

mod alerts;
mod canonical_reader;
mod checked;
mod events;
mod group;
pub mod laws;
mod legs;
mod nacked;
mod packet_bytes;
mod packets;
mod refused;
mod words;

pub use canonical_reader::{CanonicalReader, TakenPacket};
pub use events::front_event;
