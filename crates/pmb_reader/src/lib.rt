//! Packets read from the events of a bus, one event at a time.
//!
//! A [`Reader`] takes the events of a capture in order. At each STOP that ends a packet it has the
//! transaction; at the first event that no packet can have there it returns why, and what might
//! have come. It keeps no list of events; the packet under way is kept by `pmb_packet_state`.
//!
//! ```rust
//! let profile = Profile::from_toml(rt.alloc(), SAMPLE.as_bytes())?;
//! let mut reader = Reader::new(&profile);
//! for event in [Event::Start, Event::Byte(0x40), Event::Nack] {
//!     assert_eq!(rt; reader.take(event), Took::Continues);
//! }
//! assert_eq!(rt; reader.expected(), Kinds::STOP);
//! assert_eq!(rt; reader.take(Event::Stop), Took::Packet);
//! assert_eq!(rt; line_of(reader.packet()).as_str(), "refused 20");
//! ```
#![tactic(auto)]

mod feed;
pub mod laws;
mod reader;
mod refusal;

pub use feed::{Feed, Outcome};
pub use reader::{Reader, Took};
pub use refusal::Refusal;
