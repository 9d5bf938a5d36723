//! Packets, put together from what the changes of the two wires of a bus say.
//!
//! ```rust
//! let packets = WirePackets::new(25, 0);
//! assert_eq!(rt; packets.recording.packets, 0);
//! ```
#![tactic(auto)]

pub mod laws;
mod time;
mod told;
mod wire_packets;
mod wire_reader;

pub use time::{Time, seconds};
pub use wire_packets::WirePackets;
pub use wire_reader::WireReader;
