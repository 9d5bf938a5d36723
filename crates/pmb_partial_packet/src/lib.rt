//! Device, bytes and error code of an unfinished packet.
//!
//! Where a reader refuses an event, [`PartialPacket`] says what came before it: the device of the
//! last leg, the bytes that were sent and replied, and which packet error code would have been
//! right. It is given each event of the packet, from its START on.
//!
//! ```rust
//! // S b0 A 88 A S b1 A 00 A d3 A, and then f7 for the packet error code
//! let mut said = PartialPacket::new();
//! for event in events {
//!     said.take(event);
//! }
//! assert_eq!(rt; said.device(), Some(0x58));
//! assert_eq!(rt; said.sent(), Some(&[0x88][..]));
//! assert_eq!(rt; said.reply(), Some(&[0x00, 0xd3][..]));
//! assert_eq!(rt; said.right_pec(Reason::BadPec, Event::Byte(0xf7)), Some(0xf6));
//! ```
#![tactic(auto)]

pub mod laws;
mod legs;
mod partial_packet;

pub use partial_packet::PartialPacket;
