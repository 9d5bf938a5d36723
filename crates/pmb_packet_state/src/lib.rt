//! The packet under way on a bus, one event at a time.
//!
//! A [`PacketState`] has the events of one packet so far, without keeping them: where they end, the
//! parts, the bytes of the current leg and the answer. It takes an event if some packet can have it
//! here, and returns which kinds may come and why another one may not.
//!
//! ```rust
//! let mut under_way = PacketState::new(&profile);
//! assert_eq!(rt; under_way.step(Event::Start), Move::On);
//! assert_eq!(rt; under_way.step(Event::Byte(0x41)), Move::Refused);
//! assert_eq!(rt; under_way.reason(Event::Byte(0x41)), Reason::ReadFirst);
//! ```
#![tactic(auto)]

mod kinds;
pub mod laws;
mod legs;
mod packet_state;
mod read_leg;
mod reason;
mod written_leg;

pub use packet_state::{Move, PacketState};
