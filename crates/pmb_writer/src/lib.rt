//! Transactions as packets: which transactions have one, and its events.
//!
//! [`check`] answers whether a transaction has a packet under a profile, else the first of its
//! faults. [`events_of`] gives the packet's events, one after the other, and takes no memory;
//! [`append_packet`] writes their canonical text at once.
//!
//! ```rust
//! let mut parts = ArrayVec::new();
//! parts.push(Part { addr: 0x58, code: 0x03, bytes: ArrayVec::new(), pec: false });
//! let clear_faults = Transaction::Write { parts };
//! assert_eq!(rt; check(&profile, &clear_faults), Ok(()));
//! let mut events = events_of(&profile, &clear_faults);
//! assert_eq!(rt; events.next(), Some(Event::Start));
//! assert_eq!(rt; events.next(), Some(Event::Byte(0xb0)));
//! assert_eq!(rt; events.next(), Some(Event::Ack));
//! ```
#![tactic(auto)]

mod commands;
mod course;
mod events;
mod invalid;
pub mod laws;
mod leg;
mod legs;
mod refused;
mod text;
mod validity;

pub use events::{Events, events_of};
pub use invalid::Invalid;
pub use text::{append_event, append_packet, most_text};
pub use validity::check;
