//! What is said on a bus: transactions, and the packets that say them.
//!
//! A [`Transaction`] is a write to one device or a group, a read, a call, one of these refused by a
//! device, or an answer at the Alert Response Address. The definitions of the packet of each, of a
//! capture, and of the events that may come next stand here, with [`laws`] over them: a transaction
//! has one packet at most, a list of events is the packet of one transaction at most, and no packet
//! begins another.
//!
//! ```rust
//! let mut bytes = ArrayVec::new();
//! bytes.extend([0x00, 0x18])?;
//! let mut parts = ArrayVec::new();
//! parts.push(Part { addr: 0x58, code: 0x21, bytes, pec: true });
//! let set_vout = Transaction::Write { parts };
//! ```
#![tactic(auto)]

mod endings;
mod following;
pub mod laws;
mod part;
mod reading;
mod reason;
mod rows;
mod transaction;
mod viability;

pub use part::Part;
pub use reason::Reason;
pub use transaction::Transaction;
