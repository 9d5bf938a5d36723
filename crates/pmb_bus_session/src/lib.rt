//! A bus of simulated devices that stays: messages and requests, one after the other, and the text of
//! what was on the wire.
//!
//! A [`BusSession`] borrows a [`BusGround`], and has one call, [`BusSession::act`], for all that is asked
//! of it by a [`BusWork`]. Its log is canonical capture text of all events since the last
//! [`BusTask::Take`], with the result line of each request after its events: a bus that got only requests
//! has as its log what `pmb run` writes of these lines.
//!
//! ```rust
//! let ground = BusGround { bus, alloc: rt.alloc() };
//! let mut session = BusSession::on(&ground);
//! let mut room = [0; 64];
//! let mut work = BusWork::new(BusTask::Open, &[], &mut room);
//! session.act(&mut work);
//! assert_eq!(rt; work.answer.status, BusStatus::Done);
//! let mut work = BusWork::new(BusTask::Request, b"read 58 88", &mut room);
//! session.act(&mut work);
//! let mut work = BusWork::new(BusTask::Take, &[], &mut room);
//! session.act(&mut work);
//! assert_eq!(rt; work.answer.count, 43);
//! ```
#![tactic(auto)]

mod devices;
pub mod laws;
mod log;
mod nowhere;
mod session;
mod work;

pub use pmb_message::{Message, MessageEnd};
pub use session::{BusGround, BusSession};
pub use work::{BusAnswer, BusStatus, BusTask, BusWork};
