//! A bus of simulated devices that owns the profile that it borrows.
//!
//! A [`BusSession`](pmb_bus_session::BusSession) borrows a [`BusGround`], so that no struct of safe code can hold
//! both. An [`OpenBus`] does: both stand in blocks of their own, and the lifetime of the borrow ends when it is
//! dropped.
//!
//! ```rust
//! let mut open = OpenBus::new(rt.alloc(), BusGround { bus, alloc: rt.alloc() })?;
//! let mut work = BusWork::new(BusTask::Open, &[], &mut []);
//! open.act(&mut work);
//! assert_eq!(rt; work.answer.status, BusStatus::Done);
//! ```
#![tactic(auto)]

mod open;
mod seat;

pub use open::OpenBus;
