//! A host run against a bus of simulated devices, request by request.
//!
//! An [`Exchange`] is made of a [`Host`](pmb_host::Host). Each call of [`Exchange::next`] gives the
//! bus the host's next signal and returns what was recorded of it; after STOP it returns how the
//! host ended. It takes no memory.
//!
//! ```rust
//! let mut bus = Bus::new(rt.alloc(), &profile)?;
//! let request = Request::Read { addr: 0x58, code: 0x88, pec: false };
//! let mut exchange = Exchange::new(Host::new(&profile, request)?);
//! for _ in 0..4162 {
//!     match exchange.next(&mut bus) {
//!         ExchangeStep::Recorded(recorded) => events.extend_from_slice(recorded.events())?,
//!         ExchangeStep::End(end) => return Ok(end),
//!     }
//! }
//! ```
#![tactic(auto)]

mod exchange;
pub mod laws;

pub use exchange::{Exchange, ExchangeStep};
