//! The host end of a bus: a request, signal by signal.
//!
//! A [`Host`] is made of a [`Request`] that a profile allows. Each call of [`Host::next`] is given the
//! device's answer to the signal before, and returns the next signal; the last one is STOP, and then it
//! tells how the request ended. It takes no memory, and ends whatever is answered. [`drive`] makes a whole
//! request on a [`Wire`].
//!
//! ```rust
//! let request = Request::Read { addr: 0x58, code: 0x88, pec: false };
//! let mut host = Host::new(&profile, request)?;
//! assert_eq!(rt; host.next(DeviceSignal::Silent), HostStep::Send(HostSignal::Start));
//! assert_eq!(rt; host.next(DeviceSignal::Silent), HostStep::Send(HostSignal::Byte(0xb0)));
//! assert_eq!(rt; host.next(DeviceSignal::Nack), HostStep::Send(HostSignal::Stop));
//! let refused = HostFault::Refused { leg: 1, byte: 0, at_read: false };
//! assert_eq!(rt; host.next(DeviceSignal::Silent), HostStep::Failed(refused));
//! ```
#![tactic(auto)]

mod checks;
mod host;
mod host_leg;
pub mod laws;
mod number;
mod reply;
mod run;
mod step;

pub use host::Host;
pub use pmb_request::{Request, RequestFault, parse_request};
pub use run::{Wire, drive};
pub use step::{HostFault, HostStep, Reply};
