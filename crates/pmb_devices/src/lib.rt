//! A bus of simulated devices.
//!
//! A [`Bus`] is made from a profile. Each signal of a host is given to each of its devices; [`Recorded`]
//! tells the events that an analyser would see, and the answer. Registers and pages are looked at
//! through [`Bus::device`].
//!
//! ```rust
//! let profile = Profile::from_toml(rt.alloc(), SAMPLE.as_bytes())?;
//! let mut bus = Bus::new(rt.alloc(), &profile)?;
//! bus.signal(HostSignal::Start);
//! let address = bus.signal(HostSignal::Byte(0xb0));
//! assert_eq!(rt; address.events(), [Event::Byte(0xb0), Event::Ack].as_slice());
//! assert_eq!(rt; address.answer(), DeviceSignal::Ack);
//! ```
#![tactic(auto)]

mod bus;
pub mod laws;
pub mod laws_on_replies;
mod others;
mod recorded;

pub use bus::Bus;
pub use recorded::Recorded;
