//! The state of a simulated device: its registers and the page that is selected.
//!
//! [`Registers`] begin as a device's profile says. A complete write changes them, unless WRITE_PROTECT
//! disables it on a device that keeps to that; a read or a call is answered from them, and a refused
//! one sets a bit of STATUS_CML. In the definitions they are a map from page and code to bytes, which
//! a transaction changes. This crate knows nothing of events and signals.
//!
//! ```rust
//! let profile = Profile::from_toml(rt.alloc(), SAMPLE.as_bytes())?;
//! let device = profile.device(0x58).ok_or("no device")?;
//! let mut registers = Registers::new(rt.alloc(), device)?;
//! registers.write(0x21, &[0x00, 0x18]);
//! assert_eq!(rt; registers.register(0, 0x21), Some(b"\x00\x18".as_slice()));
//! ```
#![tactic(auto)]

mod bits;
mod change;
mod cml_bit;
mod coefficients;
mod first;
mod forms;
mod protection;
mod register;
mod register_range;
mod registers;
mod reply;

pub use cml_bit::CmlBit;
pub use first::{first_bytes, first_mode};
pub use forms::register_form;
pub use registers::Registers;
pub use reply::Reply;
