//! The number format that an output voltage is in (PMBus Part II section 8).
//!
//! Which one it is depends on VOUT_MODE and, where that names VID, on the device's VID tables, of which
//! there may be one for each page. [`Voltages`] has what is known of these, and
//! [`format`](Voltages::format) tells the format of a command's words, or why there is none. Under a
//! relative VOUT_MODE the words of some commands are factors of VOUT_COMMAND.
//!
//! ```rust
//! let voltages = Voltages {
//!     mode: KnownMode::Known(0x17),
//!     page: Some(0),
//!     coefficients: None,
//!     vid: None,
//! };
//! let read = voltages.format(0x8b, Sign::Unsigned)?;
//! assert!(rt; !read.is_ratio);
//! assert_eq!(rt; read.number.value(0x0200)?.text().as_str(), "1");
//! ```
#![tactic(auto)]

pub mod laws;
mod tables;
mod voltage;

pub use voltage::{NoVoltage, VoltageFormat, Voltages};
