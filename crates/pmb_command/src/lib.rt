//! The commands of PMBus: in which forms they are written, read and called, and what their data
//! stand for.
//!
//! [`standard`] and [`by_name`] are the standard's command table, [`standard_unit`] has the units of
//! its numbers, and [`bit_name`] the names of status bits. [`is_fitting`] says which forms, kinds and
//! pages go together, [`register_form`] and [`is_length`] what a register holds, and
//! [`is_protection`] what WRITE_PROTECT may hold. A [`Form`] says how many bytes its data have and
//! how they go over the bus, a [`PecMode`] whether a packet error code may follow. The definitions of
//! the parts of a profile, and of what an accepted bus is, stand here too.
//!
//! ```rust
//! let code = by_name("STATUS_WORD").ok_or("no command")?;
//! assert_eq!(rt; code, 0x79);
//! let entry = standard(code).ok_or("no command")?;
//! assert_eq!(rt; entry.shape.read, Some(Form::Two));
//! assert!(rt; Form::Two.takes(2));
//! assert_eq!(rt; bit_name(code, 15), Some("VOUT"));
//! ```
#![tactic(auto)]

mod commands;
mod entry;
mod fitting;
mod form;
pub mod laws;
mod name;
mod pec_mode;
mod protection;
mod status_bits;
mod units;

pub use commands::{by_name, standard};
pub use entry::{Entry, Kind};
pub use fitting::{bit_count, is_fitting, is_length, is_number, register_form};
pub use form::{Form, Shape};
pub use name::{Name, is_device_name, is_name, is_unit, name_of_code};
pub use pec_mode::PecMode;
pub use protection::is_protection;
pub use status_bits::bit_name;
pub use units::standard_unit;
