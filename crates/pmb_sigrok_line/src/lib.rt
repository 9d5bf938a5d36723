//! What a line of sigrok's I2C decoder says, and the time of a sample.
//!
//! ```rust
//! if let Some(line) = Line::read(b"25000-25010 i2c-1: Address write: 58") {
//!     assert_eq!(rt; line.sample, Some(25000));
//!     assert_eq!(rt; line.name, b"i2c-1".as_slice());
//!     assert_eq!(rt; line.event, Some(Event::Address(false, 0x58)));
//! }
//! ```
#![tactic(auto)]

mod address_form;
mod annotation;
mod event;
mod line;
mod rate;
mod time;

pub use address_form::AddressForm;
pub use event::Event;
pub use line::{Line, is_remark};
pub use rate::Rate;
pub use time::{Time, time_of};
