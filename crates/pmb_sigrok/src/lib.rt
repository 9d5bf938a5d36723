//! Packets from the lines of sigrok's I2C decoder.
#![tactic(auto)]

pub mod laws;
mod sigrok;

pub use pmb_sigrok_line::{AddressForm, Event, Rate};
pub use sigrok::{Place, Sigrok};
