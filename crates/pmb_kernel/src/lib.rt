//! Transfers of messages, from the kernel's events of `i2c`.
#![tactic(auto)]

mod events;
mod kernel;
pub mod laws;
mod messages;
mod replies;
mod transfers;
mod wire;

pub use kernel::Kernel;
pub use transfers::{Read, Transfers};
