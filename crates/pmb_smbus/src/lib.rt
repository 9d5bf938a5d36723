//! SMBus transfers, from the kernel's events of `smbus`.
#![tactic(auto)]

mod events;
pub mod laws;
mod messages;
mod protocol;
mod results;
mod smbus;
mod transfer;
mod transfers;

pub use events::Head;
pub use protocol::Protocol;
pub use smbus::Smbus;
pub use transfer::{Data, Transfer};
pub use transfers::Transfers;
