//! Packets from a table of Logic 2.
#![tactic(auto)]

mod bus;
mod columns;
mod event;
mod exponent;
pub mod laws;
mod number;
mod row;
mod saleae;
mod time;

pub use columns::Columns;
pub use number::Radix;
pub use saleae::Saleae;
