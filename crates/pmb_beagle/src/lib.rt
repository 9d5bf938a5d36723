//! Packets from an export of Data Center.
#![tactic(auto)]

mod beagle;
mod columns;
pub mod laws;
mod row;
mod time;
mod transaction;

pub use beagle::Beagle;
pub use columns::Columns;
