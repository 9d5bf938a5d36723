//! A recording of SCL and SDA in a VCD, line by line, to the packets that it shows.
//!
//! ```rust
//! let vcd = Vcd::new(None, None, 50_000_000, 25, false);
//! assert_eq!(rt; vcd.lines.line, 0);
//! ```
#![tactic(auto)]

pub mod laws;
mod lines;
mod vcd;

pub use lines::{Place, VcdLines};
pub use vcd::Vcd;
