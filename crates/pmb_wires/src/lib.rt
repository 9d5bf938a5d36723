//! The two wires of a bus: their levels, the spikes on them, and what a change of them says.
//!
//! ```rust
//! let mut filter = Filter::new(50);
//! let high = Some(Edge { line: 1, level: Level::High });
//! let idle = Moment { time: 0, scl: high, sda: high };
//! assert!(rt; filter.take(&idle).first.is_some());
//! assert!(rt; filter.end().first.is_none());
//! ```
#![tactic(auto)]

mod filter;
pub mod laws;
mod level;
mod moment;
mod signal;

pub use filter::{Filter, Run};
pub use level::{Level, Levels, has};
pub use moment::{Edge, Moment, Moments};
pub use signal::{Place, Rise, Signal, Tracker, Wire};
