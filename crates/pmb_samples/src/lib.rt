//! A recording of SCL and SDA as samples in columns, line by line, to the packets that it shows.
//!
//! ```rust
//! let options = Options { scl: None, sda: None, time: Time::First, rate: None, volts: None };
//! let lines = SampleLines::new(&options);
//! assert_eq!(rt; lines.line, 0);
//! ```
#![tactic(auto)]

mod heading;
pub mod laws;
mod levels;
mod lines;
mod name;
mod row;
mod samples;
mod why;

pub use heading::Headings;
pub use levels::{Form, Forms};
pub use lines::{Options, Place, SampleLines, Time, TimeWanted};
pub use row::{Heard, Rows, Times, Why};
pub use samples::Samples;
