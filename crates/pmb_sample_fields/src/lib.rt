//! The fields of a line of samples of two wires, and what they say: numbers, times and levels.
//!
//! ```rust
//! assert_eq!(rt; time_in(Unit::Microseconds, b"2.5"), Some(1_000_000_000_000_002_500_000_000));
//! ```
#![tactic(auto)]

mod fields;
mod level;
mod numbers;
mod row;
mod scaled;
mod time;
mod unit;

pub use fields::{Field, Fields, Mark, Next};
pub use level::{Volts, digital_level, volts_level};
pub use row::{Columns, Row, read_row};
pub use scaled::{Scaled, scaled_number};
pub use time::{Unit, time_at, time_in, time_of_row};
pub use unit::unit_said;
