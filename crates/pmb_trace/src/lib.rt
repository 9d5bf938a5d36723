//! Lines of a trace of the Linux kernel, as `trace`, `trace_pipe`, trace-cmd and perf print them.
//!
//! ```rust
//! let line = b"i2cget-91 [000] 14.000907: i2c_result: i2c-0 n=2 ret=2";
//! let TraceLine::Says(mut event) = trace_line(line) else {
//!     return;
//! };
//! assert_eq!(rt; event.name, EventName::I2cResult);
//! assert_eq!(rt; event_time(event.front), b"14.000907".as_slice());
//! assert_eq!(rt; event.fields.next_piece(), Some(b"i2c-0".as_slice()));
//! ```
#![tactic(auto)]

mod event_name;
mod fields;
mod line;
mod loss;

pub use event_name::{EventKind, EventName};
pub use fields::{
    Bytes, MOST_WORD, Number, Outcome, OutcomeText, Told, address_field, below_zero, bus_field,
    command_field, decimal_field, event_time, flags_field, outcome_field, read_bytes,
};
pub use line::{Event, TraceLine, trace_line};
pub use loss::Loss;
