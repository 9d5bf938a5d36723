//! Objects of a capture, each put into a line of JSON.
//!
//! A function for each sort of object appends its line to bytes that the caller has, and takes no
//! memory: [`write_line`] of a part, [`read_line`], [`call_line`], [`alert_line`],
//! [`no_alert_line`], [`other_line`] of a packet to an address that speaks no PMBus, [`refused_line`],
//! [`refusal_line`], [`bad_token_line`] of a word that is no token, and at the end [`device_line`] of how
//! often a device came and [`end_line`] of the totals, which [`Counts`] has counted. [`Head`] is where an
//! object begins and when, and [`Seen`] what is known where a packet begins. With each command code goes
//! the command's name, its page and its phase, and with data what they mean: a number with its unit, the
//! bits of a status register, a text, and what their fields say. [`is_wanted`] tells which objects are
//! wanted. A line has at most [`OBJECT`] bytes. By the [`laws`] it is one JSON object with distinct keys,
//! and LF.
//!
//! ```rust
//! let head = Head {
//!     at: 5,
//!     place: Place { line: 2, column: 7 },
//!     time: Some(b"0.25"),
//! };
//! let mut out = ArrayVec::<u8, OBJECT>::new();
//! bad_token_line(&mut out, head, b"b\"");
//! let line = b"{\"at\":5,\"line\":2,\"column\":7,\"time\":\"0.25\",\"kind\":\"bad_token\",\"word\":\"b\\u0022\"}\n";
//! assert_eq!(rt; out.as_slice(), &line[..]);
//! ```
#![tactic(auto)]

mod bad_token;
mod counts;
mod data;
mod head;
mod kept;
mod last;
pub mod laws;
mod members;
mod names;
mod packet;
mod refusal;
mod refused;
mod seen;
mod wanted;

pub use bad_token::{WORD, bad_token_line};
pub use counts::{Counts, DeviceCounts};
pub use head::Head;
pub use last::{device_line, end_line};
pub use packet::{alert_line, call_line, no_alert_line, other_line, read_line, write_line};
pub use refusal::refusal_line;
pub use refused::refused_line;
pub use seen::Seen;
pub use wanted::is_wanted;

/// The most bytes of an object with its LF.
pub const OBJECT: usize = 8192;
