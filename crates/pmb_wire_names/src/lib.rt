//! Which signals of a recording are SCL and SDA, by their names.
//!
//! ```rust
//! let mut names = Names::new(None, None);
//! names.take(b"!", b"top.SCL");
//! names.take(b"?", b"top.sda");
//! match names.choose() {
//!     Ok(wires) => assert_eq!(rt; wires.sda.as_slice(), b"?".as_slice()),
//!     Err(_) => assert!(rt; false),
//! }
//! ```
#![tactic(auto)]

mod found;
mod laws;
mod matching;
mod names;
mod reason;

pub use found::{Id, MOST_FOUND, MOST_ID, MOST_NAME, Name, NamedSignal, Signals};
pub use laws::chooses_of_all;
pub use names::{Names, OfWire, Wires};
pub use reason::{Reason, append_names};
