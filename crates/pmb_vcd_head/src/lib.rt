//! The head of a VCD: its time unit, and its signals of one bit, each with its ID and its name.
//!
//! ```rust
//! let mut head = Head::new();
//! for word in [b"$var".as_slice(), b"wire", b"1", b"!", b"scl"] {
//!     assert!(rt; head.hear(word) == Told::Nothing);
//! }
//! assert!(rt; head.hear(b"$end") == Told::Signal);
//! assert_eq!(rt; head.full.as_slice(), b"scl".as_slice());
//! ```
#![tactic(auto)]

mod head;
mod scopes;

pub use head::{Head, MOST_UNIT, Part, Told};
pub use scopes::{MOST_NAME, Name, Scopes};
