//! What the reads of a status register say of its bits: how many found a bit set, when the first and
//! the last of these came, and when the first read after them found it clear.
//!
//! A [`BitHistory`] takes one read after the other, and [`see_word`] hands a read to the histories of
//! all bits of a register. It takes no memory, however many reads come: of their times it keeps
//! three ([`KeptTime`]).
//!
//! ```rust
//! let mut bit = BitHistory::new();
//! bit.see(true, Some(b"0.5"));
//! bit.see(false, Some(b"0.75"));
//! assert_eq!(rt; bit.count(), 1);
//! assert_eq!(rt; bit.first(), Some(b"0.5".as_slice()));
//! assert_eq!(rt; bit.gone(), Some(b"0.75".as_slice()));
//! ```
#![tactic(auto)]

mod history;
mod kept_time;
pub mod laws;
mod register;

pub use history::BitHistory;
pub use kept_time::KeptTime;
pub use register::see_word;
