//! The profile of a board from those of its parts: `parts`.
//!
//! Each part has a profile of its own, a TOML text. [`board`] puts several into one: of each its first
//! table, at the address that the part has on the board; further tables, as of a global address that a
//! family shares, once; and all addresses that are ignored. What comes out is read as a profile first: it is
//! accepted, and has a device at each address. [`about`] says in a sentence what a part is.
#![tactic(auto)]

mod boards;
mod cut;
mod fault;
mod line;
mod sentence;
mod text;

pub use boards::{Part, board};
pub use fault::BoardFault;
pub use sentence::about;
