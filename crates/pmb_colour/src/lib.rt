//! Colour in the lines of `log` and `stats`.
//!
//! [`Painted`] is a [`Sink`](pmb_io::Sink) over another one: what it is told goes on line by line, with
//! sequences of a terminal around what is wrong. Which these are is decided by the line's text alone.
//!
//! ```rust
//! fn paint<W: Sink, S: Start>(alloc: Global, out: W) -> W
//!     requires before { (W.told out).held ≡ S.before }
//!     requires lines { Some Lines.Table ≡ S.lines }
//! {
//!     match Painted::<W, S>::new(alloc, out, Some(Lines::Table)) {
//!         Ok(mut painted) => {
//!             let _ = painted.write_all(b"  reads 1  nacks 1 (byte 1)\n");
//!             painted.end().0
//!         }
//!         // no memory
//!         Err(out) => out,
//!     }
//! }
//! ```
//!
//! The other writer has then got `  reads 1  `, `ESC[33m`, `nacks 1 (byte 1)`, `ESC[0m` and LF.
#![tactic(auto)]

mod bits;
mod choice;
mod colour;
mod cut;
pub mod laws;
mod line;
mod lines;
mod log;
mod painted;
mod painter;
mod pieces;
mod put;
mod start;
mod table;
mod written;

pub use choice::{Choice, Output, choice_of, has_colour};
pub use lines::Lines;
pub use painted::Painted;
pub use start::Start;
