//! A capture that is read as it comes: pieces of its text go in, and the lines of its facts are taken out.
//!
//! A [`CaptureReader`] is [fed](CaptureReader::feed) the text of a capture in pieces of any size, and keeps
//! what `pmb json` or `pmb log` writes of it until it is [taken](CaptureReader::take). However the text is
//! cut, the lines are the same, and those of a piece are ready as soon as it was fed. A [`ReaderGround`] has
//! all that a reader borrows, for who keeps the two together. By the [`laws`] a reader of items has whole
//! records ready.
//!
//! ```rust
//! let mut reader = CaptureReader::new(rt.alloc(), &profile, choice, AfterBadToken::End)?;
//! let mut room = [0; 256];
//! assert_eq!(rt; reader.feed(b"S b0 A 21 A 00 A 18 A f8 A"), Fed::More);
//! assert_eq!(rt; reader.ready(), 0);
//! assert_eq!(rt; reader.feed(b" P\n"), Fed::More);
//! let count = reader.take(&mut room);
//! ```
#![tactic(auto)]

mod fresh;
pub mod laws;
mod queue;
mod reader;
mod reader_ground;
mod work;

pub use reader::{CaptureReader, Fed};
pub use reader_ground::ReaderGround;
pub use work::{Answer, Task, Work};
