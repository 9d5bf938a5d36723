//! A reader of a capture that owns the profile that it borrows.
//!
//! A [`CaptureReader`](pmb_capture_reader::CaptureReader) borrows a [`ReaderGround`], so no struct of safe
//! code can hold both. An [`OpenReader`] does: each stands in a block of its own, and the lifetime of the
//! borrow ends when it is dropped.
//!
//! ```rust
//! let mut open = OpenReader::new(rt.alloc(), ground)?;
//! let mut work = Work::new(Task::Feed, b"S b0 A 21 A 00 A 18 A f8 A P\n", &mut []);
//! open.act(&mut work);
//! assert_eq!(rt; work.answer.map(|answer| answer.state), Some(Fed::More));
//! ```
#![tactic(auto)]

mod open;
mod seat;

pub use open::OpenReader;
