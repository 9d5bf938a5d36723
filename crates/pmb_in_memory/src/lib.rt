//! The subcommands over input in memory, under a profile's text.
//!
//! [`write_whole`] does what `show`, `check`, `build` and `run` do, and [`write_json`] what `json`
//! does, by the same functions. The profile and the input are at hand as a whole, so that nothing is
//! read, and no read can fail. [`put_whole`] and [`put_json`] put the text into a buffer of the caller,
//! and return its length also where it doesn't fit; [`put_whole_under`] and [`put_json_under`] do so under
//! a profile that was read before. [`put_import`] does what `import` does with a recording, which needs
//! no profile.
//!
//! A [`Room`] is the writer into such a buffer: it keeps what fits, and counts all that was written.
//! [`Room::into_filled`] gives the buffer back. Code over writers of every type doesn't say that a
//! `Room` still has the buffer that it was made with. Its type says it: [`BufferId`] has the reference,
//! and the bytes before. A function over each `BufferId` makes the room, and is called at `Brand`,
//! where the call's proof says which it is.
//!
//! ```rust
//! let mut room = [0; 16];
//! let put = put_whole(MemoryTask::Build, rt.alloc(), SAMPLE.as_bytes(), b"write 58 03", &mut room)?;
//! assert_eq!(rt; put, Put { tally: Tally { packets: 1, refusals: 0 }, length: 14 });
//! assert_eq!(rt; room, *b"S b0 A 03 A P\n\0\0");
//! ```
#![tactic(auto)]

mod buffer_id;
mod fault;
mod json_choice;
pub mod laws;
mod memory_task;
mod put;
mod recordings;
mod room;
mod rooms;
mod under;
mod whole;
mod written;

pub use buffer_id::BufferId;
pub use fault::WholeFault;
pub use json_choice::JsonChoice;
pub use memory_task::MemoryTask;
pub use put::Put;
pub use recordings::put_import;
pub use room::{Filled, Room};
pub use rooms::{put_json, put_whole};
pub use under::{put_json_under, put_whole_under};
pub use whole::{read_profile, write_json, write_whole};
pub use written::Written;
