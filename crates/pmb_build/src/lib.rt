//! Transaction lines in, exact bus events out.
//!
//! [`build`] writes the canonical text of the packet that each line of an input spells, and for a bad
//! line its number and why there is none. What other commands put out in the same way, an event's text
//! and the line of a fault, is had here too: [`put_event`], [`numbered_line`].
//!
//! ```rust
//! let profile = Profile::from_toml(rt.alloc(), SAMPLE.as_bytes())?;
//! let mut reader = Io::new(b"03\nwrite 58\n".as_slice());
//! let mut writer = Io::new(Vec::new(rt.alloc()));
//! let tally = build(&profile, b"write 58 ", &mut reader, &mut writer)?;
//! assert_eq!(rt; tally, Tally { packets: 1, refusals: 1 });
//! assert_eq!(rt; writer.into_inner().as_slice(), b"S b0 A 03 A P\n# line 2: BadWord at 8\n".as_slice());
//! ```
#![tactic(auto)]

mod builder;
mod common_lines;
mod fault_line;
pub mod laws;
mod lines;
mod packet;

pub use fault_line::{FaultLine, numbered_line};
pub use lines::{build, build_whole};
pub use packet::put_event;
