//! What a transaction says, for a person to read: the names of its commands, the values of its
//! numbers, the set bits of its status registers.
//!
//! A [`Context`] follows the transactions on a bus and keeps PAGE and VOUT_MODE of each device, which
//! an output voltage is to be read by. [`Context::note`] is the note of one transaction, and under it
//! stands [`Context::append_note`], which appends it to a list of bytes.
//!
//! ```rust
//! let profile = Profile::from_toml(rt.alloc(), SAMPLE.as_bytes())?;
//! let mut context = Context::new(&profile);
//! let set_vout = parse_line(&profile, b"write 58 21 00 18")?;
//! assert_eq!(rt; context.note(&set_vout).as_str(), "VOUT_COMMAND 12");
//! context.observe(&parse_line(&profile, b"write 58 20 14")?);
//! assert_eq!(rt; context.mode(0x58), Some(0x14));
//! assert_eq!(rt; context.note(&set_vout).as_str(), "VOUT_COMMAND 1.5");
//! ```
#![tactic(auto)]

mod context;
pub mod laws;
mod note;
mod paging;
mod status;
mod text;
mod value;

pub use context::Context;
pub use note::Note;
