//! The first profile of a bus, from a capture alone: `scan`.
//!
//! [`write_draft`] reads a capture without any profile. Whatever acknowledged its address is a device, and
//! each code that a device acknowledged is a command of it; the packets tell the forms of the commands, whether
//! packets carry a packet error code, the pages, and VOUT_MODE. What is written is read as a profile first:
//! it is accepted, and has each of these devices and commands.
//!
//! ```rust
//! let mut reader = Io::new(b"S b0 A 03 A P\n".as_slice());
//! let mut out = Io::new(Vec::new(rt.alloc()));
//! let drafted = write_draft(rt.alloc(), &[], &mut reader, &mut out);
//! assert!(rt; drafted.is_ok());
//! ```
#![tactic(auto)]

mod code_set;
mod command_tally;
mod device_tally;
mod device_text;
mod draft;
mod fault;
mod leg;
mod leg_reader;
mod leg_start;
mod nowhere;
mod seen;
mod tallies;
mod text;
mod write;

pub use fault::DraftFault;
pub use write::write_draft;
