//! Captures: what is written of them under a profile.
//!
//! [`show`] writes a line for each packet of a capture, with a note on what it means, and one for
//! each refusal. [`check_capture`] writes the refusals alone, and how many packets and refusals
//! there were. [`show_whole`] and [`check_whole`] do the same of a capture that is at hand as a whole.
//!
//! ```rust
//! let profile = Profile::from_toml(rt.alloc(), SAMPLE.as_bytes())?;
//! let mut reader = Io::new(b" 18 A f8 A P".as_slice());
//! let mut writer = Io::new(Vec::new(rt.alloc()));
//! let tally = show(&profile, b"S b0 A 21 A 00 A", &mut reader, &mut writer)?;
//! assert_eq!(rt; tally, Tally { packets: 1, refusals: 0 });
//! assert_eq!(rt; writer.into_inner().as_slice(), b"write 58 21 00 18 pec # VOUT_COMMAND 12\n".as_slice());
//! ```
#![tactic(auto)]

mod account;
mod capture;
mod commands;
pub mod laws;
mod lines;
mod output;
mod packet_lines;
mod tally_alone;

pub use commands::check_capture::check_capture;
pub use commands::show::show;
pub use commands::whole::{check_whole, show_whole};
