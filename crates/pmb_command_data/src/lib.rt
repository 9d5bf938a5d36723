//! What a profile makes of a command's data: whether the command is the standard's, the names of
//! its bits, whether its bytes are a text, and whether it has a value for each phase.
//!
//! ```rust
//! let profile = Profile::from_toml(rt.alloc(), SAMPLE.as_bytes())?;
//! let device = profile.device(0x58).ok_or("no device")?;
//! let command = device.command(0x99).ok_or("no command")?;
//! assert_eq!(rt; text(&command.entry, Some(Form::Block), b"ACME"), Some(b"ACME".as_slice()));
//! assert_eq!(rt; bit_name(device.bits(0x79), 0x79, 15), Some("VOUT"));
//! ```
#![tactic(auto)]

mod bits;
mod phases;
mod standard;
mod texts;

pub use bits::bit_name;
pub use phases::has_phases;
pub use standard::is_plain_standard;
pub use texts::text;
