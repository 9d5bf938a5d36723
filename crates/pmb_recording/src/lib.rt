//! What is common to all recordings of a bus: the packet under way, what is skipped behind a fault,
//! and what is told of what is missing.
//!
//! ```rust
//! let mut recording = Recording::new(None);
//! recording.next_line();
//! recording.follow(b"i2c-0");
//! recording.follow(b"i2c-1");
//! assert!(rt; recording.is_followed(b"i2c-0"));
//! ```
#![tactic(auto)]

mod fault;
mod line_content;
mod passed;
mod recording;
mod told;
mod wire_byte;

pub use fault::Fault;
pub use line_content::{MOST_LINE, content};
pub use passed::Kind;
pub use recording::{MOST_WIRE, PacketLines, Recording};
pub use wire_byte::WireByte;
