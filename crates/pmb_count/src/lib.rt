//! Packets and refusals of a capture, counted.
//!
//! The whole of a capture is given at once, event by event ([`count`]), or in pieces, cut anywhere
//! ([`Counter`]), and reading continues after each refusal. What is counted is what the capture reads as, with
//! a packet that is truncated at its end among the refusals. In the capture of transactions nothing
//! is refused.
//!
//! ```rust
//! let profile = Profile::from_toml(rt.alloc(), SAMPLE.as_bytes())?;
//! let refused_address = [Event::Start, Event::Byte(0x40), Event::Nack, Event::Stop];
//! assert_eq!(rt; count(&profile, &refused_address), CaptureCounts { packets: 1, refusals: 0 });
//! ```
#![tactic(auto)]

mod capture_counts;
pub mod laws;
mod one;
mod pieces;

pub use capture_counts::{CaptureCounts, count};
pub use pieces::Counter;
