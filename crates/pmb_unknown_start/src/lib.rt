//! What is known of PAGE, VOUT_MODE and PHASE of each device where a capture begins in the middle.
//!
//! A [`Late`] follows the transactions on a bus as a `pmb_note::Context` does. Where that takes PAGE
//! and VOUT_MODE for their first values, they are unknown here until the transactions tell them. What
//! is known holds for each VOUT_MODE and each PAGE that a device can have where the capture begins: one
//! of its pages, or ffh. [`Start`] says what is known at first. With each start, [`Late::is_assumed`]
//! says whether VOUT_MODE is assumed: it would not be known, had the capture begun in the middle.
//! PHASE is known with each start only once it was told ([`Late::phase`]). A line that was dropped
//! ([`Late::drop_line`]) may have set each of them.
//!
//! ```rust
//! let profile = Profile::from_toml(rt.alloc(), SAMPLE.as_bytes())?;
//! let mut late = Late::new(&profile, Start::Late);
//! assert_eq!(rt; late.mode(0x59), KnownMode::Unknown);
//! late.observe(&parse_line(&profile, b"write 59 20 14")?);
//! assert_eq!(rt; late.mode(0x59), KnownMode::Known(0x14));
//! assert_eq!(rt; late.page(0x59), None);
//! assert!(rt; !late.is_assumed(0x59));
//! ```
#![tactic(auto)]

mod kept;
mod known;
mod late;
pub mod laws;
mod mode;
mod restores;
mod start;
mod taken;

pub use late::Late;
pub use mode::KnownMode;
pub use start::Start;
