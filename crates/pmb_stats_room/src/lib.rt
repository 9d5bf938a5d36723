//! Room for what is kept of each command of a profile's devices, page by page and phase by
//! phase: the histories of the bits of a status register, and that of numbers.
//!
//! All memory is taken in [`Room::new`]. What is then seen of a [`Spot`](pmb_observed::Spot) is added to
//! what is kept there, however much comes; what is seen of a spot that the profile lacks changes
//! nothing.
//!
//! ```rust
//! let profile = Profile::from_toml(rt.alloc(), SAMPLE.as_bytes())?;
//! let mut room = Room::new(rt.alloc(), &profile)?;
//! let (page, phase) = (PageKey::OnPage(0), PhaseKey::Unphased);
//! let spot = Spot { addr: 0x58, code: 0x79, page, phase };
//! room.see_read(spot, 0x0040, Some(b"0.5"));
//! let bits = room.register(spot).ok_or("no register")?;
//! assert_eq!(rt; bits[6].count(), 1);
//! ```
#![tactic(auto)]

mod command_room;
mod device_room;
pub mod laws;
mod places;
mod register;
mod room;
mod sight;
mod slot;

pub use room::Room;
