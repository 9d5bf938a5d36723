//! The devices of a bus, as a TOML profile describes them.
//!
//! [`Profile::from_toml`] reads a profile or answers the first fault in it with its place. What it
//! tested, a [`Profile`] keeps: `laws::accepted_bus` tells it of each. The commands of PMBus and the
//! names of their status bits are those of `pmb_command`. A [`BusProfile`] is a profile with the
//! addresses that it ignores.
//!
//! ```rust
//! let profile = Profile::from_toml(rt.alloc(), SAMPLE.as_bytes())?;
//! let device = profile.device(0x58).ok_or("no device")?;
//! assert_eq!(rt; device.pec(), PecMode::Optional);
//! let entry = device.entry(0x88).ok_or("no command")?;
//! assert_eq!(rt; entry.name.as_str(), "READ_VIN");
//! assert_eq!(rt; device.initial(0x88, 0), Some(b"\x00\xd3".as_slice()));
//! ```
#![tactic(auto)]

mod bus_profile;
mod command_map;
mod device_commands;
mod device_profile;
mod device_reader;
mod document;
mod fault;
pub mod laws;
mod modes;
mod place;
mod profile;
mod protection;
mod sample;
mod standard_commands;

pub use bus_profile::BusProfile;
pub use device_profile::DeviceProfile;
pub use fault::ProfileFault;
pub use pmb_command::{Entry, Form, Kind, PecMode, Shape, bit_name, by_name, standard};
pub use pmb_keys::{Addresses, Command, FaultKind, NamedBit};
pub use profile::Profile;
pub use sample::SAMPLE;
