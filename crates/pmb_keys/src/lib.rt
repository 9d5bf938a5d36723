//! What the keys of a profile's TOML tables say, a rule a key, and the fault of each that is refused.
//!
//! [`read_device_keys`] reads the table of a device, [`read_command`] that of a command, and
//! [`read_ignored`] the addresses that a profile ignores. [`named_addresses`] are those that the tables
//! of its devices have. A key that a table may not have is refused by [`only`], and one that is missing
//! by [`present`].
//!
//! ```rust
//! let table = toml::table_from_str(rt.alloc(), "command = { name = 'READ_VIN' }")?;
//! let value = table.get("command").ok_or("no value")?;
//! let command = read_command(rt.alloc(), value, 1, &[])?;
//! assert_eq!(rt; command.entry.code, 0x88);
//! ```
#![tactic(auto)]

mod addresses;
mod base;
mod bits_key;
mod command;
mod command_keys;
mod device_keys;
mod device_name;
mod exponent_key;
mod fault;
mod further_keys;
mod initial;
mod initial_items;
mod kind_keys;
mod modes;
mod rules;
mod shape_keys;
mod unit_key;
mod unsigned_key;
mod vid;
mod words;

pub use addresses::{Addresses, named_addresses, read_ignored};
pub use command::{Command, Initial, NamedBit};
pub use command_keys::read_command;
pub use device_keys::{DeviceKeys, read_device_keys};
pub use fault::FaultKind;
pub use modes::Modes;
pub use rules::{array_of, only, present};
pub use vid::VidTables;
