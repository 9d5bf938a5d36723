//! The bus that a profile makes, as a text: its devices, and a table of the commands of each.
//!
//! [`describe`] writes it. What it is, `specs/Table.antt` says from the profile alone.
//!
//! ```rust
//! let profile = BusProfile::from_toml(rt.alloc(), b"[[device]]\naddress = 0x20\npec = \"off\"\nstandard = false\n")?;
//! let mut writer = Io::new(Vec::new(rt.alloc()));
//! describe(&profile, &mut writer)?;
//! let text = writer.into_inner();
//! assert!(rt; text.as_slice().starts_with(b"devices     1\n\ndevice      0\naddress     20, as a byte 40 to write"));
//! ```
#![tactic(auto)]

mod addresses;
mod bus;
mod bus_head;
mod command_row;
mod device_head;
mod device_text;
mod first_bytes;
mod meaning;
mod modes;
mod pages;
mod row;
mod vid;
mod words;

pub use bus::describe;
