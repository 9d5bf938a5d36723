//! What the fields of a command's data say.
//!
//! For some of the standard's commands (PMBus Part II 1.3) the bytes have fields: whether OPERATION
//! turns the output on, how often a response to a fault retries, which exponent VOUT_MODE has.
//! [`fields`] tells them by the command's code and a [`Payload`], which is how the data go, and the
//! bytes. [`says_member`] appends those of a device's command to an object of `pmb_json_text`, as
//! the object `says`, and [`says_words`] appends them to a line for people; both only where the
//! command is the standard's and its data are bytes. The page `docs/meaning.md` has the tables.
//!
//! ```rust
//! let profile = Profile::from_toml(rt.alloc(), SAMPLE.as_bytes())?;
//! let device = profile.device(0x58).ok_or("no device")?;
//! let entry = device.entry(0x20).ok_or("no command")?;
//! let payload = Payload::Written(&[0x17]);
//! let mut out = ArrayVec::<u8, SAYS_MEMBER>::new();
//! says_member(&mut out, device, entry, &payload);
//! let member = b",\"says\":{\"relative\":false,\"mode\":\"linear\",\"exponent\":-9}";
//! assert_eq!(rt; out.as_slice(), &member[..]);
//! out.clear();
//! says_words(&mut out, device, entry, &payload);
//! assert_eq!(rt; out.as_slice(), b"relative false, mode linear, exponent -9");
//! ```
#![tactic(auto)]

mod bits;
mod command;
mod field;
pub mod laws;
mod layout;
mod member;
mod names;
mod payload;
mod rows;
mod tables;
mod text;
mod words;

pub use command::fields;
pub use field::{Field, Value};
pub use member::{SAYS_MEMBER, says_member};
pub use payload::Payload;
pub use words::{SAYS_WORDS, says_words};
