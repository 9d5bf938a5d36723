//! What an object says of a command's data: the value of a number with its unit, why it has none, the
//! bits of a status register, or a text.
//!
//! [`data_members`] appends these members to an object of `pmb_json_text` that has some already. By the
//! command's kind they are `value` and `number`, the exact quantity as a text and the nearest number
//! with [`Digits`](pmb_decimal::Digits) digits after the point, or `ratio` for a factor of VOUT_COMMAND,
//! and `mode` where the VOUT_MODE of an output voltage is assumed ([`Basis`]); after a `value` and its
//! `number`, `unit`, where the command has one; or `raw` in their place, which says why a word can't be
//! read; or `bits`, the names of the bits that are set in a status register, `clears` where it is
//! written. A bit has the name that the profile gives it, or else the standard's. Data that are a text,
//! by `pmb_command_data`, are `text`. Data of another length than the kind has say nothing, and other
//! data of the kind `raw`.
//!
//! ```rust
//! let mut out = ArrayVec::<u8, 4096>::new();
//! let digits = Digits::new(2).ok_or("digits")?;
//! let voltages = Voltages {
//!     mode: KnownMode::Known(0x17),
//!     page: Some(0),
//!     coefficients: None,
//!     vid: None,
//! };
//! let command = Command::standard(standard(0x8b).ok_or("no command")?);
//! let (access, basis) = (Access::Read, Basis::Assumed);
//! data_members(&mut out, digits, access, &voltages, basis, &command, &[0xff, 0x01]);
//! let members = b",\"value\":\"0.998046875\",\"number\":1,\"mode\":\"assumed\",\"unit\":\"V\"";
//! assert_eq!(rt; out.as_slice(), &members[..]);
//! ```
#![tactic(auto)]

mod access;
mod basis;
mod bits;
mod data;
pub mod laws;
mod number;
mod raw;
mod text;
mod voltage;

pub use access::Access;
pub use basis::Basis;
pub use data::{DATA_MEMBERS, data_members};
