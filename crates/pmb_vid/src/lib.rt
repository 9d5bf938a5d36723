//! VID tables as number formats: the voltages that suppliers of processors fix for the codes of
//! their regulators.
//!
//! A [`VidTable`] is a [`Format`](pmb_format::Format): a voltage is written as the nearest code, and
//! at a tie as the even one. A code without a voltage, as the one that is off, is never written.
//!
//! ```rust
//! let wanted = Quantity::new(1, 1)?;
//! assert_eq!(rt; VidTable::Vr12.encode(&wanted, &mut Steps::new()), Ok(0x97));
//! assert_eq!(rt; VidTable::named("vr12"), Some(VidTable::Vr12));
//! ```
#![tactic(auto)]

pub mod laws;
mod table;

pub use table::VidTable;
