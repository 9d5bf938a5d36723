//! What a line for people says of a command's data: numbers with their units, output voltages and by
//! which VOUT_MODE they are read, the set bits of status registers, texts, bytes and what they mean.
//!
//! [`append_data`] appends it to bytes that the caller has, and takes no memory. So do
//! [`append_call_meaning`] for process calls, and the functions for texts, bytes and columns, of which the
//! other parts of a line are made. [`device`], [`entry`], [`command`], [`page`] and [`phase`] are what a
//! [`Seen`](pmb_json_objects::Seen) knows of an address, and [`is_whole_write`] and [`is_whole_in`] tell
//! whether bytes are all the data of a command.
//!
//! ```rust
//! let profile = Profile::from_toml(rt.alloc(), SAMPLE.as_bytes())?;
//! let late = Late::new(&profile, Start::AllKnown);
//! let digits = Digits::new(4).ok_or("digits")?;
//! let seen = Seen { digits, profile: &profile, late: &late };
//! let mut out = ArrayVec::<u8, DATA>::new();
//! append_data(&mut out, &seen, Access::Read, 0x58, 0x88, &[0x00, 0xd3]);
//! assert_eq!(rt; out.as_slice(), b"12 V");
//! ```
#![tactic(auto)]

mod bits;
mod data;
mod ends;
mod meaning;
mod seen;
mod text;
mod voltage;
mod whole;

pub use data::{DATA, append_data};
pub use ends::{but_first, but_last, last_byte};
pub use meaning::{MEANING, append_call_meaning};
pub use seen::{command, device, entry, name_of, page, phase};
pub use text::{
    append, append_after, append_at_left, append_at_right, append_blank_and_byte, append_byte,
    append_bytes, append_escaped, append_number, append_optional_byte,
};
pub use whole::{is_whole_in, is_whole_write, leg_code, reply_form};
