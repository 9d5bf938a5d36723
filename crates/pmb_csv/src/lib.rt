//! Lines of comma-separated values.
//!
//! A field may stand in quotes, and then has commas and doubled quotes. A quote inside a field that
//! begins with none is a byte of it. A record ends with its line.
//!
//! ```rust
//! let mut fields = Fields::of(b"I2C,\"0x58, ACK\"");
//! let Next::Field(name) = fields.next_field() else { return };
//! assert_eq!(rt; name.raw, b"I2C".as_slice());
//! let Next::Field(note) = fields.next_field() else { return };
//! assert_eq!(rt; note.raw, b"0x58, ACK".as_slice());
//! assert!(rt; note.is_quoted);
//! ```
#![tactic(auto)]

mod columns;
mod fields;

pub use columns::{
    Column, count_fields, field_at, find_column, needed_column, optional_column, value_at,
};
pub use fields::{Field, Fields, Next};
