//! JSON: its definition, and objects put into a line.
//!
//! An object is written at the end of bytes that the caller has, and takes no memory. [`begin`] and
//! [`end`] write its braces and the LF of its line; a function for each kind of value writes a
//! member: [`number_member`], [`number_text_member`], [`text_member`], [`hex_member`],
//! [`bool_member`], [`null_member`]. [`begin_array`], [`text_item`] and [`end_array`] write one
//! whose value is an array of texts. What is written has blanks in strings alone, and is printable
//! ASCII: in a string, each other byte is `\u00` and its two digits, and so are `"` and `\`.
//!
//! Each says how many bytes it may need, for which the caller makes room, and what it appends: the
//! text of that member in that [`ItemOrder`]. By the [`laws`], such texts one after the other are the
//! text of the whole list, and between braces they are JSON as RFC 8259 defines it.
//!
//! ```rust
//! let mut out = ArrayVec::<u8, 256>::new();
//! begin(&mut out);
//! number_member(&mut out, ItemOrder::First, "at", 12);
//! hex_member(&mut out, ItemOrder::Later, "device", &[0x58]);
//! begin_array(&mut out, ItemOrder::Later, "bits");
//! text_item(&mut out, ItemOrder::First, b"VOUT");
//! text_item(&mut out, ItemOrder::Later, b"OFF");
//! end_array(&mut out);
//! end(&mut out);
//! let line = b"{\"at\":12,\"device\":\"58\",\"bits\":[\"VOUT\",\"OFF\"]}\n";
//! assert_eq!(rt; out.as_slice(), &line[..]);
//! ```
#![tactic(auto)]

mod hex_digits;
mod item_order;
pub mod laws;
mod line;
mod member;
mod number;
mod text;

pub use item_order::ItemOrder;
pub use line::{begin, end};
pub use member::{
    ARRAY_MEMBER, BOOL_MEMBER, KEY, NULL_MEMBER, NUMBER_MEMBER, TEXT_ITEM, TEXT_MEMBER,
    begin_array, bool_member, end_array, hex_member, null_member, number_member,
    number_text_member, text_item, text_member,
};
