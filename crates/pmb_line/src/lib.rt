//! Transactions as lines of text, both ways.
//!
//! A line is what a person writes of a transaction: `write 58 21 00 18 pec`. [`parse_line`] reads one
//! and answers its first fault with its place, [`line_of`] writes one. Under them stand two that copy
//! nothing large: [`LineReader`] and [`read_line`] read into transactions that are kept, and
//! [`append_line`] appends to a list of bytes.
//!
//! ```rust
//! let profile = Profile::from_toml(rt.alloc(), SAMPLE.as_bytes())?;
//! let set_vout = parse_line(&profile, b"write 58 21 00 18 pec # 12 V\r")?;
//! assert_eq!(rt; line_of(&set_vout).as_str(), "write 58 21 00 18 pec");
//! assert_eq!(rt; parse_line(&profile, b"write 58 2"), Err(LineFault::BadWord(9)));
//! assert_eq!(rt; word_at(b"write 58 21", 5), Some((6, 8)));
//! ```
#![tactic(auto)]

mod byte_text;
mod front_word;
pub mod laws;
mod line_fault;
mod line_reader;
mod line_text;
mod parts;
mod pieces;
mod refused;
mod reply;
mod token;
mod whole_line;
mod word_fault;
mod words;

pub use line_fault::{FaultText, LineFault};
pub use line_reader::LineReader;
pub use line_text::{Line, append_line, line_of};
pub use token::{Token, token_of};
pub use whole_line::{parse_line, read_line, read_words};
pub use word_fault::WordFault;
pub use words::{TextWord, Words, word_at};
