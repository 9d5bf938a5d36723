//! Words of a VCD, the format of simulators and of many analysers.
//!
//! ```rust
//! assert_eq!(rt; first_word(b"\t#25 1!"), Some((b"#25".as_slice(), b" 1!".as_slice())));
//! assert_eq!(rt; read_token(b"#25"), Token::Time(25));
//! assert_eq!(rt; read_token(b"z!"), Token::Level(Level::High, b"!"));
//! assert_eq!(rt; timescale(b"100ps"), Some(100_000));
//! ```
#![tactic(auto)]

mod body;
mod time_unit;
mod token;
mod words;

pub use body::{Body, Heard, Id, MOST_ID, Why};
pub use time_unit::timescale;
pub use token::{Section, Token, Value, read_token};
pub use words::first_word;
