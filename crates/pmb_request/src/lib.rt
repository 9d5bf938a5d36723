//! Requests: what a host is asked to do, and the lines of text that spell them.
//!
//! [`parse_request`] reads a line, and answers its first fault with its place. All words of a line are
//! judged before its quantity. Lines of requests are made of the words of the lines of transactions:
//!
//! ```text
//! write PART { + PART }                   PART = ADDR CODE {BYTE} [pec]
//! read ADDR CODE [pec]
//! call ADDR CODE {BYTE} [pec]
//! set ADDR CODE QUANTITY [pec]
//! get ADDR CODE [pec]
//! ```
//!
//! ```rust
//! let profile = Profile::from_toml(rt.alloc(), SAMPLE.as_bytes())?;
//! let context = Context::new(&profile);
//! let twelve_volts = parse_request(&context, b"set 58 21 12 pec # 12 V\r");
//! assert!(rt; matches!(twelve_volts, Ok(Request::Set { addr: 0x58, mode: Some(0x17), pec: true, .. })));
//! let no_quantity = parse_request(&context, b"set 58 21 pec");
//! assert!(rt; matches!(no_quantity, Err(RequestFault::Quantity(QuantityFault::BadDigit))));
//! let bad_word = parse_request(&context, b"set 58 21 x y");
//! assert!(rt; matches!(bad_word, Err(RequestFault::Line(LineFault::BadWord(12)))));
//! ```
#![tactic(auto)]

mod command_words;
pub mod laws;
mod request;
mod request_fault;
mod request_line;
mod verb;

pub use request::Request;
pub use request_fault::RequestFault;
pub use request_line::parse_request;
