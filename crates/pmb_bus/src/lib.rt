//! Bus events, their capture text, sets of their kinds, packet error codes, and address bytes.
//!
//! A capture of PMBus traffic is a list of [`Event`]s: START, a byte, ACK, NACK, STOP. As text each
//! of them is a word. [`Lexer`] reads that text in pieces of any size and answers each event as
//! soon as its word has ended; [`event_text`] writes it. [`Kinds`] is a set of kinds of events.
//! Packets may end in a packet error code over their bytes: [`pec_of`] gives it, [`pec_next`] a
//! byte at a time. [`write_address`] and [`read_address`] give the bytes that address a device.
//!
//! ```rust
//! let mut lexer = Lexer::new();
//! let lexed = lexer.feed(b"S b0 ");
//! assert_eq!(rt; lexed, Lexed { used: 2, step: Step::Event(Event::Start) });
//! let lexed = lexer.feed(b"b0 ");
//! assert_eq!(rt; lexed, Lexed { used: 3, step: Step::Event(Event::Byte(0xb0)) });
//! assert_eq!(rt; event_text(Event::Byte(0xb0)).as_str(), "b0 ");
//! assert!(rt; Kinds::all().contains(Kinds::of(Event::Byte(0xb0))));
//! assert_eq!(rt; pec_of(&[0xb0, 0x03]), 0x46);
//! assert_eq!(rt; pec_next(pec_of(&[0xb0]), 0x03), 0x46);
//! assert_eq!(rt; write_address(0x58), 0xb0);
//! assert_eq!(rt; read_address(ALERT_ADDRESS), 0x19);
//! ```
#![tactic(auto)]

mod address;
mod alphabet;
mod event;
mod kinds;
pub mod laws;
mod lexer;
mod pec;

pub use address::{ALERT_ADDRESS, read_address, write_address};
pub use event::{Event, Token, event_text};
pub use kinds::Kinds;
pub use lexer::{LexFault, Lexed, Lexer, Step};
pub use pec::{pec_next, pec_of};
