//! C functions that allocate nothing: numbers, error codes, names and events, over plain structs.
//!
//! There are the packet error code of more bytes ([`pec_after`]), every number format in both
//! directions ([`encode`], [`decode`]), quantities and their texts ([`parse`], [`quantity_text`]), the
//! names of commands and of status bits ([`command_name`], [`bit_name`]), and the events of a
//! capture's text ([`lex`], [`lex_end`]). The status of a call is a number, [`CallStatus`], that has a
//! name ([`status_name`]). No call has a premise on values: each checks what it is given. Other names are
//! put by [`put_name`].
//!
//! The lexer's state is a plain struct, [`PmbLexer`], that the caller holds. [`PmbLexer::feed`] goes up
//! to the end of the next event, and [`PmbLexer::finish`] takes the word that the text ends with. They
//! return what the `Lexer` of `pmb_bus` returns for the whole text, in pieces of any size.
//!
//! ```rust
//! let mut code = 0;
//! let linear11 = PmbFormat { kind: 0, exponent: 0, mode: 0, r: 0, m: 0, b: 0 };
//! let twelve = PmbQuantity { numerator: 12, denominator: 1 };
//! assert_eq!(rt; encode(&linear11, twelve, &mut code), 0);
//! assert_eq!(rt; code, 0xd300);
//!
//! let mut lexer = PmbLexer::new();
//! assert_eq!(rt; lexer.feed(b"S b"), Lexed { used: 2, step: Step::Event(Event::Start) });
//! assert_eq!(rt; lexer.feed(b"b"), Lexed { used: 1, step: Step::Need });
//! assert_eq!(rt; lexer.feed(b"0 "), Lexed { used: 2, step: Step::Event(Event::Byte(0xb0)) });
//! assert_eq!(rt; lexer.finish(), Ok(None));
//! ```
#![tactic(auto)]

mod call_status;
mod event;
mod format;
mod lexer;
mod name;
mod number;
mod pec;
mod quantity;
mod room;
mod text;

pub use call_status::CallStatus;
pub use event::{PmbEvent, lex, lex_end};
pub use format::PmbFormat;
pub use lexer::PmbLexer;
pub use name::{bit_name, command_name, put_name, status_name};
pub use number::{decode, encode, parse};
pub use pec::pec_after;
pub use quantity::PmbQuantity;
pub use text::quantity_text;
