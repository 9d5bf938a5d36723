//! One I2C message to a bus of simulated devices, with the flags of Linux, and the events of it.
//!
//! [`send`] tests a [`Message`], sends it and returns how many bytes it wrote or read. The [`Tape`] has the
//! events that were on the wire. It has memory for those of the longest message, so none is refused once a
//! message is sent.
//!
//! ```rust
//! let mut bus = Bus::new(rt.alloc(), &profile)?;
//! let mut tape = Tape::new(rt.alloc())?;
//! let mut room = [0x88, 0];
//! let code = Message { address: 0x58, flags: 0, length: 1, end: MessageEnd::RepeatedStart };
//! assert_eq!(rt; send(&mut bus, code, &mut room, &mut tape), Ok(1));
//! let reply = Message { address: 0x58, flags: 1, length: 2, end: MessageEnd::Stop };
//! assert_eq!(rt; send(&mut bus, reply, &mut room, &mut tape), Ok(2));
//! assert_eq!(rt; room, [0x00, 0xd3]);
//! ```
#![tactic(auto)]

mod message;
mod tape;

pub use message::{Message, SendFault, send};
pub use pmb_i2c::MessageEnd;
pub use tape::Tape;
