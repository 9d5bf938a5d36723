//! I2C messages to a bus of simulated devices.
//!
//! A message is what Linux's `struct i2c_msg` has: START, an address of seven bits with a direction, and
//! bytes that are written or read. [`write`], [`read`] and [`read_length`] give its signals to a
//! [`Bus`](pmb_devices::Bus), one after the other, and tell a [`Listener`] what is on the wire of them: a
//! byte that no device gives is ffh there, as the host reads it. A transfer is some messages, each but the
//! last with [`MessageEnd::RepeatedStart`].
//!
//! ```rust
//! let mut bus = Bus::new(rt.alloc(), &profile)?;
//! let mut reply = [0; 2];
//! write(&mut bus, 0x58, &[0x88], MessageEnd::RepeatedStart, &mut log)?;
//! read(&mut bus, 0x58, &mut reply, MessageEnd::Stop, &mut log)?;
//! ```
#![tactic(auto)]

mod listener;
mod message;
mod signals;

pub use listener::Listener;
pub use message::{MessageEnd, MessageFault, read, read_length, write};
