//! The bytes of one leg of a packet, one at a time.
//!
//! A [`WrittenLeg`] is asked after the address of a device which bytes may come and which may be
//! taken, and says at each place whether those taken are the body of a write, a read or a call, and
//! what it says. An [`Answer`] is asked the same of what a device replies to a read or a call, or
//! at the Alert Response Address.
//!
//! ```rust
//! let mut leg = WrittenLeg::new(device, LegPlace::First);
//! assert!(rt; leg.take(0x88));
//! assert!(rt; leg.asked().is_some());
//! let mut answer = Answer::at_alert();
//! leg.ask(&mut answer);
//! assert!(rt; answer.begins(0xd3));
//! ```
#![tactic(auto)]

mod answer;
mod content;
mod left;
mod place;
mod written_leg;

pub use answer::Answer;
pub use content::{Asked, ReplyContent, WriteContent};
pub use place::LegPlace;
pub use written_leg::WrittenLeg;
