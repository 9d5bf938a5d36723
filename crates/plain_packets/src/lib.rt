//! Packets by the rules in words, for tests to compare with: [`packet`] builds the events of a
//! transaction rule by rule, and [`is_viable`] finds by trying transactions whether events may go
//! on. Both are slow, and short enough to be believed: what writes and reads packets is compared
//! with them, and they, in `tests_packets`, with events that were written by hand.
#![tactic(auto)]

mod captures;
mod legs;
mod packets;
mod random;
mod texts;
mod viability;

pub use captures::{CapturedRow, LONG, PACKETS, REFUSALS};
pub use legs::{
    Body, NoPacket, allowed, data_like, form_of, goes_on, is_leg, leg_like, plain_pec, push_wire,
    reply_form,
};
pub use packets::packet;
pub use random::Random;
pub use texts::{LONG_FORMS, SEVENTEEN_DEVICES, events, part, seventeen_devices};
pub use viability::{is_viable, kinds_after};
