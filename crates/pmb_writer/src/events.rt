//! The events of a transaction's packet, one after the other.
//!
//! Its rows: `tests_packets`, `src/writer/packets.rt` and `sizes.rt`.

ghost use Rattle.std.specs.Prelude.{◌≡◌};
ghost use Rattle.pmb_transaction.specs.Packet.{Packet};
ghost use Rattle.pmb_transaction.specs.Transaction.{transaction_data};
ghost use Rattle.pmb_writer.specs.Invalid.{HasPacket};
ghost use Rattle.std.specs.Iterator.{YieldsFirst, item_count};

use crate::course::Course;
use crate::legs::legs_of;
use pmb_bus::Event;
use pmb_bus::laws::{pec_goes_on, worked_pecs};
use pmb_table::Profile;
use pmb_table::laws::accepted_bus;
use pmb_transaction::Transaction;
use std::marker::Model;

/// The events of a packet that are left; see [`events_of`].
///
/// It refers to the profile and the transaction, and counts on from part to part and byte to byte;
/// of the bytes after it, it keeps the packet error code alone.
#[derive(Debug, Drop)]
pub struct Events<'a> {
    course: Course<'a>,
}

impl<'a> Model for Events<'a> {
    ghost use Rattle.std.specs.Prelude.{List};
    ghost use Rattle.pmb_bus.specs.declared.event.Event.{Event};
    ghost use Rattle.pmb_writer.specs.machine.Legs.{course_events};

    ghost Value = { List Event };

    ghost view = { λ e. course_events e.course };
}

impl<'a> Iterator for Events<'a> {
    type Item = Event;

    ghost next_gives = { YieldsFirst (λ left. left) };

    ghost remaining = { item_count (λ left. left) };

    fn next(&mut self) -> Option<Event> {
        self.course.next_event()
    }
}

/// The events of a transaction's packet, from its first START to its STOP (SMBus 3.0 section 6.5;
/// PMBus Part I 1.3 section 5.2.3 for a group).
///
/// The transaction has to have one, as [`check`](crate::check) tells. No memory is taken.
pub fn events_of<'a>(profile: &'a Profile, transaction: &'a Transaction) -> Events<'a>
    requires { HasPacket profile.now (transaction_data transaction.now) }
    ensures { Packet profile.now (transaction_data transaction.now) result }
{
    accepted_bus(profile);
    pec_goes_on();
    worked_pecs();
    Events {
        course: Course::new(legs_of(profile, transaction)),
    }
}
