//! A packet under way, event by event.
//!
//! What is left of it is what answers the byte before, the bytes left of the leg, the legs to come
//! and STOP. Of the bytes that were written the packet error code alone is kept.
//!
//! Its rows: `tests_packets`, `src/writer/packets.rt` and `sizes.rt`.

ghost use Rattle.std.specs.Prelude.{◌≡◌, [], ◌∷◌, true, MatchOption};
ghost use Rattle.pmb_transaction.specs.Transaction.{transaction_data};
ghost use Rattle.pmb_writer.specs.machine.Legs.{course_events, legs_data, legs_events, legs_of, packet_events};

use crate::leg::Leg;
use crate::legs::LegsToCome;
use pmb_bus::Event;

/// What is left of a packet.
#[derive(Clone, Copy, Debug)]
pub(crate) struct Course<'a> {
    /// The answer to the byte that was written last, while it is to come.
    pub owed: Option<Event>,
    pub leg: Leg<'a>,
    /// The packet error code of the bytes so far.
    pub crc: u8,
    pub legs: LegsToCome<'a>,
    /// Whether STOP is to come.
    pub stop: bool,
}

impl<'a> Course<'a> {
    /// The packet of these legs.
    pub fn new(legs: LegsToCome<'a>) -> Self
        ensures { course_events result ≡ legs_events true 0 (legs_data legs.entry) }
    {
        Course {
            owed: None,
            leg: Leg::none(),
            crc: 0,
            legs,
            stop: true,
        }
    }

    /// Takes the next event.
    pub fn next_event(&mut self) -> Option<Event>
        ensures { MatchOption result ((course_events self.old ≡ []) × (course_events self.new ≡ [])) (λ event. course_events self.old ≡ event ∷ course_events self.new) }
    {
        if let Some(answer) = self.owed {
            self.owed = None;
            return Some(answer);
        }
        if let Some(byte) = self.leg.next_byte(&mut self.crc) {
            self.owed = Some(self.leg.answer());
            return Some(Event::Byte(byte));
        }
        if let Some(leg) = self.legs.take_leg() {
            self.crc = leg.code_before(self.crc);
            self.leg = leg;
            return Some(Event::Start);
        }
        if self.stop {
            self.stop = false;
            return Some(Event::Stop);
        }
        None
    }
}
