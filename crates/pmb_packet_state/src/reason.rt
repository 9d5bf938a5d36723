//! Why an event may not come.
//!
//! Its rows: `tests_reader`, `src/reader/rows.rt` and `src/plain`; `tests/rows/captures.txt`.

ghost use Rattle.std.specs.Prelude.{◌≡◌, List};
ghost use Rattle.pmb_bus.specs.declared.event.Event.{Event as BusEvent};
ghost use Rattle.pmb_command.specs.Parts.{DeviceParts};
ghost use Rattle.pmb_transaction.specs.Reason.{AckReason, ByteReason, FollowsAlone, IsReason, SomeByteMayFollow};
ghost use Rattle.pmb_packet_state.specs.PacketState.{StandsIn};

use crate::packet_state::{PacketPlace, PacketState};
use pmb_bus::laws::kinds_are_told_by_events;
use pmb_bus::{Event, Kinds};
use pmb_transaction::Reason;
use pmb_transaction::laws::{
    alerts_may_be_taken, events_take_turns, packets_begin_with_start, reads_may_be_taken,
    refused_events_have_a_reason,
};

/// The bits of the set of ACK alone, and of NACK alone.
const ACK_ALONE: u8 = 4;

const NACK_ALONE: u8 = 8;

impl<'p> PacketState<'p> {
    /// Why no packet can have this event here.
    pub fn reason(&self, event: Event) -> Reason
        ensures { (profile : List DeviceParts) (events : List BusEvent) → StandsIn profile self.now events
            → IsReason profile events event result }
    {
        match event {
            Event::Byte(byte) => self.reason_of_byte(byte),
            Event::Ack => self.reason_of_ack(),
            Event::Nack => self.reason_of_nack(),
            Event::Start => Reason::WrongEvent,
            Event::Stop => Reason::WrongEvent,
        }
    }

    fn reason_of_byte(&self, byte: u8) -> Reason
        ensures { (profile : List DeviceParts) (events : List BusEvent) → StandsIn profile self.now events
            → IsReason profile events (BusEvent.Byte byte) result }
    {
        if self.expected().contains(Kinds::BYTE) {
            self.byte_reason()
        } else {
            Reason::WrongEvent
        }
    }

    fn reason_of_ack(&self) -> Reason
        ensures { (profile : List DeviceParts) (events : List BusEvent) → StandsIn profile self.now events
            → IsReason profile events BusEvent.Ack result }
    {
        kinds_are_told_by_events();
        let kinds = self.expected();
        if kinds.bits() == NACK_ALONE {
            self.ack_reason()
        } else {
            Reason::WrongEvent
        }
    }

    fn reason_of_nack(&self) -> Reason
        ensures { (profile : List DeviceParts) (events : List BusEvent) → StandsIn profile self.now events
            → IsReason profile events BusEvent.Nack result }
    {
        kinds_are_told_by_events();
        refused_events_have_a_reason();
        let kinds = self.expected();
        if kinds.bits() == ACK_ALONE {
            // After any byte but those of an answer NACK may follow.
            Reason::TooShort
        } else {
            Reason::WrongEvent
        }
    }

    // Why a byte may not come where another may.
    fn byte_reason(&self) -> Reason
        ensures { (profile : List DeviceParts) (events : List BusEvent) → StandsIn profile self.now events
            → SomeByteMayFollow profile events → ByteReason events result }
    {
        packets_begin_with_start();
        refused_events_have_a_reason();
        match self.place {
            PacketPlace::Between | PacketPlace::Start => Reason::ReadFirst,
            PacketPlace::Restart => Reason::BadRestart,
            PacketPlace::Address(_)
            | PacketPlace::Leg
            | PacketPlace::LegByte(_)
            | PacketPlace::ReadAddress(_)
            | PacketPlace::Answer(_)
            | PacketPlace::AnswerByte(_)
            | PacketPlace::End => Reason::BadPec,
        }
    }

    // Why ACK may not come where NACK alone may.
    fn ack_reason(&self) -> Reason
        ensures { (profile : List DeviceParts) (events : List BusEvent) → StandsIn profile self.now events
            → FollowsAlone profile events BusEvent.Nack → AckReason events result }
    {
        packets_begin_with_start();
        events_take_turns();
        reads_may_be_taken();
        alerts_may_be_taken();
        match self.place {
            PacketPlace::Address(_) => Reason::UnknownDevice,
            PacketPlace::LegByte(byte) => self.taken_reason(byte),
            PacketPlace::AnswerByte(_) => Reason::TooLong,
            PacketPlace::Between
            | PacketPlace::Start
            | PacketPlace::Leg
            | PacketPlace::Restart
            | PacketPlace::ReadAddress(_)
            | PacketPlace::Answer(_)
            | PacketPlace::End => Reason::WrongEvent,
        }
    }

    // Why a byte of a written leg may not be taken.
    fn taken_reason(&self, byte: u8) -> Reason
        ensures { (profile : List DeviceParts) (events : List BusEvent) → self.now.place ≡ PacketPlace.LegByte byte
            → StandsIn profile self.now events → AckReason events result }
    {
        let Some(leg) = &self.leg else {
            return Reason::BadPec;
        };
        if leg.bytes().len() > 0 {
            Reason::BadPec
        } else {
            Reason::UnknownCommand
        }
    }
}
