//! The kinds of the events that may come.
//!
//! Its rows: `tests_reader`, `src/reader/rows.rt` and `src/plain`; `tests/rows/captures.txt`.

ghost use Rattle.std.specs.Prelude.{◌≡◌, ◌<◌, false, List};
ghost use Rattle.pmb_bus.specs.declared.event.Event.{Event as BusEvent};
ghost use Rattle.pmb_bus.specs.Kinds.{AreKindsOf, bits, holds};
ghost use Rattle.pmb_command.specs.Parts.{DeviceParts};
ghost use Rattle.pmb_transaction.specs.Capture.{MayFollow};
ghost use Rattle.pmb_packet_state.specs.PacketState.{StandsIn};
ghost use Rattle.pmb_packet_state.specs.machine.PacketState.{ExpectsAt};

use crate::legs::{is_part, leg_may_follow};
use crate::packet_state::{Answerer, PacketPlace, PacketState};
use pmb_bus::Kinds;
use pmb_transaction::laws::{
    addresses_may_be_refused, addresses_taken_are_known, alerts_end, alerts_go_on,
    alerts_may_be_refused, alerts_may_be_taken, bytes_alone_follow_in_an_answer,
    bytes_follow_inside_a_body, bytes_may_be_refused, bytes_taken_begin_a_body, events_take_turns,
    legs_follow_whole_bodies, packets_begin_with_start, reads_may_be_refused, reads_may_be_taken,
    replies_end, replies_go_on, something_follows, writes_end_with_stop,
};

// These kinds of answers.
fn answers(ack: bool, nack: bool) -> Kinds
    ensures known { bits result < 32 }
    ensures ack { holds result BusEvent.Ack ≡ ack }
    ensures nack { holds result BusEvent.Nack ≡ nack }
    ensures start { holds result BusEvent.Start ≡ false }
    ensures byte { holds result (BusEvent.Byte 0) ≡ false }
    ensures stop { holds result BusEvent.Stop ≡ false }
{
    match (ack, nack) {
        (true, true) => Kinds::ACK.union(Kinds::NACK),
        (true, false) => Kinds::ACK,
        (false, true) => Kinds::NACK,
        (false, false) => Kinds::empty(),
    }
}

// These kinds of events that are no answers.
fn no_answers(start: bool, byte: bool, stop: bool) -> Kinds
    ensures known { bits result < 32 }
    ensures start { holds result BusEvent.Start ≡ start }
    ensures byte { holds result (BusEvent.Byte 0) ≡ byte }
    ensures stop { holds result BusEvent.Stop ≡ stop }
    ensures ack { holds result BusEvent.Ack ≡ false }
    ensures nack { holds result BusEvent.Nack ≡ false }
{
    match (start, byte, stop) {
        (true, true, true) => Kinds::START.union(Kinds::BYTE).union(Kinds::STOP),
        (true, true, false) => Kinds::START.union(Kinds::BYTE),
        (true, false, true) => Kinds::START.union(Kinds::STOP),
        (true, false, false) => Kinds::START,
        (false, true, true) => Kinds::BYTE.union(Kinds::STOP),
        (false, true, false) => Kinds::BYTE,
        (false, false, true) => Kinds::STOP,
        (false, false, false) => Kinds::empty(),
    }
}

impl<'p> PacketState<'p> {
    /// The kinds of the events that some packet can have here.
    pub fn expected(&self) -> Kinds
        ensures { (profile : List DeviceParts) (events : List BusEvent) → StandsIn profile self.now events
            → AreKindsOf (MayFollow profile events) result }
    {
        packets_begin_with_start();
        events_take_turns();
        bytes_alone_follow_in_an_answer();
        something_follows();
        match self.place {
            PacketPlace::Between => Kinds::START,
            PacketPlace::Start | PacketPlace::Restart | PacketPlace::Answer(_) => Kinds::BYTE,
            PacketPlace::Address(addr) => self.expected_at_address(addr),
            PacketPlace::Leg => self.expected_in_leg(),
            PacketPlace::LegByte(byte) => self.expected_behind_byte(byte),
            PacketPlace::ReadAddress(source) => self.expected_at_read_address(source),
            PacketPlace::AnswerByte(source) => self.expected_behind_answer_byte(source),
            PacketPlace::End => Kinds::STOP,
        }
    }

    // After the address byte of a leg that is read.
    fn expected_at_read_address(&self, source: Answerer) -> Kinds
        ensures { ExpectsAt (PacketPlace.ReadAddress source) self.now result }
    {
        events_take_turns();
        reads_may_be_taken();
        alerts_may_be_taken();
        reads_may_be_refused();
        alerts_may_be_refused();
        answers(true, true)
    }

    // In a leg that is read, after a byte.
    fn expected_behind_answer_byte(&self, source: Answerer) -> Kinds
        ensures { ExpectsAt (PacketPlace.AnswerByte source) self.now result }
    {
        events_take_turns();
        replies_go_on();
        alerts_go_on();
        replies_end();
        alerts_end();
        answers(self.answer.goes_on(), self.answer.is_whole())
    }

    // After the address byte of a write.
    fn expected_at_address(&self, addr: u8) -> Kinds
        ensures { ExpectsAt (PacketPlace.Address addr) self.now result }
    {
        events_take_turns();
        addresses_may_be_refused();
        addresses_taken_are_known();
        answers(self.profile.device(addr).is_some(), true)
    }

    // In a written leg, after ACK.
    fn expected_in_leg(&self) -> Kinds
        ensures { ExpectsAt PacketPlace.Leg self.now result }
    {
        let Some(leg) = &self.leg else {
            return Kinds::empty();
        };
        events_take_turns();
        legs_follow_whole_bodies();
        bytes_follow_inside_a_body();
        writes_end_with_stop();
        no_answers(
            leg_may_follow(leg, self.kept.part_count()),
            leg.goes_on(),
            is_part(leg),
        )
    }

    // In a written leg, after a byte.
    fn expected_behind_byte(&self, byte: u8) -> Kinds
        ensures { ExpectsAt (PacketPlace.LegByte byte) self.now result }
    {
        let Some(leg) = &self.leg else {
            return Kinds::empty();
        };
        events_take_turns();
        bytes_may_be_refused();
        bytes_taken_begin_a_body();
        answers(leg.begins(byte), true)
    }
}
