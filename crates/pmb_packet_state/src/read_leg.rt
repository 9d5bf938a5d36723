//! An event more, at the places of a leg that is read, and after NACK.
//!
//! Its rows: `tests_reader`, `src/reader/rows.rt` and `src/plain`; `tests/rows/captures.txt`.

ghost use Rattle.std.specs.Prelude.{◌≡◌};
ghost use Rattle.pmb_bus.specs.declared.event.Event.{Event as BusEvent};
ghost use Rattle.pmb_packet_state.specs.machine.PacketState.{StepsAt};

use crate::legs::is_asking;
use crate::packet_state::{Answerer, Move, PacketPlace, PacketState};
use pmb_bus::Event;
use pmb_leg::Asked;
use pmb_transaction::laws::{
    alerts_are_packets, alerts_end, alerts_go_on, alerts_may_be_refused, alerts_may_be_taken,
    bytes_alone_follow_in_an_answer, bytes_follow_in_a_reply, bytes_follow_in_an_alert,
    calls_are_packets, reads_are_packets, reads_may_be_refused, reads_may_be_taken,
    refused_reads_are_packets, replies_end, replies_go_on,
};

impl<'p> PacketState<'p> {
    /// After the address byte of a leg that is read.
    pub(crate) fn behind_read_address(&mut self, source: Answerer, event: Event) -> Move
        ensures { StepsAt (PacketPlace.ReadAddress source) self.old event result self.new }
    {
        match event {
            Event::Ack => match source {
                Answerer::Device => self.read_device_on(),
                Answerer::Alert => self.read_alert_on(),
            },
            Event::Nack => match source {
                Answerer::Device => self.refuse_read(),
                Answerer::Alert => self.refuse_alert(),
            },
            Event::Start | Event::Byte(_) | Event::Stop => Move::Refused,
        }
    }

    // The device that was asked answers.
    #[inline(never)]
    fn read_device_on(&mut self) -> Move
        ensures { StepsAt (PacketPlace.ReadAddress Answerer.Device) self.old BusEvent.Ack result self.new }
    {
        reads_may_be_taken();
        let Some(leg) = &self.leg else {
            return Move::Refused;
        };
        if !is_asking(leg) {
            return Move::Refused;
        }
        leg.ask(&mut self.answer);
        self.place = PacketPlace::Answer(Answerer::Device);
        Move::On
    }

    // Some device answers at the Alert Response Address.
    #[inline(never)]
    fn read_alert_on(&mut self) -> Move
        ensures { StepsAt (PacketPlace.ReadAddress Answerer.Alert) self.old BusEvent.Ack result self.new }
    {
        alerts_may_be_taken();
        self.answer.restart_at_alert();
        self.place = PacketPlace::Answer(Answerer::Alert);
        Move::On
    }

    // The device that was asked refuses to be read.
    #[inline(never)]
    fn refuse_read(&mut self) -> Move
        ensures { StepsAt (PacketPlace.ReadAddress Answerer.Device) self.old BusEvent.Nack result self.new }
    {
        reads_may_be_refused();
        refused_reads_are_packets();
        let Some(leg) = &self.leg else {
            return Move::Refused;
        };
        if self.kept.part_count() > 0 {
            return Move::Refused;
        }
        self.kept
            .end_refused(leg.address(), leg.bytes(), None, true);
        self.place = PacketPlace::End;
        Move::On
    }

    // No device answers at the Alert Response Address.
    #[inline(never)]
    fn refuse_alert(&mut self) -> Move
        ensures { StepsAt (PacketPlace.ReadAddress Answerer.Alert) self.old BusEvent.Nack result self.new }
    {
        alerts_may_be_refused();
        self.kept.end_no_alert();
        self.place = PacketPlace::End;
        Move::On
    }

    /// In a leg that is read, after ACK.
    #[inline(always)]
    pub(crate) fn in_answer(&mut self, source: Answerer, event: Event) -> Move
        ensures { StepsAt (PacketPlace.Answer source) self.old event result self.new }
    {
        bytes_alone_follow_in_an_answer();
        bytes_follow_in_a_reply();
        bytes_follow_in_an_alert();
        let Event::Byte(byte) = event else {
            return Move::Refused;
        };
        if !self.answer.begins(byte) {
            return Move::Refused;
        }
        self.answer.take(byte);
        self.place = PacketPlace::AnswerByte(source);
        Move::On
    }

    /// In a leg that is read, after a byte.
    #[inline]
    pub(crate) fn behind_answer_byte(&mut self, source: Answerer, event: Event) -> Move
        ensures { StepsAt (PacketPlace.AnswerByte source) self.old event result self.new }
    {
        match event {
            Event::Ack => self.answer_on(source),
            Event::Nack => match source {
                Answerer::Device => self.end_reply(),
                Answerer::Alert => self.end_alert(),
            },
            Event::Start | Event::Byte(_) | Event::Stop => Move::Refused,
        }
    }

    /// The answer continues.
    #[inline(always)]
    pub(crate) fn answer_on(&mut self, source: Answerer) -> Move
        ensures { StepsAt (PacketPlace.AnswerByte source) self.old BusEvent.Ack result self.new }
    {
        replies_go_on();
        alerts_go_on();
        if !self.answer.goes_on() {
            return Move::Refused;
        }
        self.place = PacketPlace::Answer(source);
        Move::On
    }

    // The reply of a device ends.
    #[inline(never)]
    fn end_reply(&mut self) -> Move
        ensures { StepsAt (PacketPlace.AnswerByte Answerer.Device) self.old BusEvent.Nack result self.new }
    {
        replies_end();
        alerts_end();
        reads_are_packets();
        calls_are_packets();
        let Some(reply) = self.answer.reply() else {
            return Move::Refused;
        };
        let Some(leg) = &self.leg else {
            return Move::Refused;
        };
        match leg.asked() {
            Some(Asked::Read { code }) => {
                self.kept
                    .end_read(leg.address(), code, reply.bytes, reply.pec);
                self.place = PacketPlace::End;
                Move::On
            }
            Some(Asked::Call { code, bytes }) => {
                self.kept
                    .end_call(leg.address(), code, bytes, reply.bytes, reply.pec);
                self.place = PacketPlace::End;
                Move::On
            }
            None => Move::Refused,
        }
    }

    // The answer at the Alert Response Address ends.
    #[inline(never)]
    fn end_alert(&mut self) -> Move
        ensures { StepsAt (PacketPlace.AnswerByte Answerer.Alert) self.old BusEvent.Nack result self.new }
    {
        replies_end();
        alerts_end();
        alerts_are_packets();
        let Some(reply) = self.answer.reply() else {
            return Move::Refused;
        };
        let Some(byte) = reply.bytes.first() else {
            return Move::Refused;
        };
        self.kept.end_alert(*byte, reply.pec);
        self.place = PacketPlace::End;
        Move::On
    }

    /// After NACK.
    #[inline]
    pub(crate) fn at_end(&mut self, event: Event) -> Move
        ensures { StepsAt PacketPlace.End self.old event result self.new }
    {
        let Event::Stop = event else {
            return Move::Refused;
        };
        self.place = PacketPlace::Between;
        Move::Packet
    }
}
