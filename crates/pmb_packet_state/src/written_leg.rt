//! An event more, at the places of a leg that is written.
//!
//! Its rows: `tests_reader`, `src/reader/rows.rt` and `src/plain`; `tests/rows/captures.txt`.

ghost use Rattle.std.specs.Prelude.{◌≡◌, ◌<◌, ◌≤◌, ◌+◌, ◌*◌, ◌↔◌, IsTrue, true, false, List, ◌∷◌, length, nat_eq};
ghost use Rattle.std.specs.List.{list_any};
ghost use Rattle.pmb_bus.specs.declared.event.Event.{Event as BusEvent};
ghost use Rattle.pmb_transaction.specs.Packet.{addresses};
ghost use Rattle.pmb_leg.specs.Leg.{Written};
ghost use Rattle.pmb_packet_state.specs.machine.PacketState.{PushesLeg, SaysNoPart, StartsLeg, StepsAt};

use crate::legs::{MOST_BEFORE, is_asking, leg_may_follow, place_behind};
use crate::packet_state::{Answerer, Move, PacketPlace, PacketState};
use pmb_bus::{ALERT_ADDRESS, Event, read_address};
use pmb_leg::WrittenLeg;
use pmb_table::DeviceProfile;
use pmb_transaction::laws::{
    addresses_may_be_refused, addresses_taken_are_known, bytes_follow_inside_a_body,
    bytes_may_be_refused, bytes_taken_begin_a_body, first_addresses, later_addresses,
    legs_follow_whole_bodies, one_part_more, packets_begin_with_start,
    refused_addresses_are_packets, refused_bytes_are_packets, writes_are_packets,
    writes_end_with_stop,
};

impl<'p> PacketState<'p> {
    /// Between packets.
    #[inline]
    pub(crate) fn begin(&mut self, event: Event) -> Move
        ensures { StepsAt PacketPlace.Between self.old event result self.new }
    {
        packets_begin_with_start();
        let Event::Start = event else {
            return Move::Refused;
        };
        self.kept.begin();
        self.place = PacketPlace::Start;
        Move::On
    }

    /// After the first START.
    #[inline]
    pub(crate) fn at_start(&mut self, event: Event) -> Move
        ensures { StepsAt PacketPlace.Start self.old event result self.new }
    {
        first_addresses();
        let Event::Byte(byte) = event else {
            return Move::Refused;
        };
        if byte % 2 == 0 {
            self.place = PacketPlace::Address(byte / 2);
            Move::On
        } else if byte == read_address(ALERT_ADDRESS) {
            self.place = PacketPlace::ReadAddress(Answerer::Alert);
            Move::On
        } else {
            Move::Refused
        }
    }

    /// After the address byte of a write.
    #[inline]
    pub(crate) fn behind_address(&mut self, addr: u8, event: Event) -> Move
        ensures { StepsAt (PacketPlace.Address addr) self.old event result self.new }
    {
        match event {
            Event::Ack => self.take_address(addr),
            Event::Nack => self.refuse_address(addr),
            Event::Start | Event::Byte(_) | Event::Stop => Move::Refused,
        }
    }

    // An address is taken.
    #[inline(never)]
    fn take_address(&mut self, addr: u8) -> Move
        ensures { StepsAt (PacketPlace.Address addr) self.old BusEvent.Ack result self.new }
    {
        addresses_taken_are_known();
        let Some(device) = self.profile.device(addr) else {
            return Move::Refused;
        };
        self.start_leg(device);
        self.place = PacketPlace::Leg;
        Move::On
    }

    // Begins the leg of a device after the parts.
    fn start_leg(&mut self, device: &'p DeviceProfile)
        ensures { StartsLeg device.now self.old self.new }
    {
        let place = place_behind(self.kept.part_count());
        if let Some(leg) = &mut self.leg {
            leg.restart(device, place);
            return;
        }
        self.leg = Some(WrittenLeg::new(device, place));
    }

    // An address is refused.
    #[inline(never)]
    fn refuse_address(&mut self, addr: u8) -> Move
        ensures { StepsAt (PacketPlace.Address addr) self.old BusEvent.Nack result self.new }
    {
        addresses_may_be_refused();
        refused_addresses_are_packets();
        if self.kept.part_count() > MOST_BEFORE {
            return Move::Refused;
        }
        self.kept.end_refused(addr, &[], None, false);
        self.place = PacketPlace::End;
        Move::On
    }

    /// In a written leg, after ACK.
    #[inline]
    pub(crate) fn in_leg(&mut self, event: Event) -> Move
        ensures { StepsAt PacketPlace.Leg self.old event result self.new }
    {
        match event {
            Event::Byte(byte) => self.send_byte(byte),
            Event::Start => self.end_leg(),
            Event::Stop => self.end_write(),
            Event::Ack | Event::Nack => Move::Refused,
        }
    }

    /// A byte is sent.
    #[inline(always)]
    pub(crate) fn send_byte(&mut self, byte: u8) -> Move
        ensures { StepsAt PacketPlace.Leg self.old (BusEvent.Byte byte) result self.new }
    {
        bytes_follow_inside_a_body();
        let Some(leg) = &self.leg else {
            return Move::Refused;
        };
        if !leg.goes_on() {
            return Move::Refused;
        }
        self.place = PacketPlace::LegByte(byte);
        Move::On
    }

    // START after a leg.
    #[inline(never)]
    fn end_leg(&mut self) -> Move
        ensures { StepsAt PacketPlace.Leg self.old BusEvent.Start result self.new }
    {
        legs_follow_whole_bodies();
        let Some(leg) = &self.leg else {
            return Move::Refused;
        };
        if !leg_may_follow(leg, self.kept.part_count()) {
            return Move::Refused;
        }
        self.place = PacketPlace::Restart;
        Move::On
    }

    // STOP after a leg.
    #[inline(never)]
    fn end_write(&mut self) -> Move
        ensures { StepsAt PacketPlace.Leg self.old BusEvent.Stop result self.new }
    {
        writes_end_with_stop();
        writes_are_packets();
        if self.push_part() {
            self.kept.end_write();
            self.place = PacketPlace::Between;
            Move::Packet
        } else {
            Move::Refused
        }
    }

    // Adds the leg under way to the parts where it is one, and tells whether it was.
    fn push_part(&mut self) -> bool
        ensures pushed { result ≡ true → PushesLeg self.old self.new }
        ensures same { result ≡ false → self.new ≡ self.old }
        ensures none { result ≡ false → length self.old.kept.parts ≤ 15 → SaysNoPart self.old }
    {
        if self.kept.part_count() > MOST_BEFORE {
            return false;
        }
        let Some(leg) = &self.leg else {
            return false;
        };
        let Some(said) = leg.says() else {
            return false;
        };
        self.kept
            .push_part(leg.address(), said.code, said.bytes, said.pec);
        true
    }

    /// In a written leg, after a byte.
    #[inline]
    pub(crate) fn behind_leg_byte(&mut self, byte: u8, event: Event) -> Move
        ensures { StepsAt (PacketPlace.LegByte byte) self.old event result self.new }
    {
        match event {
            Event::Ack => self.take_byte(byte),
            Event::Nack => self.refuse_byte(byte),
            Event::Start | Event::Byte(_) | Event::Stop => Move::Refused,
        }
    }

    /// A byte is taken.
    #[inline(always)]
    pub(crate) fn take_byte(&mut self, byte: u8) -> Move
        ensures { StepsAt (PacketPlace.LegByte byte) self.old BusEvent.Ack result self.new }
    {
        bytes_taken_begin_a_body();
        let Some(leg) = &mut self.leg else {
            return Move::Refused;
        };
        if !leg.take(byte) {
            return Move::Refused;
        }
        self.place = PacketPlace::Leg;
        Move::On
    }

    // A byte is refused.
    #[inline(never)]
    fn refuse_byte(&mut self, byte: u8) -> Move
        ensures { StepsAt (PacketPlace.LegByte byte) self.old BusEvent.Nack result self.new }
    {
        bytes_may_be_refused();
        refused_bytes_are_packets();
        let Some(leg) = &self.leg else {
            return Move::Refused;
        };
        if self.kept.part_count() > MOST_BEFORE {
            return Move::Refused;
        }
        if leg.bytes().len() > 257 {
            return Move::Refused;
        }
        self.kept
            .end_refused(leg.address(), leg.bytes(), Some(byte), false);
        self.place = PacketPlace::End;
        Move::On
    }

    /// After a later START.
    pub(crate) fn at_restart(&mut self, event: Event) -> Move
        ensures { StepsAt PacketPlace.Restart self.old event result self.new }
    {
        match event {
            Event::Byte(byte) => {
                if byte % 2 == 0 {
                    self.begin_part(byte / 2)
                } else {
                    self.read_device(byte / 2)
                }
            }
            Event::Start | Event::Ack | Event::Nack | Event::Stop => Move::Refused,
        }
    }

    // The address byte of one more part.
    #[inline(never)]
    fn begin_part(&mut self, addr: u8) -> Move
        requires { addr < 128 }
        ensures { StepsAt PacketPlace.Restart self.old (BusEvent.Byte (2 * addr)) result self.new }
    {
        later_addresses();
        one_part_more();
        if self.kept.part_count() >= MOST_BEFORE {
            return Move::Refused;
        }
        if self.has_leg_to(addr) {
            return Move::Refused;
        }
        if !self.push_part() {
            return Move::Refused;
        }
        self.place = PacketPlace::Address(addr);
        Move::On
    }

    // Whether a part or the leg under way went to an address.
    fn has_leg_to(&self, addr: u8) -> bool
        ensures { (written : Written) → self.now.leg ≡ Some written
            → (result ≡ list_any (nat_eq addr) (written.device.address ∷ addresses self.now.kept.parts)) }
    {
        match &self.leg {
            Some(leg) => leg.address() == addr || self.kept.has_part_at(addr),
            None => false,
        }
    }

    // The address byte of the device that was asked.
    #[inline(never)]
    fn read_device(&mut self, addr: u8) -> Move
        requires { addr < 128 }
        ensures { StepsAt PacketPlace.Restart self.old (BusEvent.Byte (2 * addr + 1)) result self.new }
    {
        later_addresses();
        let Some(leg) = &self.leg else {
            return Move::Refused;
        };
        if leg.address() != addr {
            return Move::Refused;
        }
        if !is_asking(leg) {
            return Move::Refused;
        }
        self.place = PacketPlace::ReadAddress(Answerer::Device);
        Move::On
    }
}
