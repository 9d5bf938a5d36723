//! Device, bytes and error code of an unfinished packet.
//!
//! Its rows: `tests_packets`, `src/said/rows.rt`; `tests_json`, `src/object_lines/refusals.rt`.

ghost use Rattle.std.specs.Prelude.{◌≡◌, ◌≤◌, ◌++◌, ◌∷◌, [], List, IfSome, length, option_map};
ghost use Rattle.pmb_bus.specs.declared.event.Event.{Event as BusEvent};
ghost use Rattle.pmb_command.specs.Parts.{DeviceParts};
ghost use Rattle.pmb_transaction.specs.Capture.{Viable};
ghost use Rattle.pmb_partial_packet.specs.PartialPacket.{reply, right_pec, said_device, sent, written_to};
ghost use Rattle.pmb_partial_packet.specs.Standing.{SaidStandsAt};

use crate::laws::legs_are_short;
use crate::legs::{KeptLegs, LastLeg};
use pmb_bus::{ALERT_ADDRESS, Event, pec_next, read_address};
use pmb_transaction::Reason;

/// Device, bytes and error code of an unfinished packet. It stands at the events that it was given
/// since it was made, or since [`begin`](PartialPacket::begin).
#[derive(Drop)]
pub struct PartialPacket {
    legs: KeptLegs,
    /// The packet error code of all bytes.
    all: u8,
    /// That of the bytes of the last leg.
    leg: u8,
    /// The same without the last byte.
    before: u8,
}

impl PartialPacket {
    /// Nothing was said.
    pub fn new() -> PartialPacket
        ensures { SaidStandsAt result [] }
    {
        PartialPacket {
            legs: KeptLegs::new(),
            all: 0,
            leg: 0,
            before: 0,
        }
    }

    /// Forgets what was said. The next packet begins.
    #[inline]
    pub fn begin(&mut self)
        ensures { SaidStandsAt self.new [] }
    {
        self.legs.clear();
        self.all = 0;
        self.leg = 0;
        self.before = 0;
    }

    /// Takes the next event of the packet.
    #[inline]
    pub fn take(&mut self, event: Event)
        ensures { (events : List BusEvent) → SaidStandsAt self.old events → SaidStandsAt self.new (events ++ event ∷ []) }
    {
        match event {
            Event::Start => self.start(),
            Event::Byte(byte) => self.take_byte(byte),
            Event::Ack | Event::Nack | Event::Stop => {}
        }
    }

    #[inline]
    fn start(&mut self)
        ensures { (events : List BusEvent) → SaidStandsAt self.old events → SaidStandsAt self.new (events ++ Event.Start ∷ []) }
    {
        self.legs.start();
        self.leg = 0;
        self.before = 0;
    }

    #[inline]
    fn take_byte(&mut self, byte: u8)
        ensures { (events : List BusEvent) → SaidStandsAt self.old events → SaidStandsAt self.new (events ++ Event.Byte byte ∷ []) }
    {
        self.all = pec_next(self.all, byte);
        if let LastLeg::Absent = self.legs.last() {
            return;
        }
        self.before = self.leg;
        self.leg = pec_next(self.leg, byte);
        self.legs.take(byte);
    }

    /// The device of the last leg that has an address byte, by its address of seven bits. An alert
    /// is that of no device.
    pub fn device(&self) -> Option<u8>
        ensures { (events : List BusEvent) → SaidStandsAt self.now events → result ≡ said_device events }
    {
        match self.legs.address() {
            Some(address) if address != read_address(ALERT_ADDRESS) => Some(address / 2),
            _ => None,
        }
    }

    /// The address of the last written leg.
    pub fn written_to(&self) -> Option<u8>
        ensures { (events : List BusEvent) → SaidStandsAt self.now events → result ≡ written_to events }
    {
        match self.legs.written_address() {
            Some(address) => Some(address / 2),
            None => None,
        }
    }

    /// All bytes after the address in the last written leg, where there is one. This holds of
    /// events that some packet begins with.
    pub fn sent(&self) -> Option<&[u8]>
        ensures bytes { (profile : List DeviceParts) (events : List BusEvent) → Viable profile events → SaidStandsAt self.now events
            → option_map (λ bytes. bytes.now) result ≡ sent events }
        ensures short { IfSome result (λ bytes. length bytes.now ≤ 258) }
    {
        legs_are_short();
        match self.legs.written_address() {
            Some(_) => Some(self.legs.written()),
            None => None,
        }
    }

    /// All bytes after the address in the last leg, where that is read. This holds of events that
    /// some packet begins with.
    pub fn reply(&self) -> Option<&[u8]>
        ensures bytes { (profile : List DeviceParts) (events : List BusEvent) → Viable profile events → SaidStandsAt self.now events
            → option_map (λ bytes. bytes.now) result ≡ reply events }
        ensures short { IfSome result (λ bytes. length bytes.now ≤ 258) }
    {
        legs_are_short();
        match self.legs.last() {
            LastLeg::Read => Some(self.legs.reply()),
            LastLeg::Absent | LastLeg::Begun | LastLeg::Written => None,
        }
    }

    /// The packet error code that was due where this event was refused for this reason; `None`
    /// where the reason is not [`Reason::BadPec`].
    pub fn right_pec(&self, reason: Reason, event: Event) -> Option<u8>
        ensures { (events : List BusEvent) → SaidStandsAt self.now events → result ≡ right_pec reason events event }
    {
        match (reason, event) {
            (Reason::BadPec, Event::Byte(_)) => Some(self.all),
            (Reason::BadPec, Event::Ack) => Some(self.before),
            _ => None,
        }
    }
}
