//! The packet under way.
//!
//! [`PacketPlace`] says where its events end. What each place says of the events, of the leg under way
//! and of the answer under way stands in `specs/machine/PacketState`. A new place needs its lines there,
//! in `IsPacketPlace` and `has_turn`, and its arm in `step_by_place`, in `expected`, and in
//! `byte_reason` and `ack_reason`.
//!
//! Its rows: `tests_reader`, `src/reader/rows.rt` and `src/plain`; `tests/rows/captures.txt`.

ghost use Rattle.std.specs.Prelude.{◌≡◌, ◌≢◌, ◌<◌, ◌≤◌, ◌↔◌, IfSome, IsSome, true, List, [], length};
ghost use Rattle.pmb_bus.specs.declared.event.Event.{Event as BusEvent};
ghost use Rattle.pmb_command.specs.Parts.{DeviceParts};
ghost use Rattle.pmb_canonical.specs.Canonical.{BeginsWithPacket, TakesPacket};
ghost use Rattle.pmb_transaction.specs.Transaction.{transaction_data};
ghost use Rattle.pmb_packet_state.specs.PacketState.{Moves, StandsIn, packet_of};
ghost use Rattle.pmb_packet_state.specs.machine.PacketState.{Steps};

use pmb_bus::Event;
use pmb_canonical::{CanonicalReader, TakenPacket};
use pmb_leg::{Answer, WrittenLeg};
use pmb_table::Profile;
use pmb_table::laws::accepted_bus;
use pmb_transaction::Transaction;
use pmb_transaction::laws::{events_take_turns, packet_is_not_empty, packets_go_on};
use pmb_transaction_slot::TransactionSlot;

/// What an event does to the packet under way.
#[derive(Clone, Copy, Debug, PartialEq, Eq)]
pub enum Move {
    /// The packet continues.
    On,
    /// The packet ends.
    Packet,
    /// No packet can have the event there.
    Refused,
}

/// Who answers in a leg that is read.
#[derive(Clone, Copy)]
pub(crate) enum Answerer {
    /// The device that was asked in the leg before.
    Device,
    /// Whichever device has something to tell, at the Alert Response Address.
    Alert,
}

/// Where the events of the packet under way end.
#[derive(Clone, Copy)]
pub(crate) enum PacketPlace {
    /// There are none.
    Between,
    /// After the first START.
    Start,
    /// After the byte that addresses a device for writing, with its address.
    Address(u8),
    /// In a written leg, after an address or a byte that was taken.
    Leg,
    /// In a written leg, after this byte.
    LegByte(u8),
    /// After a later START.
    Restart,
    /// After the byte that addresses a device for reading.
    ReadAddress(Answerer),
    /// In a leg that is read, after an address or a byte that was taken.
    Answer(Answerer),
    /// In a leg that is read, after a byte, which is the last of the answer so far.
    AnswerByte(Answerer),
    /// After NACK.
    End,
}

/// The packet under way.
#[derive(Drop)]
pub struct PacketState<'p> {
    pub(crate) profile: &'p Profile,
    pub(crate) place: PacketPlace,
    /// The written leg under way, or the last one.
    pub(crate) leg: Option<WrittenLeg<'p>>,
    /// The answer under way.
    pub(crate) answer: Answer,
    pub(crate) kept: TransactionSlot,
}

impl<'p> PacketState<'p> {
    /// No event has come.
    pub fn new(profile: &'p Profile) -> Self
        ensures { StandsIn profile.now result [] }
    {
        accepted_bus(profile);
        packet_is_not_empty();
        PacketState {
            profile,
            place: PacketPlace::Between,
            leg: None,
            answer: Answer::at_alert(),
            kept: TransactionSlot::new(),
        }
    }

    /// The profile whose packets it takes.
    #[inline(always)]
    pub fn profile(&self) -> &'p Profile
        ensures { (profile : List DeviceParts) (events : List BusEvent) → StandsIn profile self.now events
            → result.now ≡ profile }
    {
        self.profile
    }

    /// Drops the packet under way.
    pub fn restart(&mut self)
        ensures { (profile : List DeviceParts) (events : List BusEvent) → StandsIn profile self.old events
            → StandsIn profile self.new [] }
    {
        self.place = PacketPlace::Between;
    }

    /// Whether no event has come.
    pub fn is_between(&self) -> bool
        ensures { (profile : List DeviceParts) (events : List BusEvent) → StandsIn profile self.now events
            → (result ≡ true ↔ events ≡ []) }
    {
        let PacketPlace::Between = self.place else {
            return false;
        };
        true
    }

    /// The transaction whose packet ended last.
    #[inline]
    pub fn packet(&self) -> &Transaction
        ensures { transaction_data result.now ≡ packet_of self.now }
    {
        self.kept.last()
    }

    /// Gives it away, between packets.
    pub fn take_packet(&mut self) -> Transaction
        ensures read { transaction_data result ≡ packet_of self.old }
        ensures stands { (profile : List DeviceParts) → StandsIn profile self.old [] → StandsIn profile self.new [] }
    {
        self.kept.take_last()
    }

    /// Takes the canonical packet at the front of a text whole, between packets. It returns `None`
    /// where none lies there, and inside a packet, which stays as it is.
    #[inline(always)]
    pub fn take_canonical(
        &mut self,
        canonical: &mut CanonicalReader,
        text: &[u8],
    ) -> Option<TakenPacket>
        ensures takes { (profile : List DeviceParts) → StandsIn profile self.old []
            → IfSome result (λ taken. TakesPacket profile text.now taken.used taken.events (packet_of self.new)) }
        ensures some { IfSome result (λ taken. 0 < taken.used) }
        ensures within { IfSome result (λ taken. taken.used ≤ length text.now) }
        ensures stands { (profile : List DeviceParts) → StandsIn profile self.old [] → StandsIn profile self.new [] }

        // Between packets a canonical packet that lies whole in front is taken.
        ensures answers { (profile : List DeviceParts) (events : List BusEvent) → StandsIn profile self.old events
            → (IsSome result ↔ ((events ≡ []) × BeginsWithPacket profile text.now)) }
        ensures inside { (profile : List DeviceParts) (events : List BusEvent) → StandsIn profile self.old events
            → events ≢ [] → self.new ≡ self.old }
    {
        let PacketPlace::Between = self.place else {
            return None;
        };
        canonical.take(&mut self.kept, self.profile, text)
    }

    /// Takes an event.
    ///
    /// Most events are bytes of a leg and their ACK, so these are tried first, without a call.
    #[inline(always)]
    pub fn step(&mut self, event: Event) -> Move
        ensures { (profile : List DeviceParts) (events : List BusEvent) → StandsIn profile self.old events
            → Moves profile self.old events event result self.new }
    {
        packets_go_on();
        events_take_turns();
        match event {
            Event::Byte(byte) => match self.place {
                PacketPlace::Leg => self.send_byte(byte),
                PacketPlace::Answer(source) => self.in_answer(source, event),
                _ => self.step_by_place(event),
            },
            Event::Ack => match self.place {
                PacketPlace::LegByte(byte) => self.take_byte(byte),
                PacketPlace::AnswerByte(source) => self.answer_on(source),
                _ => self.step_by_place(event),
            },
            Event::Start | Event::Nack | Event::Stop => self.step_by_place(event),
        }
    }

    // Takes an event, by the place.
    #[inline(never)]
    fn step_by_place(&mut self, event: Event) -> Move
        ensures { (profile : List DeviceParts) (events : List BusEvent) → StandsIn profile self.old events
            → Steps profile self.old events event result self.new }
    {
        match self.place {
            PacketPlace::Between => self.begin(event),
            PacketPlace::Start => self.at_start(event),
            PacketPlace::Address(addr) => self.behind_address(addr, event),
            PacketPlace::Leg => self.in_leg(event),
            PacketPlace::LegByte(byte) => self.behind_leg_byte(byte, event),
            PacketPlace::Restart => self.at_restart(event),
            PacketPlace::ReadAddress(source) => self.behind_read_address(source, event),
            PacketPlace::Answer(source) => self.in_answer(source, event),
            PacketPlace::AnswerByte(source) => self.behind_answer_byte(source, event),
            PacketPlace::End => self.at_end(event),
        }
    }
}
