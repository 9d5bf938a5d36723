//! The set of event kinds.
//!
//! The bits, their names and the operations on sets are those of `bitflags`. The methods here say
//! what they do to bits and to kinds, and spare a caller the trait.
//!
//! Its rows: `tests_bytes`, `src/bus/kinds.rt`.

ghost use Rattle.std.specs.Prelude.{⊤, ◌≡◌, ◌==◌, ◌||◌, true, false, [], ◌∷◌, bit_and, bit_or, codes};
ghost use Rattle.pmb_bus.specs.declared.event.Event.{Event as BusEvent};
ghost use Rattle.pmb_bus.specs.Kinds.{bits, kind_of, holds};

use crate::event::Event;
use bitflags::{Flag, Flags, bitflag_items};

/// A set of kinds of [`Event`]s. All bytes are of one kind.
#[derive(Clone, Copy, Debug, PartialEq, Eq)]
pub struct Kinds(u8);

bitflag_items! {
    impl Kinds: u8 {
        /// START, or a repeated START.
        const START = 1;
        /// A byte, whatever its value.
        const BYTE = 2;
        /// The acknowledgement of a byte.
        const ACK = 4;
        /// The refusal of a byte.
        const NACK = 8;
        /// STOP.
        const STOP = 16;
    }
}

impl Flags for Kinds {
    type Bits = u8;

    ghost exact = { ⊤ };

    ghost table = { (codes "START", 1) ∷ (codes "BYTE", 2) ∷ (codes "ACK", 4) ∷ (codes "NACK", 8) ∷ (codes "STOP", 16) ∷ [] };

    ghost set_of = { λ kinds. bits kinds };

    fn flags<'a>() -> &'a [Flag<Kinds>] {
        Kinds::FLAGS
    }

    fn bits(&self) -> u8 {
        self.0
    }

    fn from_bits_retain(bits: u8) -> Kinds {
        Kinds(bits)
    }
}

impl Kinds {
    /// The set of no kind.
    pub fn empty() -> Kinds
        ensures bits { bits result ≡ 0 }
        ensures holds { (event : BusEvent) → holds result event ≡ false }
    {
        <Kinds as Flags>::empty()
    }

    /// The set of all five kinds.
    pub fn all() -> Kinds
        ensures bits { bits result ≡ 31 }
        ensures holds { (event : BusEvent) → holds result event ≡ true }
    {
        <Kinds as Flags>::all()
    }

    /// The kind of an event, alone.
    pub fn of(event: Event) -> Kinds
        ensures bits { bits result ≡ kind_of event }
        ensures holds { (other : BusEvent) → holds result other ≡ (kind_of event == kind_of other) }
    {
        match event {
            Event::Start => Kinds::START,
            Event::Byte(_) => Kinds::BYTE,
            Event::Ack => Kinds::ACK,
            Event::Nack => Kinds::NACK,
            Event::Stop => Kinds::STOP,
        }
    }

    /// The bits: START 1, BYTE 2, ACK 4, NACK 8, STOP 16.
    pub fn bits(self) -> u8
        ensures { result ≡ bits self }
    {
        self.0
    }

    /// Whether no kind is in the set.
    pub fn is_empty(self) -> bool
        ensures { result ≡ (bits self == 0) }
    {
        Flags::is_empty(&self)
    }

    /// Whether each kind of `other` is in the set.
    pub fn contains(self, other: Kinds) -> bool
        ensures { result ≡ (bit_and (bits self) (bits other) == bits other) }
    {
        Flags::contains(&self, other)
    }

    /// Puts the kinds of `other` in.
    pub fn insert(&mut self, other: Kinds)
        ensures bits { bits self.new ≡ bit_or (bits self.old) (bits other) }
        ensures holds { (event : BusEvent) → holds self.new event ≡ (holds self.old event || holds other event) }
    {
        Flags::insert(self, other)
    }

    /// The kinds of both sets.
    pub fn union(self, other: Kinds) -> Kinds
        ensures bits { bits result ≡ bit_or (bits self) (bits other) }
        ensures holds { (event : BusEvent) → holds result event ≡ (holds self event || holds other event) }
    {
        Flags::union(self, other)
    }
}
