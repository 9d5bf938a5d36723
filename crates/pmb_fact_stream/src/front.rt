//! How a packet begins: whether it is an other, to an address that speaks no PMBus.
//!
//! Its rows: `tests/rows/json_objects.txt`, others.

ghost use Rattle.std.specs.Prelude.{◌≡◌, ◌<◌, ◌/◌, ◌++◌, ◌∷◌, [], ℕ, List, Some, codes};
ghost use Rattle.pmb_bus.specs.declared.event.Event.TheVariants.{Byte};
ghost use Rattle.pmb_bus.specs.Event.{text_of};
ghost use Rattle.pmb_fact_stream.specs.Choice.{choice_data};
ghost use Rattle.pmb_fact_stream.specs.Others.{is_ignored, next_address};
ghost use Rattle.pmb_fact_stream.specs.machine.Front.{begins_behind, front_behind};

use crate::choice::Choice;
use pmb_bus::Event;
use pmb_canonical::front_event;

/// How a packet under way begins.
#[derive(Clone, Copy)]
pub(crate) enum Front {
    /// None of its events came.
    Nothing,
    /// START alone came.
    Start,
    /// It is an other.
    Other,
    /// It is none.
    Own,
}

impl Front {
    /// The address of an other whose address byte comes next.
    #[inline]
    pub(crate) fn begins_other(self, event: Event, choice: &Choice<'_>) -> Option<u8>
        ensures { result ≡ begins_behind (choice_data choice.now).ignored self event }
    {
        match (self, event) {
            (Front::Start, Event::Byte(byte)) => choice.if_ignored(byte / 2),
            _ => None,
        }
    }

    /// How the packet begins, with an event more.
    #[inline]
    pub(crate) fn after(self, event: Event, choice: &Choice<'_>) -> Front
        ensures { result ≡ front_behind (choice_data choice.now).ignored self event }
    {
        match self {
            Front::Nothing => match event {
                Event::Start => Front::Start,
                Event::Byte(_) | Event::Ack | Event::Nack | Event::Stop => Front::Own,
            },
            Front::Start => match self.begins_other(event, choice) {
                Some(_) => Front::Other,
                None => Front::Own,
            },
            Front::Other => Front::Other,
            Front::Own => Front::Own,
        }
    }
}

/// The address of an address byte; `None` for any other event.
fn byte_address(event: Event) -> Option<u8>
    ensures { result ≡ next_address (event ∷ []) }
{
    match event {
        Event::Byte(byte) => Some(byte / 2),
        Event::Start | Event::Ack | Event::Nack | Event::Stop => None,
    }
}

/// The address of a whole packet's first leg, from its canonical text.
fn first_address(bytes: &[u8]) -> Option<u8>
    ensures { (b : ℕ) (rest : List ℕ) → b < 256 → bytes.now ≡ codes "S " ++ (text_of (Byte b) ++ rest) → result ≡ Some (b / 2) }
{
    let [_, _, rest @ ..] = bytes else {
        return None;
    };
    match front_event(rest) {
        Some(event) => byte_address(event),
        None => None,
    }
}

/// Whether a whole packet is an other, from its canonical text.
#[inline]
pub(crate) fn is_other(bytes: &[u8], choice: &Choice<'_>) -> bool
    ensures { (b : ℕ) (rest : List ℕ) → b < 256 → bytes.now ≡ codes "S " ++ (text_of (Byte b) ++ rest)
        → result ≡ is_ignored (choice_data choice.now).ignored (b / 2) }
{
    if choice.ignored.is_none() {
        return false;
    }
    match first_address(bytes) {
        Some(addr) => choice.ignores(addr),
        None => false,
    }
}
