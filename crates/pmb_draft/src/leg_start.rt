//! The first events of a leg.
//!
//! Its rows: `tests/rows/scan.txt`.

ghost use Rattle.std.specs.Prelude.{◌≡◌};
ghost use Rattle.pmb_draft.specs.machine.LegStart.{after_event};

use pmb_bus::Event;

/// How far the last events go with those that a leg begins with: START, the byte of an address, its ACK,
/// and a byte with its ACK.
#[derive(Clone, Copy, Debug, PartialEq, Eq)]
pub(crate) enum LegStart {
    /// They don't.
    Elsewhere,
    /// START was the last.
    Start,
    /// The byte of an address was.
    Address { byte: u8 },
    /// The ACK of an address was.
    Acked { byte: u8 },
    /// The byte after that was: if the address is written to, the code of a command.
    Code { byte: u8, code: u8 },
}

impl LegStart {
    /// How far they go with one event more.
    pub(crate) fn after(self, event: Event) -> LegStart
        ensures { result ≡ after_event self event }
    {
        match (event, self) {
            (Event::Start, _) => LegStart::Start,
            (Event::Byte(byte), LegStart::Start) => LegStart::Address { byte },
            (Event::Ack, LegStart::Address { byte }) => LegStart::Acked { byte },
            (Event::Byte(code), LegStart::Acked { byte }) => LegStart::Code { byte, code },
            _ => LegStart::Elsewhere,
        }
    }
}
