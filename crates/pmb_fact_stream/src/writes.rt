//! Writes to devices of the profile, in the packet under way and in what is passed over.
//!
//! Where an event is refused, no fact tells what the packet wrote, and from there to the next STOP any START
//! may begin another one. So it is kept whether a leg began with the address, for writing, of a device of
//! the profile. The machine has one bit beside that: whether the next byte is a leg's address.
//!
//! Its rows: `tests/rows/json_objects.txt`, lost at refusals.

ghost use Rattle.std.specs.Prelude.{◌≡◌, ◌||◌, ◌&&◌, false, [], ◌∷◌, ◌++◌, List};
ghost use Rattle.pmb_bus.specs.declared.event.Event.{Event as BusEvent};
ghost use Rattle.pmb_command.specs.Parts.{DeviceParts};
ghost use Rattle.pmb_fact_stream.specs.Lost.{is_write};
ghost use Rattle.pmb_fact_stream.specs.machine.Losing.{WritesBehind, WritesStandAt};

use pmb_bus::Event;
use pmb_table::Profile;

/// Whether devices of the profile were written to.
#[derive(Clone, Copy)]
pub(crate) struct Writes {
    /// Whether START came, and no byte since: the next one is the address byte of a leg.
    awaits_address: bool,
    /// Whether a leg began with the address of a device of the profile, for writing.
    pub(crate) has_write: bool,
}

impl Writes {
    /// Before any event.
    #[inline]
    pub(crate) fn new() -> Writes
        ensures { (profile : List DeviceParts) → WritesStandAt profile result [] }
    {
        Writes {
            awaits_address: false,
            has_write: false,
        }
    }

    /// With an event more.
    #[inline]
    pub(crate) fn after(self, event: Event, profile: &Profile) -> Writes
        ensures { (events : List BusEvent) → WritesStandAt profile.now self events → WritesStandAt profile.now result (events ++ event ∷ []) }
    {
        match event {
            Event::Start => Writes {
                awaits_address: true,
                has_write: self.has_write,
            },
            Event::Byte(byte) => self.after_byte(byte, profile),
            Event::Ack | Event::Nack | Event::Stop => self,
        }
    }

    /// After an event that is passed over: with STOP all of that has come.
    #[inline]
    pub(crate) fn behind(self, event: Event) -> Writes
        ensures { (profile : List DeviceParts) (taken : List BusEvent) → WritesStandAt profile self taken → WritesBehind profile result taken event }
    {
        match event {
            Event::Stop => Writes::new(),
            Event::Start | Event::Byte(_) | Event::Ack | Event::Nack => self,
        }
    }

    // With a byte more: a leg's address, where START came last.
    #[inline]
    fn after_byte(self, byte: u8, profile: &Profile) -> Writes
        ensures awaits { result.awaits_address ≡ false }
        ensures has { result.has_write ≡ (self.has_write || (self.awaits_address && is_write profile.now (byte ∷ []))) }
    {
        Writes {
            awaits_address: false,
            has_write: self.has_write || self.awaits_address && is_write(byte, profile),
        }
    }
}

/// Whether an address byte is that of a write to a device of the profile.
fn is_write(byte: u8, profile: &Profile) -> bool
    ensures { result ≡ is_write profile.now (byte ∷ []) }
{
    byte % 2 == 0 && profile.device(byte / 2).is_some()
}
