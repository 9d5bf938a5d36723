//! Who is on a bus: the addresses that acknowledged, and the codes that they acknowledged.
//!
//! Its rows: `tests/rows/scan.txt`.

ghost use Rattle.std.specs.Prelude.{◌≡◌, ◌<◌, ◌/◌, ◌%◌, ◌++◌, ◌∷◌, [], ℕ, List, slice_set, slice_index_or, true, false, not, ◌&&◌, nat_eq, length, ◌≤◌};
ghost use Rattle.std.specs.List.{list_any};
ghost use Rattle.pmb_bus.specs.declared.event.Event.{Event as BusEvent};
ghost use Rattle.pmb_draft.specs.Seen.{is_device_address, listed_with};
ghost use Rattle.pmb_draft.specs.machine.CodeSet.{IsIn};
ghost use Rattle.pmb_draft.specs.machine.LegStart.{after_ack, after_event};
ghost use Rattle.pmb_draft.specs.machine.Seen.{AddsNothing, HasSeen, Met};

use crate::code_set::CodeSet;
use crate::leg_start::LegStart;
use arrayvec::ArrayVec;
use pmb_bus::{ALERT_ADDRESS, Event};

/// How many devices a profile may have.
const MOST_DEVICES: usize = 64;

/// Whether a device of a profile may have an address.
pub(crate) fn is_device_address(address: u8) -> bool
    ensures { result ≡ is_device_address address }
{
    0x08 <= address && address <= 0x77 && address != ALERT_ADDRESS
}

/// Where an address stands among others.
pub(crate) fn place_of(address: u8, addresses: &[u8]) -> Option<usize> {
    for (place, one) in addresses.iter().enumerate() {
        if *one == address {
            return Some(place);
        }
    }
    None
}

/// What the events so far say of addresses and codes.
#[derive(Drop)]
pub(crate) struct Seen {
    start: LegStart,
    /// The first addresses that acknowledged and that a profile may have, in the order in which they did.
    listed: ArrayVec<u8, MOST_DEVICES>,
    /// For each address whether it acknowledged.
    acked: [bool; 128],
    /// The codes that were acknowledged in written legs.
    codes: CodeSet,
}

impl Seen {
    /// No event came.
    pub(crate) fn new() -> Seen
        ensures { HasSeen result [] }
    {
        Seen {
            start: LegStart::Elsewhere,
            listed: ArrayVec::new(),
            acked: [false; 128],
            codes: CodeSet::new(),
        }
    }

    /// Takes the next event.
    pub(crate) fn take(&mut self, event: Event)
        ensures { (events : List BusEvent) → HasSeen self.old events → HasSeen self.new (events ++ event ∷ []) }
    {
        if let Event::Ack = event {
            self.take_ack();
        } else {
            self.pass(event);
        }
    }

    /// Takes an event that is no ACK.
    fn pass(&mut self, event: Event)
        ensures start { self.new.start ≡ after_event self.old.start event }
        ensures adds { AddsNothing self.old self.new }
    {
        self.start = self.start.after(event);
    }

    /// Takes an ACK.
    fn take_ack(&mut self)
        ensures start { self.new.start ≡ after_ack self.old.start }
        ensures met { Met self.old.start self.old self.new }
    {
        let before = self.start;
        self.start = before.after(Event::Ack);
        match before {
            LegStart::Address { byte } => self.meet(byte / 2),
            LegStart::Code { byte, code } => self.take_code(byte, code),
            LegStart::Elsewhere | LegStart::Start | LegStart::Acked { .. } => {}
        }
    }

    /// A byte after that of an address was acknowledged: the code of a command, where the leg is written.
    fn take_code(&mut self, byte: u8, code: u8)
        ensures start { self.new.start ≡ self.old.start }
        ensures acked { self.new.acked ≡ self.old.acked }
        ensures listed { self.new.listed.items ≡ self.old.listed.items }
        ensures there { byte % 2 ≡ 0 → IsIn self.new.codes (byte / 2) code }
        ensures kept { (a c : ℕ) → IsIn self.old.codes a c → IsIn self.new.codes a c }
    {
        if byte % 2 == 0 {
            self.codes.insert(byte / 2, code);
        }
    }

    /// The addresses of devices.
    pub(crate) fn listed(&self) -> &[u8]
        ensures { result.now ≡ self.now.listed.items }
    {
        self.listed.as_slice()
    }

    /// Where an address stands among those of devices.
    pub(crate) fn place(&self, address: u8) -> Option<usize> {
        place_of(address, self.listed.as_slice())
    }

    /// The codes that were acknowledged.
    pub(crate) fn codes(&self) -> &CodeSet
        ensures { result.now ≡ self.now.codes }
    {
        &self.codes
    }

    /// Whether an address acknowledged and is none of those of devices.
    pub(crate) fn is_left_out(&self, address: u8) -> bool
        requires { address < 128 }
        ensures { result ≡ (slice_index_or self.now.acked address false && not (list_any (nat_eq address) self.now.listed.items)) }
    {
        self.acked[address as usize] && !self.listed.contains(&address)
    }

    /// An address acknowledged.
    fn meet(&mut self, address: u8)
        requires { address < 128 }
        ensures start { self.new.start ≡ self.old.start }
        ensures codes { self.new.codes ≡ self.old.codes }
        ensures acked { self.new.acked ≡ slice_set self.old.acked address true }
        ensures listed { self.new.listed.items ≡ listed_with address self.old.listed.items }
        ensures few { length self.old.listed.items ≤ 64 → length self.new.listed.items ≤ 64 }
    {
        self.acked[address as usize] = true;
        if is_device_address(address) && !self.listed.contains(&address) && !self.listed.is_full() {
            self.listed.push(address);
        }
    }
}
