//! A leg of a packet, byte by byte.
//!
//! Its rows: `tests_packets`, `src/writer/packets.rt` and `sizes.rt`.

ghost use Rattle.std.specs.Prelude.{◌≡◌, ℕ, ◌+◌, ◌≤◌, [], ◌∷◌, ◌++◌, false, length, MatchOption};
ghost use Rattle.pmb_bus.specs.declared.event.Event.TheVariants.{Byte, Start};
ghost use Rattle.pmb_bus.specs.Event.{canonical_text};
ghost use Rattle.pmb_writer.specs.machine.Legs.{IsWhole, answered_by, code_before, code_on, leg_data, leg_events, with_byte, with_code};

use crate::text::{append_code, append_each, append_event, append_some};
use arrayvec::ArrayVec;
use pmb_bus::{Event, pec_next};

/// What is left of a leg after its START: an address, a command code, the count of a block, data
/// and a packet error code, each of which may be written already, or be no part of the leg.
#[derive(Clone, Copy, Debug)]
pub(crate) struct Leg<'a> {
    /// The address in bits 7 to 1, and the direction in bit 0.
    pub address: Option<u8>,
    pub code: Option<u8>,
    pub count: Option<u8>,
    pub data: &'a [u8],
    /// Whether a packet error code follows the data.
    pub pec: bool,
    /// The answer to the last byte. All others are answered by ACK.
    pub last: Event,
    /// Whether the packet error code covers the leg before this one too.
    pub goes_on: bool,
}

impl<'a> Leg<'a> {
    /// A leg of which nothing is left.
    pub fn none() -> Self
        ensures { leg_data result ≡ record { bytes = []; pec = false; last = Event.Ack; goes_on = false } }
    {
        Leg {
            address: None,
            code: None,
            count: None,
            data: &[],
            pec: false,
            last: Event::Ack,
            goes_on: false,
        }
    }

    /// The code with which the leg begins, after bytes with the code `crc`.
    pub fn code_before(&self, crc: u8) -> u8
        ensures { result ≡ code_before self.now.goes_on crc }
    {
        if self.goes_on { crc } else { 0 }
    }

    /// Takes the next byte before the packet error code.
    fn next_plain(&mut self) -> Option<u8>
        ensures { MatchOption result (((leg_data self.old).bytes ≡ []) × (leg_data self.new ≡ leg_data self.old)) (λ byte. leg_data self.old ≡ with_byte byte (leg_data self.new)) }
    {
        if let Some(address) = self.address {
            self.address = None;
            return Some(address);
        }
        if let Some(code) = self.code {
            self.code = None;
            return Some(code);
        }
        if let Some(count) = self.count {
            self.count = None;
            return Some(count);
        }
        match self.data.split_first() {
            Some((first, others)) => {
                self.data = others;
                Some(*first)
            }
            None => None,
        }
    }

    /// Takes the next byte, where `crc` is the packet error code of the bytes before it.
    pub fn next_byte(&mut self, crc: &mut u8) -> Option<u8>
        ensures bytes { MatchOption result ((with_code self.old.pec crc.old (leg_data self.old).bytes ≡ []) × (with_code self.new.pec crc.new (leg_data self.new).bytes ≡ [])) (λ byte. with_code self.old.pec crc.old (leg_data self.old).bytes ≡ byte ∷ with_code self.new.pec crc.new (leg_data self.new).bytes) }
        ensures covered { code_on crc.new (leg_data self.new).bytes ≡ code_on crc.old (leg_data self.old).bytes }
        ensures last { self.new.last ≡ self.old.last }
        ensures goes_on { self.new.goes_on ≡ self.old.goes_on }
    {
        if let Some(byte) = self.next_plain() {
            *crc = pec_next(*crc, byte);
            return Some(byte);
        }
        if self.pec {
            self.pec = false;
            return Some(*crc);
        }
        None
    }

    /// The answer to the byte that was taken last.
    pub fn answer(&self) -> Event
        ensures { (crc byte : ℕ) → answered_by self.now.last (byte ∷ with_code self.now.pec crc (leg_data self.now).bytes) ≡ Byte byte ∷ result ∷ answered_by self.now.last (with_code self.now.pec crc (leg_data self.now).bytes) }
    {
        let is_last = self.address.is_none()
            && self.code.is_none()
            && self.count.is_none()
            && self.data.is_empty()
            && !self.pec;
        if is_last { self.last } else { Event::Ack }
    }

    /// Appends the canonical text of a whole leg with its START, after bytes with the code `crc`.
    /// Returns the code of the bytes so far.
    #[inline(never)]
    pub fn append<const N: usize>(&self, crc: u8, text: &mut ArrayVec<u8, N>) -> u8
        requires whole { IsWhole self.now }
        requires room { length text.old.items + 1314 ≤ N }
        ensures text { text.new.items ≡ text.old.items ++ canonical_text (Start ∷ leg_events (code_before self.now.goes_on crc) (leg_data self.now)) }
        ensures code { result ≡ code_on (code_before self.now.goes_on crc) (leg_data self.now).bytes }
        ensures longer { length text.new.items ≤ length text.old.items + 1314 }
    {
        let address = self.address.unwrap();
        append_event(Event::Start, text);
        append_event(Event::Byte(address), text);
        let with_address = pec_next(self.code_before(crc), address);
        let with_code = append_some(self.code, with_address, text);
        let with_count = append_some(self.count, with_code, text);
        let whole = append_each(self.data, with_count, text);
        append_code(self.pec, whole, text);
        append_event(self.last, text);
        whole
    }
}
