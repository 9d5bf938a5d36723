//! The legs that a host sends, byte by byte, while each is acknowledged.
//!
//! Its rows: `tests_host`, `src/host/ends.rt`, `src/host/longest.rt`.

ghost use Rattle.std.specs.Prelude.{◌≡◌, ◌≤◌, ◌-◌, ◌++◌, ◌<◌, ◌&&◌, if◌then◌else◌, List, is_some, length, nat_eq, slice_get, option_map, IfSome, None, [], ◌∷◌, true, false};
ghost use Rattle.std.specs.Option.{option_to_list};
ghost use Rattle.pmb_host.specs.Signals.{leg_form, legs_of, reply_form, wire_in};
ghost use Rattle.pmb_host.specs.machine.Legs.{leg_bytes};
ghost use Rattle.pmb_bus.specs.Address.{read_address, write_address};
ghost use Rattle.pmb_transaction.specs.Transaction.{transaction_data};
ghost use Rattle.pmb_host.specs.Host.{HostStanding, FirstSteps, heard_with};
ghost use Rattle.pmb_host.specs.machine.Standing.{AreAddresses, AtLeg, InLeg, IsSent, BehindByte, IsLegSent, Job};
ghost use Rattle.pmb_devices.specs.Bus.{AnsweredSignal};

use super::{Host, HostPhase};
use crate::host_leg::HostLeg;
use crate::step::{HostFault, HostStep};
use pmb_bus::{pec_next, read_address, write_address};
use pmb_command::Form;
use pmb_device::{DeviceSignal, HostSignal};
use pmb_transaction::Transaction;

impl Host<'_> {
    /// The leg that began last, or none where there is no such.
    fn leg_under_way(&self) -> Option<HostLeg<'_>>
        ensures bytes { AreAddresses (transaction_data self.now.transaction) → 1 ≤ self.now.leg
            → self.now.form ≡ leg_form self.now.profile.now (transaction_data self.now.transaction) (self.now.leg - 1)
            → option_map leg_bytes result ≡ slice_get (legs_of self.now.profile.now (transaction_data self.now.transaction)) (self.now.leg - 1) }
        ensures code { IfSome result (λ leg. leg.pec ≡ true → reply_form self.now.profile.now (transaction_data self.now.transaction) ≡ None) }
    {
        match &self.transaction {
            Transaction::Write { parts } => {
                let part = parts.as_slice().get(usize::from(self.leg).checked_sub(1)?)?;
                let data = part.bytes.as_slice();
                Some(HostLeg {
                    address: write_address(part.addr),
                    code: Some(part.code),
                    count: count_of(self.form, data),
                    data,
                    pec: part.pec,
                })
            }
            Transaction::Read { addr, code, .. } => self.asking_leg(*addr, *code, &[]),
            Transaction::Call {
                addr,
                code,
                bytes,
                ..
            } => self.asking_leg(*addr, *code, bytes.as_slice()),
            Transaction::Refused { .. } | Transaction::Alert { .. } | Transaction::NoAlert => None,
        }
    }

    /// The same of a read or a call.
    fn asking_leg<'a>(&self, addr: u8, code: u8, data: &'a [u8]) -> Option<HostLeg<'a>>
        requires { length «data».now ≤ 255 }
        ensures bytes { addr < 128 → 1 ≤ self.now.leg → option_map leg_bytes result
            ≡ slice_get ((write_address addr ∷ code ∷ wire_in self.now.form «data».now) ∷ (read_address addr ∷ []) ∷ []) (self.now.leg - 1) }
        ensures code { IfSome result (λ leg. leg.pec ≡ false) }
    {
        match self.leg {
            1 => Some(HostLeg {
                address: write_address(addr),
                code: Some(code),
                count: count_of(self.form, data),
                data,
                pec: false,
            }),
            2 => Some(HostLeg {
                address: read_address(addr),
                code: None,
                count: None,
                data: &[],
                pec: false,
            }),
            _ => None,
        }
    }

    /// The form of the data in the leg that began last.
    fn form_under_way(&self) -> Option<Form>
        ensures { 1 ≤ self.now.leg → result ≡ leg_form self.now.profile.now (transaction_data self.now.transaction) (self.now.leg - 1) }
    {
        match &self.transaction {
            Transaction::Write { parts } => {
                let part = parts.as_slice().get(usize::from(self.leg).checked_sub(1)?)?;
                self.profile
                    .device(part.addr)?
                    .entry(part.code)?
                    .shape
                    .write
            }
            Transaction::Call { addr, code, .. } => {
                self.profile.device(*addr)?.entry(*code)?.shape.call
            }
            Transaction::Read { .. }
            | Transaction::Refused { .. }
            | Transaction::Alert { .. }
            | Transaction::NoAlert => None,
        }
    }

    /// How many legs there are.
    fn legs(&self) -> usize
        ensures { result ≡ length (legs_of self.now.profile.now (transaction_data self.now.transaction)) }
    {
        match &self.transaction {
            Transaction::Write { parts } => parts.len(),
            Transaction::Read { .. } | Transaction::Call { .. } => 2,
            Transaction::Refused { .. } | Transaction::Alert { .. } | Transaction::NoAlert => 0,
        }
    }

    /// The packet error code of the bytes before a leg that it covers: that of a part covers its
    /// own leg alone, that of a reply both legs.
    fn crc_before_leg(&self) -> u8
        ensures { result ≡ (if is_some self.now.reply then self.now.crc else 0) }
    {
        if self.reply.is_some() { self.crc } else { 0 }
    }

    /// Begins a leg.
    pub(super) fn start(&mut self) -> HostStep
        ensures { (standing : HostStanding) (heard : List AnsweredSignal) → AtLeg self.old standing.job heard → FirstSteps standing heard result self.new }
    {
        self.leg = self.leg.saturating_add(1);
        self.place = 0;
        self.form = self.form_under_way();
        self.crc = self.crc_before_leg();
        self.phase = HostPhase::Address;
        HostStep::Send(HostSignal::Start)
    }

    /// The next byte of the leg that began last, where there is one more.
    fn next_byte(&self) -> Option<u8>
        ensures { (job : Job) (heard : List AnsweredSignal) (at : InLeg self.now job heard) → result ≡ slice_get at.more 0 }
    {
        match self.leg_under_way() {
            Some(leg) => leg.byte_at(usize::from(self.place), self.crc),
            None => None,
        }
    }

    /// Sends the next byte of the leg, or what follows it.
    pub(super) fn go_on(&mut self) -> HostStep
        ensures { (standing : HostStanding) (heard : List AnsweredSignal) → InLeg self.old standing.job heard → FirstSteps standing heard result self.new }
    {
        match self.next_byte() {
            Some(byte) => self.send(byte),
            None => self.end_leg(),
        }
    }

    /// Sends a byte.
    fn send(&mut self, byte: u8) -> HostStep
        ensures { (standing : HostStanding) (heard : List AnsweredSignal) → BehindByte self.old standing.job heard byte → FirstSteps standing heard result self.new }
    {
        self.place = self.place.saturating_add(1);
        self.crc = pec_next(self.crc, byte);
        self.phase = HostPhase::Byte;
        HostStep::Send(HostSignal::Byte(byte))
    }

    /// Goes on after a leg: to the next one, to the reply, or to STOP.
    fn end_leg(&mut self) -> HostStep
        ensures { (standing : HostStanding) (heard : List AnsweredSignal) → IsLegSent self.old standing.job heard → FirstSteps standing heard result self.new }
    {
        if usize::from(self.leg) < self.legs() {
            self.start()
        } else if self.reply.is_some() {
            self.ask()
        } else {
            self.stop()
        }
    }

    /// Whether the leg that began last is that of the address for reading.
    fn is_at_read(&self) -> bool
        ensures { result ≡ (is_some self.now.reply && nat_eq self.now.leg 2) }
    {
        self.reply.is_some() && self.leg == 2
    }

    /// Goes on after a byte that was acknowledged, and gives up after another.
    pub(super) fn heard_of_byte(&mut self, answer: DeviceSignal) -> HostStep
        ensures { (standing : HostStanding) → IsSent self.old standing.job standing.heard standing.last → FirstSteps standing (heard_with standing answer) result self.new }
    {
        match answer {
            DeviceSignal::Ack => self.go_on(),
            _ => {
                self.fault = Some(HostFault::Refused {
                    leg: self.leg,
                    byte: self.place.saturating_sub(1),
                    at_read: self.is_at_read(),
                });
                self.stop()
            }
        }
    }
}

/// The count that data in a form have before them, where there is a form.
fn count_of(form: Option<Form>, bytes: &[u8]) -> Option<u8>
    requires { length bytes.now ≤ 255 }
    ensures { option_to_list result ++ bytes.now ≡ wire_in form bytes.now }
{
    match form {
        Some(form) => form.count(bytes),
        None => None,
    }
}
