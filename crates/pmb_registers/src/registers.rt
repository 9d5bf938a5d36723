//! The registers of a device.
//!
//! The registers of a command lie side by side, page by page, and `places` says where. So a command
//! is found by its code in one step, and what a write costs does not grow with the registers of
//! others. `status_codes` lists the commands with status bits, so that CLEAR_FAULTS goes to their
//! registers alone.
//!
//! Its rows: `tests_devices`, `src/registers/written.rt`, `answers.rt`, `applied.rt`.

ghost use Rattle.std.specs.Prelude.{◌≡◌, ◌≤◌, [], IfOk, IfSome, if◌then◌else◌, length, map, nat_eq, option_map};
ghost use Rattle.std.specs.Option.{unwrap_or};
ghost use Rattle.pmb_transaction.specs.Transaction.{part_data, transaction_data};
ghost use Rattle.pmb_registers.specs.State.{first_state, held, register};
ghost use Rattle.pmb_registers.specs.Answer.{answer};
ghost use Rattle.pmb_registers.specs.Protection.{is_enabled};
ghost use Rattle.pmb_registers.specs.Apply.{after_at, after_enabled, after_other, after_others, after_part, after_parts, after_write, apply, bit_of_refused, bit_of_sent, changed, is_status, part_to, selected_by, with_bit, with_noted};
ghost use Rattle.pmb_registers.specs.Reply.{answer_bytes, reply_bytes};
ghost use Rattle.pmb_registers.specs.machine.Registers.{HasRoom, change_of, register_data};
ghost use Rattle.pmb_registers.specs.machine.Places.{IsPlaceOf};

use crate::change::Change;
use crate::cml_bit::CmlBit;
use crate::coefficients::answer_coefficients;
use crate::first::{add_command, count_registers, no_places};
use crate::forms::{is_paged, is_read, is_sent_alone, is_status, status_codes};
use crate::protection::{WRITE_PROTECT, enables_by, takes};
use crate::register::{ALL_PAGES, Register};
use crate::register_range::{RegisterRange, bytes_in, change_in, clear_in_each};
use crate::reply::Reply;
use arrayvec::ArrayVec;
use pmb_table::DeviceProfile;
use pmb_transaction::{Part, Transaction};
use std::alloc::{AllocError, Global};
use std::marker::Model;

/// The code of PAGE.
const PAGE: u8 = 0x00;

/// The code of CLEAR_FAULTS.
const CLEAR_FAULTS: u8 = 0x03;

/// The code of COEFFICIENTS.
const COEFFICIENTS: u8 = 0x30;

/// The code of STATUS_CML.
const STATUS_CML: u8 = 0x7e;

/// The state of a simulated device: the page that is selected, and what its registers hold.
#[derive(Debug, Drop)]
pub struct Registers<'p> {
    device: &'p DeviceProfile,
    /// The selected page, ffh for all of them.
    page: u8,
    /// The registers, those of a command side by side.
    registers: Vec<Register>,
    /// Where those of each code lie.
    places: [RegisterRange; 256],
    /// The codes of the status registers.
    status_codes: ArrayVec<u8, 256>,
}

impl<'p> Model for Registers<'p> {
    ghost use Rattle.pmb_registers.specs.State.{InState};

    ghost Value = { InState };

    ghost use Rattle.pmb_registers.specs.machine.Places.{in_state, IsKept};

    ghost view = { in_state };

    ghost invariant = { IsKept };
}

impl<'p> Registers<'p> {
    /// The registers of a device as they are at first, on page 0. All memory is taken here, at
    /// once, for just as many registers as the device has; an `Err` says that it was refused.
    pub fn new(alloc: Global, device: &'p DeviceProfile) -> Result<Self, AllocError>
        ensures { IfOk result (λ r. r ≡ record { device = device.now; state = first_state device.now }) }
    {
        let mut registers = Vec::with_capacity(alloc, count_registers(device))?;
        let mut places = no_places();
        for i in 0..device.len() {
            add_command(&mut registers, &mut places, device, i);
        }
        Ok(Registers {
            device,
            page: 0,
            registers,
            places,
            status_codes: status_codes(device),
        })
    }

    /// The device's profile.
    pub fn device(&self) -> &'p DeviceProfile
        ensures { result.now ≡ self.now.device }
    {
        self.device
    }

    /// The selected page, ffh for all of them.
    pub fn page(&self) -> u8
        ensures { result ≡ self.now.state.page }
    {
        self.page
    }

    /// What the register of a code holds on a page, of those that the device has.
    pub fn register(&self, page: u8, code: u8) -> Option<&[u8]>
        ensures { option_map (λ bytes. bytes.now) result ≡ register self.now.device self.now.state page code }
    {
        if page < self.device.pages() {
            self.held(page, code)
        } else {
            None
        }
    }

    /// What the register of a code holds on a page.
    fn held(&self, page: u8, code: u8) -> Option<&[u8]>
        ensures held { option_map (λ bytes. bytes.now) result ≡ held page code self.now.state.registers }
        ensures few { IfSome result (λ bytes. length bytes.now ≤ 255) }
    {
        let place = self.places[code as usize];
        bytes_in(self.registers.as_slice(), place, page, code)
    }

    /// Changes the registers of a code that are reached under the selected page.
    fn change(&mut self, code: u8, change: &Change<'_>)
        requires { HasRoom change.now }
        ensures { self.new ≡ record self.old {
          state = record self.old.state {
            registers = changed self.old.state.page (nat_eq code) (change_of change.now) self.old.state.registers;
          };
        } }
    {
        let place = self.places[code as usize];
        change_in(
            self.registers.as_mut_slice(),
            place,
            code,
            self.page,
            change,
        );
    }

    /// Selects a page by what is written to PAGE, whose register takes it.
    fn select(&mut self, bytes: &[u8])
        requires { length bytes.now ≤ 255 }
        ensures { self.new ≡ record self.old {
          state = record {
            page = selected_by self.old.state.page bytes.now;
            registers = changed self.old.state.page (nat_eq 0x00) (λ old. bytes.now) self.old.state.registers;
          };
        } }
    {
        self.change(PAGE, &Change::Take(bytes));
        if let Some(page) = bytes.first() {
            self.page = *page;
        }
    }

    /// Clears the status registers that are reached under the selected page.
    fn clear_faults(&mut self)
        ensures { self.new ≡ record self.old {
          state = record self.old.state {
            registers = changed self.old.state.page (is_status self.old.device) (map (λ byte. 0)) self.old.state.registers;
          };
        } }
    {
        clear_in_each(
            self.registers.as_mut_slice(),
            &self.places,
            self.status_codes.as_slice(),
            self.page,
        );
    }

    /// Whether a write is enabled: WRITE_PROTECT leaves it, where the device keeps to that.
    fn is_enabled(&self, code: u8, bytes: &[u8]) -> bool
        ensures { result ≡ is_enabled self.now.device self.now.state code bytes.now }
    {
        !self.device.protects()
            || (enables_by(self.held_or_none(WRITE_PROTECT), code) && takes(code, bytes))
    }

    /// A complete write of a code and its data, up to 255 bytes. One that WRITE_PROTECT disables, on
    /// a device that keeps to it, sets a bit of STATUS_CML, and does nothing else.
    pub fn write(&mut self, code: u8, bytes: &[u8])
        requires { length bytes.now ≤ 255 }
        ensures { self.new ≡ record self.old { state = after_write self.old.device code bytes.now self.old.state } }
    {
        if self.is_enabled(code, bytes) {
            self.write_enabled(code, bytes);
        } else {
            self.note(CmlBit::BadValue);
        }
    }

    /// A complete write of a code and its data, up to 255 bytes, that came to another address at which
    /// the device's part takes what is written. It acts as one at the device's own address where the
    /// device has such a write: the command, in a form that takes these data, and of PAGE a value that
    /// is one of its pages or ffh. Else it does nothing.
    pub fn write_other(&mut self, code: u8, bytes: &[u8])
        requires { length bytes.now ≤ 255 }
        ensures { self.new ≡ record self.old { state = after_other self.old.device code bytes.now self.old.state } }
    {
        if self.device.has_write(code, bytes) {
            self.write(code, bytes);
        }
    }

    /// What a complete write does that is enabled.
    fn write_enabled(&mut self, code: u8, bytes: &[u8])
        requires { length bytes.now ≤ 255 }
        ensures { self.new ≡ record self.old { state = after_enabled self.old.device code bytes.now self.old.state } }
    {
        if code == PAGE {
            self.select(bytes);
        } else if code == CLEAR_FAULTS {
            self.clear_faults();
        } else if is_sent_alone(self.device, code) {
            return;
        } else if is_status(self.device, code) {
            self.change(code, &Change::ClearBits(bytes));
        } else {
            self.change(code, &Change::Take(bytes));
        }
    }

    /// Sets a bit of STATUS_CML, where the device has that register and it can be read.
    pub fn note(&mut self, bit: CmlBit)
        ensures { self.new ≡ record self.old { state = with_bit self.old.device bit self.old.state } }
    {
        if is_read(self.device, STATUS_CML) {
            self.change(STATUS_CML, &Change::SetBits(bit.value()));
        }
    }

    /// The answer to the body of a read or a call: a reply, of up to 255 bytes, or the bit of
    /// STATUS_CML for which the device refuses to be read.
    pub fn answer<'a>(&'a self, body: &[u8]) -> Result<Reply<'a>, CmlBit>
        ensures answer { answer_bytes result ≡ answer self.now.device self.now.state body.now }
        ensures few { IfOk result (λ reply. length (reply_bytes reply) ≤ 255) }
    {
        let Some((code, behind)) = body.split_first() else {
            return Err(CmlBit::BadCommand);
        };
        if self.page == ALL_PAGES && is_paged(self.device, *code) {
            return Err(CmlBit::BadValue);
        }
        if behind.is_empty() {
            return Ok(Reply::Held(self.held_or_none(*code)));
        }
        if *code != COEFFICIENTS {
            return Err(CmlBit::BadCommand);
        }
        match answer_coefficients(self.device, behind) {
            Ok(bytes) => Ok(Reply::Coefficients(bytes)),
            Err(bit) => Err(bit),
        }
    }

    /// What the register of a code holds on the selected page; no bytes where there is none.
    fn held_or_none(&self, code: u8) -> &[u8]
        ensures held { result.now ≡ unwrap_or (held self.now.state.page code self.now.state.registers) [] }
        ensures few { length result.now ≤ 255 }
    {
        match self.held(self.page, code) {
            Some(bytes) => bytes,
            None => &[],
        }
    }

    /// What a transaction makes of the state: each part that is the device's acts, in their order,
    /// and a leg that it refused is noted. Then the parts that came to its other addresses act.
    pub fn apply(&mut self, transaction: &Transaction)
        ensures { self.new ≡ record self.old { state = apply self.old.device (transaction_data transaction.now) self.old.state } }
    {
        match transaction {
            Transaction::Write { parts } => {
                self.apply_parts(parts.as_slice());
                self.apply_others(parts.as_slice());
            }
            Transaction::Refused {
                parts,
                addr,
                sent,
                at_read,
            } => {
                self.apply_parts(parts.as_slice());
                self.apply_refusal(*addr, sent.as_slice(), *at_read);
                self.apply_others(parts.as_slice());
            }
            Transaction::Read { .. }
            | Transaction::Call { .. }
            | Transaction::Alert { .. }
            | Transaction::NoAlert => {}
        }
    }

    /// What complete parts make of the state.
    fn apply_parts(&mut self, parts: &[Part])
        ensures { self.new ≡ record self.old { state = after_parts self.old.device (map part_data parts.now) self.old.state } }
    {
        for part in parts {
            self.apply_part(part);
        }
    }

    /// What a complete part makes of it, if it is the device's.
    fn apply_part(&mut self, part: &Part)
        ensures { self.new ≡ record self.old { state = after_part self.old.device (part_data part.now) self.old.state } }
    {
        if part.addr == self.device.address() {
            self.write(part.code, part.bytes.as_slice());
        }
    }

    /// What complete parts at its other addresses make of it.
    fn apply_others(&mut self, parts: &[Part])
        ensures { self.new ≡ record self.old { state = after_others self.old.device self.old.device.also (map part_data parts.now) self.old.state } }
    {
        let also = self.device.also().addresses();
        for address in also.as_slice() {
            self.apply_at(*address, parts);
        }
    }

    /// What the first part with an address makes of it, if that isn't the device's own.
    fn apply_at(&mut self, address: u8, parts: &[Part])
        ensures { self.new ≡ record self.old { state = after_at self.old.device address (part_to address (map part_data parts.now)) self.old.state } }
    {
        if address == self.device.address() {
            return;
        }
        if let Some(part) = part_to(parts, address) {
            self.write_other(part.code, part.bytes.as_slice());
        }
    }

    /// What a refused leg makes of it, if it is the device's.
    fn apply_refusal(&mut self, addr: u8, sent: &[u8], at_read: bool)
        ensures { self.new ≡ record self.old {
          state = if nat_eq addr self.old.device.address
              then with_noted self.old.device (bit_of_refused self.old.device self.old.state sent.now at_read) self.old.state
              else self.old.state;
        } }
    {
        if addr != self.device.address() {
            return;
        }
        if let Some(bit) = self.bit_of_refused(sent, at_read) {
            self.note(bit);
        }
    }

    /// The bit for which a leg was refused, with the bytes that were sent after the address.
    fn bit_of_refused(&self, sent: &[u8], at_read: bool) -> Option<CmlBit>
        ensures { result ≡ bit_of_refused self.now.device self.now.state sent.now at_read }
    {
        if !at_read {
            return bit_of_sent(sent);
        }
        match self.answer(sent) {
            Ok(_) => None,
            Err(bit) => Some(bit),
        }
    }
}

/// The first of complete parts that came to an address.
fn part_to(parts: &[Part], address: u8) -> Option<&Part>
    ensures { option_map (λ part. part_data part.now) result ≡ part_to address (map part_data parts.now) }
{
    for part in parts {
        if part.addr == address {
            return Some(part);
        }
    }
    None
}

/// The bit for which the last of these bytes after an address was refused: the code, the value of
/// PAGE, or what stands where the packet error code has to.
fn bit_of_sent(sent: &[u8]) -> Option<CmlBit>
    ensures { result ≡ bit_of_sent sent.now }
{
    match sent {
        [] => None,
        [_] => Some(CmlBit::BadCommand),
        [code, _] if *code == PAGE => Some(CmlBit::BadValue),
        _ => Some(CmlBit::PecFailed),
    }
}
