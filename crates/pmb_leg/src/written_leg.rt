//! The bytes that are written to a device after its address.
//!
//! The code byte opens what the device's entry allows: the body of a write, and in a first leg that
//! of a read or a call. Of a write and of a call it is kept what is left, and each byte after the
//! code moves both on; where one of them no longer fits the bytes, it stays closed. A read body
//! ends with the code.
//!
//! Its rows: `tests_packets`, `src/legs/written.rt`.

ghost use Rattle.std.specs.Prelude.{◌≡◌, ◌≢◌, ◌<◌, ◌≤◌, ◌↔◌, Bool, [], ◌∷◌, ◌++◌, IsTrue, IsSome, IfSome, length, List, ℕ, false, true};
ghost use Rattle.pmb_command.specs.Fitting.{calls_fit};
ghost use Rattle.pmb_transaction.specs.Transaction.{PartData};
ghost use Rattle.pmb_transaction.specs.Body.{BeginsBody, IsInsideBody, IsRequest, IsWriteBody, WriteBody, forms};
ghost use Rattle.pmb_transaction.specs.Viable.{IsAnswer, SaysAnswer};
ghost use Rattle.pmb_leg.specs.Leg.{IsAsked, begins_with, call_form, is_read, place_of, reply_form};
ghost use Rattle.pmb_leg.specs.Reply.{IsReply, SaysReply};

use crate::answer::Answer;
use crate::content::{Asked, WriteContent};
use crate::left::{DataLeft, data_within, one_goes_on, one_takes};
use crate::place::LegPlace;
use arrayvec::ArrayVec;
use pmb_bus::laws::{pec_is_all_that_counts, worked_pecs};
use pmb_bus::{pec_next, read_address, write_address};
use pmb_command::{Form, PecMode, Shape};
use pmb_table::DeviceProfile;
use std::marker::Model;

/// The forms of a command that there isn't.
const NO_FORMS: Shape = Shape {
    write: None,
    read: None,
    call: None,
};

/// The forms in which a device takes a command code.
fn forms_of(device: &DeviceProfile, code: u8) -> Shape
    ensures forms { result ≡ forms device.now code }
    ensures called_with_data { calls_fit result.call ≡ true }
{
    match device.entry(code) {
        Some(entry) => entry.shape,
        None => NO_FORMS,
    }
}

/// The form of a call, where the leg may be one.
fn call_form(forms: Shape, place: LegPlace) -> Option<Form>
    ensures { result ≡ call_form place forms }
{
    match place {
        LegPlace::First => forms.call,
        LegPlace::Later => None,
    }
}

/// Whether a body that is allowed there begins with the code of a command of these forms.
fn begins_with(forms: Shape, place: LegPlace) -> bool
    ensures { result ≡ begins_with forms place }
{
    match place {
        LegPlace::First => forms.write.is_some() || forms.read.is_some() || forms.call.is_some(),
        LegPlace::Later => forms.write.is_some(),
    }
}

/// Whether a command of these forms is read by its code alone, and nothing stands after that.
fn is_read(forms: Shape, behind: &[u8]) -> bool
    ensures { result ≡ is_read forms behind.now }
{
    behind.is_empty() && forms.read.is_some()
}

/// The form of the reply to a body of a command of these forms.
fn reply_form(forms: Shape, body: &[u8]) -> Option<Form>
    ensures { result ≡ reply_form forms body.now }
{
    if body.len() == 1 {
        forms.read
    } else {
        forms.call
    }
}

/// A leg in which bytes are written to a device.
#[derive(Clone, Debug, Drop)]
pub struct WrittenLeg<'p> {
    device: &'p DeviceProfile,
    place: LegPlace,
    /// The forms of the command whose code was taken.
    forms: Shape,
    /// What is left of the body of a write, and of a call.
    write: DataLeft,
    call: DataLeft,
    /// The packet error code of the address byte and the bytes that were taken.
    crc: u8,
    /// The bytes that were taken after the address: a code, the count of a block, data, and a
    /// packet error code.
    bytes: ArrayVec<u8, 258>,
}

impl<'p> Model for WrittenLeg<'p> {
    ghost use Rattle.pmb_leg.specs.Leg.{Written};

    ghost Value = { Written };

    ghost use Rattle.pmb_leg.specs.machine.Legs.{written_so_far, IsLegUnderWay};

    ghost view = { written_so_far };

    ghost invariant = { IsLegUnderWay };
}

impl<'p> WrittenLeg<'p> {
    /// The leg of a device of which nothing was taken after the address.
    pub fn new(device: &'p DeviceProfile, place: LegPlace) -> Self
        ensures { result ≡ record { device = device.now; place = place; bytes = [] } }
    {
        WrittenLeg {
            device,
            place,
            forms: NO_FORMS,
            write: DataLeft::Closed,
            call: DataLeft::Closed,
            crc: 0,
            bytes: ArrayVec::new(),
        }
    }

    /// Begins the leg of a device in place of this one.
    pub fn restart(&mut self, device: &'p DeviceProfile, place: LegPlace)
        ensures { self.new ≡ record { device = device.now; place = place; bytes = [] } }
    {
        self.device = device;
        self.place = place;
        self.bytes.clear();
    }

    /// The device's address.
    pub fn address(&self) -> u8
        ensures { result ≡ self.now.device.address }
    {
        self.device.address()
    }

    /// The bytes that were taken.
    pub fn bytes(&self) -> &[u8]
        ensures value { result.now ≡ self.now.bytes }
        ensures fits { length result.now ≤ 258 }
    {
        self.bytes.as_slice()
    }

    /// Whether a byte more may come, be it taken or refused: whether nothing was taken yet, or a
    /// body that is allowed here begins with what was taken and continues.
    #[inline(always)]
    pub fn goes_on(&self) -> bool
        ensures inside { (parts : List PartData) → place_of parts ≡ self.now.place
            → (IsTrue result ↔ IsInsideBody self.now.device parts self.now.bytes) }
        ensures room { IsTrue result → length self.now.bytes < 258 }
    {
        if self.bytes.is_empty() {
            true
        } else {
            one_goes_on(self.write, self.call)
        }
    }

    /// Whether a body that is allowed here begins with what was taken and one byte more.
    #[inline]
    pub fn begins(&self, byte: u8) -> bool
        ensures { (parts : List PartData) → place_of parts ≡ self.now.place
            → (IsTrue result ↔ BeginsBody self.now.device parts (self.now.bytes ++ byte ∷ [])) }
    {
        if self.bytes.is_empty() {
            begins_with(forms_of(self.device, byte), self.place)
        } else {
            one_takes(self.write, self.call, self.crc, byte)
        }
    }

    /// Takes a byte more where a body that is allowed here begins so, and tells whether it did.
    /// Else nothing changes.
    #[inline(always)]
    pub fn take(&mut self, byte: u8) -> bool
        ensures begins { (parts : List PartData) → place_of parts ≡ self.old.place
            → (IsTrue result ↔ BeginsBody self.old.device parts (self.old.bytes ++ byte ∷ [])) }
        ensures taken { IsTrue result → self.new ≡ record self.old { bytes = self.old.bytes ++ byte ∷ [] } }
        ensures refused { result ≡ false → self.new ≡ self.old }
    {
        if self.bytes.is_empty() {
            self.take_code(byte)
        } else {
            self.take_data(byte)
        }
    }

    /// Takes the code, where nothing was taken yet.
    #[inline(never)]
    fn take_code(&mut self, code: u8) -> bool
        requires { self.old.bytes ≡ [] }
        ensures begins { (parts : List PartData) → place_of parts ≡ self.old.place
            → (IsTrue result ↔ BeginsBody self.old.device parts (code ∷ [])) }
        ensures taken { IsTrue result → self.new ≡ record self.old { bytes = code ∷ [] } }
        ensures refused { result ≡ false → self.new ≡ self.old }
    {
        let forms = forms_of(self.device, code);
        if !begins_with(forms, self.place) {
            return false;
        }
        worked_pecs();
        self.forms = forms;
        self.write = DataLeft::start(forms.write, self.device.pec());
        self.call = DataLeft::start(call_form(forms, self.place), PecMode::Off);
        self.crc = pec_next(pec_next(0, write_address(self.device.address())), code);
        self.bytes.push(code);
        true
    }

    /// Takes a byte after the code.
    #[inline(always)]
    fn take_data(&mut self, byte: u8) -> bool
        requires { self.old.bytes ≢ [] }
        ensures begins { (parts : List PartData) → place_of parts ≡ self.old.place
            → (IsTrue result ↔ BeginsBody self.old.device parts (self.old.bytes ++ byte ∷ [])) }
        ensures taken { IsTrue result → self.new ≡ record self.old { bytes = self.old.bytes ++ byte ∷ [] } }
        ensures refused { result ≡ false → self.new ≡ self.old }
    {
        let crc = self.crc;
        if !one_takes(self.write, self.call, crc, byte) {
            return false;
        }
        self.write = self.write.after(self.device.pec(), crc, byte);
        self.call = self.call.after(PecMode::Off, crc, byte);
        self.crc = pec_next(crc, byte);
        self.bytes.push(byte);
        true
    }

    /// What the bytes say as the body of a write, where they are one.
    pub fn says(&self) -> Option<WriteContent<'_>>
        ensures some { IsSome result ↔ IsWriteBody self.now.device self.now.bytes }
        ensures says { IfSome result (λ said. WriteBody self.now.device said.code said.bytes.now said.pec self.now.bytes) }
    {
        let Some((code, behind)) = self.bytes.as_slice().split_first() else {
            return None;
        };
        let Some(form) = self.forms.write else {
            return None;
        };
        let mode = self.device.pec();
        if !self.write.is_whole(mode) {
            return None;
        }
        let pec = self.write.has_code(mode);
        let bytes = data_within(form, pec, behind);
        Some(WriteContent {
            code: *code,
            bytes,
            pec,
        })
    }

    /// What a first leg asks of the device, where it is the body of a read or a call.
    pub fn asked(&self) -> Option<Asked<'_>>
        ensures { IsAsked self.now result }
    {
        match self.place {
            LegPlace::First => self.request(),
            LegPlace::Later => None,
        }
    }

    /// What a first leg asks.
    fn request(&self) -> Option<Asked<'_>>
        requires { self.now.place ≡ LegPlace.First }
        ensures { IsAsked self.now result }
    {
        let Some((code, behind)) = self.bytes.as_slice().split_first() else {
            return None;
        };
        if is_read(self.forms, behind) {
            return Some(Asked::Read { code: *code });
        }
        let Some(form) = self.forms.call else {
            return None;
        };
        if !self.call.is_whole(PecMode::Off) {
            return None;
        }
        let bytes = data_within(form, false, behind);
        Some(Asked::Call { code: *code, bytes })
    }

    /// Begins the answer to what the leg asks in place of another one.
    pub fn ask(&self, answer: &mut Answer)
        requires first { self.now.place ≡ LegPlace.First }
        requires asked { IsRequest self.now.device self.now.bytes }
        ensures fresh { answer.new.bytes ≡ [] }
        ensures answers { (all : List ℕ) → (IsReply answer.new.expected all
            ↔ IsAnswer self.now.device self.now.device.address self.now.bytes all) }
        ensures says { (reply : List ℕ) (with_pec : Bool) (all : List ℕ) → (SaysReply answer.new.expected reply with_pec all
            ↔ SaysAnswer self.now.device self.now.device.address self.now.bytes reply with_pec all) }
    {
        pec_is_all_that_counts();
        let form = reply_form(self.forms, self.bytes.as_slice());
        let code = pec_next(self.crc, read_address(self.device.address()));
        if let Some(form) = form {
            answer.restart(form, self.device.pec(), code);
        }
    }
}
