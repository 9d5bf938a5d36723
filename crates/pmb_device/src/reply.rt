//! The bytes with which a device answers a read or a call.

ghost use Rattle.std.specs.Prelude.{◌≡◌, ◌≤◌, ◌∷◌, [], ◌++◌, ℕ, List, length, MatchOption};
ghost use Rattle.pmb_bus.specs.Pec.{pec};
ghost use Rattle.pmb_command.specs.Parts.{DeviceParts};
ghost use Rattle.pmb_bus.specs.Address.{read_address, write_address};
ghost use Rattle.pmb_transaction.specs.Body.{checked, forms, IsFormOfRequest};
ghost use Rattle.pmb_command.specs.Wire.{wire};
ghost use Rattle.pmb_leg.specs.Leg.{IsRequest};
ghost use Rattle.pmb_device.specs.Rules.{IsReplyTo, carries_pec};

use arrayvec::ArrayVec;
use pmb_bus::laws::worked_pecs;
use pmb_bus::pec_next;
use pmb_command::{Form, PecMode, Shape};
use pmb_leg::{Asked, LegPlace, WrittenLeg};
use pmb_table::DeviceProfile;

/// The forms of a command that there isn't.
const NO_FORMS: Shape = Shape {
    write: None,
    read: None,
    call: None,
};

/// The forms in which a device takes a command code.
fn forms_of(device: &DeviceProfile, code: u8) -> Shape
    ensures { result ≡ forms device.now code }
{
    match device.entry(code) {
        Some(entry) => entry.shape,
        None => NO_FORMS,
    }
}

/// The form in which what a leg asks is answered.
fn form_of_request(device: &DeviceProfile, leg: &WrittenLeg) -> Option<Form>
    ensures { leg.now.device ≡ device.now → MatchOption result (leg.now.place ≡ LegPlace.First → IsRequest device.now leg.now.bytes → ⊥)
        (λ form. IsFormOfRequest device.now form leg.now.bytes) }
{
    match leg.asked() {
        Some(Asked::Read { code }) => forms_of(device, code).read,
        Some(Asked::Call { code, .. }) => forms_of(device, code).call,
        None => None,
    }
}

/// The packet error code of some bytes and more after them, where `so_far` is that of the former.
fn pec_over(so_far: u8, bytes: &[u8]) -> u8
    ensures { (front : List ℕ) → pec front ≡ so_far → result ≡ pec (front ++ bytes.now) }
{
    let mut crc = so_far;
    for &byte in bytes {
        crc = pec_next(crc, byte);
    }
    crc
}

/// The packet error code of a leg that is written, and of the address after it that is read.
fn pec_in_front(device: &DeviceProfile, body: &[u8]) -> u8
    ensures { result ≡ pec (write_address device.now.address ∷ body.now ++ read_address device.now.address ∷ []) }
{
    worked_pecs();
    let address = device.address() * 2;
    let written = pec_over(pec_next(0, address), body);
    pec_next(written, address + 1)
}

/// Puts the data in a form in place of other bytes.
fn put_wire(bytes: &mut ArrayVec<u8, 257>, form: Form, content: &[u8])
    requires { length content.now ≤ 255 }
    ensures value { bytes.new.items ≡ wire form content.now }
    ensures short { length bytes.new.items ≤ 256 }
{
    bytes.clear();
    if form == Form::Block {
        bytes.push(content.len() as u8);
    }
    let _ = bytes.try_extend_from_slice(content);
}

/// Puts the packet error code after the bytes of a reply, where the device's packets have one.
fn put_code(bytes: &mut ArrayVec<u8, 257>, device: &DeviceProfile, body: &[u8])
    requires { length bytes.old.items ≤ 256 }
    ensures { bytes.new.items ≡ checked (carries_pec device.now device.now.pec)
        (write_address device.now.address ∷ body.now ++ read_address device.now.address ∷ []) bytes.old.items }
{
    match device.pec() {
        PecMode::Off => {}
        PecMode::On | PecMode::Optional => {
            let code = pec_over(pec_in_front(device, body), bytes.as_slice());
            bytes.push(code);
        }
    }
}

/// Puts the reply to what a leg asks in place of other bytes.
pub(crate) fn put_reply(
    bytes: &mut ArrayVec<u8, 257>,
    device: &DeviceProfile,
    leg: &WrittenLeg,
    content: &[u8],
)
    requires { length content.now ≤ 255 }
    ensures { leg.now.device ≡ device.now → leg.now.place ≡ LegPlace.First → IsRequest device.now leg.now.bytes
        → IsReplyTo device.now leg.now.bytes content.now bytes.new.items }
{
    let Some(form) = form_of_request(device, leg) else {
        return;
    };
    put_wire(bytes, form, content);
    put_code(bytes, device, leg.bytes());
}
