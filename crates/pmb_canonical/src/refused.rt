//! What the bytes of a packet say in which something is refused.
//!
//! A byte may be refused wherever one may come: after the address, and inside a body that is allowed
//! there. Its value does not count.
//!
//! Its rows: `tests_reader`, `src/canonical/rows.rt` and `compared.rt`.

ghost use Rattle.std.specs.Prelude.{◌≡◌, ◌↔◌, ◌≤◌, ◌<◌, ◌+◌, [], ◌∷◌, IfSome, IsSome, IsTrue, List, ℕ, length};
ghost use Rattle.pmb_bus.specs.Address.{write_address};
ghost use Rattle.pmb_transaction.specs.Transaction.{PartData};
ghost use Rattle.pmb_transaction.specs.Body.{IsInsideBody, IsRequest, forms};
ghost use Rattle.pmb_canonical.specs.Canonical.{OneByteRefused, OneReadRefused};
ghost use Rattle.pmb_canonical.specs.Refused.{AreData, IsInsideData, is_read};

use crate::packets::addressed;
use pmb_bus::read_address;
use pmb_command::{Form, PecMode, Shape};
use pmb_table::{DeviceProfile, Profile};
use pmb_transaction::laws::bodies_are_short;

/// A device's address, and the bytes that it was sent.
#[derive(Clone, Copy)]
pub(crate) struct Sent<'b> {
    pub(crate) address: u8,
    pub(crate) bytes: &'b [u8],
}

/// The forms of a command that there isn't.
const NO_FORMS: Shape = Shape {
    write: None,
    read: None,
    call: None,
};

/// The forms in which a device takes a command code.
fn forms_of(device: &DeviceProfile, code: u8) -> Shape
    ensures { result ≡ forms device.now code }
{
    match device.entry(code) {
        Some(entry) => entry.shape,
        None => NO_FORMS,
    }
}

/// Whether data in a form, where there is one, begin with these bytes and continue, if only with a
/// packet error code that the mode allows.
fn go_on(wanted: Option<Form>, mode: PecMode, bytes: &[u8]) -> bool
    ensures { (before : List ℕ) → (IsTrue result ↔ IsInsideData wanted mode before bytes.now) }
{
    let Some(form) = wanted else {
        return false;
    };
    let whole = form.wire_length(bytes);
    if bytes.len() < whole {
        return true;
    }
    if bytes.len() > whole {
        return false;
    }
    mode.may_carry()
}

/// Whether these bytes are data in a form, where there is one.
fn are_data(wanted: Option<Form>, bytes: &[u8]) -> bool
    ensures { IsTrue result ↔ AreData wanted bytes.now }
{
    let Some(form) = wanted else {
        return false;
    };
    form.wire_length(bytes) == bytes.len()
}

/// Whether a command of these forms is read by its code alone, and nothing stands after that.
fn is_read(forms: Shape, behind: &[u8]) -> bool
    ensures { result ≡ is_read forms behind.now }
{
    behind.is_empty() && forms.read.is_some()
}

/// Whether a body that is allowed after `before` parts begins with these bytes and continues: a
/// call only after none.
fn is_inside_body(device: &DeviceProfile, bytes: &[u8], before: usize) -> bool
    ensures { (parts : List PartData) → length parts ≡ before → (IsTrue result ↔ IsInsideBody device.now parts bytes.now) }
{
    let Some((code, data)) = bytes.split_first() else {
        return true;
    };
    let forms = forms_of(device, *code);
    if go_on(forms.write, device.pec(), data) {
        return true;
    }
    if before > 0 {
        return false;
    }
    go_on(forms.call, PecMode::Off, data)
}

/// Whether these bytes ask a device for a reply.
fn is_request(device: &DeviceProfile, bytes: &[u8]) -> bool
    ensures { IsTrue result ↔ IsRequest device.now bytes.now }
{
    let Some((code, data)) = bytes.split_first() else {
        return false;
    };
    let forms = forms_of(device, *code);
    if is_read(forms, data) {
        return true;
    }
    are_data(forms.call, data)
}

/// The address that a byte names for writing.
fn written_to(byte: u8) -> Option<u8>
    ensures named { IfSome result (λ address. byte ≡ write_address address) }
    ensures found { (address : ℕ) → byte ≡ write_address address → IsSome result }
{
    if byte % 2 != 0 {
        return None;
    }
    Some(byte / 2)
}

/// The address that is refused in a leg of these bytes, of any device or of none.
pub(crate) fn refused_address(bytes: &[u8]) -> Option<u8>
    ensures says { IfSome result (λ address. (address < 128) × (bytes.now ≡ write_address address ∷ [])) }
    ensures found { (address : ℕ) → bytes.now ≡ write_address address ∷ [] → IsSome result }
{
    let [to_write] = bytes else {
        return None;
    };
    written_to(*to_write)
}

/// What a leg of these bytes says after so many parts whose last byte is refused: an address byte for
/// writing, and the bytes that are sent, of which those before the last are inside a body.
pub(crate) fn refused_byte<'b>(
    profile: &Profile,
    bytes: &'b [u8],
    before: usize,
) -> Option<Sent<'b>>
    ensures says { (parts : List PartData) → length parts ≡ before → IfSome result (λ said. OneByteRefused profile.now said.address said.bytes.now bytes.now parts) }
    ensures few { (parts : List PartData) → length parts ≡ before → IfSome result (λ said. length said.bytes.now ≤ 258) }
    ensures found { (parts : List PartData) (address : ℕ) (sent : List ℕ) → length parts ≡ before
        → OneByteRefused profile.now address sent bytes.now parts → IsSome result }
{
    bodies_are_short();
    let Some((to_write, sent)) = bytes.split_first() else {
        return None;
    };
    let Some((_, front)) = sent.split_last() else {
        return None;
    };
    let device = addressed(profile, *to_write)?;
    if !is_inside_body(device, front, before) {
        return None;
    }
    Some(Sent {
        address: device.address(),
        bytes: sent,
    })
}

/// What both legs of these bytes say where the device refuses to be read: an address byte for writing,
/// the bytes that are sent, which ask for a reply, and the address byte of the same device for reading.
/// The first leg has `written` of them.
pub(crate) fn unread<'b>(profile: &Profile, bytes: &'b [u8], written: usize) -> Option<Sent<'b>>
    requires { length bytes.now ≡ written + 1 }
    ensures says { IfSome result (λ said. OneReadRefused profile.now said.address said.bytes.now bytes.now written) }
    ensures few { IfSome result (λ said. length said.bytes.now ≤ 258) }
    ensures found { (address : ℕ) (sent : List ℕ) → OneReadRefused profile.now address sent bytes.now written → IsSome result }
{
    bodies_are_short();
    let Some((to_write, behind)) = bytes.split_first() else {
        return None;
    };
    let Some((to_read, sent)) = behind.split_last() else {
        return None;
    };
    let device = addressed(profile, *to_write)?;
    if *to_read != read_address(device.address()) {
        return None;
    }
    if !is_request(device, sent) {
        return None;
    }
    Some(Sent {
        address: device.address(),
        bytes: sent,
    })
}
