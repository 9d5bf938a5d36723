//! The leg that a device refused: whether its bytes are the beginning of a body.
//!
//! Its rows: `tests_packets`, `src/writer/faults.rt` and `packets.rt`; `tests/rows/lines.txt`.

ghost use Rattle.std.specs.Prelude.{◌≡◌, ◌↔◌, ◌≤◌, ◌∷◌, map, length, nat_eq, IsTrue, false, true};
ghost use Rattle.pmb_command.specs.Parts.{device_with};
ghost use Rattle.pmb_transaction.specs.Transaction.{part_data};
ghost use Rattle.pmb_writer.specs.Invalid.{AnswersRules, CanBeAsked, refused_leg_rules};
ghost use Rattle.pmb_writer.specs.machine.Lengths.{pec_length, leaves_room, is_whole_wire, may_go_on, is_request, may_begin};

use crate::commands::forms_of;
use crate::invalid::Invalid;
use pmb_command::{Form, PecMode, Shape};
use pmb_table::Profile;
use pmb_transaction::Part;

/// How many bytes may follow the wire of a write.
fn pec_length(mode: PecMode) -> usize
    ensures { result ≡ pec_length mode }
{
    if mode.may_carry() { 1 } else { 0 }
}

/// Whether the wire of a form, with so many bytes after it, is longer than these bytes.
fn leaves_room(form: Option<Form>, more: usize, bytes: &[u8]) -> bool
    requires { more ≤ 1 }
    ensures { result ≡ leaves_room form more bytes.now }
{
    match form {
        None => false,
        Some(form) => bytes.len() < form.wire_length(bytes) + more,
    }
}

/// Whether these bytes are as long as the wire of a form.
fn is_whole(form: Option<Form>, bytes: &[u8]) -> bool
    ensures { result ≡ is_whole_wire form bytes.now }
{
    match form {
        None => false,
        Some(form) => bytes.len() == form.wire_length(bytes),
    }
}

/// Whether a body may begin with the code of a command of these forms.
fn may_begin(first: bool, forms: Shape) -> bool
    ensures { result ≡ may_begin first forms }
{
    forms.write.is_some() || first && (forms.read.is_some() || forms.call.is_some())
}

/// Whether a command of these forms can be read or called.
fn is_asked(forms: Shape) -> bool
    ensures { IsTrue result ↔ CanBeAsked forms }
{
    forms.read.is_some() || forms.call.is_some()
}

/// Whether a body may continue after a code and these bytes.
fn may_go_on(first: bool, mode: PecMode, forms: Shape, bytes: &[u8]) -> bool
    ensures { result ≡ may_go_on first mode forms bytes.now }
{
    leaves_room(forms.write, pec_length(mode), bytes) || first && leaves_room(forms.call, 0, bytes)
}

/// Whether a code and these bytes are the body of a read or a call.
fn is_request(forms: Shape, bytes: &[u8]) -> bool
    ensures { result ≡ is_request forms bytes.now }
{
    forms.read.is_some() && bytes.is_empty() || is_whole(forms.call, bytes)
}

/// Checks bytes that a device was sent, the last of which it refused.
fn check_refused_byte(
    profile: &Profile,
    parts: &[Part],
    address: u8,
    sent: &[u8],
) -> Result<(), Invalid>
    ensures { AnswersRules (refused_leg_rules profile.now (map part_data parts.now) address sent.now false) result }
{
    let Some((code, behind_code)) = sent.split_first() else {
        return Ok(());
    };
    let Some(device) = profile.device(address) else {
        return Err(Invalid::UnknownDevice);
    };
    let Some((_, taken)) = behind_code.split_last() else {
        return Ok(());
    };
    let Some(forms) = forms_of(device, *code) else {
        return Err(Invalid::UnknownCommand);
    };
    let first = parts.is_empty();
    if !may_begin(first, forms) {
        return Err(Invalid::NotAllowed);
    }
    if !may_go_on(first, device.pec(), forms, taken) {
        return Err(Invalid::WrongLength);
    }
    Ok(())
}

/// Checks bytes that a device took, whose reply it refused.
fn check_refused_reply(
    profile: &Profile,
    parts: &[Part],
    address: u8,
    sent: &[u8],
) -> Result<(), Invalid>
    ensures { AnswersRules (refused_leg_rules profile.now (map part_data parts.now) address sent.now true) result }
{
    let Some(device) = profile.device(address) else {
        return Err(Invalid::UnknownDevice);
    };
    if !parts.is_empty() {
        return Err(Invalid::NotAllowed);
    }
    let Some((code, bytes)) = sent.split_first() else {
        return Err(Invalid::WrongLength);
    };
    let Some(forms) = forms_of(device, *code) else {
        return Err(Invalid::UnknownCommand);
    };
    if !is_asked(forms) {
        return Err(Invalid::NotAllowed);
    }
    if !is_request(forms, bytes) {
        return Err(Invalid::WrongLength);
    }
    Ok(())
}

/// Checks the leg that a device refused after some parts.
pub(crate) fn check_refused_leg(
    profile: &Profile,
    parts: &[Part],
    address: u8,
    sent: &[u8],
    at_read: bool,
) -> Result<(), Invalid>
    ensures { AnswersRules (refused_leg_rules profile.now (map part_data parts.now) address sent.now at_read) result }
{
    if at_read {
        check_refused_reply(profile, parts, address, sent)
    } else {
        check_refused_byte(profile, parts, address, sent)
    }
}
