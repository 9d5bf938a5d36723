//! Whether a host can be made for a request.
//!
//! Its rows: `tests_host`, `src/host/faults.rt`; `tests/rows/requests.txt`.

ghost use Rattle.std.specs.Prelude.{◌≡◌, List, MatchResult};
ghost use Rattle.pmb_command.specs.Entry.{entry_parts};
ghost use Rattle.pmb_command.specs.PecMode.{AllowsPec};
ghost use Rattle.pmb_writer.specs.Invalid.{IsFirstBroken, forms_at};
ghost use Rattle.pmb_command.specs.Parts.{DeviceParts};
ghost use Rattle.pmb_request.specs.Request.{Command};
ghost use Rattle.pmb_host.specs.machine.Checks.{CanGet, Finds, HasReply, command_rules};
ghost use Rattle.pmb_host.specs.Rules.{CanSet, HasNoNumber, HasNumber, IsGetFault, IsSetFault, call_rules, read_rules};

use crate::number::{number_of, word_of};
use crate::step::HostFault;
use pmb_command::{Entry, Form};
use pmb_table::laws::accepted_bus;
use pmb_table::{DeviceProfile, Profile};
use pmb_value::{NumberFormat, Quantity};
use pmb_writer::Invalid;

/// A device, and a command of it.
#[derive(Clone, Copy, Debug)]
struct Found<'p> {
    device: &'p DeviceProfile,
    entry: &'p Entry,
}

/// The device with an address, and the command with a code of it.
fn command_of(profile: &Profile, addr: u8, code: u8) -> Result<Found<'_>, Invalid>
    ensures { MatchResult result (λ found. Finds profile.now addr code found.device.now (entry_parts found.entry.now))
        (IsFirstBroken (command_rules profile.now addr code)) }
{
    let Some(device) = profile.device(addr) else {
        return Err(Invalid::UnknownDevice);
    };
    match device.entry(code) {
        Some(entry) => Ok(Found { device, entry }),
        None => Err(Invalid::UnknownCommand),
    }
}

/// Whether the device takes a packet error code, or none.
fn check_mode(device: &DeviceProfile, pec: bool) -> Result<(), Invalid>
    ensures { MatchResult result (λ _. AllowsPec device.now.pec pec)
        (λ fault. (fault ≡ Invalid.PecMode) × (AllowsPec device.now.pec pec → ⊥)) }
{
    if device.pec().allows(pec) {
        Ok(())
    } else {
        Err(Invalid::PecMode)
    }
}

/// Checks a read, and returns the form of the reply.
pub(crate) fn check_read(profile: &Profile, addr: u8, code: u8, pec: bool) -> Result<Form, Invalid>
    ensures { MatchResult result (λ form. HasReply (read_rules profile.now (record { addr = addr; code = code; pec = pec })) (forms_at profile.now addr code).read form)
        (IsFirstBroken (read_rules profile.now (record { addr = addr; code = code; pec = pec }))) }
{
    let Found { device, entry } = command_of(profile, addr, code)?;
    let Some(form) = entry.shape.read else {
        return Err(Invalid::NotAllowed);
    };
    if !device.pec().allows(pec) {
        return Err(Invalid::PecMode);
    }
    Ok(form)
}

/// Checks a call, and returns the form of the reply.
pub(crate) fn check_call(
    profile: &Profile,
    addr: u8,
    code: u8,
    bytes: &[u8],
    pec: bool,
) -> Result<Form, Invalid>
    ensures { MatchResult result (λ form. HasReply (call_rules profile.now (record { addr = addr; code = code; pec = pec }) bytes.now) (forms_at profile.now addr code).call form)
        (IsFirstBroken (call_rules profile.now (record { addr = addr; code = code; pec = pec }) bytes.now)) }
{
    let Found { device, entry } = command_of(profile, addr, code)?;
    let Some(form) = entry.shape.call else {
        return Err(Invalid::NotAllowed);
    };
    if !form.fits(bytes) {
        return Err(Invalid::WrongLength);
    }
    if !device.pec().allows(pec) {
        return Err(Invalid::PecMode);
    }
    Ok(form)
}

/// The number format of a command: it has a number, then the packet error code is right, then the
/// format is known.
fn format_of(
    device: &DeviceProfile,
    entry: &Entry,
    mode: Option<u8>,
    pec: bool,
) -> Result<NumberFormat, HostFault>
    ensures { (profile : List DeviceParts) (c : Command) → Finds profile c.addr c.code device.now (entry_parts entry.now) → c.pec ≡ pec
        → MatchResult result (HasNumber profile c mode) (HasNoNumber profile c mode) }
{
    let number = number_of(device.vout_direct(), mode, entry.kind);
    if let Err(HostFault::NotAQuantity) = number {
        return number;
    }
    match check_mode(device, pec) {
        Ok(()) => number,
        Err(invalid) => Err(HostFault::Invalid(invalid)),
    }
}

/// The word that is written for a quantity.
pub(crate) fn check_set(
    profile: &Profile,
    addr: u8,
    code: u8,
    value: &Quantity,
    mode: Option<u8>,
    pec: bool,
) -> Result<u16, HostFault>
    ensures { MatchResult result (CanSet profile.now (record { addr = addr; code = code; pec = pec }) value.now mode)
        (IsSetFault profile.now (record { addr = addr; code = code; pec = pec }) value.now mode) }
{
    let Found { device, entry } = match command_of(profile, addr, code) {
        Ok(found) => found,
        Err(invalid) => return Err(HostFault::Invalid(invalid)),
    };
    match entry.shape.write {
        None | Some(Form::Zero) => return Err(HostFault::Invalid(Invalid::NotAllowed)),
        Some(_) => {}
    }
    match format_of(device, entry, mode, pec) {
        Ok(format) => word_of(format, value),
        Err(fault) => Err(fault),
    }
}

/// The format and the form in which a quantity is read.
pub(crate) fn check_get(
    profile: &Profile,
    addr: u8,
    code: u8,
    mode: Option<u8>,
    pec: bool,
) -> Result<(NumberFormat, Form), HostFault>
    ensures { MatchResult result (λ got. CanGet profile.now (record { addr = addr; code = code; pec = pec }) mode got.0 got.1)
        (IsGetFault profile.now (record { addr = addr; code = code; pec = pec }) mode) }
{
    let Found { device, entry } = match command_of(profile, addr, code) {
        Ok(found) => found,
        Err(invalid) => return Err(HostFault::Invalid(invalid)),
    };
    let Some(form) = entry.shape.read else {
        return Err(HostFault::Invalid(Invalid::NotAllowed));
    };
    match format_of(device, entry, mode, pec) {
        Ok(format) => Ok((format, form)),
        Err(fault) => Err(fault),
    }
}
