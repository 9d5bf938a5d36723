//! The table of the packets that are taken at once: what the bytes of each say. Those in which
//! something is refused are in `refused`, and alerts are in `alerts`.
//!
//! A new kind of packet needs a function here.
//!
//! Its rows: `tests_reader`, `src/canonical/rows.rt` and `compared.rt`.

ghost use Rattle.std.specs.Prelude.{◌≡◌, Bool, IfSome, IsSome, List, Some, ℕ, option_map};
ghost use Rattle.pmb_bus.specs.Address.{write_address};
ghost use Rattle.pmb_command.specs.Parts.{DeviceParts, device_with};
ghost use Rattle.pmb_canonical.specs.Canonical.{OneWritten, OneRead, OneCalled};

use crate::checked::{Data, data_from, whole_data};
use pmb_bus::read_address;
use pmb_table::{DeviceProfile, Profile};

/// A device's address, a command code and data.
#[derive(Clone, Copy)]
pub(crate) struct Transfer<'b> {
    pub(crate) address: u8,
    pub(crate) code: u8,
    pub(crate) data: Data<'b>,
}

/// A device's address, a command code, the data that are sent and those of the reply.
#[derive(Clone, Copy)]
pub(crate) struct Call<'b> {
    pub(crate) address: u8,
    pub(crate) code: u8,
    pub(crate) sent: &'b [u8],
    pub(crate) reply: Data<'b>,
}

/// The device that a byte addresses for writing.
#[inline(always)]
pub(crate) fn addressed(profile: &Profile, to_write: u8) -> Option<&DeviceProfile>
    ensures known { IfSome result (λ device. (to_write ≡ write_address device.now.address)
        × (device_with device.now.address profile.now ≡ Some device.now)) }
    ensures found { (address : ℕ) (device : DeviceParts) → to_write ≡ write_address address
        → device_with address profile.now ≡ Some device → option_map (λ d. d.now) result ≡ Some device }
{
    if to_write % 2 != 0 {
        return None;
    }
    profile.device(to_write / 2)
}

/// What a written leg says of these bytes: an address byte for writing, a code, the data in the form in
/// which the device's command is written, and a packet error code or none.
#[inline(always)]
pub(crate) fn written<'b>(profile: &Profile, bytes: &'b [u8]) -> Option<Transfer<'b>>
    ensures says { IfSome result (λ said. OneWritten profile.now said.address said.code said.data.bytes.now said.data.pec bytes.now) }
    ensures found { (address code : ℕ) (data_bytes : List ℕ) (pec : Bool) → OneWritten profile.now address code data_bytes pec bytes.now → IsSome result }
{
    let [to_write, code, ..] = bytes else {
        return None;
    };
    let device = addressed(profile, *to_write)?;
    let form = device.entry(*code)?.shape.write?;
    let data = data_from(form, device.pec(), bytes, 2)?;
    Some(Transfer {
        address: device.address(),
        code: *code,
        data,
    })
}

/// What the two legs of a read say of these bytes: an address byte for writing, a code, the address byte
/// of the same device for reading, the data in the form in which its command is read, and a packet
/// error code or none.
#[inline(always)]
pub(crate) fn read<'b>(profile: &Profile, bytes: &'b [u8]) -> Option<Transfer<'b>>
    ensures says { IfSome result (λ said. OneRead profile.now said.address said.code said.data.bytes.now said.data.pec bytes.now) }
    ensures found { (address code : ℕ) (data_bytes : List ℕ) (pec : Bool) → OneRead profile.now address code data_bytes pec bytes.now → IsSome result }
{
    let [to_write, code, to_read, ..] = bytes else {
        return None;
    };
    let device = addressed(profile, *to_write)?;
    if *to_read != read_address(device.address()) {
        return None;
    }
    let form = device.entry(*code)?.shape.read?;
    let data = data_from(form, device.pec(), bytes, 3)?;
    Some(Transfer {
        address: device.address(),
        code: *code,
        data,
    })
}

/// What the two legs of a call say of these bytes, where the first leg has `written` of them: an address
/// byte for writing, a code, the data in the form in which the device's command is called, the address
/// byte of the same device for reading, the reply in that form too, and a packet error code or none.
#[inline(never)]
pub(crate) fn called<'b>(profile: &Profile, bytes: &'b [u8], written: usize) -> Option<Call<'b>>
    ensures says { IfSome result (λ said. OneCalled profile.now said.address said.code said.reply.bytes.now said.reply.pec bytes.now said.sent.now written) }
    ensures found { (address code : ℕ) (sent reply : List ℕ) (pec : Bool) → OneCalled profile.now address code reply pec bytes.now sent written → IsSome result }
{
    let [to_write, code, ..] = bytes else {
        return None;
    };
    let device = addressed(profile, *to_write)?;
    let to_read = *bytes.get(written)?;
    if to_read != read_address(device.address()) {
        return None;
    }
    let form = device.entry(*code)?.shape.call?;
    let sent = whole_data(form, bytes.get(2..written)?)?;
    let reply = data_from(form, device.pec(), bytes, written + 1)?;
    Some(Call {
        address: device.address(),
        code: *code,
        sent,
        reply,
    })
}
