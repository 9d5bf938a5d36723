//! Whether a transaction has a packet.
//!
//! Its rows: `tests_packets`, `src/writer/faults.rt`; `tests/rows/lines.txt`.

ghost use Rattle.std.specs.Prelude.{◌≡◌, ◌↔◌, [], map, nat_eq, not, IsOk, IfErr};
ghost use Rattle.std.specs.List.{list_any};
ghost use Rattle.pmb_command.specs.Wire.{AreByteValues};
ghost use Rattle.pmb_transaction.specs.Transaction.{part_data, transaction_data};
ghost use Rattle.pmb_transaction.specs.Packet.{addresses};
ghost use Rattle.pmb_writer.specs.Invalid.{AnswersRules, HasPacket, IsFirstFault, part_rules, parts_rules, write_rules, read_rules, call_rules, refused_address_rules, refused_rules, transaction_rules};
ghost use Rattle.pmb_writer.specs.Typed.{IsTyped};

use crate::commands::forms_of;
use crate::invalid::Invalid;
use crate::refused::check_refused_leg;
use pmb_table::Profile;
use pmb_table::laws::accepted_bus;
use pmb_transaction::{Part, Transaction};
use std::slice;

/// Whether one of some parts has the address.
pub(crate) fn has_address(parts: &[Part], address: u8) -> bool
    ensures { result ≡ list_any (nat_eq address) (addresses (map part_data parts.now)) }
{
    for part in parts {
        if address == part.addr {
            return true;
        }
    }
    false
}

/// Checks a part after others.
fn check_part(profile: &Profile, earlier: &[Part], part: &Part) -> Result<(), Invalid>
    ensures { AnswersRules (part_rules profile.now (addresses (map part_data earlier.now)) (part_data part.now)) result }
{
    let Some(device) = profile.device(part.addr) else {
        return Err(Invalid::UnknownDevice);
    };
    if has_address(earlier, part.addr) {
        return Err(Invalid::AddressTwice);
    }
    let Some(forms) = forms_of(device, part.code) else {
        return Err(Invalid::UnknownCommand);
    };
    let Some(form) = forms.write else {
        return Err(Invalid::NotAllowed);
    };
    if !form.fits(part.bytes.as_slice()) {
        return Err(Invalid::WrongLength);
    }
    if !device.pec().allows(part.pec) {
        return Err(Invalid::PecMode);
    }
    Ok(())
}

/// Checks parts, each after those before it.
fn check_parts(profile: &Profile, parts: &[Part]) -> Result<(), Invalid>
    ensures { AnswersRules (parts_rules profile.now [] (map part_data parts.now)) result }
{
    for (number, part) in parts.iter().enumerate() {
        check_part(profile, &parts[..number], part)?;
    }
    Ok(())
}

/// Checks a write of these parts.
fn check_write(profile: &Profile, parts: &[Part]) -> Result<(), Invalid>
    ensures { AnswersRules (write_rules profile.now (map part_data parts.now)) result }
{
    if parts.is_empty() {
        return Err(Invalid::NoParts);
    }
    check_parts(profile, parts)
}

/// Checks a read.
fn check_read(profile: &Profile, addr: u8, code: u8, reply: &[u8], pec: bool) -> Result<(), Invalid>
    ensures { AnswersRules (read_rules profile.now (record { addr = addr; code = code; reply = reply.now; pec = pec })) result }
{
    let Some(device) = profile.device(addr) else {
        return Err(Invalid::UnknownDevice);
    };
    let Some(forms) = forms_of(device, code) else {
        return Err(Invalid::UnknownCommand);
    };
    let Some(form) = forms.read else {
        return Err(Invalid::NotAllowed);
    };
    if !form.fits(reply) {
        return Err(Invalid::WrongLength);
    }
    if !device.pec().allows(pec) {
        return Err(Invalid::PecMode);
    }
    Ok(())
}

/// Checks a call.
fn check_call(
    profile: &Profile,
    addr: u8,
    code: u8,
    bytes: &[u8],
    reply: &[u8],
    pec: bool,
) -> Result<(), Invalid>
    ensures { AnswersRules (call_rules profile.now (record { addr = addr; code = code; bytes = bytes.now; reply = reply.now; pec = pec })) result }
{
    let Some(device) = profile.device(addr) else {
        return Err(Invalid::UnknownDevice);
    };
    let Some(forms) = forms_of(device, code) else {
        return Err(Invalid::UnknownCommand);
    };
    let Some(form) = forms.call else {
        return Err(Invalid::NotAllowed);
    };
    if !form.fits(bytes) || !form.fits(reply) {
        return Err(Invalid::WrongLength);
    }
    if !device.pec().allows(pec) {
        return Err(Invalid::PecMode);
    }
    Ok(())
}

/// Checks the address of a refused packet, and what was sent to it after some parts.
fn check_refused_address(
    profile: &Profile,
    parts: &[Part],
    addr: u8,
    sent: &[u8],
    at_read: bool,
) -> Result<(), Invalid>
    ensures { AnswersRules (refused_address_rules profile.now (map part_data parts.now) addr sent.now at_read) result }
{
    if addr > 0x7f {
        return Err(Invalid::UnknownDevice);
    }
    if has_address(parts, addr) {
        return Err(Invalid::AddressTwice);
    }
    check_refused_leg(profile, parts, addr, sent, at_read)
}

/// Checks a refused packet.
#[tactic(auto, using(crate::proofs::Rules::kept_all, crate::proofs::Rules::broken_in_front, crate::proofs::Rules::broken_behind))]
fn check_refused(
    profile: &Profile,
    parts: &[Part],
    addr: u8,
    sent: &[u8],
    at_read: bool,
) -> Result<(), Invalid>
    ensures { AnswersRules (refused_rules profile.now (record { parts = map part_data parts.now; addr = addr; sent = sent.now; at_read = at_read })) result }
{
    match check_parts(profile, parts) {
        Ok(()) => check_refused_address(profile, parts, addr, sent, at_read),
        Err(fault) => Err(fault),
    }
}

/// The items of a slice of bytes are below 256.
fn items_are_bytes(bytes: &[u8])
    ensures { AreByteValues bytes.now }
{
    let _ = bytes;
}

/// Checks a transaction by its rules.
fn check_rules(profile: &Profile, transaction: &Transaction) -> Result<(), Invalid>
    ensures rules { AnswersRules (transaction_rules profile.now (transaction_data transaction.now)) result }
    ensures typed { IsTyped (transaction_data transaction.now) }
{
    match transaction {
        Transaction::Write { parts } => check_write(profile, parts.as_slice()),
        Transaction::Read {
            addr,
            code,
            reply,
            pec,
        } => check_read(profile, *addr, *code, reply.as_slice(), *pec),
        Transaction::Call {
            addr,
            code,
            bytes,
            reply,
            pec,
        } => check_call(
            profile,
            *addr,
            *code,
            bytes.as_slice(),
            reply.as_slice(),
            *pec,
        ),
        Transaction::Refused {
            parts,
            addr,
            sent,
            at_read,
        } => {
            items_are_bytes(sent.as_slice());
            check_refused(profile, parts.as_slice(), *addr, sent.as_slice(), *at_read)
        }
        Transaction::Alert { byte, .. } => {
            items_are_bytes(slice::from_ref(byte));
            Ok(())
        }
        Transaction::NoAlert => Ok(()),
    }
}

/// Whether a transaction has a packet under a profile; else the first of its faults.
///
/// Each part of a write or of a refused packet is checked in order: its device, that no part before
/// it has the address, the command, that it is written, the length of the data, and the packet
/// error code. A read or a call is checked in the same order. Of what was refused after its parts
/// the address is checked first; an address alone may be any of seven bits, and one byte sent to a
/// known device may be any. The Alert Response Address may always answer, or not.
pub fn check(profile: &Profile, transaction: &Transaction) -> Result<(), Invalid>
    ensures packet { IsOk result ↔ HasPacket profile.now (transaction_data transaction.now) }
    ensures first { IfErr result (IsFirstFault profile.now (transaction_data transaction.now)) }
{
    accepted_bus(profile);
    check_rules(profile, transaction)
}
