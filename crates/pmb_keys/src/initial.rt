//! The bytes that a register begins with.
//!
//! Its rows: `tests/rows/forms.txt`, `tests/rows/profiles.txt`.

ghost use Rattle.std.specs.Prelude.{◌≡◌, ◌≢◌, ◌⊎◌, ◌%◌, ◌↔◌, length, Ok, Err, IfOk, IfErr};
ghost use Rattle.pmb_command.specs.Bus.{IsInitial};
ghost use Rattle.pmb_command.specs.Entry.{entry_parts};
ghost use Rattle.pmb_keys.specs.Rules.{bind, or_fault};
ghost use Rattle.pmb_command.specs.Fitting.{register_form, is_length};
ghost use Rattle.pmb_keys.specs.CommandRules.{hex_bytes, initial_bytes, register_check, text_check};

use crate::fault::FaultKind;
use hex::FromHexError;
use pmb_command::{Entry, is_length, register_form};
use std::alloc::Global;

/// Why a text of digits could not be read: there was no memory for its bytes, or it is not pairs of
/// hexadecimal digits.
fn fault_of(error: FromHexError) -> FaultKind
    ensures memory { (result ≡ FaultKind.OutOfMemory) ↔ (error ≡ FromHexError.OutOfMemory) }
    ensures digits { (result ≡ FaultKind.BadInitial) ↔ (error ≢ FromHexError.OutOfMemory) }
{
    match error {
        FromHexError::OutOfMemory => FaultKind::OutOfMemory,
        FromHexError::InvalidHexCharacter { .. } => FaultKind::BadInitial,
        FromHexError::OddLength => FaultKind::BadInitial,
        FromHexError::InvalidStringLength => FaultKind::BadInitial,
    }
}

/// The bytes that a text of hexadecimal digits spells. An odd number of digits is refused without
/// memory.
fn hex_bytes(alloc: Global, text: &str) -> Result<Vec<u8>, FaultKind>
    ensures read { (result ≡ Err FaultKind.OutOfMemory) ⊎ (bind result (λ v. Ok v.items) ≡ or_fault FaultKind.BadInitial (hex_bytes text.now)) }
    ensures odd { length text.now % 2 ≡ 1 → result ≡ Err FaultKind.BadInitial }
{
    match hex::decode(alloc, text) {
        Ok(bytes) => Ok(bytes),
        Err(error) => Err(fault_of(error)),
    }
}

/// Refuses bytes for PAGE and VOUT_MODE, which begin as the device says, and for a command without a
/// register.
fn check_register(entry: &Entry) -> Result<(), FaultKind>
    ensures read { result ≡ register_check (entry_parts entry.now) }
    ensures other { IfOk result (λ _. (entry.now.code ≢ 0x00) × (entry.now.code ≢ 0x20)) }
{
    if entry.code == 0x00 || entry.code == 0x20 {
        return Err(FaultKind::BadInitial);
    }
    if register_form(entry.shape).is_none() {
        return Err(FaultKind::BadInitial);
    }
    Ok(())
}

/// The bytes that a command's register begins with. Memory is taken after what needs none is tested.
pub(crate) fn initial_bytes(alloc: Global, entry: &Entry, text: &str) -> Result<Vec<u8>, FaultKind>
    ensures read { (result ≡ Err FaultKind.OutOfMemory) ⊎ (bind result (λ v. Ok v.items) ≡ initial_bytes (entry_parts entry.now) text.now) }
    ensures checked { IfErr (text_check (entry_parts entry.now) text.now) (λ what. result ≡ Err what) }
    ensures odd { length text.now % 2 ≡ 1 → result ≡ Err FaultKind.BadInitial }
    ensures fits { IfOk result (λ v. IsInitial (entry_parts entry.now) v.items) }
{
    check_register(entry)?;
    let bytes = hex_bytes(alloc, text)?;
    if !is_length(register_form(entry.shape), bytes.len()) {
        return Err(FaultKind::BadInitial);
    }
    Ok(bytes)
}
