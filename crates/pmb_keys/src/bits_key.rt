//! The names of a command's status bits.
//!
//! Its rows: `tests/rows/forms.txt`.

ghost use Rattle.std.specs.Prelude.{◌≡◌, ◌+◌, ◌≤◌, ◌<◌, [], Ok, IfErr, IfOk, codes, length, map, option_map, unwrap_or};
ghost use Rattle.std.specs.List.{list_any};
ghost use Rattle.std.specs.Str.{bytes_eq};
ghost use Rattle.toml.specs.View.{table_view, view};
ghost use Rattle.pmb_command.specs.Bus.{AreBits};
ghost use Rattle.pmb_command.specs.Entry.{entry_parts};
ghost use Rattle.pmb_command.specs.Fitting.{is_status_kind};
ghost use Rattle.pmb_keys.specs.CommandView.{bit_parts};
ghost use Rattle.pmb_keys.specs.FurtherKeys.{bit_keys, bit_rule, bits_from, bits_of, bits_rule, with_bit};
ghost use Rattle.pmb_keys.specs.Rules.{bind};

use crate::command::NamedBit;
use crate::fault::FaultKind;
use crate::rules::{DECIMALS, find, has_only, table_of, text_of};
use arrayvec::ArrayVec;
use pmb_command::{Entry, Kind, Name, bit_count, is_name};
use std::alloc::Global;
use toml::{Table, Value};

/// The bits of a status register that have names, from the lowest up.
pub(crate) type NamedBits = ArrayVec<NamedBit, 16>;

/// Whether a bit has a name.
fn has_name(bits: &[NamedBit], name: &str) -> bool
    ensures { result ≡ list_any (bytes_eq name.now) (map (λ b. b.name) (map bit_parts bits.now)) }
{
    for bit in bits {
        if name.as_bytes() == bit.name.as_bytes() {
            return true;
        }
    }
    false
}

/// The name that a value gives a bit, which no bit before it has.
fn bit_rule(before: &[NamedBit], value: &Value) -> Result<Name, FaultKind>
    ensures { bind result (λ name. Ok name.bytes) ≡ bit_rule (map bit_parts before.now) (view value.now) }
{
    let text = text_of(value)?;
    if !is_name(text) || has_name(before, text) {
        return Err(FaultKind::BadName);
    }
    match Name::from(text) {
        Ok(name) => Ok(name),
        Err(_) => unreachable!(),
    }
}

/// Adds a bit to those before it, where a value names it.
fn add_bit(bits: &mut NamedBits, bit: u8, value: Option<&Value>) -> Result<(), FaultKind>
    requires { length bits.old.items < 16 }
    ensures read { bind result (λ _. Ok (map bit_parts bits.new.items)) ≡ with_bit bit (map bit_parts bits.old.items) (option_map (λ v. view v.now) value.entry) }
    ensures count { length bits.new.items ≤ length bits.old.items + 1 }
{
    if let Some(value) = value {
        let name = bit_rule(bits.as_slice(), value)?;
        bits.push(NamedBit { bit, name });
    }
    Ok(())
}

/// The bits that a table names, whose keys these are from the lowest on.
fn bits_of_keys(table: &Table, keys: &[&str]) -> Result<NamedBits, FaultKind>
    requires { length keys.now ≤ 16 }
    ensures { bind result (λ bits. Ok (map bit_parts bits.items)) ≡ bits_from 0 (map (λ key. key.now) keys.now) [] (table_view table.now) }
{
    let mut bits = ArrayVec::new();
    for i in 0..keys.len() {
        add_bit(&mut bits, i as u8, find(table, keys[i]))?;
    }
    Ok(bits)
}

/// The keys of the bits of a command's status register, from the lowest up.
fn bit_keys(entry: &Entry) -> &'static [&'static str]
    ensures keys { map (λ key. key.now) result.now ≡ bit_keys (entry_parts entry.now) }
    ensures few { length result.now ≤ 16 }
{
    &DECIMALS[..bit_count(entry.shape)]
}

/// Whether the data are status bits.
const fn is_status(kind: Kind) -> bool
    ensures { result ≡ is_status_kind kind }
{
    matches!(kind, Kind::Status)
}

/// The bits that a value names, for a command that is a status register.
fn bits_rule(entry: &Entry, value: &Value) -> Result<NamedBits, FaultKind>
    ensures { bind result (λ bits. Ok (map bit_parts bits.items)) ≡ bits_rule (entry_parts entry.now) (view value.now) }
{
    let table = table_of(value)?;
    if !is_status(entry.kind) {
        return Err(FaultKind::UnknownKey);
    }
    let keys = bit_keys(entry);
    if !has_only(table, keys) {
        return Err(FaultKind::BadValue);
    }
    bits_of_keys(table, keys)
}

/// The bits of a command that its table names: none without the key.
pub(crate) fn read_bits(entry: &Entry, table: &Table) -> Result<NamedBits, FaultKind>
    ensures read { bind result (λ bits. Ok (map bit_parts bits.items)) ≡ bits_of (entry_parts entry.now) (table_view table.now) }
    ensures fits { IfOk result (λ bits. AreBits (entry_parts entry.now) (map bit_parts bits.items)) }
{
    match find(table, "bits") {
        Some(value) => bits_rule(entry, value),
        None => Ok(ArrayVec::new()),
    }
}

/// The bits, in memory that they fill. Where there are none, none is taken.
pub(crate) fn in_memory(alloc: Global, bits: &NamedBits) -> Result<Option<Vec<NamedBit>>, FaultKind>
    ensures same { IfOk result (λ kept. unwrap_or (option_map (λ bits. map bit_parts bits.items) kept) [] ≡ map bit_parts bits.now.items) }
    ensures memory { IfErr result (λ what. what ≡ FaultKind.OutOfMemory) }
{
    if bits.is_empty() {
        return Ok(None);
    }
    match Vec::from_slice(alloc, bits.as_slice()) {
        Ok(kept) => Ok(Some(kept)),
        Err(_) => Err(FaultKind::OutOfMemory),
    }
}
