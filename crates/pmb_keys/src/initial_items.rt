//! What a register begins with: the same bytes on each page, or an item for each.
//!
//! Its rows: `tests/rows/forms.txt`, `tests/rows/profiles.txt`.

ghost use Rattle.std.specs.Prelude.{◌≡◌, ◌⊎◌, ◌<◌, true, Ok, Err, Some, IfErr, IfOk, IfSome, length, map, option_map, codes};
ghost use Rattle.std.specs.List.{AllByRecursion};
ghost use Rattle.toml.specs.Data.{as_array, as_str};
ghost use Rattle.toml.specs.View.{items_view, table_view, view};
ghost use Rattle.pmb_command.specs.Bus.{AreInitial, HasItemForEach, IsInitial};
ghost use Rattle.pmb_command.specs.Entry.{entry_parts};
ghost use Rattle.pmb_keys.specs.CommandView.{initial_parts};
ghost use Rattle.pmb_keys.specs.CommandRules.{bytes_rule, initial_check, initial_of, initial_rule, initial_value, items_check, items_rule, text_check, text_type, value_check};
ghost use Rattle.pmb_keys.specs.machine.Typed.{IsTyped};
ghost use Rattle.pmb_keys.specs.Rules.{bind, each_of, typed};

use crate::command::Initial;
use crate::fault::FaultKind;
use crate::initial::initial_bytes;
use crate::rules::{find, text_of};
use pmb_command::Entry;
use std::alloc::Global;
use toml::{Table, Value};

/// Refuses the first item of an array that is no text.
fn check_texts(items: &[Value]) -> Result<(), FaultKind>
    ensures { result ≡ bind (each_of (typed as_str) (items_view items.now)) (λ _. Ok tt) }
{
    for item in items {
        text_of(item)?;
    }
    Ok(())
}

/// Refuses a value that is neither a text nor an array of texts.
fn check_type(value: &Value) -> Result<(), FaultKind>
    ensures { result ≡ text_type (view value.now) (as_array (view value.now)) }
{
    match value.as_array() {
        Some(items) => check_texts(items.as_slice()),
        None => {
            text_of(value)?;
            Ok(())
        }
    }
}

/// The value of the bytes that a command begins with. Its type is looked at.
pub(crate) fn initial_value(table: &Table) -> Result<Option<&Value>, FaultKind>
    ensures read { bind result (λ value. Ok (option_map (λ v. view v.now) value)) ≡ initial_value (table_view table.now) }
    ensures typed { IfOk result (λ value. IsTyped (option_map (λ v. view v.now) value)) }
{
    match find(table, "initial") {
        Some(value) => {
            check_type(value)?;
            Ok(Some(value))
        }
        None => Ok(None),
    }
}

/// The bytes of a value, which is a text.
fn bytes_of(alloc: Global, entry: &Entry, value: &Value) -> Result<Vec<u8>, FaultKind>
    ensures read { (result ≡ Err FaultKind.OutOfMemory) ⊎ (bind result (λ v. Ok v.items) ≡ bytes_rule (entry_parts entry.now) (view value.now)) }
    ensures checked { IfErr (bind (typed as_str (view value.now)) (text_check (entry_parts entry.now))) (λ what. result ≡ Err what) }
    ensures fits { IfOk result (λ v. IsInitial (entry_parts entry.now) v.items) }
{
    initial_bytes(alloc, entry, text_of(value)?)
}

/// The bytes of each item of an array.
fn each_bytes(alloc: Global, entry: &Entry, items: &[Value]) -> Result<Vec<Vec<u8>>, FaultKind>
    ensures read { (result ≡ Err FaultKind.OutOfMemory) ⊎ (bind result (λ vs. Ok (map (λ v. v.items) vs.items)) ≡ each_of (bytes_rule (entry_parts entry.now)) (items_view items.now)) }
    ensures fits { IfOk result (λ vs. AllByRecursion (IsInitial (entry_parts entry.now)) (map (λ v. v.items) vs.items)) }
    ensures count { IfOk result (λ vs. length (map (λ v. v.items) vs.items) ≡ length items.now) }
{
    let mut each = Vec::new(alloc);
    for item in items {
        let bytes = bytes_of(alloc, entry, item)?;
        if each.push(bytes).is_err() {
            return Err(FaultKind::OutOfMemory);
        }
    }
    Ok(each)
}

/// Refuses an array for a command without a value for each page, or without an item for each page.
fn check_items(entry: &Entry, pages: u8, items: &[Value]) -> Result<(), FaultKind>
    ensures read { result ≡ items_check (entry_parts entry.now) pages (items_view items.now) }
    ensures paged { IfOk result (λ _. entry.now.paged ≡ true) }
    ensures count { IfOk result (λ _. length items.now ≡ pages) }
{
    if !entry.paged {
        return Err(FaultKind::BadInitial);
    }
    if items.len() != usize::from(pages) {
        return Err(FaultKind::BadInitial);
    }
    Ok(())
}

/// The items of an array, one for each page of a command that has a value for each.
fn items_of(
    alloc: Global,
    entry: &Entry,
    pages: u8,
    items: &[Value],
) -> Result<Vec<Vec<u8>>, FaultKind>
    ensures read { (result ≡ Err FaultKind.OutOfMemory) ⊎ (bind result (λ vs. Ok (map (λ v. v.items) vs.items)) ≡ items_rule (entry_parts entry.now) pages (items_view items.now)) }
    ensures checked { IfErr (items_check (entry_parts entry.now) pages (items_view items.now)) (λ what. result ≡ Err what) }
    ensures paged { IfOk result (λ _. entry.now.paged ≡ true) }
    ensures fits { IfOk result (λ vs. AllByRecursion (IsInitial (entry_parts entry.now)) (map (λ v. v.items) vs.items)) }
    ensures count { IfOk result (λ vs. length (map (λ v. v.items) vs.items) ≡ pages) }
{
    check_items(entry, pages, items)?;
    each_bytes(alloc, entry, items)
}

/// What a command begins with, by a value that is a text or an array.
fn initial_rule(
    alloc: Global,
    entry: &Entry,
    pages: u8,
    value: &Value,
) -> Result<Initial, FaultKind>
    ensures read { (result ≡ Err FaultKind.OutOfMemory) ⊎ (bind result (λ i. Ok (initial_parts i)) ≡ initial_rule (entry_parts entry.now) pages (view value.now) (as_array (view value.now))) }
    ensures checked { IfErr (value_check (entry_parts entry.now) pages (view value.now) (as_array (view value.now))) (λ what. result ≡ Err what) }
    ensures fits { IfOk result (λ i. AreInitial (entry_parts entry.now) (initial_parts i)) }
    ensures each { IfOk result (λ i. HasItemForEach pages (Some (initial_parts i))) }
{
    match value.as_array() {
        Some(items) => Ok(Initial::Each(items_of(alloc, entry, pages, items.as_slice())?)),
        None => Ok(Initial::Same(bytes_of(alloc, entry, value)?)),
    }
}

/// What a command begins with, where a value says.
pub(crate) fn initial_of(
    alloc: Global,
    entry: &Entry,
    pages: u8,
    value: Option<&Value>,
) -> Result<Option<Initial>, FaultKind>
    ensures read { (result ≡ Err FaultKind.OutOfMemory) ⊎ (bind result (λ o. Ok (option_map initial_parts o)) ≡ initial_of (entry_parts entry.now) pages (option_map (λ v. view v.now) value.entry)) }
    ensures checked { IfErr (initial_check (entry_parts entry.now) pages (option_map (λ v. view v.now) value.entry)) (λ what. result ≡ Err what) }
    ensures fits { IfOk result (λ o. IfSome (option_map initial_parts o) (AreInitial (entry_parts entry.now))) }
    ensures each { IfOk result (λ o. HasItemForEach pages (option_map initial_parts o)) }
{
    match value {
        Some(value) => Ok(Some(initial_rule(alloc, entry, pages, value)?)),
        None => Ok(None),
    }
}
