//! What a table of a profile says of one command.
//!
//! Its rows: `tests_tasks`, `src/profiles.rt`; `tests/rows/profiles.txt`, `tests/rows/forms.txt`.

ghost use Rattle.std.specs.Prelude.{◌≡◌, ◌≢◌, ◌⊎◌, Ok, Err, IfOk, IfErr, IfSome, not, map, codes, nat_eq, option_map};
ghost use Rattle.std.specs.List.{list_any};
ghost use Rattle.toml.specs.Data.{as_bool};
ghost use Rattle.toml.specs.View.{view, table_view};
ghost use Rattle.pmb_command.specs.Entry.{entry_parts};
ghost use Rattle.pmb_command.specs.Bus.{AreBits, HasItemForEach, IsCommand, IsEntry, IsFitting, IsUnitOf};
ghost use Rattle.pmb_command.specs.Names.{IsNameOf};
ghost use Rattle.pmb_command.specs.Parts.{IsNew};
ghost use Rattle.pmb_keys.specs.CommandView.{command_parts};
ghost use Rattle.pmb_keys.specs.Rules.{bind, unless, only, typed, defaulted};
ghost use Rattle.pmb_keys.specs.CommandRules.{command_check, command_from, command_key_names, command_of, entry_rule, initial_check, initial_of};
ghost use Rattle.pmb_keys.specs.machine.FurtherView.{further_parts};
ghost use Rattle.pmb_command.specs.Fitting.{is_fitting};

use crate::base::read_base;
use crate::bits_key::in_memory;
use crate::command::Command;
use crate::exponent_key::read_exponent;
use crate::fault::FaultKind;
use crate::further_keys::{FurtherKeys, read_further};
use crate::initial_items::{initial_of, initial_value};
use crate::kind_keys::read_kind;
use crate::rules::{find, flag_of, only, table_of};
use crate::shape_keys::read_shape;
use crate::unsigned_key::read_unsigned;
use pmb_command::{Entry, is_fitting};
use std::alloc::Global;
use toml::{Table, Value};

/// Refuses a table with another key than a command's.
fn only_command_keys(table: &Table) -> Result<(), FaultKind>
    ensures { result ≡ only command_key_names (table_view table.now) }
{
    only(
        table,
        &[
            "code", "name", "write", "read", "call", "kind", "m", "b", "r", "exponent", "paged",
            "initial", "unsigned", "unit", "bits", "phased",
        ],
    )
}

/// Whether a command has a value for each page.
fn read_paged(base: bool, table: &Table) -> Result<bool, FaultKind>
    ensures { result ≡ defaulted (typed as_bool) base (codes "paged") (table_view table.now) }
{
    match find(table, "paged") {
        Some(value) => flag_of(value),
        None => Ok(base),
    }
}

/// What the keys of a table but for `initial` and those after it say, each ruled in its turn.
fn read_entry(table: &Table) -> Result<Entry, FaultKind>
    ensures read { bind result (λ entry. Ok (entry_parts entry)) ≡ entry_rule (table_view table.now) }
    ensures named { IfOk result (λ e. IsNameOf e.code e.name.bytes) }
{
    only_command_keys(table)?;
    let base = read_base(table)?;
    let shape = read_shape(base.shape, table)?;
    let worded = read_kind(base.kind, table)?;
    let kind = read_exponent(worded, table)?;
    let paged = read_paged(base.paged, table)?;
    Ok(Entry {
        code: base.code,
        name: base.name,
        shape,
        kind,
        paged,
    })
}

/// Refuses a code that an earlier command has.
fn check_code(code: u8, taken: &[u8]) -> Result<(), FaultKind>
    ensures read { result ≡ unless FaultKind.CodeTwice (not (list_any (nat_eq code) taken.now)) }
    ensures own_code { IfOk result (λ _. IsNew code taken.now) }
{
    if taken.contains(&code) {
        return Err(FaultKind::CodeTwice);
    }
    Ok(())
}

/// Refuses parts of a command that do not go together.
fn check_form(entry: &Entry) -> Result<(), FaultKind>
    ensures read { result ≡ unless FaultKind.BadForm (is_fitting (entry_parts entry.now)) }
    ensures fits { IfOk result (λ _. IsFitting (entry_parts entry.now)) }
{
    if !is_fitting(entry) {
        return Err(FaultKind::BadForm);
    }
    Ok(())
}

/// The command of what its keys say, which go together, with what it begins with. Memory is taken for
/// that first, and for the names of bits last.
fn command_from(
    alloc: Global,
    entry: Entry,
    further: FurtherKeys,
    pages: u8,
    given: Option<&Value>,
) -> Result<Command, FaultKind>
    requires entry { IsEntry (entry_parts entry) }
    requires unit { IfSome (further_parts further).unit (IsUnitOf entry.kind) }
    requires bits { AreBits (entry_parts entry) (further_parts further).bits }
    ensures read { (result ≡ Err FaultKind.OutOfMemory) ⊎ (bind result (λ c. Ok (command_parts c)) ≡ bind (initial_of (entry_parts entry) pages (option_map (λ v. view v.now) given.entry)) (λ initial. Ok (command_from (entry_parts entry) (further_parts further) initial))) }
    ensures checked { IfErr (initial_check (entry_parts entry) pages (option_map (λ v. view v.now) given.entry)) (λ what. result ≡ Err what) }
    ensures accepted { IfOk result (λ c. IsCommand (command_parts c)) }
    ensures items { IfOk result (λ c. HasItemForEach pages (command_parts c).initial) }
    ensures code { IfOk result (λ c. c.entry.code ≡ entry.code) }
{
    let initial = match initial_of(alloc, &entry, pages, given) {
        Ok(initial) => initial,
        Err(fault) => return Err(fault),
    };
    let bits = in_memory(alloc, &further.bits)?;
    Ok(Command {
        entry,
        initial,
        unit: further.unit,
        bits,
        phased: further.phased,
    })
}

/// The command of a value, on a device with so many pages, where its earlier commands have the codes
/// `taken`. Memory is taken for `initial` and `bits` alone, after all other rules: where it is refused,
/// each fault but `BadInitial` is told nonetheless.
pub fn read_command(
    alloc: Global,
    value: &Value,
    pages: u8,
    taken: &[u8],
) -> Result<Command, FaultKind>
    ensures read { (result ≡ Err FaultKind.OutOfMemory) ⊎ (bind result (λ c. Ok (command_parts c)) ≡ command_of pages taken.now (view value.now)) }
    ensures told { IfErr (command_of pages taken.now (view value.now)) (λ what. what ≢ FaultKind.BadInitial → result ≡ Err what) }
    ensures checked { IfErr (command_check pages taken.now (view value.now)) (λ what. result ≡ Err what) }
    ensures accepted { IfOk result (λ c. IsCommand (command_parts c)) }
    ensures items { IfOk result (λ c. HasItemForEach pages (command_parts c).initial) }
    ensures own_code { IfOk result (λ c. IsNew c.entry.code taken.now) }
{
    let table = table_of(value)?;
    let worded = read_entry(table)?;
    let given = initial_value(table)?;
    let entry = read_unsigned(worded, table)?;
    let further = read_further(&entry, table)?;
    check_code(entry.code, taken)?;
    check_form(&entry)?;
    command_from(alloc, entry, further, pages, given)
}
