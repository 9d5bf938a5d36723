//! The command that the keys of a command's table change.
//!
//! Its rows: `tests/rows/profiles.txt`.

ghost use Rattle.std.specs.Prelude.{◌≡◌, ℕ, Some, None, Ok, IfOk, option_map, codes};
ghost use Rattle.toml.specs.Data.{get_member};
ghost use Rattle.toml.specs.View.{view, table_view};
ghost use Rattle.pmb_command.specs.Entry.{entry_parts};
ghost use Rattle.pmb_command.specs.Names.{IsNameOf, is_name};
ghost use Rattle.pmb_keys.specs.Rules.{bind, optional, unless};
ghost use Rattle.pmb_keys.specs.CommandRules.{byte_rule, bare_entry, base_of, base_rule};

use crate::fault::FaultKind;
use crate::rules::{byte_rule, find, text_of};
use pmb_command::{Entry, Kind, Name, Shape, by_name, is_name, name_of_code, standard};
use toml::{Table, Value};

/// A command that only its code tells: no forms, raw, not paged.
fn bare_entry(code: u8, name: Name) -> Entry
    ensures { entry_parts result ≡ bare_entry code name.bytes }
{
    Entry {
        code,
        name,
        shape: Shape {
            write: None,
            read: None,
            call: None,
        },
        kind: Kind::Raw,
        paged: false,
    }
}

/// The standard command of a name.
fn standard_base(name: &Value) -> Result<Entry, FaultKind>
    ensures read { bind result (λ e. Ok (entry_parts e)) ≡ base_of None (Some (view name.now)) }
    ensures named { IfOk result (λ e. IsNameOf e.code e.name.bytes) }
{
    let text = text_of(name)?;
    let Some(code) = by_name(text) else {
        return Err(FaultKind::UnknownName);
    };
    match standard(code) {
        Some(entry) => Ok(entry),
        None => Err(FaultKind::UnknownName),
    }
}

/// The name that a text gives, or BadName.
fn name_of(text: &str) -> Result<Name, FaultKind>
    ensures read { bind result (λ name. Ok name.bytes) ≡ bind (unless FaultKind.BadName (is_name text.now)) (λ _. Ok text.now) }
    ensures fits { IfOk result (λ name. (code : ℕ) → IsNameOf code name.bytes) }
{
    if !is_name(text) {
        return Err(FaultKind::BadName);
    }
    match Name::from(text) {
        Ok(name) => Ok(name),
        Err(_) => unreachable!(),
    }
}

/// A bare command with a name of its own.
fn named_base(code: u8, name: &Value) -> Result<Entry, FaultKind>
    ensures read { bind result (λ e. Ok (entry_parts e)) ≡ base_of (Some code) (Some (view name.now)) }
    ensures named { IfOk result (λ e. IsNameOf e.code e.name.bytes) }
{
    let text = text_of(name)?;
    let name = name_of(text)?;
    Ok(bare_entry(code, name))
}

/// The command that a code and a name tell, where there are some.
fn base_of(code: Option<u8>, name: Option<&Value>) -> Result<Entry, FaultKind>
    ensures read { bind result (λ e. Ok (entry_parts e)) ≡ base_of code (option_map (λ v. view v.now) name.entry) }
    ensures named { IfOk result (λ e. IsNameOf e.code e.name.bytes) }
{
    match (code, name) {
        (None, None) => Err(FaultKind::MissingKey),
        (None, Some(name)) => standard_base(name),
        (Some(code), None) => Ok(bare_entry(code, name_of_code(code))),
        (Some(code), Some(name)) => named_base(code, name),
    }
}

/// The code of a command's table.
fn read_code(table: &Table) -> Result<Option<u8>, FaultKind>
    ensures { result ≡ optional byte_rule (codes "code") (table_view table.now) }
{
    match find(table, "code") {
        Some(value) => Ok(Some(byte_rule(value)?)),
        None => Ok(None),
    }
}

/// The command that the keys of a table change.
pub(crate) fn read_base(table: &Table) -> Result<Entry, FaultKind>
    ensures read { bind result (λ e. Ok (entry_parts e)) ≡ base_rule (table_view table.now) }
    ensures named { IfOk result (λ e. IsNameOf e.code e.name.bytes) }
{
    let code = read_code(table)?;
    base_of(code, find(table, "name"))
}
