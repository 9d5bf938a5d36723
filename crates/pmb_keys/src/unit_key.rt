//! The unit of a command's numbers.
//!
//! Its rows: `tests/rows/forms.txt`.

ghost use Rattle.std.specs.Prelude.{◌≡◌, Ok, IfOk, IfSome, codes, option_map};
ghost use Rattle.toml.specs.View.{table_view, view};
ghost use Rattle.pmb_command.specs.Bus.{IsUnitOf};
ghost use Rattle.pmb_command.specs.Entry.{entry_parts};
ghost use Rattle.pmb_command.specs.Names.{IsUnit};
ghost use Rattle.pmb_keys.specs.FurtherKeys.{has_standard_kind, unit_of, unit_rule, unit_without_key};
ghost use Rattle.pmb_keys.specs.Rules.{bind};

use crate::command::unit_of_code;
use crate::fault::FaultKind;
use crate::rules::{find, text_of};
use arrayvec::ArrayString;
use pmb_command::{Entry, Kind, is_number, is_unit};
use toml::{Table, Value};

/// The unit that a value gives, for a command whose data are of a kind: 1 to 16 characters from 20h
/// to 7eh.
fn unit_rule(kind: Kind, value: &Value) -> Result<ArrayString<16>, FaultKind>
    ensures read { bind result (λ unit. Ok (Some unit.bytes)) ≡ unit_rule kind (view value.now) }
    ensures fits { IfOk result (λ unit. IsUnitOf kind unit.bytes) }
{
    let text = text_of(value)?;
    if !is_number(kind) {
        return Err(FaultKind::UnknownKey);
    }
    if !is_unit(text) {
        return Err(FaultKind::BadValue);
    }
    match ArrayString::from(text) {
        Ok(unit) => Ok(unit),
        Err(_) => unreachable!(),
    }
}

/// Whether a table has neither a code nor a kind of its own.
fn has_standard_kind(table: &Table) -> bool
    ensures { result ≡ has_standard_kind (table_view table.now) }
{
    !(find(table, "code").is_some() || find(table, "kind").is_some())
}

/// The unit of a command whose table has no key for it: the standard's, where its numbers are of the
/// standard's kind.
fn unit_without_key(entry: &Entry, table: &Table) -> Option<ArrayString<16>>
    ensures unit { option_map (λ unit. unit.bytes) result ≡ unit_without_key (entry_parts entry.now) (table_view table.now) }
    ensures fits { IfSome result (λ unit. IsUnitOf entry.now.kind unit.bytes) }
{
    if has_standard_kind(table) && is_number(entry.kind) {
        unit_of_code(entry.code)
    } else {
        None
    }
}

/// The unit of a command's numbers, where they have one.
pub(crate) fn read_unit(entry: &Entry, table: &Table) -> Result<Option<ArrayString<16>>, FaultKind>
    ensures read { bind result (λ unit. Ok (option_map (λ u. u.bytes) unit)) ≡ unit_of (entry_parts entry.now) (table_view table.now) }
    ensures fits { IfOk result (λ unit. IfSome (option_map (λ u. u.bytes) unit) (IsUnitOf entry.now.kind)) }
{
    match find(table, "unit") {
        Some(value) => Ok(Some(unit_rule(entry.kind, value)?)),
        None => Ok(unit_without_key(entry, table)),
    }
}
