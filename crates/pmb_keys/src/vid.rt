//! The VID tables of a device's output voltages.
//!
//! Its rows: `tests/rows/profiles.txt`.

ghost use Rattle.std.specs.Prelude.{◌≡◌, ◌≤◌, Ok, Some, IfOk, IfSome, codes, length, map, option_map, replicate};
ghost use Rattle.toml.specs.Data.{as_array, as_table};
ghost use Rattle.toml.specs.View.{array_view, items_view, table_view, view};
ghost use Rattle.pmb_command.specs.Bus.{HasTableForEach};
ghost use Rattle.pmb_keys.specs.Rules.{bind, each_of, optional};
ghost use Rattle.pmb_keys.specs.VidRule.{table_rule, tables_for, types_from, types_rule, vid_rule};
ghost use Rattle.pmb_keys.specs.VidView.{vid_parts};

use crate::fault::FaultKind;
use crate::rules::{DECIMALS, find, has_only, text_of};
use arrayvec::ArrayVec;
use pmb_value::VidTable;
use toml::{Table, Value};

/// The VID tables of a device's output voltages.
#[derive(Debug, Drop)]
pub enum VidTables {
    /// One for each page, from page 0 on.
    OfPages(ArrayVec<VidTable, 32>),
    /// One for each type that bits 4:0 of VOUT_MODE name, from type 0 on, where it has one.
    OfTypes(ArrayVec<Option<VidTable>, 32>),
}

/// The VID table that a value names, or BadValue.
fn table_rule(value: &Value) -> Result<VidTable, FaultKind>
    ensures { result ≡ table_rule (view value.now) }
{
    match VidTable::named(text_of(value)?) {
        Some(table) => Ok(table),
        None => Err(FaultKind::BadValue),
    }
}

/// One table for all pages.
fn same_table(table: VidTable, pages: u8) -> ArrayVec<VidTable, 32>
    requires { pages ≤ 32 }
    ensures { result.items ≡ replicate pages table }
{
    let mut tables = ArrayVec::new();
    for _ in 0..pages {
        tables.push(table);
    }
    tables
}

/// Refuses the first item of an array that names no table.
fn check_tables(items: &[Value]) -> Result<(), FaultKind>
    ensures { result ≡ bind (each_of table_rule (items_view items.now)) (λ _. Ok tt) }
{
    for item in items {
        table_rule(item)?;
    }
    Ok(())
}

/// The tables of an array.
fn tables_of(items: &[Value]) -> Result<ArrayVec<VidTable, 32>, FaultKind>
    requires { length items.now ≤ 32 }
    ensures read { bind result (λ tables. Ok tables.items) ≡ each_of table_rule (items_view items.now) }
    ensures count { IfOk result (λ tables. length tables.items ≡ length items.now) }
{
    let mut tables = ArrayVec::new();
    for item in items {
        let table = table_rule(item)?;
        tables.push(table);
    }
    Ok(tables)
}

/// The table of each page by an array, which has an item for each, or BadValue. All of its items are
/// looked at first.
fn each_table(items: &[Value], pages: u8) -> Result<ArrayVec<VidTable, 32>, FaultKind>
    requires { pages ≤ 32 }
    ensures read { bind result (λ tables. Ok tables.items) ≡ tables_for pages (items_view items.now) }
    ensures count { IfOk result (λ tables. length tables.items ≡ pages) }
{
    check_tables(items)?;
    if items.len() != usize::from(pages) {
        return Err(FaultKind::BadValue);
    }
    tables_of(items)
}

/// The table of a type, where there is one.
fn table_of_type(table: &Table, name: &str) -> Result<Option<VidTable>, FaultKind>
    ensures { result ≡ optional table_rule name.now (table_view table.now) }
{
    match find(table, name) {
        Some(value) => Ok(Some(table_rule(value)?)),
        None => Ok(None),
    }
}

/// The table of each type, by the types' names.
fn types_from(table: &Table, names: &[&str]) -> Result<ArrayVec<Option<VidTable>, 32>, FaultKind>
    requires { length names.now ≤ 32 }
    ensures read { bind result (λ tables. Ok tables.items) ≡ types_from (map (λ name. name.now) names.now) (table_view table.now) }
    ensures count { IfOk result (λ tables. length tables.items ≡ length names.now) }
{
    let mut tables = ArrayVec::new();
    for name in names {
        let of_type = table_of_type(table, name)?;
        tables.push(of_type);
    }
    Ok(tables)
}

/// The tables of types, in a table of a profile that has no other keys than these, or BadValue.
fn each_type(table: &Table) -> Result<ArrayVec<Option<VidTable>, 32>, FaultKind>
    ensures read { bind result (λ tables. Ok tables.items) ≡ types_rule (table_view table.now) }
    ensures count { IfOk result (λ tables. length tables.items ≡ 32) }
{
    if !has_only(table, &DECIMALS) {
        return Err(FaultKind::BadValue);
    }
    types_from(table, &DECIMALS)
}

/// The tables that a value names: a table for all pages, an array with one for each, or a table of
/// types.
fn vid_of(value: &Value, pages: u8) -> Result<VidTables, FaultKind>
    requires { pages ≤ 32 }
    ensures read { bind result (λ vid. Ok (vid_parts vid)) ≡ vid_rule pages (view value.now) }
    ensures each { IfOk result (λ vid. HasTableForEach pages (Some (vid_parts vid))) }
{
    if let Some(items) = value.as_array() {
        return Ok(VidTables::OfPages(each_table(items.as_slice(), pages)?));
    }
    if let Some(table) = value.as_table() {
        return Ok(VidTables::OfTypes(each_type(table)?));
    }
    Ok(VidTables::OfPages(same_table(table_rule(value)?, pages)))
}

/// The VID tables of a device, where it tells them.
pub(crate) fn read_vid(table: &Table, pages: u8) -> Result<Option<VidTables>, FaultKind>
    requires { pages ≤ 32 }
    ensures read { bind result (λ vid. Ok (option_map vid_parts vid)) ≡ optional (vid_rule pages) (codes "vid") (table_view table.now) }
    ensures each { IfOk result (λ vid. HasTableForEach pages (option_map vid_parts vid)) }
{
    match find(table, "vid") {
        Some(value) => Ok(Some(vid_of(value, pages)?)),
        None => Ok(None),
    }
}
