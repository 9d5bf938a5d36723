//! The lines of a device's VID tables.
//!
//! Its rows: `tests/rows/profile_text.txt`.

ghost use Rattle.std.specs.Prelude.{◌≡◌, ◌+◌, ◌*◌, ◌≤◌, ◌<◌, ◌++◌, Some, codes, length};
ghost use Rattle.std.specs.List.{list_all, list_any};
ghost use Rattle.std.specs.Option.{is_some};
ghost use Rattle.pmb_command.specs.Parts.{OfPages, OfTypes};
ghost use Rattle.pmb_profile_text.specs.Table.{field, page_lines, page_tables, type_lines, type_tables, vid_lines};
ghost use Rattle.pmb_profile_text.specs.Words.{page_word, type_word};
ghost use Rattle.pmb_vid.specs.Names.{same_table, table_name};

use crate::device_head::{KEYS, append_field};
use crate::row::{Row, append, append_cell, append_number, append_page};
use pmb_keys::VidTables;
use pmb_table::DeviceProfile;
use pmb_value::VidTable;

/// Appends the lines of a device's VID tables, where the profile tells them: at most 1,088 bytes, 34 for
/// each of 32 pages or types.
pub(crate) fn append_vid(lines: &mut Row, device: &DeviceProfile)
    requires { length lines.old.items + 1088 ≤ 2048 }
    ensures text { lines.new.items ≡ lines.old.items ++ vid_lines device.now.vid }
    ensures short { length lines.new.items ≤ length lines.old.items + 1088 }
{
    match device.vid() {
        None => {}
        Some(VidTables::OfPages(tables)) => append_page_tables(lines, tables.as_slice()),
        Some(VidTables::OfTypes(tables)) => append_type_tables(lines, tables.as_slice()),
    }
}

/// Whether all tables are this one.
fn are_all(table: VidTable, tables: &[VidTable]) -> bool
    ensures { result ≡ list_all (same_table table) tables.now }
{
    tables.iter().all(|other| table == *other)
}

/// Whether some type has a table.
fn has_table(tables: &[Option<VidTable>]) -> bool
    ensures { result ≡ list_any is_some tables.now }
{
    tables.iter().any(|table| table.is_some())
}

/// Appends the tables of pages: one line where all have one.
fn append_page_tables(lines: &mut Row, tables: &[VidTable])
    requires few { length tables.now ≤ 32 }
    requires room { length lines.old.items + 1088 ≤ 2048 }
    ensures text { lines.new.items ≡ lines.old.items ++ page_tables tables.now }
    ensures short { length lines.new.items ≤ length lines.old.items + 1088 }
{
    match tables {
        [] => {}
        [first, rest @ ..] if are_all(*first, rest) => {
            append_field(lines, b"vid", first.name().as_bytes());
        }
        _ => append_page_lines(lines, tables),
    }
}

/// Appends a line for each page.
fn append_page_lines(lines: &mut Row, tables: &[VidTable])
    requires few { length tables.now ≤ 32 }
    requires room { length lines.old.items + 1088 ≤ 2048 }
    ensures text { lines.new.items ≡ lines.old.items ++ page_lines (codes "vid") 0 tables.now }
    ensures short { length lines.new.items ≤ length lines.old.items + 1088 }
{
    let mut key: &[u8] = b"vid";
    let mut page: u8 = 0;
    for table in tables {
        append_page_line(lines, key, page, *table);
        key = b"";
        page += 1;
    }
}

/// Appends the line of a page: at most 34 bytes.
fn append_page_line(lines: &mut Row, key: &[u8], page: u8, table: VidTable)
    requires key { length key.now ≤ 3 }
    requires room { length lines.old.items + 34 ≤ 2048 }
    ensures text { lines.new.items ≡ lines.old.items ++ field key.now (page_word page ++ table_name table) }
    ensures short { length lines.new.items ≤ length lines.old.items + 34 }
{
    append_cell(lines, key, KEYS);
    append_page(lines, page);
    append(lines, table.name().as_bytes());
    append(lines, b"\n");
}

/// Appends the tables of types, or that no type has one.
fn append_type_tables(lines: &mut Row, tables: &[Option<VidTable>])
    requires few { length tables.now ≤ 32 }
    requires room { length lines.old.items + 1088 ≤ 2048 }
    ensures text { lines.new.items ≡ lines.old.items ++ type_tables tables.now }
    ensures short { length lines.new.items ≤ length lines.old.items + 1088 }
{
    if has_table(tables) {
        append_type_lines(lines, tables);
    } else {
        append_field(lines, b"vid", b"no types");
    }
}

/// Appends a line for each type that has a table.
fn append_type_lines(lines: &mut Row, tables: &[Option<VidTable>])
    requires few { length tables.now ≤ 32 }
    requires room { length lines.old.items + 1088 ≤ 2048 }
    ensures text { lines.new.items ≡ lines.old.items ++ type_lines (codes "vid") 0 tables.now }
    ensures short { length lines.new.items ≤ length lines.old.items + 1088 }
{
    let mut key: &[u8] = b"vid";
    let mut number: u8 = 0;
    for table in tables {
        if let Some(table) = table {
            append_type_line(lines, key, number, *table);
            key = b"";
        }
        number += 1;
    }
}

/// Appends the line of a type: at most 34 bytes.
fn append_type_line(lines: &mut Row, key: &[u8], number: u8, table: VidTable)
    requires key { length key.now ≤ 3 }
    requires room { length lines.old.items + 34 ≤ 2048 }
    ensures text { lines.new.items ≡ lines.old.items ++ field key.now (type_word number ++ table_name table) }
    ensures short { length lines.new.items ≤ length lines.old.items + 34 }
{
    append_cell(lines, key, KEYS);
    append(lines, b"type ");
    append_number(lines, number);
    append(lines, b": ");
    append(lines, table.name().as_bytes());
    append(lines, b"\n");
}
