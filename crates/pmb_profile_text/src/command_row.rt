//! The rows of a command.
//!
//! Its rows: `tests/rows/profile_text.txt`.

ghost use Rattle.std.specs.Prelude.{◌≡◌, ◌+◌, ◌≤◌, ◌++◌, ◌∷◌, [], Some, length, option_map, slice_get};
ghost use Rattle.pmb_command.specs.Bus.{IsEntry};
ghost use Rattle.pmb_command.specs.Entry.{entry_parts};
ghost use Rattle.pmb_command.specs.Parts.{CommandParts, command_with};
ghost use Rattle.pmb_profile_text.specs.Table.{cell, command_cells, command_row, heading, page_cells, page_row};
ghost use Rattle.pmb_profile_text.specs.Words.{digits, form_word, kind_word, page_word, paged_word};

use crate::first_bytes::append_first;
use crate::row::{Row, append, append_cell, append_page, append_spaces, digits_of};
use crate::words::{form_word, kind_word, paged_word};
use pmb_command::Entry;
use pmb_table::DeviceProfile;

/// The width of all columns before the last.
const CELLS: usize = 88;

/// The row that names the columns.
pub(crate) fn heading() -> Row
    ensures { result.items ≡ heading }
{
    let mut row = Row::new();
    append_cell(&mut row, b"code", 5);
    append_cell(&mut row, b"name", 33);
    append_cell(&mut row, b"write", 6);
    append_cell(&mut row, b"read", 6);
    append_cell(&mut row, b"call", 6);
    append_cell(&mut row, b"paged", 6);
    append_cell(&mut row, b"kind", 26);
    append(&mut row, b"at first\n");
    row
}

/// The cells of a command before its last column.
fn command_cells(entry: &Entry) -> Row
    requires { IsEntry (entry_parts entry.now) }
    ensures text { (command : CommandParts) → command.entry ≡ entry_parts entry.now → result.items ≡ command_cells command }
    ensures long { length result.items ≡ 88 }
{
    let mut row = Row::new();
    append_cell(&mut row, &digits_of(entry.code), 5);
    append_cell(&mut row, entry.name.as_str().as_bytes(), 33);
    append_cell(&mut row, form_word(entry.shape.write), 6);
    append_cell(&mut row, form_word(entry.shape.read), 6);
    append_cell(&mut row, form_word(entry.shape.call), 6);
    append_cell(&mut row, paged_word(entry.paged), 6);
    append_cell(&mut row, kind_word(&entry.kind).as_slice(), 26);
    row
}

/// The row of a command of a device, with what it holds at first on page 0, or on each.
pub(crate) fn command_row(device: &DeviceProfile, entry: &Entry) -> Row
    requires { IsEntry (entry_parts entry.now) }
    ensures { (command : CommandParts) → command_with entry.now.code device.now.commands ≡ Some command → command.entry ≡ entry_parts entry.now
        → result.items ≡ command_row device.now command }
{
    let mut row = command_cells(entry);
    append_first(&mut row, device, 0, entry);
    append(&mut row, b"\n");
    row
}

/// The cells of a page's row: those of the command for page 0, and blank ones for the others.
fn page_cells(entry: &Entry, page: u8) -> Row
    requires { IsEntry (entry_parts entry.now) }
    ensures text { (command : CommandParts) → command.entry ≡ entry_parts entry.now → result.items ≡ page_cells command page }
    ensures long { length result.items ≡ 88 }
{
    if page == 0 {
        return command_cells(entry);
    }
    let mut row = Row::new();
    append_spaces(&mut row, CELLS);
    row
}

/// The row of a page of a command, with what it holds there at first.
pub(crate) fn page_row(device: &DeviceProfile, entry: &Entry, page: u8) -> Row
    requires { IsEntry (entry_parts entry.now) }
    ensures { (command : CommandParts) → command_with entry.now.code device.now.commands ≡ Some command → command.entry ≡ entry_parts entry.now
        → result.items ≡ page_row device.now command page }
{
    let mut row = page_cells(entry, page);
    append_page(&mut row, page);
    append_first(&mut row, device, page, entry);
    append(&mut row, b"\n");
    row
}
