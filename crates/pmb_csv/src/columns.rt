//! Columns and values, by their names and places.

ghost use Rattle.std.specs.Prelude.{◌≡◌, false, option_copied, option_map};
ghost use Rattle.pmb_csv.specs.Columns.{column_of, count_of, field, has_quote, needed_place, optional_place, plain_of};
ghost use Rattle.pmb_csv.specs.Columns.{value};
ghost use Rattle.pmb_csv.specs.Fields.{record_of};
ghost use Rattle.pmb_csv.specs.Left.{text_of};

use crate::fields::{Field, Fields, Next};

/// Where a line names a column.
#[derive(Clone, Copy, Debug, PartialEq, Eq)]
pub enum Column {
    /// Nowhere.
    Absent,
    /// Once, in this field, counted from 0.
    At(usize),
    /// In several fields; or the line cannot be read.
    Unclear,
}

/// Where a line names a column.
pub fn find_column(name: &[u8], line: &[u8]) -> Column
    requires { has_quote name.now ≡ false }
    ensures { result ≡ column_of name.now (record_of line.now) }
{
    let mut fields = Fields::of(line);
    let mut count: usize = 0;
    let mut column = Column::Absent;
    loop {
        match fields.next_field() {
            Next::Field(field) => {
                column = column.with(count, field.is(name));
                count += 1;
            }
            Next::End => return column,
            Next::Broken => return Column::Unclear,
        }
    }
}

/// The place of a column that a line names once.
pub fn needed_column(name: &[u8], line: &[u8]) -> Option<usize>
    requires { has_quote name.now ≡ false }
    ensures { result ≡ needed_place name.now (record_of line.now) }
{
    match find_column(name, line) {
        Column::At(place) => Some(place),
        Column::Absent => None,
        Column::Unclear => None,
    }
}

/// The place of a column that a line names once, and `Some(None)` where it does not name it.
pub fn optional_column(name: &[u8], line: &[u8]) -> Option<Option<usize>>
    requires { has_quote name.now ≡ false }
    ensures { result ≡ optional_place name.now (record_of line.now) }
{
    match find_column(name, line) {
        Column::At(place) => Some(Some(place)),
        Column::Absent => Some(None),
        Column::Unclear => None,
    }
}

impl Column {
    ghost use Rattle.std.specs.Prelude.{◌≡◌};
    ghost use Rattle.pmb_csv.specs.Left.{column_with};

    /// A column behind one more field, which names it or not.
    fn with(self, place: usize, names: bool) -> Column
        ensures { result ≡ column_with self place names }
    {
        match (self, names) {
            (column, false) => column,
            (Column::Absent, true) => Column::At(place),
            (_, true) => Column::Unclear,
        }
    }
}

/// How many fields a line has; `None` where it cannot be read.
pub fn count_fields(line: &[u8]) -> Option<usize>
    ensures { result ≡ count_of (record_of line.now) }
{
    let mut fields = Fields::of(line);
    let mut count: usize = 0;
    loop {
        match fields.next_field() {
            Next::Field(_) => count += 1,
            Next::End => return Some(count),
            Next::Broken => return None,
        }
    }
}

/// The field of a line at a place, counted from 0.
pub fn field_at(line: &[u8], place: usize) -> Option<Field<'_>>
    ensures { option_map text_of result ≡ field place (record_of line.now).fields }
{
    let mut fields = Fields::of(line);
    let mut left = place;
    while left > 0 {
        let Next::Field(_) = fields.next_field() else {
            return None;
        };
        left -= 1;
    }
    match fields.next_field() {
        Next::Field(field) => Some(field),
        Next::End | Next::Broken => None,
    }
}

/// The bytes of the field at a place, none behind the last; `None` where one of them is a quote.
pub fn value_at(line: &[u8], place: usize) -> Option<&[u8]>
    ensures { option_copied result ≡ plain_of (value place (record_of line.now)) }
{
    match field_at(line, place) {
        Some(field) => field.plain(),
        None => Some(b""),
    }
}
