//! What a row of samples has in its columns.

ghost use Rattle.std.specs.Prelude.{◌≡◌, ◌<◌, ◌-◌, ◌^◌, ◌==◌, option_copied, option_map, if◌then◌else◌};
ghost use Rattle.pmb_sample_fields.specs.Fields.{comma, fields_of};
ghost use Rattle.pmb_sample_fields.specs.Row.{row_of};
ghost use Rattle.pmb_sample_fields.specs.machine.Columns.{count_with, is_used as is_used_text, row_in};

use crate::fields::{Fields, Mark, Next};

/// The columns of a recording, counted from 0.
#[derive(Clone, Copy, Debug, PartialEq, Eq)]
pub struct Columns {
    /// That of SCL.
    pub scl: usize,
    /// That of SDA.
    pub sda: usize,
    /// That of times, if there is one.
    pub time: usize,
}

/// What a row has in its columns, without the blanks around it: nothing where it ends in front of
/// them, `None` where it has a quote.
#[derive(Clone, Copy, Drop, Debug)]
pub struct Row<'a> {
    /// How many fields it has, without empty ones at its end.
    pub count: usize,
    /// The level of SCL.
    pub scl: Option<&'a [u8]>,
    /// The level of SDA.
    pub sda: Option<&'a [u8]>,
    /// The time.
    pub time: Option<&'a [u8]>,
}

/// What a line has in some columns. `None` where it can't be read.
pub fn read_row<'a>(columns: &Columns, line: &'a [u8]) -> Option<Row<'a>>
    ensures { option_map row_in result ≡ option_map (row_of columns.now) (fields_of comma line.now) }
{
    let mut fields = Fields::of(Mark::Comma, line);
    let mut place: usize = 0;
    let mut row = Row {
        count: 0,
        scl: Some(b""),
        sda: Some(b""),
        time: Some(b""),
    };
    loop {
        match fields.next_field() {
            Next::Field(field) => {
                row = with_field(row, columns, place, field.plain());
                place += 1;
            }
            Next::End => return Some(row),
            Next::Broken => return None,
        }
    }
}

/// A row behind one more field.
fn with_field<'a>(row: Row<'a>, columns: &Columns, place: usize, text: Option<&'a [u8]>) -> Row<'a>
    requires room { place < 2 ^ 64 - 1 }
    ensures count { result.count ≡ count_with row.entry.count place (is_used_text (option_copied text.entry)) }
    ensures scl { option_copied result.scl ≡ if place == columns.now.scl then option_copied text.entry else option_copied row.entry.scl }
    ensures sda { option_copied result.sda ≡ if place == columns.now.sda then option_copied text.entry else option_copied row.entry.sda }
    ensures time { option_copied result.time ≡ if place == columns.now.time then option_copied text.entry else option_copied row.entry.time }
{
    Row {
        count: if is_used(text) { place + 1 } else { row.count },
        scl: if place == columns.scl { text } else { row.scl },
        sda: if place == columns.sda { text } else { row.sda },
        time: if place == columns.time {
            text
        } else {
            row.time
        },
    }
}

/// Whether a field has bytes.
fn is_used(text: Option<&[u8]>) -> bool
    ensures { result ≡ is_used_text (option_copied text.entry) }
{
    match text {
        Some(text) => !text.is_empty(),
        None => true,
    }
}
