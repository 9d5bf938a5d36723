//! The names of columns.

ghost use Rattle.std.specs.Prelude.{◌≡◌, [], false};
ghost use Rattle.pmb_sample_fields.specs.machine.Left.{text_of};
ghost use Rattle.pmb_samples.specs.Columns.{column_of as column_in, id_of as id_at, number_of};
ghost use Rattle.pmb_samples.specs.machine.Names.{name_from};
ghost use Rattle.pmb_wire_names.specs.Kept.{kept_name, with_byte};
ghost use Rattle.pmb_wire_names.specs.Matching.{is_blank};

use arrayvec::ArrayVec;
use pmb_sample_fields::Field;
use pmb_words::decimal;

/// The columns that a name or a number may tell.
const MOST_COLUMNS: u64 = 65_536;

/// A name without its blanks, or so much of it that it is too long.
pub(crate) type FieldName = ArrayVec<u8, 256>;

/// The name that a field has: its first 256 bytes that are no blanks.
pub(crate) fn field_name(field: &Field<'_>) -> FieldName
    ensures { result.items ≡ kept_name (text_of field.now) }
{
    name_bytes(field)
}

/// The same, byte by byte.
fn name_bytes(field: &Field<'_>) -> FieldName
    ensures { result.items ≡ name_from [] false field.now.is_quoted field.now.raw.now }
{
    let mut name = FieldName::new();
    let mut is_second = false;
    let mut left = field.raw;
    while let [byte, rest @ ..] = left {
        let is_quote = *byte == b'"';
        if is_second && (is_quote && field.is_quoted) {
            is_second = false;
        } else {
            keep(&mut name, *byte);
            is_second = is_quote;
        }
        left = rest;
    }
    name
}

/// Keeps a byte of a name, unless it is a blank or there is no room.
fn keep(name: &mut FieldName, byte: u8)
    ensures { name.new.items ≡ with_byte name.old.items byte }
{
    if !name.is_full() && !blank(byte) {
        name.push(byte);
    }
}

fn blank(byte: u8) -> bool
    ensures { result ≡ is_blank byte }
{
    byte == b' ' || byte == b'\t'
}

/// The column that a name of digits is, counted from 0: `1` is the first.
pub(crate) fn column_number(name: &[u8]) -> Option<usize>
    ensures { result ≡ number_of name.now }
{
    match decimal(name) {
        Some(number) if number > 0 && number <= MOST_COLUMNS => Some((number - 1) as usize),
        _ => None,
    }
}

/// What tells a column from others.
pub(crate) fn id_of(column: usize) -> [u8; 2]
    ensures { result ≡ id_at column }
{
    [(column / 256 % 256) as u8, (column % 256) as u8]
}

/// The column that it tells.
pub(crate) fn column_of(id: &[u8]) -> usize
    ensures { result ≡ column_in id.now }
{
    match id {
        [high, low] => *high as usize * 256 + *low as usize,
        _ => 0,
    }
}
