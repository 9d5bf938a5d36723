//! A row of a table: texts in columns.
//!
//! Its rows: `tests/rows/profile_text.txt`.

ghost use Rattle.std.specs.Prelude.{◌≡◌, ◌+◌, ◌-◌, ◌≤◌, ◌++◌, length, replicate};
ghost use Rattle.pmb_profile_text.specs.Table.{cell, space};
ghost use Rattle.pmb_profile_text.specs.Words.{digits, page_word};

use arrayvec::ArrayVec;
use itoa::{Buffer, Integer};

/// A row with its LF, or a few lines.
pub(crate) type Row = ArrayVec<u8, 2048>;

/// Appends a text, for which there must be room.
pub(crate) fn append<const N: usize>(row: &mut ArrayVec<u8, N>, text: &[u8])
    requires { length row.old.items + length text.now ≤ N }
    ensures { row.new.items ≡ row.old.items ++ text.now }
{
    let _ = row.try_extend_from_slice(text);
}

/// Appends a number, for which there must be room.
pub(crate) fn append_number<I: Integer, const N: usize>(row: &mut ArrayVec<u8, N>, number: I)
    requires { length row.old.items + I.MAX_STR_LEN ≤ N }
    ensures text { row.new.items ≡ row.old.items ++ I.text number }
    ensures short { length row.new.items ≤ length row.old.items + I.MAX_STR_LEN }
{
    append(row, Buffer::new().format(number).as_bytes());
}

/// The two digits of a byte.
pub(crate) fn digits_of(byte: u8) -> [u8; 2]
    ensures { result ≡ digits byte }
{
    let mut two = [0; 2];
    let _ = hex::encode_to_slice([byte], &mut two);
    two
}

/// Appends the two digits of a byte.
pub(crate) fn append_byte(row: &mut Row, byte: u8)
    requires { length row.old.items + 2 ≤ 2048 }
    ensures text { row.new.items ≡ row.old.items ++ digits byte }
    ensures long { length row.new.items ≡ length row.old.items + 2 }
{
    append(row, &digits_of(byte));
}

/// Appends a text, and spaces after it up to the width of its column. The text is no longer than that.
pub(crate) fn append_cell(row: &mut Row, text: &[u8], width: usize)
    requires fits { length text.now ≤ width }
    requires room { length row.old.items + width ≤ 2048 }
    ensures text { row.new.items ≡ row.old.items ++ cell width text.now }
    ensures long { length row.new.items ≡ length row.old.items + width }
{
    append(row, text);
    append_spaces(row, width - text.len());
}

/// Appends that many spaces.
pub(crate) fn append_spaces(row: &mut Row, count: usize)
    requires { length row.old.items + count ≤ 2048 }
    ensures text { row.new.items ≡ row.old.items ++ replicate count space }
    ensures long { length row.new.items ≡ length row.old.items + count }
{
    for _ in 0..count {
        row.push(b' ');
    }
}

/// Appends which page is spoken of: at most 10 bytes.
pub(crate) fn append_page(row: &mut Row, page: u8)
    requires { length row.old.items + 10 ≤ 2048 }
    ensures text { row.new.items ≡ row.old.items ++ page_word page }
    ensures short { length row.new.items ≤ length row.old.items + 10 }
{
    append(row, b"page ");
    append_number(row, page);
    append(row, b": ");
}
