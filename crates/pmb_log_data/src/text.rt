//! Texts, bytes and numbers that are appended.
//!
//! Its rows: `tests/rows/log.txt`; `tests_json`, `src/log_lines/`.

ghost use Rattle.std.specs.Prelude.{◌≡◌, ◌+◌, ◌*◌, ◌-◌, ◌≤◌, codes, decimal, length};
ghost use Rattle.pmb_json_text.specs.Spelling.{all_escaped, escaped, is_plain as is_plain_byte, quoted};
ghost use Rattle.pmb_log_data.specs.Text.{after_says, at_left, at_right, blank_and_digits, blanks, byte_after_blank, byte_digits, bytes_says, each_after_blank};
ghost use Rattle.pmb_log_data.specs.Appends.{Appends};

use arrayvec::ArrayVec;
use itoa::Buffer;

/// Appends a text.
pub fn append<const N: usize>(out: &mut ArrayVec<u8, N>, text: &[u8])
    requires { length out.old.items + length text.now ≤ N }
    ensures { Appends text.now (length text.now) out.old.items out.new.items }
{
    let _ = out.try_extend_from_slice(text);
}

/// Appends the two digits of a byte.
pub fn append_byte<const N: usize>(out: &mut ArrayVec<u8, N>, byte: u8)
    requires { length out.old.items + 2 ≤ N }
    ensures { Appends (byte_digits byte) 2 out.old.items out.new.items }
{
    let mut digits = [0; 2];
    let _ = hex::encode_to_slice([byte], &mut digits);
    let _ = out.try_extend_from_slice(&digits);
}

/// Appends a blank, and the two digits of a byte.
pub fn append_blank_and_byte<const N: usize>(out: &mut ArrayVec<u8, N>, byte: u8)
    requires { length out.old.items + 3 ≤ N }
    ensures { Appends (blank_and_digits byte) 3 out.old.items out.new.items }
{
    append(out, b" ");
    append_byte(out, byte);
}

/// Appends a byte after a blank, where there is one.
pub fn append_optional_byte<const N: usize>(out: &mut ArrayVec<u8, N>, byte: Option<u8>)
    requires { length out.old.items + 3 ≤ N }
    ensures { Appends (byte_after_blank byte) 3 out.old.items out.new.items }
{
    if let Some(byte) = byte {
        append_blank_and_byte(out, byte);
    }
}

/// Appends bytes, each after a blank.
fn append_each<const N: usize>(out: &mut ArrayVec<u8, N>, bytes: &[u8])
    requires { length out.old.items + 3 * length bytes.now ≤ N }
    ensures { Appends (each_after_blank bytes.now) (3 * length bytes.now) out.old.items out.new.items }
{
    for byte in bytes {
        append_blank_and_byte(out, *byte);
    }
}

/// Appends bytes with a blank between, or that there are none.
pub fn append_bytes<const N: usize>(out: &mut ArrayVec<u8, N>, bytes: &[u8])
    requires { length out.old.items + (3 * length bytes.now + 8) ≤ N }
    ensures { Appends (bytes_says bytes.now) (3 * length bytes.now + 8) out.old.items out.new.items }
{
    match bytes.split_first() {
        Some((first, rest)) => {
            append_byte(out, *first);
            append_each(out, rest);
        }
        None => append(out, b"no bytes"),
    }
}

/// Appends after which bytes something came, where there are some.
pub fn append_after<const N: usize>(out: &mut ArrayVec<u8, N>, bytes: &[u8])
    requires { length out.old.items + (3 * length bytes.now + 6) ≤ N }
    ensures { Appends (after_says bytes.now) (3 * length bytes.now + 6) out.old.items out.new.items }
{
    if !bytes.is_empty() {
        append(out, b" after");
        append_each(out, bytes);
    }
}

/// Appends a whole number.
pub fn append_number<const N: usize>(out: &mut ArrayVec<u8, N>, number: u64)
    requires { length out.old.items + 20 ≤ N }
    ensures { Appends (decimal number) 20 out.old.items out.new.items }
{
    append(out, Buffer::new().format(number).as_bytes());
}

// ---- columns

/// Appends blanks.
fn append_blanks<const N: usize>(out: &mut ArrayVec<u8, N>, count: usize)
    requires { length out.old.items + count ≤ N }
    ensures { Appends (blanks count) count out.old.items out.new.items }
{
    for _ in 0..count {
        out.push(b' ');
    }
}

/// Appends a text at the left of so many columns.
pub fn append_at_left<const N: usize>(out: &mut ArrayVec<u8, N>, width: usize, text: &[u8])
    requires { length out.old.items + (width + length text.now) ≤ N }
    ensures { Appends (at_left width text.now) (width + length text.now) out.old.items out.new.items }
{
    append(out, text);
    append_blanks(out, width.saturating_sub(text.len()));
}

/// Appends a text at the right of so many columns.
pub fn append_at_right<const N: usize>(out: &mut ArrayVec<u8, N>, width: usize, text: &[u8])
    requires { length out.old.items + (width + length text.now) ≤ N }
    ensures { Appends (at_right width text.now) (width + length text.now) out.old.items out.new.items }
{
    append_blanks(out, width.saturating_sub(text.len()));
    append(out, text);
}

// ---- words

/// Appends bytes as a string of JSON, between double quotes.
pub(crate) fn append_quoted<const N: usize>(out: &mut ArrayVec<u8, N>, bytes: &[u8])
    requires { length out.old.items + (2 + 6 * length bytes.now) ≤ N }
    ensures { Appends (quoted bytes.now) (2 + 6 * length bytes.now) out.old.items out.new.items }
{
    append(out, b"\"");
    append_escaped(out, bytes);
    append(out, b"\"");
}

/// Appends bytes as they stand in a string of JSON.
pub fn append_escaped<const N: usize>(out: &mut ArrayVec<u8, N>, bytes: &[u8])
    requires { length out.old.items + 6 * length bytes.now ≤ N }
    ensures { Appends (all_escaped bytes.now) (6 * length bytes.now) out.old.items out.new.items }
{
    for byte in bytes {
        append_escaped_byte(out, *byte);
    }
}

/// Appends a byte as it stands in a string of JSON.
fn append_escaped_byte<const N: usize>(out: &mut ArrayVec<u8, N>, byte: u8)
    requires { length out.old.items + 6 ≤ N }
    ensures { Appends (escaped byte) 6 out.old.items out.new.items }
{
    if is_plain(byte) {
        append(out, &[byte]);
    } else {
        append(out, b"\\u00");
        append_byte(out, byte);
    }
}

/// Whether a string has a byte as it is.
fn is_plain(byte: u8) -> bool
    ensures { result ≡ is_plain_byte byte }
{
    byte >= 0x20 && byte <= 0x7e && byte != b'"' && byte != b'\\'
}
