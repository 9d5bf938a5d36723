//! Text put at the end of bytes, as it is and as it stands in a string.
//!
//! Its rows: `tests_json`, `src/objects/strings.rt`.

ghost use Rattle.std.specs.Prelude.{◌≡◌, ◌+◌, ◌*◌, ◌≤◌, ◌++◌, length};
ghost use Rattle.pmb_json_text.specs.Json.{string};
ghost use Rattle.pmb_json_text.specs.Spelling.{all_escaped, escaped, is_plain as is_plain_byte, spelled};

use crate::hex_digits::append_digits;
use arrayvec::ArrayVec;

/// Whether a string has a byte as it is: 1 for 20h to 7eh but `"` and `\`.
#[rattlefmt::skip]
static PLAIN: [u8; 256] = [
    0, 0, 0, 0, 0, 0, 0, 0, 0, 0, 0, 0, 0, 0, 0, 0,
    0, 0, 0, 0, 0, 0, 0, 0, 0, 0, 0, 0, 0, 0, 0, 0,
    1, 1, 0, 1, 1, 1, 1, 1, 1, 1, 1, 1, 1, 1, 1, 1, // 20h: no `"`
    1, 1, 1, 1, 1, 1, 1, 1, 1, 1, 1, 1, 1, 1, 1, 1,
    1, 1, 1, 1, 1, 1, 1, 1, 1, 1, 1, 1, 1, 1, 1, 1,
    1, 1, 1, 1, 1, 1, 1, 1, 1, 1, 1, 1, 0, 1, 1, 1, // 50h: no `\`
    1, 1, 1, 1, 1, 1, 1, 1, 1, 1, 1, 1, 1, 1, 1, 1,
    1, 1, 1, 1, 1, 1, 1, 1, 1, 1, 1, 1, 1, 1, 1, 0, // 70h: no delete
    0, 0, 0, 0, 0, 0, 0, 0, 0, 0, 0, 0, 0, 0, 0, 0,
    0, 0, 0, 0, 0, 0, 0, 0, 0, 0, 0, 0, 0, 0, 0, 0,
    0, 0, 0, 0, 0, 0, 0, 0, 0, 0, 0, 0, 0, 0, 0, 0,
    0, 0, 0, 0, 0, 0, 0, 0, 0, 0, 0, 0, 0, 0, 0, 0,
    0, 0, 0, 0, 0, 0, 0, 0, 0, 0, 0, 0, 0, 0, 0, 0,
    0, 0, 0, 0, 0, 0, 0, 0, 0, 0, 0, 0, 0, 0, 0, 0,
    0, 0, 0, 0, 0, 0, 0, 0, 0, 0, 0, 0, 0, 0, 0, 0,
    0, 0, 0, 0, 0, 0, 0, 0, 0, 0, 0, 0, 0, 0, 0, 0,
];

/// Appends a text as it is.
#[inline]
pub(crate) fn append<const N: usize>(out: &mut ArrayVec<u8, N>, text: &[u8])
    requires { length out.old.items + length text.now ≤ N }
    ensures { out.new.items ≡ out.old.items ++ text.now }
{
    let _ = out.try_extend_from_slice(text);
}

/// Appends bytes as a string.
#[inline(never)]
pub(crate) fn append_quoted<const N: usize>(out: &mut ArrayVec<u8, N>, bytes: &[u8])
    requires { length out.old.items + (2 + 6 * length bytes.now) ≤ N }
    ensures text { out.new.items ≡ out.old.items ++ spelled (string bytes.now) }
    ensures short { length out.new.items ≤ length out.old.items + (2 + 6 * length bytes.now) }
{
    out.push(b'"');
    append_escaped(out, bytes);
    out.push(b'"');
}

/// Appends bytes as they stand in a string. Most texts are names of some ten bytes: for these, one
/// loop that copies costs less than to see first whether all are plain.
#[inline(always)]
fn append_escaped<const N: usize>(out: &mut ArrayVec<u8, N>, bytes: &[u8])
    requires { length out.old.items + 6 * length bytes.now ≤ N }
    ensures text { out.new.items ≡ out.old.items ++ all_escaped bytes.now }
    ensures short { length out.new.items ≤ length out.old.items + 6 * length bytes.now }
{
    for byte in bytes {
        append_byte(out, *byte);
    }
}

/// Appends a byte as it stands in a string.
#[inline(always)]
fn append_byte<const N: usize>(out: &mut ArrayVec<u8, N>, byte: u8)
    requires { length out.old.items + 6 ≤ N }
    ensures text { out.new.items ≡ out.old.items ++ escaped byte }
    ensures short { length out.new.items ≤ length out.old.items + 6 }
{
    if is_plain(byte) {
        out.push(byte);
    } else {
        append(out, b"\\u00");
        append_digits(out, byte);
    }
}

/// Whether a string has a byte as it is.
#[inline(always)]
fn is_plain(byte: u8) -> bool
    ensures { result ≡ is_plain_byte byte }
{
    PLAIN[byte as usize] == 1
}
