//! Bytes put at the end of others by their hexadecimal digits.
//!
//! The digits are those of the crate `hex`, by its definition. Its functions write over bytes that are
//! there already: a byte's digits would go into a cleared buffer and be copied from there, at four times
//! the cost.
//!
//! Its rows: `tests_json`, `src/objects/objects.rt`.

ghost use Rattle.std.specs.Prelude.{◌≡◌, ◌+◌, ◌*◌, ◌≤◌, ◌++◌, ◌∷◌, [], length};
ghost use Rattle.hex.specs.Hex.{encode_lower};
ghost use Rattle.pmb_json_text.specs.Member.{digits};
ghost use Rattle.pmb_json_text.specs.Spelling.{spelled};

use arrayvec::ArrayVec;

/// The hexadecimal digits.
static DIGITS: [u8; 16] = *b"0123456789abcdef";

/// Appends the two digits of a byte.
#[inline(always)]
pub(crate) fn append_digits<const N: usize>(out: &mut ArrayVec<u8, N>, byte: u8)
    requires { length out.old.items + 2 ≤ N }
    ensures text { out.new.items ≡ out.old.items ++ encode_lower (byte ∷ []) }
    ensures short { length out.new.items ≡ length out.old.items + 2 }
{
    out.push(DIGITS[(byte / 16) as usize]);
    out.push(DIGITS[(byte % 16) as usize]);
}

/// Appends two digits for each byte.
#[inline]
fn append_all_digits<const N: usize>(out: &mut ArrayVec<u8, N>, bytes: &[u8])
    requires { length out.old.items + 2 * length bytes.now ≤ N }
    ensures text { out.new.items ≡ out.old.items ++ encode_lower bytes.now }
    ensures short { length out.new.items ≡ length out.old.items + 2 * length bytes.now }
{
    for byte in bytes {
        append_digits(out, *byte);
    }
}

/// Appends the string of two digits for each byte.
#[inline(never)]
pub(crate) fn append_quoted_digits<const N: usize>(out: &mut ArrayVec<u8, N>, bytes: &[u8])
    requires { length out.old.items + (2 + 2 * length bytes.now) ≤ N }
    ensures text { out.new.items ≡ out.old.items ++ spelled (digits bytes.now) }
    ensures short { length out.new.items ≤ length out.old.items + (2 + 2 * length bytes.now) }
{
    out.push(b'"');
    append_all_digits(out, bytes);
    out.push(b'"');
}
