//! The begin and the end of an object on a line of its own.
//!
//! Its rows: `tests_json`, `src/objects/objects.rt`.

ghost use Rattle.std.specs.Prelude.{◌≡◌, ◌+◌, ◌≤◌, ◌++◌, codes, length};

use crate::text::append;
use arrayvec::ArrayVec;

/// Begins an object.
#[inline]
pub fn begin<const N: usize>(out: &mut ArrayVec<u8, N>)
    requires { length out.old.items + 1 ≤ N }
    ensures begun { out.new.items ≡ out.old.items ++ codes "{" }
{
    append(out, b"{");
}

/// Ends an object, and its line.
#[inline]
pub fn end<const N: usize>(out: &mut ArrayVec<u8, N>)
    requires { length out.old.items + 2 ≤ N }
    ensures ended { out.new.items ≡ out.old.items ++ codes "}\n" }
{
    append(out, b"}\n");
}
