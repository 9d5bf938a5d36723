//! Text put at the end of bytes.

ghost use Rattle.std.specs.Prelude.{◌≡◌, ◌+◌, ◌≤◌, ◌++◌, length};

use arrayvec::ArrayVec;

/// Appends a text.
#[inline]
pub(crate) fn append<const N: usize>(out: &mut ArrayVec<u8, N>, text: &[u8])
    requires { length out.old.items + length text.now ≤ N }
    ensures text { out.new.items ≡ out.old.items ++ text.now }
    ensures short { length out.new.items ≡ length out.old.items + length text.now }
{
    let _ = out.try_extend_from_slice(text);
}
