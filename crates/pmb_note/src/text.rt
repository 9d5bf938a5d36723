//! Text that is appended to bytes.
//!
//! Its rows: `tests_lines`, `src/notes/rows.rt`.

ghost use Rattle.std.specs.Prelude.{◌+◌, ◌≤◌, length};
ghost use Rattle.pmb_note.specs.machine.Written.{Appends};

use arrayvec::ArrayVec;

/// Appends a text.
#[inline]
pub(crate) fn append<const N: usize>(out: &mut ArrayVec<u8, N>, text: &str)
    requires { length out.old.items + length text.now ≤ N }
    ensures { Appends text.now (length text.now) out.old.items out.new.items }
{
    let _ = out.try_extend_from_slice(text.as_bytes());
}
