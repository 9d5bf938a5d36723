//! A line in the place of the one before it.

ghost use Rattle.std.specs.Prelude.{◌≡◌, ◌+◌, ◌≤◌, ◌++◌, length};
ghost use Rattle.pmb_progress.specs.Over.{wiped, written_over};

use crate::number::{append, append_blanks};
use arrayvec::ArrayVec;

/// The most columns of a line.
pub const COLUMNS: usize = 79;

/// What a terminal is sent for a line over one of `columns` columns.
pub fn written_over(columns: usize, line: &[u8]) -> ArrayVec<u8, 96>
    requires columns { columns ≤ COLUMNS }
    requires line { length line.now ≤ COLUMNS }
    ensures says { result.items ≡ written_over columns line.now }
    ensures short { length result.items ≤ 80 }
{
    let mut out = ArrayVec::new();
    append(&mut out, b"\r");
    append(&mut out, line);
    append_blanks(&mut out, columns.saturating_sub(line.len()));
    out
}

/// What a terminal is sent to wipe a line of `columns` columns. What it is sent next begins in its place.
pub fn wiped(columns: usize) -> ArrayVec<u8, 96>
    requires { columns ≤ COLUMNS }
    ensures { result.items ≡ wiped columns }
{
    let mut out = written_over(columns, b"");
    append(&mut out, b"\r");
    out
}
