//! A line in its colours.

ghost use Rattle.std.specs.Prelude.{◌≡◌, ◌+◌, ◌*◌, ◌≤◌, ◌++◌, length};
ghost use Rattle.pmb_colour.specs.Painting.{line_pieces};
ghost use Rattle.pmb_colour.specs.Pieces.{has_escape, shown};

use crate::colour::{AROUND, append};
use crate::lines::Lines;
use crate::log::append_log;
use crate::table::append_table;
use arrayvec::ArrayVec;

/// Whether a text has a byte that could begin a sequence.
fn has_escape(text: &[u8]) -> bool
    ensures { result ≡ has_escape text.now }
{
    text.iter().any(|byte| *byte == 0x1b)
}

/// Appends a line, without its LF, in its colours.
pub(crate) fn append_line<const N: usize>(out: &mut ArrayVec<u8, N>, lines: Lines, line: &[u8])
    requires { length out.old.items + (10 * length line.now + AROUND) ≤ N }
    ensures says { out.new.items ≡ out.old.items ++ shown (line_pieces lines line.now) }
    ensures longer { length out.new.items ≤ length out.old.items + (10 * length line.now + AROUND) }
{
    if has_escape(line) {
        append(out, line);
        return;
    }
    match lines {
        Lines::Log => append_log(out, line),
        Lines::Table => append_table(out, line),
    }
}
