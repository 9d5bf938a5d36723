//! The colours of a line of the table of `stats`.

ghost use Rattle.std.specs.Prelude.{◌≡◌, ◌+◌, ◌*◌, ◌≤◌, ◌++◌, length};
ghost use Rattle.pmb_colour.specs.Pieces.{shown};
ghost use Rattle.pmb_colour.specs.Table.{behind_pieces, command_pieces, command_place, row_pieces, table_pieces};

use crate::bits::bit_colour;
use crate::colour::{AROUND, append, append_painted};
use crate::cut::{Cut, first_len};
use crate::pieces::append_counts;
use arrayvec::ArrayVec;

/// Where the command's column begins in a line of bits or of numbers.
fn command_place(line: &[u8]) -> usize
    ensures { result ≡ command_place line.now }
{
    let place = if line[line.len().min(8)..].starts_with(b" ") {
        15
    } else {
        8
    };
    line.len().min(place)
}

/// Appends what stands behind the command.
fn append_behind<const N: usize>(out: &mut ArrayVec<u8, N>, line: &[u8])
    requires { length out.old.items + (length line.now + AROUND) ≤ N }
    ensures says { out.new.items ≡ out.old.items ++ shown (behind_pieces line.now) }
    ensures longer { length out.new.items ≤ length out.old.items + (length line.now + AROUND) }
{
    let (word, rest) = line.split_at(first_len(Cut::Words, line));
    append_painted(out, bit_colour(word), word);
    append(out, rest);
}

/// Appends a line from the command on.
fn append_command<const N: usize>(out: &mut ArrayVec<u8, N>, line: &[u8])
    requires { length out.old.items + (length line.now + AROUND) ≤ N }
    ensures says { out.new.items ≡ out.old.items ++ shown (command_pieces line.now) }
    ensures longer { length out.new.items ≤ length out.old.items + (length line.now + AROUND) }
{
    let (cell, rest) = line.split_at(first_len(Cut::Cells, line));
    append(out, cell);
    append_behind(out, rest);
}

/// Appends a line of bits or of numbers.
fn append_row<const N: usize>(out: &mut ArrayVec<u8, N>, line: &[u8])
    requires { length out.old.items + (length line.now + AROUND) ≤ N }
    ensures says { out.new.items ≡ out.old.items ++ shown (row_pieces line.now) }
    ensures longer { length out.new.items ≤ length out.old.items + (length line.now + AROUND) }
{
    let (front, rest) = line.split_at(command_place(line));
    append(out, front);
    append_command(out, rest);
}

/// Appends a line of the table.
pub(crate) fn append_table<const N: usize>(out: &mut ArrayVec<u8, N>, line: &[u8])
    requires { length out.old.items + (10 * length line.now + AROUND) ≤ N }
    ensures says { out.new.items ≡ out.old.items ++ shown (table_pieces line.now) }
    ensures longer { length out.new.items ≤ length out.old.items + (10 * length line.now + AROUND) }
{
    if line.starts_with(b"   ") {
        append_row(out, line);
    } else if line.starts_with(b"total  ") || line.starts_with(b"  ") {
        append_counts(out, line);
    } else {
        append(out, line);
    }
}
