//! Pieces of a line, each in its colour.

ghost use Rattle.std.specs.Prelude.{◌≡◌, ◌+◌, ◌*◌, ◌≤◌, ◌++◌, [], length, map};
ghost use Rattle.pmb_colour.specs.Cut.{cut_from};
ghost use Rattle.pmb_colour.specs.Log.{bit_piece};
ghost use Rattle.pmb_colour.specs.Pieces.{shown};
ghost use Rattle.pmb_colour.specs.Table.{count_colour, count_piece};

use crate::bits::bit_colour;
use crate::colour::{AROUND, Colour, append_painted};
use crate::cut::{Cut, ends};
use arrayvec::ArrayVec;

/// Appends the names of bits, each in its colour.
pub(crate) fn append_bits<const N: usize>(out: &mut ArrayVec<u8, N>, text: &[u8])
    requires { length out.old.items + (10 * length text.now + AROUND) ≤ N }
    ensures says { out.new.items ≡ out.old.items ++ shown (map bit_piece (cut_from Cut.Words [] text.now)) }
    ensures longer { length out.new.items ≤ length out.old.items + (10 * length text.now + AROUND) }
{
    let mut start = 0;
    for index in 0..text.len() {
        let piece = &text[start..index];
        if ends(Cut::Words, piece, text[index]) {
            append_painted(out, bit_colour(piece), piece);
            start = index;
        }
    }
    let piece = &text[start..];
    append_painted(out, bit_colour(piece), piece);
}

/// The colour of a count by its name.
fn count_colour(cell: &[u8]) -> Option<Colour>
    ensures { result ≡ count_colour cell.now }
{
    if cell.starts_with(b"refusals ") || cell.starts_with(b"bad tokens ") {
        Some(Colour::Red)
    } else if cell.starts_with(b"nacks ") {
        Some(Colour::Yellow)
    } else {
        None
    }
}

/// Appends counts, each in its colour.
pub(crate) fn append_counts<const N: usize>(out: &mut ArrayVec<u8, N>, text: &[u8])
    requires { length out.old.items + (10 * length text.now + AROUND) ≤ N }
    ensures says { out.new.items ≡ out.old.items ++ shown (map count_piece (cut_from Cut.Cells [] text.now)) }
    ensures longer { length out.new.items ≤ length out.old.items + (10 * length text.now + AROUND) }
{
    let mut start = 0;
    for index in 0..text.len() {
        let piece = &text[start..index];
        if ends(Cut::Cells, piece, text[index]) {
            append_painted(out, count_colour(piece), piece);
            start = index;
        }
    }
    let piece = &text[start..];
    append_painted(out, count_colour(piece), piece);
}
