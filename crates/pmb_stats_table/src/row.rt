//! Lines of the table: cells in columns.
//!
//! Its rows: `tests/rows/stats.txt`.

ghost use Rattle.std.specs.Prelude.{◌≡◌, ◌+◌, ◌≤◌, ◌++◌, ◌∷◌, [], MatchOption, codes, length};
ghost use Rattle.pmb_log_data.specs.Appends.{Appends};
ghost use Rattle.pmb_log_data.specs.Text.{at_left, at_right};
ghost use Rattle.pmb_stats_table.specs.Row.{after_gap, without_last_blanks};

use arrayvec::ArrayVec;
use pmb_log_data::{append, append_at_left, append_at_right};

/// The most bytes of a line with its LF.
pub(crate) const LINE: usize = 512;

/// Cells of a line, each after two blanks.
pub(crate) type Row = ArrayVec<u8, 511>;

/// Appends two blanks, and a text at the left of so many columns.
pub(crate) fn append_left(row: &mut Row, width: usize, text: &[u8])
    requires { length row.old.items + (2 + width + length text.now) ≤ 511 }
    ensures { Appends (after_gap (at_left width text.now)) (2 + width + length text.now) row.old.items row.new.items }
{
    append(row, b"  ");
    append_at_left(row, width, text);
}

/// Appends two blanks, and a text at the right of so many columns.
pub(crate) fn append_right(row: &mut Row, width: usize, text: &[u8])
    requires { length row.old.items + (2 + width + length text.now) ≤ 511 }
    ensures { Appends (after_gap (at_right width text.now)) (2 + width + length text.now) row.old.items row.new.items }
{
    append(row, b"  ");
    append_at_right(row, width, text);
}

/// Appends two blanks, and a text that has no width of its own, since it is the last.
pub(crate) fn append_last(row: &mut Row, text: &[u8])
    requires { length row.old.items + (2 + length text.now) ≤ 511 }
    ensures { Appends (after_gap text.now) (2 + length text.now) row.old.items row.new.items }
{
    append(row, b"  ");
    append(row, text);
}

/// Appends a line of cells, without the blanks at its end.
pub(crate) fn append_row<const N: usize>(out: &mut ArrayVec<u8, N>, row: &[u8])
    requires few { length row.now ≤ 511 }
    requires room { length out.old.items + LINE ≤ N }
    ensures { Appends (without_last_blanks row.now ++ codes "\n") LINE out.old.items out.new.items }
{
    append(out, without_last_blanks(row));
    append(out, b"\n");
}

/// The last byte, and those before it.
fn split(text: &[u8]) -> Option<(u8, &[u8])>
    ensures { MatchOption result (text.now ≡ []) (λ p. text.now ≡ p.1.now ++ p.0 ∷ []) }
{
    match text.split_last() {
        Some((last, front)) => Some((*last, front)),
        None => None,
    }
}

/// A text without the blanks at its end.
fn without_last_blanks(text: &[u8]) -> &[u8]
    ensures text { result.now ≡ without_last_blanks text.now }
    ensures short { length result.now ≤ length text.now }
{
    let Some((last, front)) = split(text) else {
        return text;
    };
    if last == b' ' {
        without_last_blanks(front)
    } else {
        text
    }
}
