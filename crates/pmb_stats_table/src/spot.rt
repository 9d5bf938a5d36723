//! The first cells of a line: where it is.
//!
//! Its rows: `tests/rows/stats.txt`, pages and phases.

ghost use Rattle.std.specs.Prelude.{◌+◌, ◌≤◌, length};
ghost use Rattle.pmb_log_data.specs.Appends.{Appends};
ghost use Rattle.pmb_stats_table.specs.Row.{after_gaps};
ghost use Rattle.pmb_stats_table.specs.Rows.{phase_cells, spot_cells};
ghost use Rattle.pmb_stats_table.specs.Widths.{IsNarrow};

use crate::row::{Row, append_left, append_right};
use crate::widths::Widths;

/// The most bytes of these cells.
pub(crate) const SPOT: usize = 88;

/// Appends the cells of a page, of a phase, and of a command's name.
pub(crate) fn append_spot(row: &mut Row, widths: Widths, page: &[u8], phase: &[u8], command: &[u8])
    requires narrow { IsNarrow widths }
    requires page { length page.now ≤ 4 }
    requires phase { length phase.now ≤ 5 }
    requires command { length command.now ≤ 32 }
    requires room { length row.old.items + SPOT ≤ 511 }
    ensures { Appends (after_gaps (spot_cells widths page.now phase.now command.now)) SPOT row.old.items row.new.items }
{
    append_right(row, 4, page);
    append_phase(row, widths.phase, phase);
    append_left(row, widths.command, command);
}

/// Appends the cell of a phase, if there is such a column.
fn append_phase(row: &mut Row, width: usize, phase: &[u8])
    requires { length row.old.items + (2 + width + length phase.now) ≤ 511 }
    ensures { Appends (after_gaps (phase_cells width phase.now)) (2 + width + length phase.now) row.old.items row.new.items }
{
    if width > 0 {
        append_right(row, width, phase);
    }
}
