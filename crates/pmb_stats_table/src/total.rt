//! The line of the whole capture.
//!
//! Its rows: `tests/rows/stats.txt`.

ghost use Rattle.std.specs.Prelude.{◌≡◌, ◌+◌, ◌≤◌, List, codes, length, option_map};
ghost use Rattle.std.specs.Option.{ForSome};
ghost use Rattle.pmb_facts.specs.Fact.{FactData};
ghost use Rattle.pmb_io.specs.Count.{capped};
ghost use Rattle.pmb_log_data.specs.Appends.{Appends};
ghost use Rattle.pmb_stats_counts.specs.Counts.{bad_tokens, packets};
ghost use Rattle.pmb_stats_counts.specs.Standing.{TotalsStandAt};
ghost use Rattle.pmb_stats_table.specs.Counts.{counted, counted_if, counts_say};
ghost use Rattle.pmb_stats_table.specs.Row.{after_gap, after_gaps};
ghost use Rattle.pmb_stats_table.specs.Table.{times_say, total_line};

use crate::counts::{append_counted, append_counted_if, append_counts};
use crate::times::or_nothing;
use arrayvec::ArrayVec;
use pmb_log_data::append;
use pmb_stats_counts::Totals;

/// The most bytes of the line.
pub(crate) const TOTAL: usize = 920;

/// Appends the line of the whole, with the first and the last time of the capture.
pub(crate) fn append_total<const N: usize>(
    out: &mut ArrayVec<u8, N>,
    totals: &Totals,
    first: Option<&[u8]>,
    last: Option<&[u8]>,
)
    requires first { ForSome first (λ time. length time.now ≤ 40) }
    requires last { ForSome last (λ time. length time.now ≤ 40) }
    requires room { length out.old.items + TOTAL ≤ N }
    ensures says { (facts : List FactData) → TotalsStandAt totals.now facts
        → Appends (total_line facts (option_map (λ time. time.now) first.entry) (option_map (λ time. time.now) last.entry)) TOTAL out.old.items out.new.items }
    ensures longer { length out.new.items ≤ length out.old.items + TOTAL }
{
    append(out, b"total");
    append_packets(out, totals.packets());
    append_counts(out, totals);
    append_counted_if(out, b"bad tokens", totals.bad_tokens());
    append_times(out, first, last);
    append(out, b"\n");
}

fn append_packets<const N: usize>(out: &mut ArrayVec<u8, N>, packets: u64)
    requires { length out.old.items + 30 ≤ N }
    ensures { Appends (after_gap (counted (codes "packets") packets)) 30 out.old.items out.new.items }
{
    append(out, b"  ");
    append_counted(out, b"packets", packets);
}

/// Appends the first time and the last, if there are any.
fn append_times<const N: usize>(
    out: &mut ArrayVec<u8, N>,
    first: Option<&[u8]>,
    last: Option<&[u8]>,
)
    requires first { ForSome first (λ time. length time.now ≤ 40) }
    requires last { ForSome last (λ time. length time.now ≤ 40) }
    requires room { length out.old.items + 95 ≤ N }
    ensures { Appends (times_say (option_map (λ time. time.now) first.entry) (option_map (λ time. time.now) last.entry)) 95 out.old.items out.new.items }
{
    let Some(first) = first else {
        return;
    };
    append(out, b"  first ");
    append(out, first);
    append(out, b"  last ");
    append(out, or_nothing(last));
}
