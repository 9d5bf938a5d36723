//! The first lines of a device's paragraph.
//!
//! Its rows: `tests/rows/stats.txt`.

ghost use Rattle.std.specs.Prelude.{◌≡◌, ◌+◌, ◌≤◌, List, Some, codes, length};
ghost use Rattle.pmb_facts.specs.Fact.{FactData};
ghost use Rattle.pmb_log_data.specs.Appends.{Appends};
ghost use Rattle.pmb_log_lines.specs.Columns.{name_at};
ghost use Rattle.pmb_stats_counts.specs.Counts.{of_device};
ghost use Rattle.pmb_stats_counts.specs.Standing.{HasCounted};
ghost use Rattle.pmb_stats_table.specs.Counts.{counts_say};
ghost use Rattle.pmb_stats_table.specs.Table.{first_line, head, name_says, second_line};

use crate::counts::append_counts;
use arrayvec::ArrayVec;
use pmb_log_data::{append, append_byte, name_of};
use pmb_stats_counts::SortCounts;
use pmb_table::Profile;

/// The most bytes of both lines.
pub(crate) const HEAD: usize = 800;

/// Appends the address and the name of a device, and a line of its counts.
pub(crate) fn append_head<const N: usize>(
    out: &mut ArrayVec<u8, N>,
    profile: &Profile,
    addr: u8,
    counts: &SortCounts,
)
    requires room { length out.old.items + HEAD ≤ N }
    ensures says { (facts : List FactData) → HasCounted counts.now (of_device addr facts)
        → Appends (head profile.now addr facts) HEAD out.old.items out.new.items }
    ensures longer { length out.new.items ≤ length out.old.items + HEAD }
{
    append_first_line(out, profile, addr);
    append_second_line(out, counts);
}

fn append_first_line<const N: usize>(out: &mut ArrayVec<u8, N>, profile: &Profile, addr: u8)
    requires { length out.old.items + 37 ≤ N }
    ensures { Appends (first_line profile.now addr) 37 out.old.items out.new.items }
{
    append_byte(out, addr);
    append_name(out, name_at(profile, addr));
    append(out, b"\n");
}

/// Appends a name after two blanks, if there is one.
fn append_name<const N: usize>(out: &mut ArrayVec<u8, N>, name: &[u8])
    requires { length out.old.items + (length name.now + 2) ≤ N }
    ensures { Appends (name_says name.now) (length name.now + 2) out.old.items out.new.items }
{
    if !name.is_empty() {
        append(out, b"  ");
        append(out, name);
    }
}

/// The name of the device with an address; nothing where it has none.
fn name_at(profile: &Profile, addr: u8) -> &[u8]
    ensures name { result.now ≡ name_at profile.now (Some addr) }
    ensures short { length result.now ≤ 32 }
{
    match profile.device(addr) {
        Some(device) => name_of(device),
        None => b"",
    }
}

fn append_second_line<const N: usize>(out: &mut ArrayVec<u8, N>, counts: &SortCounts)
    requires room { length out.old.items + 751 ≤ N }
    ensures says { (facts : List FactData) → HasCounted counts.now facts
        → Appends (second_line facts) 751 out.old.items out.new.items }
    ensures longer { length out.new.items ≤ length out.old.items + 751 }
{
    append_counts(out, counts);
    append(out, b"\n");
}
