//! Counts, with their names.
//!
//! Its rows: `tests/rows/stats.txt`.

ghost use Rattle.std.specs.Prelude.{◌≡◌, ◌+◌, ◌*◌, ◌≤◌, List, codes, length};
ghost use Rattle.std.specs.List.{flat_map};
ghost use Rattle.pmb_facts.specs.Fact.{FactData};
ghost use Rattle.pmb_io.specs.Count.{capped};
ghost use Rattle.pmb_log_data.specs.Appends.{Appends};
ghost use Rattle.pmb_log_data.specs.Text.{between, joined};
ghost use Rattle.pmb_stats_counts.specs.Counts.{count_in_all};
ghost use Rattle.pmb_stats_table.specs.Counts.{counted, counted_if, counts_say, group_words, place_name, sort_name, sort_words, total};
ghost use Rattle.pmb_stats_table.specs.Row.{after_gaps};
ghost use Rattle.pmb_json_text.specs.Member.{place_after};

use arrayvec::ArrayVec;
use pmb_json_text::ItemOrder;
use pmb_log_data::{append, append_number};
use pmb_stats_counts::{NackPlace, Sort, SortCounts, Totals};
use pmb_transaction::Reason;

const NACKS: [Sort; 4] = [
    Sort::Nacks(NackPlace::Address),
    Sort::Nacks(NackPlace::Code),
    Sort::Nacks(NackPlace::Byte),
    Sort::Nacks(NackPlace::ReadAddress),
];

const REFUSALS: [Sort; 9] = [
    Sort::Refusals(Reason::ReadFirst),
    Sort::Refusals(Reason::BadRestart),
    Sort::Refusals(Reason::BadPec),
    Sort::Refusals(Reason::UnknownDevice),
    Sort::Refusals(Reason::UnknownCommand),
    Sort::Refusals(Reason::TooLong),
    Sort::Refusals(Reason::TooShort),
    Sort::Refusals(Reason::WrongEvent),
    Sort::Refusals(Reason::Truncated),
];

/// What counts facts by their sorts.
pub(crate) trait Counted {
    /// It counted these facts.
    ghost HasCounted: { Self → List FactData → Type 0 };

    /// How many facts of a sort came. This stays at the greatest `u64`.
    fn count_of(&self, sort: Sort) -> u64
        ensures { (facts : List FactData) → HasCounted self.now facts → result ≡ capped (count_in_all sort facts) };
}

impl Counted for SortCounts {
    ghost use Rattle.pmb_stats_counts.specs.Standing.{HasCounted};

    ghost HasCounted = { HasCounted };

    fn count_of(&self, sort: Sort) -> u64 {
        self.of(sort)
    }
}

impl Counted for Totals {
    ghost use Rattle.pmb_stats_counts.specs.Standing.{TotalsStandAt};

    ghost HasCounted = { TotalsStandAt };

    fn count_of(&self, sort: Sort) -> u64 {
        self.of(sort)
    }
}

/// Appends all counts that are not 0, each after two blanks.
pub(crate) fn append_counts<C: Counted, const N: usize>(out: &mut ArrayVec<u8, N>, counts: &C)
    requires room { length out.old.items + 750 ≤ N }
    ensures says { (facts : List FactData) → C.HasCounted counts.now facts
        → Appends (counts_say facts) 750 out.old.items out.new.items }
    ensures longer { length out.new.items ≤ length out.old.items + 750 }
{
    append_sort(out, counts, Sort::Writes);
    append_sort(out, counts, Sort::Reads);
    append_sort(out, counts, Sort::Calls);
    append_sort(out, counts, Sort::Alerts);
    append_group(out, counts, b"nacks", &NACKS);
    append_group(out, counts, b"refusals", &REFUSALS);
    append_sort(out, counts, Sort::Others);
}

/// Appends how many facts of a sort there are, after two blanks, if there are any.
fn append_sort<C: Counted, const N: usize>(out: &mut ArrayVec<u8, N>, counts: &C, sort: Sort)
    requires room { length out.old.items + 37 ≤ N }
    ensures says { (facts : List FactData) → C.HasCounted counts.now facts
        → Appends (after_gaps (sort_words facts sort)) 37 out.old.items out.new.items }
    ensures longer { length out.new.items ≤ length out.old.items + 37 }
{
    append_counted_if(out, sort_name(sort), counts.count_of(sort));
}

/// Appends the total of some sorts, and in parentheses the count of each, after two blanks, if it
/// isn't 0.
fn append_group<C: Counted, const N: usize>(
    out: &mut ArrayVec<u8, N>,
    counts: &C,
    name: &[u8],
    sorts: &[Sort],
)
    requires short { length name.now ≤ 8 }
    requires few { length sorts.now ≤ 9 }
    requires room { length out.old.items + (40 + 37 * length sorts.now) ≤ N }
    ensures says { (facts : List FactData) → C.HasCounted counts.now facts
        → Appends (after_gaps (group_words facts name.now sorts.now)) (40 + 37 * length sorts.now) out.old.items out.new.items }
    ensures longer { length out.new.items ≤ length out.old.items + (40 + 37 * length sorts.now) }
{
    let total = total(counts, sorts);
    if total > 0 {
        append(out, b"  ");
        append_counted(out, name, total);
        append(out, b" (");
        append_sorts(out, counts, sorts);
        append(out, b")");
    }
}

/// The total of some sorts. It stays at the greatest `u64`.
fn total<C: Counted>(counts: &C, sorts: &[Sort]) -> u64
    ensures { (facts : List FactData) → C.HasCounted counts.now facts → result ≡ total facts sorts.now }
{
    let mut total: u64 = 0;
    for sort in sorts {
        total = total.saturating_add(counts.count_of(*sort));
    }
    total
}

/// Appends the counts of some sorts, with commas between.
fn append_sorts<C: Counted, const N: usize>(out: &mut ArrayVec<u8, N>, counts: &C, sorts: &[Sort])
    requires few { length sorts.now ≤ 9 }
    requires room { length out.old.items + 37 * length sorts.now ≤ N }
    ensures says { (facts : List FactData) → C.HasCounted counts.now facts
        → Appends (joined (codes ", ") ItemOrder.First (flat_map (sort_words facts) sorts.now)) (37 * length sorts.now) out.old.items out.new.items }
    ensures longer { length out.new.items ≤ length out.old.items + 37 * length sorts.now }
{
    let mut place = ItemOrder::First;
    for sort in sorts {
        place = append_item(out, place, sort_name(*sort), counts.count_of(*sort));
    }
}

/// Appends a count after its name in a list, if it isn't 0, and returns the place after it.
fn append_item<const N: usize>(
    out: &mut ArrayVec<u8, N>,
    place: ItemOrder,
    name: &[u8],
    count: u64,
) -> ItemOrder
    requires short { length name.now ≤ 14 }
    requires room { length out.old.items + 37 ≤ N }
    ensures says { Appends (joined (codes ", ") place (counted_if name.now count)) 37 out.old.items out.new.items }
    ensures place { result ≡ place_after place (counted_if name.now count) }
{
    if count == 0 {
        return place;
    }
    append_comma(out, place);
    append_counted(out, name, count);
    ItemOrder::Later
}

/// Appends a comma and a blank after another item.
fn append_comma<const N: usize>(out: &mut ArrayVec<u8, N>, place: ItemOrder)
    requires { length out.old.items + 2 ≤ N }
    ensures { Appends (between (codes ", ") place) 2 out.old.items out.new.items }
{
    match place {
        ItemOrder::First => {}
        ItemOrder::Later => append(out, b", "),
    }
}

/// Appends a count after its name, after two blanks, if it isn't 0.
pub(crate) fn append_counted_if<const N: usize>(out: &mut ArrayVec<u8, N>, name: &[u8], count: u64)
    requires { length out.old.items + (length name.now + 23) ≤ N }
    ensures { Appends (after_gaps (counted_if name.now count)) (length name.now + 23) out.old.items out.new.items }
{
    if count > 0 {
        append(out, b"  ");
        append_counted(out, name, count);
    }
}

/// Appends a count after its name.
pub(crate) fn append_counted<const N: usize>(out: &mut ArrayVec<u8, N>, name: &[u8], count: u64)
    requires { length out.old.items + (length name.now + 21) ≤ N }
    ensures { Appends (counted name.now count) (length name.now + 21) out.old.items out.new.items }
{
    append(out, name);
    append(out, b" ");
    append_number(out, count);
}

fn sort_name(sort: Sort) -> &'static [u8]
    ensures name { result.now ≡ sort_name sort }
    ensures short { length result.now ≤ 14 }
{
    match sort {
        Sort::Writes => b"writes",
        Sort::Reads => b"reads",
        Sort::Calls => b"calls",
        Sort::Alerts => b"alerts",
        Sort::Nacks(place) => place_name(place),
        Sort::Refusals(reason) => reason.name(),
        Sort::Others => b"others",
    }
}

fn place_name(place: NackPlace) -> &'static [u8]
    ensures name { result.now ≡ place_name place }
    ensures short { length result.now ≤ 14 }
{
    match place {
        NackPlace::Address => b"address",
        NackPlace::Code => b"code",
        NackPlace::Byte => b"byte",
        NackPlace::ReadAddress => b"read address",
    }
}
