//! How many facts of each sort there are.
//!
//! Its rows: `tests/rows/stats.txt`.

ghost use Rattle.std.specs.Prelude.{◌≡◌, ◌+◌, ◌++◌, ◌∷◌, [], List, nat_eq, not, slice_index, slice_set};
ghost use Rattle.std.specs.List.{list_all, list_any};
ghost use Rattle.pmb_facts.specs.Fact.{FactData};
ghost use Rattle.pmb_facts.specs.Stands.{Stands};
ghost use Rattle.pmb_io.specs.Count.{capped};
ghost use Rattle.pmb_stats_counts.specs.Counts.{count_in_all, has_sort};
ghost use Rattle.pmb_stats_counts.specs.Sort.{place};
ghost use Rattle.pmb_stats_counts.specs.Standing.{HasCounted};

use crate::sort::{Sort, sort_of};
use pmb_facts::What;

/// How many sorts there are.
const SORTS: usize = 18;

/// How many facts of each sort came. Each count stays at the greatest `u64`.
#[derive(Drop)]
pub struct SortCounts {
    /// By the place of the sort.
    counts: [u64; SORTS],
}

impl SortCounts {
    /// No fact came.
    pub fn new() -> SortCounts
        ensures { HasCounted result [] }
    {
        SortCounts { counts: [0; SORTS] }
    }

    /// Counts a fact.
    pub fn count(&mut self, what: What<'_>)
        ensures { (facts : List FactData) (fact : FactData) → HasCounted self.old facts → Stands what.entry fact.what
            → HasCounted self.new (facts ++ fact ∷ []) }
    {
        if let Some(sort) = sort_of(what) {
            self.add(sort);
        }
    }

    /// How many facts of a sort came.
    pub fn of(&self, sort: Sort) -> u64
        ensures { (facts : List FactData) → HasCounted self.now facts → result ≡ capped (count_in_all sort facts) }
    {
        self.counts[sort.place()]
    }

    /// Whether no fact came that counts.
    pub fn is_empty(&self) -> bool
        ensures { (facts : List FactData) → HasCounted self.now facts → result ≡ not (list_any has_sort facts) }
    {
        are_zero(&self.counts)
    }

    /// One more of a sort.
    fn add(&mut self, sort: Sort)
        ensures { self.new.counts ≡ slice_set self.old.counts (place sort) (capped (slice_index self.old.counts (place sort) + 1)) }
    {
        let place = sort.place();
        self.counts[place] = self.counts[place].saturating_add(1);
    }
}

/// Whether all of some counts are 0.
fn are_zero(counts: &[u64]) -> bool
    ensures { result ≡ list_all (λ count. nat_eq count 0) counts.now }
{
    counts.iter().all(|count| *count == 0)
}
