//! Laws over the definitions alone. Each function is its contract, and does nothing.

ghost use Rattle.std.specs.Prelude.{◌≡◌, ℕ, ◌+◌, ◌++◌, List};
ghost use Rattle.std.specs.List.{list_any};
ghost use Rattle.pmb_facts.specs.Fact.{FactData};
ghost use Rattle.pmb_stats_counts.specs.declared.counts.SortCounts.{SortCounts};
ghost use Rattle.pmb_stats_counts.specs.declared.sort.Sort.{Sort};
ghost use Rattle.pmb_stats_counts.specs.declared.totals.Totals.{Totals};
ghost use Rattle.pmb_stats_counts.specs.Alike.{CountAlike, TotalAlike};
ghost use Rattle.pmb_stats_counts.specs.Counts.{AreAddressed, bad_tokens, count_in_all, count_of, count_of_none, has_come, has_sort, of_device, packets};
ghost use Rattle.pmb_stats_counts.specs.Sort.{place};
ghost use Rattle.pmb_stats_counts.specs.Standing.{HasCounted, TotalsStandAt};
ghost use Rattle.pmb_stats_counts.specs.Sums.{sum_below};

/// Each sort has a place of its own, by which sorts are told apart.
pub fn sorts_have_own_places()
    ensures { (sort other : Sort) → place sort ≡ place other → sort ≡ other }
{}

/// Counts of facts, and of those that come after them, add up.
pub fn counts_add_up()
    ensures all { (sort : Sort) (facts more : List FactData) → count_in_all sort (facts ++ more) ≡ count_in_all sort facts + count_in_all sort more }
    ensures device { (addr : ℕ) (sort : Sort) (facts more : List FactData)
        → count_of addr sort (facts ++ more) ≡ count_of addr sort facts + count_of addr sort more }
    ensures packets { (facts more : List FactData) → packets (facts ++ more) ≡ packets facts + packets more }
    ensures bad_tokens { (facts more : List FactData) → bad_tokens (facts ++ more) ≡ bad_tokens facts + bad_tokens more }
{}

/// The facts of a device are those of two lists of facts, one after the other.
pub fn facts_of_a_device_add_up()
    ensures { (addr : ℕ) (facts more : List FactData) → of_device addr (facts ++ more) ≡ of_device addr facts ++ of_device addr more }
{}

/// A device has facts that count exactly where some fact names it.
pub fn devices_that_came_have_counts()
    ensures { (addr : ℕ) (facts : List FactData) → list_any has_sort (of_device addr facts) ≡ has_come addr facts }
{}

/// The counts of the whole are the sums of those of the devices, and of what names none.
pub fn devices_make_the_whole()
    ensures { (sort : Sort) (facts : List FactData) → AreAddressed facts
        → count_in_all sort facts ≡ sum_below (λ addr. count_of addr sort facts) 128 + count_of_none sort facts }
{}

/// Counts stand at no two lists of facts of which they would tell something else.
pub fn one_count()
    ensures counts { (counts : SortCounts) (facts others : List FactData) → HasCounted counts facts → HasCounted counts others → CountAlike facts others }
    ensures totals { (totals : Totals) (facts others : List FactData) → TotalsStandAt totals facts → TotalsStandAt totals others → TotalAlike facts others }
{}
