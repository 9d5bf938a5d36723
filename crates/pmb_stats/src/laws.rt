//! Laws over the definitions alone. Each function is its contract, and does nothing.

ghost use Rattle.std.specs.Prelude.{◌≡◌, ℕ, ◌+◌, ◌++◌, List};
ghost use Rattle.pmb_facts.specs.Fact.{FactData};
ghost use Rattle.pmb_keeper.specs.Setting.{Setting};
ghost use Rattle.pmb_observed.specs.Observing.{observations};
ghost use Rattle.pmb_stats.specs.declared.statistics.Statistics.{Statistics};
ghost use Rattle.pmb_stats.specs.Alike.{TellAlike};
ghost use Rattle.pmb_stats.specs.BitCounts.{IsRegister, bit_count, count_on_pages};
ghost use Rattle.pmb_stats.specs.NumberCounts.{number_count, numbers_on_pages};
ghost use Rattle.pmb_stats.specs.Standing.{StatsStand};

use pmb_stats_counts::laws::{devices_that_came_have_counts, one_count};
use pmb_stats_room::laws::one_room;

/// The counts of a bit on the pages of a device, and in the phases of its command, are together the
/// count of all reads that found it set, whatever page and phase were selected.
pub fn pages_make_the_whole()
    ensures { (setting : Setting) (addr code bit : ℕ) (facts : List FactData) → IsRegister setting.profile addr code
        → count_on_pages setting addr code bit facts ≡ bit_count addr code bit facts }
{}

/// The numbers on the pages of a device, and in the phases of its command, are together all numbers
/// that facts tell of the command, whatever page and phase were selected: each is told of one of
/// these pages and phases, and of no other.
pub fn pages_have_all_numbers()
    ensures { (setting : Setting) (addr code : ℕ) (facts : List FactData)
        → numbers_on_pages setting addr code facts ≡ number_count addr code (observations setting facts) }
{}

/// The counts of a bit in facts, and in those that come after them, add up.
pub fn bit_counts_add_up()
    ensures { (addr code bit : ℕ) (facts more : List FactData) → bit_count addr code bit (facts ++ more) ≡ bit_count addr code bit facts + bit_count addr code bit more }
{}

/// Statistics stand at no two lists of facts of which they would tell something else.
pub fn one_telling()
    ensures { (stats : Statistics) (setting other : Setting) (facts others : List FactData) → StatsStand stats setting facts
        → StatsStand stats other others → TellAlike setting other facts others }
{
    devices_that_came_have_counts();
    one_count();
    one_room();
}
