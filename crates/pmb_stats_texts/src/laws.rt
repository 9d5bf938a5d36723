//! Laws over the definitions alone. Each function is its contract, and does nothing.

ghost use Rattle.std.specs.Prelude.{◌≡◌, ℕ, List};
ghost use Rattle.pmb_facts.specs.Fact.{FactData};
ghost use Rattle.pmb_keeper.specs.Setting.{Setting};
ghost use Rattle.pmb_stats.specs.declared.statistics.Statistics.{Statistics};
ghost use Rattle.pmb_stats.specs.Standing.{StatsStand};
ghost use Rattle.pmb_stats_objects.specs.Objects.{objects_text};
ghost use Rattle.pmb_stats_table.specs.Table.{table_text};

use pmb_stats::laws::one_telling;

/// Statistics have one text of objects: at whichever facts they stand, these have the same.
pub fn one_objects()
    ensures { (stats : Statistics) (setting other : Setting) (facts others : List FactData) (digits : ℕ) (devices : List ℕ)
        → StatsStand stats setting facts → StatsStand stats other others
        → objects_text digits setting facts devices ≡ objects_text digits other others devices }
{
    one_telling();
}

/// .. and one table.
pub fn one_table()
    ensures { (stats : Statistics) (setting other : Setting) (facts others : List FactData) (digits : ℕ) (devices : List ℕ)
        → StatsStand stats setting facts → StatsStand stats other others
        → table_text digits devices setting facts ≡ table_text digits devices other others }
{
    one_telling();
}
