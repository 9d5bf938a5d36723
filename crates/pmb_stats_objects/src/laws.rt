//! Laws over the definitions alone: each object is JSON with distinct keys. Each function is its
//! contract, and does nothing.

ghost use Rattle.std.specs.Prelude.{ℕ, List};
ghost use Rattle.std.specs.List.{AllByRecursion};
ghost use Rattle.pmb_command.specs.Bus.{IsBus};
ghost use Rattle.pmb_facts.specs.Fact.{FactData};
ghost use Rattle.pmb_json_text.specs.Spelling.{AreBytes};
ghost use Rattle.pmb_keeper.specs.Setting.{Setting};
ghost use Rattle.pmb_observed.specs.Observing.{observations, times};
ghost use Rattle.pmb_stats_objects.specs.Laws.{AreJsonObjects, AreObserved};
ghost use Rattle.pmb_stats_objects.specs.Objects.{stats_objects};

use pmb_json_text::laws::{digits_are_a_number, fewer_keys_are_distinct, tested_keys_are_distinct};

/// Each object is JSON with distinct keys, if the profile is accepted, times are bytes, and values fit
/// their kinds. So its line is a JSON text, by the law `objects_are_lines` of `pmb_json_objects`.
pub fn objects_are_json()
    ensures { (digits : ℕ) (setting : Setting) (facts : List FactData) → IsBus setting.profile → AreObserved (observations setting facts)
        → AllByRecursion AreBytes (times facts) → AreJsonObjects (stats_objects digits setting facts) }
{
    digits_are_a_number();
    fewer_keys_are_distinct();
    tested_keys_are_distinct();
}
