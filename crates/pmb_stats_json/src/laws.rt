//! Laws over the definitions alone. Each function is its contract, and does nothing.

ghost use Rattle.std.specs.Prelude.{◌≡◌, ℕ, Ok, List};
ghost use Rattle.std.specs.List.{AllByRecursion};
ghost use Rattle.pmb_command.specs.Parts.{DeviceParts};
ghost use Rattle.pmb_fact_stream.specs.Before.{at_first};
ghost use Rattle.pmb_facts.specs.Fact.{FactData};
ghost use Rattle.pmb_io.specs.declared.tally.Tally.{Tally};
ghost use Rattle.pmb_json.specs.Lines.{AllMakeFormats, AreJsonLines};
ghost use Rattle.pmb_json_objects.specs.Counts.{CountsData};
ghost use Rattle.pmb_json_text.specs.Spelling.{AreBytes};
ghost use Rattle.pmb_observed.specs.Observing.{observations, times};
ghost use Rattle.pmb_stats_objects.specs.Laws.{AreObserved};
ghost use Rattle.pmb_summary.specs.Choice.{SumsData, setting_of};
ghost use Rattle.pmb_summary.specs.Summing.{WritesSums, objects_of};
ghost use Rattle.pmb_table.specs.Profile.{ProfileParts, SaysBus};
ghost use Rattle.pmb_telling.specs.Text.{BadLine, FactsFrom};

use pmb_accepted::laws::said_profiles_are_accepted;
use pmb_json_text::laws::{spelling_fits_in_line, spelling_is_json};
use pmb_stats_objects::laws::objects_are_json;
use pmb_times::laws::times_are_short;

/// What the facts of a capture tell of spots fits, and their times are bytes, whatever bytes are read, under a
/// profile whose coefficients have 16 bits and whose exponents have five.
pub fn observations_fit()
    ensures observed { (sums : SumsData) (profile : List DeviceParts) (bytes : List ℕ) (bad : List BadLine) (facts : List FactData) (counts : CountsData)
        → AllMakeFormats profile → FactsFrom sums.ignored profile sums.after_bad_token at_first bytes bad facts counts → AreObserved (observations (setting_of sums profile) facts) }
    ensures times { (sums : SumsData) (profile : List DeviceParts) (bytes : List ℕ) (bad : List BadLine) (facts : List FactData) (counts : CountsData)
        → FactsFrom sums.ignored profile sums.after_bad_token at_first bytes bad facts counts → AllByRecursion AreBytes (times facts) }
{
    times_are_short();
}

/// Under what a text says as a profile, what `stats --json` writes of a capture is lines of JSON alone: each is
/// an object with distinct keys, in printable ASCII, with its LF. So it is whatever else was chosen and
/// whatever bytes were read.
pub fn sums_are_lines()
    ensures { (profile : List ℕ) (bus : ProfileParts) (sums : SumsData) (tally : Tally) (bytes text : List ℕ)
        → SaysBus profile (Ok bus) → WritesSums (objects_of sums bus.devices) sums bus.devices tally bytes text → AreJsonLines text }
{
    observations_fit();
    said_profiles_are_accepted();
    objects_are_json();
    spelling_is_json();
    spelling_fits_in_line();
}
