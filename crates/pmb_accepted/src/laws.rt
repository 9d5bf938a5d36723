//! Laws over the definitions alone. Each function is its contract, and does nothing.

ghost use Rattle.std.specs.Prelude.{◌≡◌, ℕ, Ok, List};
ghost use Rattle.toml.specs.Data.{Members};
ghost use Rattle.pmb_accepted.specs.Accepted.{IsAccepted};
ghost use Rattle.pmb_fact_stream.specs.Choice.{ChoiceData};
ghost use Rattle.pmb_fact_stream.specs.declared.telling.Telling.TheVariants.{Objects};
ghost use Rattle.pmb_io.specs.declared.tally.Tally.{Tally};
ghost use Rattle.pmb_json.specs.Lines.{AreJsonLines};
ghost use Rattle.pmb_json_text.specs.Spelling.{AreBytes};
ghost use Rattle.pmb_scan.specs.declared.after_bad_token.AfterBadToken.{AfterBadToken};
ghost use Rattle.pmb_table.specs.Profile.{ProfileParts, SaysBus, profile_of};
ghost use Rattle.pmb_telling.specs.SoFar.{HasTold};
ghost use Rattle.pmb_telling.specs.Text.{WritesTold};

use pmb_json::laws::each_line_is_json;

/// What a table or a text says as a profile is accepted: its devices are a bus, their coefficients and
/// exponents have 16 and 5 bits and make formats, and none of them has an address that is ignored. A
/// [`BusProfile`](pmb_table::BusProfile) keeps the first and the last by its type; here no code reads.
pub fn said_profiles_are_accepted()
    ensures table { (ms : Members) (bus : ProfileParts) → profile_of ms ≡ Ok bus → IsAccepted bus }
    ensures text { (text : List ℕ) (bus : ProfileParts) → SaysBus text (Ok bus) → IsAccepted bus }
{}

/// Under what a text says as a profile, what `json` writes of bytes is lines of JSON alone, for a whole
/// capture and so far: each is an object with distinct keys, in printable ASCII, with its LF. So it is
/// whatever else was chosen.
pub fn json_is_lines()
    ensures whole { (profile : List ℕ) (bus : ProfileParts) (choice : ChoiceData) (after : AfterBadToken) (bytes text : List ℕ) (tally : Tally)
        → SaysBus profile (Ok bus) → choice.telling ≡ Objects → AreBytes bytes → WritesTold choice bus.devices after bytes text tally → AreJsonLines text }
    ensures so_far { (profile : List ℕ) (bus : ProfileParts) (choice : ChoiceData) (after : AfterBadToken) (bytes text : List ℕ)
        → SaysBus profile (Ok bus) → choice.telling ≡ Objects → AreBytes bytes → HasTold choice bus.devices after bytes text → AreJsonLines text }
{
    said_profiles_are_accepted();
    each_line_is_json();
}
