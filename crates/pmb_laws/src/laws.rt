//! Laws over what the subcommands write. Each function ensures one, and does nothing.

ghost use Rattle.std.specs.Prelude.{◌≡◌, ℕ, List, length};
ghost use Rattle.pmb_bus.specs.Event.{canonical_text};
ghost use Rattle.pmb_bus.specs.Text.{Spells};
ghost use Rattle.pmb_bus.specs.declared.event.Event.{Event};
ghost use Rattle.pmb_command.specs.Bus.{IsBus};
ghost use Rattle.pmb_command.specs.Parts.{DeviceParts};
ghost use Rattle.pmb_transaction.specs.Capture.{Capture};
ghost use Rattle.pmb_io.specs.Count.{capped};
ghost use Rattle.pmb_io.specs.declared.tally.Tally.{Tally};
ghost use Rattle.pmb_capture.specs.Check.{Checks};
ghost use Rattle.pmb_capture.specs.Show.{Shows};
ghost use Rattle.pmb_build.specs.Lines.{BuildsInput};
ghost use Rattle.pmb_run.specs.Lines.{RunsInput, all_recorded};

use pmb_build::laws::one_building;
use pmb_bus::laws::{one_spelling, spelled_has_no_bad_word};
use pmb_line::laws::{comments_say_nothing, lines_are_short};
use pmb_note::laws::notes_are_short;
use pmb_transaction::laws::{captures_read_as_written, packets_are_bytes};

/// Where bytes spell events and nothing in them is refused, what `build` writes for what `show` wrote
/// of them is the canonical text of these events, and it counts as many packets and no fault. So a
/// capture can be edited as lines and built again.
pub fn shown_is_built_again()
    ensures again { (profile : List DeviceParts) (bytes shown : List ℕ) (events : List Event) (tally : Tally) → IsBus profile
        → Spells bytes events → Shows profile bytes shown tally → tally.refusals ≡ 0
        → BuildsInput profile tally shown (canonical_text events) }
    ensures alone { (profile : List DeviceParts) (bytes shown built : List ℕ) (events : List Event) (s t : Tally) → IsBus profile
        → Spells bytes events → Shows profile bytes shown s → s.refusals ≡ 0
        → BuildsInput profile t shown built → (built ≡ canonical_text events) × (t ≡ s) }
{
    comments_say_nothing();
    lines_are_short();
    notes_are_short();
    one_spelling();
    one_building();
}

/// What `run` writes is a capture, whatever the lines that it was given: its text spells the packets
/// that were recorded, in order, and its results and faults are comments. So `check` refuses nothing of
/// it, and counts these packets.
pub fn runs_are_captures()
    ensures captured { (profile : List DeviceParts) (bytes text : List ℕ) (tally : Tally) → IsBus profile
        → (run : RunsInput profile tally bytes text)
        → (events : List Event) × Spells text events × Capture profile (all_recorded run.given.answers) events }
    ensures checked { (profile : List DeviceParts) (bytes text checked : List ℕ) (tally counted : Tally) → IsBus profile
        → (run : RunsInput profile tally bytes text) → Checks profile text checked counted
        → (counted.refusals ≡ 0) × (counted.packets ≡ capped (length (all_recorded run.given.answers))) }
{
    captures_read_as_written();
    one_spelling();
    packets_are_bytes();
    spelled_has_no_bad_word();
}
