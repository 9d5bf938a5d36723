//! Laws over the definitions alone.

ghost use Rattle.std.specs.Prelude.{◌≡◌, ℕ, Option, List};
ghost use Rattle.pmb_bus.specs.declared.event.Event.{Event};
ghost use Rattle.pmb_command.specs.Bus.{IsBus};
ghost use Rattle.pmb_command.specs.Parts.{DeviceParts};
ghost use Rattle.pmb_facts.specs.Fact.{FactData};
ghost use Rattle.pmb_io.specs.declared.tally.Tally.{Tally};
ghost use Rattle.pmb_json_objects.specs.Counts.{CountsData};
ghost use Rattle.pmb_scan.specs.declared.after_bad_token.AfterBadToken.{AfterBadToken};
ghost use Rattle.pmb_spans.specs.Spans.{Span, moved_spans};
ghost use Rattle.pmb_fact_stream.specs.Before.{at_first};
ghost use Rattle.pmb_fact_stream.specs.Choice.{ChoiceData};
ghost use Rattle.pmb_fact_stream.specs.Lost.{lost_in};
ghost use Rattle.pmb_fact_stream.specs.Spans.{after_spans, past_in};
ghost use Rattle.pmb_telling.specs.SoFar.{HasTold};
ghost use Rattle.pmb_telling.specs.Text.{BadLine, FactsFrom, WritesTold};

pub use crate::capture_teller::tellers_have_told;
use pmb_bus::laws::{each_text_is_read, one_bad_word, one_spelling, spelled_has_no_bad_word};
use pmb_spans::laws::{each_list_has_spans, one_list_of_spans};

/// Spans that are moved say the same, lose the same, and count the same.
pub fn moved_spans_count_the_same()
    ensures counts { (ignored : Option (List ℕ)) (n : ℕ) (spans : List Span) (c : CountsData) → after_spans ignored c (moved_spans n spans) ≡ after_spans ignored c spans }
    ensures past { (profile : List DeviceParts) (n : ℕ) (events : List Event) (spans : List Span)
        → past_in (lost_in profile n events) (moved_spans n spans) ≡ past_in (lost_in profile 0 events) spans }
{}

/// The facts of bytes, and what is counted after them, are a function of the bytes, whichever addresses
/// are ignored, under a profile that is accepted.
pub fn one_list_of_facts()
    ensures { (ignored : Option (List ℕ)) (profile : List DeviceParts) (after : AfterBadToken) (bytes : List ℕ) (bad lines : List BadLine) (facts others : List FactData) (c d : CountsData) → IsBus profile
        → FactsFrom ignored profile after at_first bytes bad facts c → FactsFrom ignored profile after at_first bytes lines others d → (facts ≡ others) × (c ≡ d) }
{
    one_spelling();
    one_bad_word();
    spelled_has_no_bad_word();
    one_list_of_spans();
}

/// What is written for bytes, and its tally, is a function of the bytes, whatever was chosen, under a
/// profile that is accepted.
pub fn one_text_is_told()
    ensures { (choice : ChoiceData) (profile : List DeviceParts) (after : AfterBadToken) (bytes a b : List ℕ) (s t : Tally) → IsBus profile
        → WritesTold choice profile after bytes a s → WritesTold choice profile after bytes b t → (a ≡ b) × (s ≡ t) }
{
    one_spelling();
    one_bad_word();
    spelled_has_no_bad_word();
    one_list_of_spans();
}

/// And so is what is written so far, for bytes that more may follow.
pub fn one_text_is_told_so_far()
    ensures { (choice : ChoiceData) (profile : List DeviceParts) (after : AfterBadToken) (bytes a b : List ℕ) → IsBus profile
        → HasTold choice profile after bytes a → HasTold choice profile after bytes b → a ≡ b }
{
    one_spelling();
    one_bad_word();
    spelled_has_no_bad_word();
    one_list_of_spans();
}

/// Something is written for any bytes, with a tally, under a profile that is accepted.
pub fn some_text_is_told()
    ensures { (choice : ChoiceData) (profile : List DeviceParts) (after : AfterBadToken) (bytes : List ℕ) → IsBus profile
        → (text : List ℕ) × (tally : Tally) × WritesTold choice profile after bytes text tally }
{
    each_text_is_read();
    each_list_has_spans();
}
