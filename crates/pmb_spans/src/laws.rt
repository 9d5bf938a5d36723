//! The laws of spans: each function is its contract, and does nothing.

ghost use Rattle.std.specs.Prelude.{◌≡◌, ℕ, ◌+◌, true, List, ◌++◌, length, map};
ghost use Rattle.std.specs.List.{All};
ghost use Rattle.pmb_bus.specs.declared.event.Event.{Event};
ghost use Rattle.pmb_command.specs.Bus.{IsBus};
ghost use Rattle.pmb_command.specs.Parts.{DeviceParts};
ghost use Rattle.pmb_transaction.specs.Cut.{EndsWithStop};
ghost use Rattle.pmb_transaction.specs.Reading.{Outcome, ReadsFrom};
ghost use Rattle.pmb_spans.specs.Spans.{Span, Spans, SpansFrom, is_whole, moved_spans, outcome};

use pmb_bus::laws::kinds_are_told_by_events;
use pmb_transaction::laws::{
    each_list_has_a_reading, events_are_passed_over, fronts_are_viable, packets_under_way,
    refusals_move,
};

/// Events read as the outcomes of their spans, however many events came before them.
pub fn spans_read()
    ensures { (profile : List DeviceParts) (n : ℕ) (events : List Event) (spans : List Span) → SpansFrom profile n events spans
        → ReadsFrom profile n events (map outcome spans) }
{}

/// Whatever outcomes events read as, they have spans with these outcomes.
pub fn readings_have_spans()
    ensures { (profile : List DeviceParts) (n : ℕ) (events : List Event) (outcomes : List Outcome) → ReadsFrom profile n events outcomes
        → ((spans : List Span) × SpansFrom profile n events spans × (map outcome spans ≡ outcomes)) }
{}

/// Each list of events has some spans under a profile that is accepted, however many events came
/// before it.
pub fn each_list_has_spans()
    ensures { (profile : List DeviceParts) (n : ℕ) (events : List Event) → IsBus profile
        → ((spans : List Span) × SpansFrom profile n events spans) }
{
    each_list_has_a_reading();
}

/// Events have one list of spans at most under a profile that is accepted: the outcomes tell which
/// events each of them has.
pub fn one_list_of_spans()
    ensures { (profile : List DeviceParts) (n : ℕ) (events : List Event) (a b : List Span) → IsBus profile
        → SpansFrom profile n events a → SpansFrom profile n events b → a ≡ b }
{
    events_are_passed_over();
    fronts_are_viable();
    kinds_are_told_by_events();
}

/// Where n more events came before, the spans are the same, moved by n.
pub fn spans_move()
    ensures { (profile : List DeviceParts) (n m : ℕ) (events : List Event) (spans : List Span) → SpansFrom profile m events spans
        → SpansFrom profile (n + m) events (moved_spans n spans) }
{
    refusals_move();
}

/// A capture may be cut after any STOP: where the first of two lists of events ends with STOP,
/// both, end to end, have the spans of the first and then those of the second, moved by the number
/// of events of the first; and no others, under a profile that is accepted. No packet is truncated
/// at the cut.
pub fn spans_may_be_cut()
    ensures joined { (profile : List DeviceParts) (first second : List Event) (spans others : List Span)
        → EndsWithStop first → Spans profile first spans → Spans profile second others
        → Spans profile (first ++ second) (spans ++ moved_spans (length first) others) }
    ensures cut { (profile : List DeviceParts) (first second : List Event) (both : List Span) → IsBus profile
        → EndsWithStop first → Spans profile (first ++ second) both
        → ((spans : List Span) × (others : List Span) × Spans profile first spans × Spans profile second others
        × (both ≡ spans ++ moved_spans (length first) others)) }
    ensures whole { (profile : List DeviceParts) (first : List Event) (spans : List Span)
        → EndsWithStop first → Spans profile first spans → All (λ span. is_whole span ≡ true) spans }
{
    each_list_has_a_reading();
    events_are_passed_over();
    fronts_are_viable();
    kinds_are_told_by_events();
    packets_under_way();
    spans_move();
}
