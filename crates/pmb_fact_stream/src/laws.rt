//! Laws over the definitions. Each function is its contract, and does nothing.

ghost use Rattle.std.specs.Prelude.{◌≡◌, ◌*◌, ◌++◌, List, Option, [], filter, length, ℕ};
ghost use Rattle.pmb_bus.specs.declared.event.Event.{Event};
ghost use Rattle.pmb_bus.specs.Text.{Spells};
ghost use Rattle.pmb_command.specs.Parts.{DeviceParts};
ghost use Rattle.pmb_facts.specs.Fact.{FactData};
ghost use Rattle.pmb_json_objects.specs.Counts.{CountsData};
ghost use Rattle.pmb_places.specs.declared.places.Place.{Place};
ghost use Rattle.pmb_reader.specs.declared.refusal.Refusal.{Refusal};
ghost use Rattle.pmb_scan.specs.Reached.{Reached};
ghost use Rattle.pmb_scan.specs.Scan.{end_spans};
ghost use Rattle.pmb_spans.specs.Spans.{Span, is_whole, moved_spans};
ghost use Rattle.pmb_unknown_start.specs.Past.{PastData};
ghost use Rattle.pmb_fact_stream.specs.Choice.{ChoiceData};
ghost use Rattle.pmb_fact_stream.specs.Lines.{fact_lines, last_lines};
ghost use Rattle.pmb_fact_stream.specs.Others.{is_told, is_untold};
ghost use Rattle.pmb_fact_stream.specs.Records.{TakesNext, fact_records, wanted_facts};
ghost use Rattle.pmb_fact_stream.specs.Spans.{IsNoneOutside, after_open, after_spans, open_facts, span_facts};
ghost use Rattle.pmb_fact_stream.specs.UnderWay.{open_time};
ghost use Rattle.pmb_fact_stream.specs.declared.telling.Telling.TheVariants.{Items};

use pmb_items::RECORD;
use pmb_items::laws::records_have_one_length;
use pmb_times::laws::times_stay;

/// The time of what is under way after the events of a text stays, whatever follows in the text.
pub fn open_times_stay()
    ensures { (text more : List ℕ) (events : List Event) → Spells text events → open_time (text ++ more) events ≡ open_time text events }
{
    times_stay();
}

/// Of the spans of an end those are told whose fact was out before: an other that is under way.
/// What is put out at the end is the rest. All spans but an end inside a packet are told.
pub fn others_are_told()
    ensures facts { (ignored : Option (List ℕ)) (place : ℕ → Place) (times : ℕ → Option (List ℕ)) (lost : ℕ → List Event → List PastData) (before : List PastData) (m : ℕ) (reached : Reached) (end : Option Refusal)
        → IsNoneOutside reached end
        → span_facts ignored place times lost before (moved_spans m (filter (is_told ignored) (end_spans reached.standing end))) ≡ open_facts ignored place times m reached.standing }
    ensures rest { (ignored : Option (List ℕ)) (place : ℕ → Place) (times : ℕ → Option (List ℕ)) (lost : ℕ → List Event → List PastData) (before : List PastData) (m : ℕ) (reached : Reached) (end : Option Refusal)
        → IsNoneOutside reached end
        → open_facts ignored place times m reached.standing ++ span_facts ignored place times lost before (moved_spans m (filter (is_untold ignored) (end_spans reached.standing end)))
        ≡ span_facts ignored place times lost before (moved_spans m (end_spans reached.standing end)) }
    ensures counts { (ignored : Option (List ℕ)) (c : CountsData) (reached : Reached) (end : Option Refusal) → IsNoneOutside reached end
        → after_spans ignored c (filter (is_told ignored) (end_spans reached.standing end)) ≡ after_open ignored c reached.standing }
    ensures whole { (ignored : Option (List ℕ)) (spans : List Span) → filter is_whole spans ≡ spans → filter (is_told ignored) spans ≡ spans }
{}

/// Told as records, each fact that is told has one of [`RECORD`] bytes, one after the other, and at the
/// end there is nothing more. So the bytes after some whole records are that of the next fact.
pub fn facts_have_records()
    ensures records { (choice : ChoiceData) (profile : List DeviceParts) (facts : List FactData) → choice.telling ≡ Items
        → fact_lines choice profile facts ≡ fact_records choice profile (wanted_facts choice profile facts) }
    ensures long { (choice : ChoiceData) (profile : List DeviceParts) (facts : List FactData) → choice.telling ≡ Items
        → length (fact_lines choice profile facts) ≡ RECORD * length (wanted_facts choice profile facts) }
    ensures last { (choice : ChoiceData) (profile : List DeviceParts) (counts : CountsData) → choice.telling ≡ Items → last_lines choice profile counts ≡ [] }
    ensures next { (choice : ChoiceData) (profile : List DeviceParts) (facts : List FactData) (n : ℕ) (taken next left : List ℕ) → choice.telling ≡ Items
        → fact_lines choice profile facts ≡ taken ++ (next ++ left) → length taken ≡ RECORD * n → length next ≡ RECORD → TakesNext choice profile facts taken next left }
{
    records_have_one_length();
}
