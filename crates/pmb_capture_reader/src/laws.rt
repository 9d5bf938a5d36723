//! Laws over the definitions alone.

ghost use Rattle.std.specs.Prelude.{◌≡◌, ◌*◌, ◌++◌, ℕ, List, length};
ghost use Rattle.pmb_capture_reader.specs.Items.{AreFacts};
ghost use Rattle.pmb_capture_reader.specs.Reader.{ReaderStands, reader_ready, reader_state};
ghost use Rattle.pmb_capture_reader.specs.declared.reader.CaptureReader.{CaptureReader};
ghost use Rattle.pmb_command.specs.Parts.{DeviceParts};
ghost use Rattle.pmb_fact_stream.specs.Choice.{ChoiceData};
ghost use Rattle.pmb_fact_stream.specs.Records.{TakesNext};
ghost use Rattle.pmb_fact_stream.specs.declared.telling.Telling.TheVariants.{Items};
ghost use Rattle.pmb_facts.specs.Fact.{FactData};
ghost use Rattle.pmb_scan.specs.declared.after_bad_token.AfterBadToken.{AfterBadToken};

use pmb_fact_stream::laws::facts_have_records;
use pmb_items::RECORD;

/// Of a reader that tells records, from which whole ones were taken, whole ones are ready, and the oldest
/// is that of the first fact that was not taken.
pub fn readers_of_items()
    ensures whole { (choice : ChoiceData) (profile : List DeviceParts) (after : AfterBadToken) (given taken : List ℕ) (reader : CaptureReader) (n : ℕ) → choice.telling ≡ Items
        → ReaderStands choice profile after given taken reader → length taken ≡ RECORD * n → (k : ℕ) × (length (reader_ready reader) ≡ RECORD * k) }
    ensures next { (choice : ChoiceData) (profile : List DeviceParts) (after : AfterBadToken) (given taken next left : List ℕ) (reader : CaptureReader) (n : ℕ) → choice.telling ≡ Items
        → ReaderStands choice profile after given taken reader → length taken ≡ RECORD * n → reader_ready reader ≡ next ++ left → length next ≡ RECORD
        → (facts : List FactData) × AreFacts choice profile after (reader_state reader) given facts × TakesNext choice profile facts taken next left }
{
    facts_have_records();
}
