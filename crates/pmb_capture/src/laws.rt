//! Laws over the definitions alone.
//!
//! Its rows: `tests_tasks`, `src/captures.rt`, where laws are called.

ghost use Rattle.std.specs.Prelude.{◌≡◌, ℕ, List, [], ◌∷◌, ◌++◌, length};
ghost use Rattle.pmb_bus.specs.declared.event.Event.{Event};
ghost use Rattle.pmb_bus.specs.Event.{character};
ghost use Rattle.pmb_bus.specs.Text.{Spells};
ghost use Rattle.pmb_command.specs.Bus.{IsBus};
ghost use Rattle.pmb_command.specs.Parts.{DeviceParts};
ghost use Rattle.pmb_io.specs.declared.tally.Tally.{Tally};
ghost use Rattle.pmb_io.specs.Count.{capped};
ghost use Rattle.pmb_transaction.specs.Capture.{Capture};
ghost use Rattle.pmb_transaction.specs.Cut.{EndsWithStop};
ghost use Rattle.pmb_transaction.specs.Transaction.{TransactionData};
ghost use Rattle.pmb_capture.specs.Check.{Checks};
ghost use Rattle.pmb_capture.specs.Cut.{EndsAtCut, sum_of};
ghost use Rattle.pmb_capture.specs.Show.{Shows, noted_lines};

use pmb_bus::laws::{
    each_text_is_read, one_bad_word, one_spelling, spelled_has_no_bad_word,
    texts_may_be_cut_between_words,
};
use pmb_transaction::laws::{
    captures_may_be_cut_behind_stop, captures_read_as_written, each_list_has_a_reading, one_reading,
};

/// What is shown of bytes, and its tally, is a function of the bytes under a profile that is
/// accepted.
pub fn one_showing()
    ensures { (profile : List DeviceParts) (bytes a b : List ℕ) (s t : Tally) → IsBus profile
        → Shows profile bytes a s → Shows profile bytes b t → (a ≡ b) × (s ≡ t) }
{
    one_reading();
    one_spelling();
    one_bad_word();
    spelled_has_no_bad_word();
}

/// And so is what is written of them in a check.
pub fn one_check()
    ensures { (profile : List DeviceParts) (bytes a b : List ℕ) (s t : Tally) → IsBus profile
        → Checks profile bytes a s → Checks profile bytes b t → (a ≡ b) × (s ≡ t) }
{
    one_reading();
    one_spelling();
    one_bad_word();
    spelled_has_no_bad_word();
}

/// Something is shown of any bytes, with a tally, under a profile that is accepted.
pub fn some_showing()
    ensures { (profile : List DeviceParts) (bytes : List ℕ) → IsBus profile
        → (text : List ℕ) × (tally : Tally) × Shows profile bytes text tally }
{
    each_list_has_a_reading();
    each_text_is_read();
}

/// And something is written of them in a check.
pub fn some_check()
    ensures { (profile : List DeviceParts) (bytes : List ℕ) → IsBus profile
        → (text : List ℕ) × (tally : Tally) × Checks profile bytes text tally }
{
    each_list_has_a_reading();
    each_text_is_read();
}

/// The capture of transactions, however it is spelled, is shown as their lines, each with its note
/// after those before it, and nothing in it is refused, under a profile that is accepted.
pub fn captures_are_shown()
    ensures { (profile : List DeviceParts) (ts : List TransactionData) (events : List Event) (bytes : List ℕ) → IsBus profile
        → Capture profile ts events → Spells bytes events
        → Shows profile bytes (noted_lines profile ts) (record { packets = capped (length ts); refusals = 0 }) }
{
    captures_read_as_written();
}

/// Where a capture's text is cut after a STOP, as after a line that ends with one, the counts of
/// its two pieces add up to those of the whole, whatever the second piece is, under a profile that
/// is accepted: in a check as where it is shown.
pub fn counts_add_up()
    ensures checked { (profile : List DeviceParts) (front back : List ℕ) (a b all : List ℕ) (s t tally : Tally) → IsBus profile
        → EndsAtCut front → Checks profile front a s → Checks profile back b t → Checks profile (front ++ back) all tally
        → tally ≡ sum_of s t }
    ensures shown { (profile : List DeviceParts) (front back : List ℕ) (a b all : List ℕ) (s t tally : Tally) → IsBus profile
        → EndsAtCut front → Shows profile front a s → Shows profile back b t → Shows profile (front ++ back) all tally
        → tally ≡ sum_of s t }
    ensures lines { (line : List ℕ) (events : List Event) → Spells (line ++ character "\n" ∷ []) events → EndsWithStop events
        → EndsAtCut (line ++ character "\n" ∷ []) }
{
    one_reading();
    one_spelling();
    one_bad_word();
    spelled_has_no_bad_word();
    texts_may_be_cut_between_words();
    captures_may_be_cut_behind_stop();
}
