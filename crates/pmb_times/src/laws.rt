//! Laws over the definitions. Each function is its contract, and does nothing.

ghost use Rattle.std.specs.Prelude.{◌≡◌, ◌↔◌, None, Some, ◌+◌, ◌<◌, ◌++◌, ◌∷◌, [], ℕ, List, codes, length, IfSome, true};
ghost use Rattle.pmb_bus.specs.declared.event.Event.{Event};
ghost use Rattle.pmb_bus.specs.Text.{EndsBetween, Spells, front_word, is_word, words};
ghost use Rattle.pmb_times.specs.Line.{IsTime, line_time};
ghost use Rattle.pmb_times.specs.TextLine.{IsLineAfter};
ghost use Rattle.pmb_times.specs.TimeLine.{IsTimeLine};
ghost use Rattle.pmb_times.specs.Times.{gap_times, time_at, time_behind, time_of_last_word};

use pmb_places::laws::each_word_has_a_place;

/// A line tells a time exactly where it is a time line, and then that one.
pub fn time_lines_tell_their_time()
    ensures { (line time : List ℕ) → (line_time line ≡ Some time) ↔ IsTimeLine line time }
{}

/// The last time line since the last word counts. At first no time is told. A line with a word begins a
/// gap that has no time yet, and a line without words leaves the time as it is. The LF of a time line
/// tells its time, and that of any other line changes nothing. Together these clauses give, for every
/// text, the time of the gap at its end.
pub fn the_last_time_line_counts()
    ensures first { time_behind [] ≡ None }
    ensures kept { (front line : List ℕ) → IsLineAfter front line → words line ≡ []
        → time_behind (front ++ line) ≡ time_behind front }
    ensures new_gap { (front line : List ℕ) → IsLineAfter front line → 0 < length (words line)
        → time_behind (front ++ line) ≡ None }
    ensures told { (front line time : List ℕ) → IsLineAfter front line → line_time line ≡ Some time
        → time_behind (front ++ line ++ codes "\n") ≡ Some time }
    ensures untold { (front line : List ℕ) → IsLineAfter front line → line_time line ≡ None
        → time_behind (front ++ line ++ codes "\n") ≡ time_behind (front ++ line) }
{}

/// There is one gap more than words.
pub fn each_word_has_a_gap()
    ensures { (text : List ℕ) → length (gap_times text) ≡ length (words text) + 1 }
{
    each_word_has_a_place();
}

/// The time of a word that has begun stays, whatever follows.
pub fn times_stay()
    ensures { (text more : List ℕ) (k : ℕ) → k < length (words text) → time_at (text ++ more) k ≡ time_at text k }
{
    each_word_has_a_place();
}

/// The last word has its time by its number, whatever follows.
pub fn the_last_word_has_its_time()
    ensures counted { (text more : List ℕ) (n : ℕ) → length (words text) ≡ n + 1
        → time_at (text ++ more) n ≡ time_of_last_word text }
    ensures spelled { (text more : List ℕ) (events : List Event) (event : Event) → Spells text (events ++ event ∷ [])
        → time_at (text ++ more) (length events) ≡ time_of_last_word text }
    ensures itself { (text : List ℕ) (events : List Event) (event : Event) → Spells text (events ++ event ∷ [])
        → time_of_last_word text ≡ time_at text (length events) }
{
    each_word_has_a_place();
}

/// A word that follows a text which ends between words has the time told since the text's last word.
/// So has the gap at the end of a text.
pub fn the_next_word_has_its_time()
    ensures next { (front rest : List ℕ) → EndsBetween front → is_word (front_word rest) ≡ true
        → time_at (front ++ rest) (length (words front)) ≡ time_behind front }
    ensures last { (text : List ℕ) → time_at text (length (words text)) ≡ time_behind text }
    ensures spelled { (text : List ℕ) (events : List Event) → Spells text events
        → time_at text (length events) ≡ time_behind text }
{
    each_word_has_a_place();
}

/// A time has from 1 to 40 bytes, each a digit or one of `.`, `:`, `-`, `+`, `T` and `Z`.
pub fn times_are_short()
    ensures line { (line : List ℕ) → IfSome (line_time line) IsTime }
    ensures at { (text : List ℕ) (k : ℕ) → IfSome (time_at text k) IsTime }
    ensures last { (text : List ℕ) → IfSome (time_of_last_word text) IsTime }
    ensures next { (text : List ℕ) → IfSome (time_behind text) IsTime }
{}

/// A time that a piece of a capture tells is that of the whole, where the capture is cut at a line's
/// end: k gaps after the front's words. (The whole may tell one where the piece does not, by a time
/// line before the cut.)
pub fn times_of_a_piece()
    ensures { (front back : List ℕ) (k : ℕ) → (lines : List ℕ) × (front ≡ lines ++ codes "\n")
        → IfSome (time_at back k) (λ time. time_at (front ++ back) (length (words front) + k) ≡ Some time) }
{
    each_word_has_a_place();
}
