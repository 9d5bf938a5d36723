//! Laws over the definitions alone.

ghost use Rattle.std.specs.Prelude.{◌≡◌, ℕ, ◌++◌, false, List, Option};
ghost use Rattle.pmb_colour.specs.declared.lines.Lines.{Lines as Painting};
ghost use Rattle.pmb_colour.specs.Onward.{all_pieces};
ghost use Rattle.pmb_colour.specs.Painting.{Held, held_after, pieces_of};
ghost use Rattle.pmb_colour.specs.Pieces.{has_escape, shown, taken_out, texts};

/// The pieces that go out, and what is held behind them, are what was held and the text. So they are
/// what goes out without its sequences, where the text has none of its own.
pub fn the_same_text()
    ensures text { (lines : Painting) (held : Held) (text : List ℕ) → texts (pieces_of lines held text) ++ (held_after held text).line ≡ held.line ++ text }
    ensures taken_out { (lines : Painting) (held : Held) (text : List ℕ) → has_escape (held.line ++ text) ≡ false
        → taken_out false (shown (pieces_of lines held text)) ++ (held_after held text).line ≡ held.line ++ text }
{}

/// However a text is cut, the same goes out.
pub fn lines_go_on()
    ensures pieces { (lines : Painting) (held : Held) (text more : List ℕ) → pieces_of lines held (text ++ more) ≡ pieces_of lines held text ++ pieces_of lines (held_after held text) more }
    ensures held { (held : Held) (text more : List ℕ) → held_after held (text ++ more) ≡ held_after (held_after held text) more }
{}

/// What goes on of a whole text is the text, and so it is without its sequences, where the text has none
/// of its own.
pub fn the_whole_text()
    ensures text { (lines : Option Painting) (text : List ℕ) → texts (all_pieces lines text) ≡ text }
    ensures taken_out { (lines : Option Painting) (text : List ℕ) → has_escape text ≡ false → taken_out false (shown (all_pieces lines text)) ≡ text }
{}
