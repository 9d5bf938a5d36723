//! Laws over the definitions alone.

ghost use Rattle.std.specs.Prelude.{◌≡◌, ℕ, ◌+◌, ◌++◌, [], ◌≢◌, codes, List, Option};
ghost use Rattle.std.specs.Io.KnownBytes.{Appends, Consumes, Keeps};
ghost use Rattle.pmb_io.specs.Count.{raised};
ghost use Rattle.pmb_io.specs.Lines.{IsCut, LinesGoOn, cut, ended_lines, lines_of, without_cr};
ghost use Rattle.pmb_io.specs.Outgoing.{PutsText, TextsAddUp};
ghost use Rattle.pmb_io.specs.Runs.{Gave};
ghost use Rattle.pmb_io.specs.Told.{ReaderTold};

/// The lines of a text, each with its LF, and what follows the last are the text; none has an LF.
pub fn lines_are_the_text()
    ensures { (bytes : List ℕ) → IsCut bytes (cut bytes) }
{}

/// The lines of a text that continues begin with those that had ended in it.
pub fn ended_lines_stay()
    ensures { (most : ℕ) (bytes more : List ℕ) → LinesGoOn (ended_lines most bytes) (lines_of most (bytes ++ more)) }
{}

/// A line loses the one CR at its end, and another line stays as it is.
pub fn one_return_is_dropped()
    ensures dropped { (line : List ℕ) → without_cr (line ++ codes "\r") ≡ line }
    ensures kept { (line : List ℕ) → ((front : List ℕ) → line ≢ front ++ codes "\r") → without_cr line ≡ line }
{}

/// A text that is put out, and then another, are put out as one. A text that waits after what waited
/// is put out, and so is no text where nothing changes. What was put out where nothing waited before
/// it or waits after it is written.
pub fn texts_add_up()
    ensures both { TextsAddUp }
    ensures waits { (held : Option (List ℕ)) (waiting text : List ℕ) → PutsText held waiting held (waiting ++ text) text }
    ensures nothing { (held : Option (List ℕ)) (waiting : List ℕ) → PutsText held waiting held waiting [] }
    ensures written { (h0 h1 : Option (List ℕ)) (text : List ℕ) → PutsText h0 [] h1 [] text → Appends h0 h1 text }
{}

/// Bytes that are read, and then others, are read as one piece. No bytes are read where nothing
/// changes.
pub fn reads_add_up()
    ensures both { (a b c : Option (List ℕ)) (x y : List ℕ) → Consumes a b x → Consumes b c y → Consumes a c (x ++ y) }
    ensures nothing { (a : Option (List ℕ)) → Consumes a a [] }
    ensures kept { (a b : Option (List ℕ)) → Keeps a b → Consumes a b [] }
    ensures both_given { (old mid new : ReaderTold) (x y : List ℕ) → Gave old mid x → Gave mid new y → Gave old new (x ++ y) }
    ensures nothing_given { (told : ReaderTold) → Gave told told [] }
{}

/// Counts that are raised twice are raised by both.
pub fn counts_add_up()
    ensures both { (count a b : ℕ) → raised (raised count a) b ≡ raised count (a + b) }
    ensures nothing { (count : ℕ) → raised count 0 ≡ count }
{}
