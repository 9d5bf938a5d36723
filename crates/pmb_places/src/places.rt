//! Where words stand.
//!
//! `Places` keeps the places of three bytes and whether the last byte was one of a word or of a
//! comment, and nothing else of the text. Most bytes come as a short word and the space after it,
//! which `take` takes at once; all others come one after the other. Of a line of canonical text the
//! length alone says where its last word stands, so `take_line` needs no bytes.
//!
//! Its rows: `tests_bytes`, `src/places/rows.rt`, `src/places/lines.rt`.

ghost use Rattle.std.specs.Prelude.{◌≡◌, ◌++◌, ◌∷◌, [], ℕ, List, length, true, false};
ghost use Rattle.std.specs.List.{Contains};
ghost use Rattle.pmb_bus.specs.declared.event.Event.{Event as BusEvent};
ghost use Rattle.pmb_bus.specs.declared.event.Event.TheVariants.{Stop};
ghost use Rattle.pmb_bus.specs.Event.{AreBytes, canonical_text};
ghost use Rattle.pmb_bus.specs.Text.{EndsBetween, is_separator};
ghost use Rattle.pmb_places.specs.Places.{PlacesStandAt, end_of_last_word, place_after, place_behind, place_of_last_word};
ghost use Rattle.pmb_places.specs.machine.Standing.{after_byte, behind_line, behind_word, further_along, inside_behind, place_beside};

use crate::short_word::{ShortWord, short_word};

/// The place of a byte in a text. A line ends with LF. Both numbers count from 1, and stay at the
/// greatest `u64`.
#[derive(Clone, Copy, Debug, PartialEq, Eq)]
pub struct Place {
    pub line: u64,
    /// In bytes.
    pub column: u64,
}

impl Place {
    /// The next place of the same line.
    #[inline]
    fn beside(self) -> Place
        ensures { result ≡ place_beside self }
    {
        Place {
            line: self.line,
            column: self.column.saturating_add(1),
        }
    }

    /// The place so many bytes further along the same line.
    #[inline]
    fn further_along(self, bytes: usize) -> Place
        ensures { result ≡ further_along self bytes }
    {
        Place {
            line: self.line,
            column: self.column.saturating_add(bytes as u64),
        }
    }

    // The place of the byte after a byte that stands here.
    #[inline]
    fn after(self, byte: u8) -> Place
        ensures { result ≡ place_after self byte }
    {
        if byte == b'\n' {
            Place {
                line: self.line.saturating_add(1),
                column: 1,
            }
        } else {
            self.beside()
        }
    }
}

/// What the last byte stands in.
#[derive(Clone, Copy)]
enum TextState {
    /// Neither a word nor a comment, or no byte came.
    Between,
    Word,
    Comment,
}

impl TextState {
    // What a byte stands in, after one that stands in this.
    #[inline]
    fn behind(self, byte: u8) -> TextState
        ensures { result ≡ inside_behind self byte }
    {
        match (self, byte) {
            (TextState::Comment, b'\n') => TextState::Between,
            (TextState::Comment, _) | (_, b'#') => TextState::Comment,
            (_, b' ' | b'\t' | b'\n' | b'\r') => TextState::Between,
            _ => TextState::Word,
        }
    }
}

/// Where the words of a text stand.
#[derive(Clone, Copy)]
pub struct Places {
    /// Of the next byte.
    here: Place,
    /// Of the first byte of the last word, and of the byte after its last one.
    word: Place,
    end: Place,
    inside: TextState,
}

impl Places {
    /// At the start of a text.
    pub fn new() -> Places
        ensures { PlacesStandAt result [] }
    {
        let first = Place { line: 1, column: 1 };
        Places {
            here: first,
            word: first,
            end: first,
            inside: TextState::Between,
        }
    }

    /// The place of the next byte.
    pub fn here(&self) -> Place
        ensures { (text : List ℕ) → PlacesStandAt self.now text → result ≡ place_behind text }
    {
        self.here
    }

    /// Where the last word began, also if it has not ended; line 1, column 1 before all words.
    pub fn word(&self) -> Place
        ensures { (text : List ℕ) → PlacesStandAt self.now text → result ≡ place_of_last_word text }
    {
        self.word
    }

    /// The place after the last word; line 1, column 1 before all words.
    pub fn end(&self) -> Place
        ensures { (text : List ℕ) → PlacesStandAt self.now text → result ≡ end_of_last_word text }
    {
        self.end
    }

    /// Takes the next bytes of the text.
    #[inline]
    pub fn take(&mut self, bytes: &[u8])
        ensures { (text : List ℕ) → PlacesStandAt self.old text → PlacesStandAt self.new (text ++ bytes.now) }
    {
        match (self.inside, short_word(bytes)) {
            (TextState::Between, ShortWord::One) => self.take_word(self.here.beside()),
            (TextState::Between, ShortWord::Two) => self.take_word(self.here.beside().beside()),
            _ => self.take_each(bytes),
        }
    }

    /// Takes the rest of a line, given only its length in bytes. It follows a text that ends
    /// between words, and is the canonical text of events of which the last one, and no other, is
    /// STOP.
    #[inline]
    pub fn take_line(&mut self, bytes: usize)
        ensures { (text : List ℕ) (events : List BusEvent) → PlacesStandAt self.old text → EndsBetween text
            → AreBytes events → (Contains events Stop → ⊥) → bytes ≡ length (canonical_text (events ++ Stop ∷ []))
            → PlacesStandAt self.new (text ++ canonical_text (events ++ Stop ∷ [])) }
    {
        self.take_last_word(self.here.further_along(bytes.saturating_sub(2)));
    }

    /// Takes all up to a last word of one byte, which stands there, that word, and LF.
    #[inline]
    fn take_last_word(&mut self, word: Place)
        ensures { self.new ≡ behind_line word }
    {
        self.word = word;
        self.end = word.beside();
        self.here = self.end.after(b'\n');
        self.inside = TextState::Between;
    }

    /// Takes a word of this line that ends at `end`, and one space.
    #[inline]
    fn take_word(&mut self, end: Place)
        ensures { self.new ≡ behind_word self.old end }
    {
        self.word = self.here;
        self.end = end;
        self.here = end.beside();
        self.inside = TextState::Between;
    }

    /// Takes bytes one after the other.
    fn take_each(&mut self, bytes: &[u8])
        ensures { (text : List ℕ) → PlacesStandAt self.old text → PlacesStandAt self.new (text ++ bytes.now) }
    {
        for byte in bytes {
            self.take_byte(*byte);
        }
    }

    #[inline]
    fn take_byte(&mut self, byte: u8)
        ensures { self.new ≡ after_byte self.old byte }
    {
        let here = self.here.after(byte);
        let inside = self.inside.behind(byte);
        if let TextState::Word = inside {
            if let TextState::Between | TextState::Comment = self.inside {
                self.word = self.here;
            }
            self.end = here;
        }
        self.here = here;
        self.inside = inside;
    }
}
