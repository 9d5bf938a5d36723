//! The words of a text, which stand between blanks.

ghost use Rattle.std.specs.Prelude.{◌≡◌, ℕ, ◌==◌, false, List, ◌∷◌, option_copied};
ghost use Rattle.pmb_words.specs.Parts.{blank, from_first, pieces, pieces_behind, with_bytes, words};

use crate::parts::part;

/// The words that are left of a text.
#[derive(Clone, Copy, Drop, Debug)]
pub struct Words<'a> {
    /// The text that is left.
    rest: &'a [u8],
}

impl<'a> Words<'a> {
    ghost use Rattle.std.specs.Prelude.{◌≡◌, None, IfSome, [], ◌∷◌};
    ghost use Rattle.pmb_words.specs.Left.{TakesWord, from_next, pieces_left, words_left};
    ghost use Rattle.pmb_words.specs.Parts.{blank, from_first, pieces, words};

    /// The words of a text.
    #[inline]
    pub fn of(text: &'a [u8]) -> Words<'a>
        ensures words { words_left result ≡ words text.now }
        ensures pieces { from_next result ≡ from_first (pieces blank text.now) }
    {
        Words { rest: text }
    }

    /// Takes the next word; `None` where none is left.
    #[inline]
    pub fn next_word(&mut self) -> Option<&'a [u8]>
        ensures some { IfSome result (λ word. words_left self.old ≡ word.now ∷ words_left self.new) }
        ensures takes { IfSome result (λ word. TakesWord word.now self.old self.new) }
        ensures none { result ≡ None → words_left self.old ≡ [] }
        ensures no_pieces { result ≡ None → from_next self.old ≡ [] }
        ensures stays { result ≡ None → words_left self.new ≡ [] }
    {
        let text = from_word(self.rest);
        if text.is_empty() {
            self.rest = text;
            return None;
        }
        let (word, rest) = part(b' ', text);
        self.rest = text_behind(rest);
        Some(word)
    }

    /// The pieces of the text from the next word on, none where no word is left.
    #[inline]
    pub fn pieces(self) -> Pieces<'a>
        ensures { pieces_left result ≡ from_next self.entry }
    {
        let text = from_word(self.rest);
        if text.is_empty() {
            return Pieces { rest: None };
        }
        Pieces::of(text)
    }
}

/// A text from its first word on, empty where it has none.
#[inline]
fn from_word(text: &[u8]) -> &[u8]
    ensures same { words result.now ≡ words text.now }
    ensures first { (byte : ℕ) (bytes : List ℕ) → result.now ≡ byte ∷ bytes → (byte == blank) ≡ false }
    ensures pieces { from_first (pieces blank result.now) ≡ from_first (pieces blank text.now) }
{
    let mut left = text;
    while let [b' ', rest @ ..] = left {
        left = rest;
    }
    left
}

/// What follows a word, if anything does.
#[inline]
fn text_behind(rest: Option<&[u8]>) -> &[u8]
    ensures words { words result.now ≡ with_bytes (pieces_behind blank (option_copied rest.entry)) }
    ensures pieces { from_first (pieces blank result.now) ≡ from_first (pieces_behind blank (option_copied rest.entry)) }
{
    match rest {
        Some(rest) => rest,
        None => b"",
    }
}

/// The pieces that are left of a text, between blanks: one between two blanks that stand side by
/// side is empty.
#[derive(Clone, Copy, Drop, Debug)]
pub struct Pieces<'a> {
    /// The text that is left.
    rest: Option<&'a [u8]>,
}

impl<'a> Pieces<'a> {
    ghost use Rattle.std.specs.Prelude.{◌≡◌, None, IfSome, [], ◌∷◌};
    ghost use Rattle.pmb_words.specs.Left.{pieces_left};
    ghost use Rattle.pmb_words.specs.Parts.{blank, pieces};

    /// The pieces of a text.
    #[inline]
    pub fn of(text: &'a [u8]) -> Pieces<'a>
        ensures { pieces_left result ≡ pieces blank text.now }
    {
        Pieces { rest: Some(text) }
    }

    /// Takes the next piece; `None` where none is left.
    #[inline]
    pub fn next_piece(&mut self) -> Option<&'a [u8]>
        ensures some { IfSome result (λ piece. pieces_left self.old ≡ piece.now ∷ pieces_left self.new) }
        ensures none { result ≡ None → pieces_left self.old ≡ [] }
        ensures stays { result ≡ None → pieces_left self.new ≡ [] }
    {
        let Some(text) = self.rest else {
            return None;
        };
        let (piece, rest) = part(b' ', text);
        self.rest = rest;
        Some(piece)
    }
}
