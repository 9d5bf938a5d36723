//! The word under way.
//!
//! Of a piece of text only its tail counts: the bytes after the last one that stands in no word. So
//! one loop finds where the tail begins, which keeps nothing, and then the tail is copied. A short
//! word and the space after it, as most bytes come, leave no word under way.
//!
//! Its rows: `tests_bytes`, `src/places/open_words.rt`.

ghost use Rattle.std.specs.Prelude.{◌≡◌, ◌++◌, [], ℕ, ◌≤◌, List, length, take};
ghost use Rattle.pmb_bus.specs.Text.{ends_in_comment, in_comment, is_separator, open_word};
ghost use Rattle.pmb_places.specs.OpenWord.{OpenWordStandsAt};
ghost use Rattle.pmb_places.specs.machine.OpenWord.{IsTail};

use crate::short_word::{ShortWord, short_word};
use arrayvec::ArrayVec;

/// How many bytes of a word are kept.
pub const WORD: usize = 32;

/// Whether a byte stands in a comment, given whether the one before does.
#[inline]
fn is_in_comment(before: bool, byte: u8) -> bool
    ensures { result ≡ in_comment before byte }
{
    byte != b'\n' && (before || byte == b'#')
}

#[inline]
fn is_separator(byte: u8) -> bool
    ensures { result ≡ is_separator byte }
{
    matches!(byte, b' ' | b'\t' | b'\n' | b'\r')
}

/// Adds bytes as far as there is room.
#[inline]
fn keep(bytes: &mut ArrayVec<u8, WORD>, more: &[u8])
    ensures { bytes.new.items ≡ take 32 (bytes.old.items ++ more.now) }
{
    let room = bytes.remaining_capacity().min(more.len());
    let front = &more[..room];
    for byte in front {
        bytes.push(*byte);
    }
}

/// What a piece of text leaves at its end.
#[derive(Clone, Copy)]
struct Tail {
    /// How many bytes of the piece come before the tail: those up to the last one that stands in no
    /// word. With none the tail continues the word that began before the piece.
    from: usize,
    /// Whether the piece ends in a comment.
    in_comment: bool,
}

impl Tail {
    /// The tail of a piece, given whether the text before it ends in a comment.
    #[inline]
    fn of(before: bool, bytes: &[u8]) -> Tail
        ensures tail { (text : List ℕ) → before ≡ ends_in_comment text → IsTail text bytes.now result.in_comment result.from }
        ensures within { result.from ≤ length bytes.now }
    {
        let mut in_comment = before;
        let mut from = 0;
        for (i, byte) in bytes.iter().enumerate() {
            in_comment = is_in_comment(in_comment, *byte);
            if in_comment || is_separator(*byte) {
                from = i + 1;
            }
        }
        Tail { from, in_comment }
    }
}

/// The first bytes of the word that is under way at the end of a text.
#[derive(Drop)]
pub struct OpenWord {
    bytes: ArrayVec<u8, WORD>,
    /// Whether the text ends in a comment.
    in_comment: bool,
}

impl OpenWord {
    /// At the start of a text.
    pub fn new() -> OpenWord
        ensures { OpenWordStandsAt result [] }
    {
        OpenWord {
            bytes: ArrayVec::new(),
            in_comment: false,
        }
    }

    /// The first 32 bytes of the word under way, or all where it has fewer; none between words and
    /// in a comment.
    #[inline]
    pub fn bytes(&self) -> &[u8]
        ensures word { (text : List ℕ) → OpenWordStandsAt self.now text → result.now ≡ take 32 (open_word text) }
        ensures short { length result.now ≤ 32 }
    {
        self.bytes.as_slice()
    }

    /// Takes the next bytes of the text.
    #[inline]
    pub fn take(&mut self, bytes: &[u8])
        ensures { (text : List ℕ) → OpenWordStandsAt self.old text → OpenWordStandsAt self.new (text ++ bytes.now) }
    {
        match short_word(bytes) {
            ShortWord::One | ShortWord::Two if !self.in_comment => self.bytes.clear(),
            _ => self.take_tail(bytes),
        }
    }

    /// Takes bytes by their tail.
    fn take_tail(&mut self, bytes: &[u8])
        ensures { (text : List ℕ) → OpenWordStandsAt self.old text → OpenWordStandsAt self.new (text ++ bytes.now) }
    {
        let tail = Tail::of(self.in_comment, bytes);
        self.in_comment = tail.in_comment;
        if tail.from > 0 {
            self.bytes.clear();
        }
        keep(&mut self.bytes, &bytes[tail.from..]);
    }
}
