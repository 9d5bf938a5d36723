//! The words of a line, one after the other.
//!
//! Its rows: `tests_lines`, `src/lines/words.rt` and `rows.rt`.

ghost use Rattle.std.specs.Prelude.{◌≡◌, ℕ, ◌+◌, ◌^◌, ◌<◌, ◌≤◌, false, true, length, drop, slice_index, [], option_map};
ghost use Rattle.pmb_line.specs.Words.{bounds, is_blank as is_blank_byte, word_behind, line_words, words_from, without_cr};
ghost use Rattle.pmb_line.specs.machine.Reading.{ends_line_word};

use crate::front_word::{FrontWord, common_byte, common_keyword};
use crate::pieces::ByteWord;
use crate::token::{Token, token_of};

/// A word of a line: the offset of its first byte, and its bytes.
#[derive(Clone, Copy, Debug, PartialEq, Eq)]
pub struct TextWord<'a> {
    /// The offset of its first byte in the line.
    pub at: usize,
    /// Its bytes: one or more, none of them a space, a tab or a `#`.
    pub text: &'a [u8],
}

/// A word of a line: the offset of its first byte, and what it says, if anything.
#[derive(Clone, Copy, Debug, PartialEq, Eq)]
pub(crate) struct Located {
    pub(crate) at: usize,
    pub(crate) token: Option<Token>,
}

/// The words that are left of a line.
///
/// Spaces and tabs separate words, a `#` begins a comment up to the line's end, and one CR at the
/// end is no part of the line.
#[derive(Clone, Copy, Drop)]
pub struct Words<'a> {
    /// The offset of the first byte that is left.
    at: usize,
    /// The bytes that are left, up to the line's end.
    rest: &'a [u8],
    ghost fits: { at + length rest.now < 2 ^ 64 },
}

impl<'a> Words<'a> {
    ghost use Rattle.std.specs.Prelude.{◌≡◌, None, Some, IfSome, ◌∷◌};
    ghost use Rattle.pmb_line.specs.Left.{end, text_word, words_left};
    ghost use Rattle.pmb_line.specs.machine.Front.{IsFront};
    ghost use Rattle.pmb_line.specs.machine.Left.{left};

    /// The words of a line. A CR at its end is no part of it.
    pub fn of(line: &'a [u8]) -> Words<'a>
        ensures left { words_left result ≡ line_words line.now }
        ensures end { end result ≡ length (without_cr line.now) }
    {
        let rest = before_cr(line);
        Words { at: 0, rest }
    }

    /// Where the line ends: after its last byte, that of a comment too.
    pub fn end(&self) -> usize
        ensures { result ≡ end self.now }
    {
        self.at + self.rest.len()
    }

    /// Takes the next word; `None` where no word is left.
    #[inline]
    pub fn next_word(&mut self) -> Option<TextWord<'a>>
        ensures some { IfSome result (λ word. words_left self.old ≡ text_word word ∷ words_left self.new) }
        ensures none { result ≡ None → words_left self.old ≡ [] }
        ensures stays { result ≡ None → words_left self.new ≡ [] }
        ensures end { end self.new ≡ end self.old }
    {
        let start = blanks(self.rest);
        let text = &self.rest[start..];
        let len = word_len(text);
        if len == 0 {
            return None;
        }
        let at = self.at + start;
        *self = Words {
            at: at + len,
            rest: &text[len..],
        };
        Some(TextWord {
            at,
            text: &text[..len],
        })
    }

    /// Takes the next word, and tells what it says.
    #[inline(always)]
    pub(crate) fn next(&mut self) -> Option<Located>
        ensures some { IfSome result (λ word. left self.old ≡ word ∷ left self.new) }
        ensures none { result ≡ None → left self.old ≡ [] }
        ensures stays { result ≡ None → left self.new ≡ [] }
        ensures end { end self.new ≡ end self.old }
    {
        if self.rest.is_empty() {
            return None;
        }
        if let Some(byte) = common_byte(self.rest) {
            return Some(self.take_front(FrontWord::common_byte(byte)));
        }
        if let Some(front) = common_keyword(self.rest) {
            return Some(self.take_front(front));
        }
        self.next_any()
    }

    /// Takes the next word where it is a byte that stands as in most lines. Else it is still to
    /// come.
    #[inline(always)]
    pub(crate) fn next_byte(&mut self) -> Option<ByteWord>
        ensures some { IfSome result (λ word. left self.old ≡ record { at = word.at; token = Some (Token.Byte word.byte) } ∷ left self.new) }
        ensures none { result ≡ None → self.new ≡ self.old }
        ensures end { end self.new ≡ end self.old }
    {
        let byte = common_byte(self.rest)?;
        let word = self.take_front(FrontWord::common_byte(byte));
        Some(ByteWord { at: word.at, byte })
    }

    /// Takes the next word, which stands as in few lines.
    #[inline(never)]
    fn next_any(&mut self) -> Option<Located>
        ensures some { IfSome result (λ word. left self.old ≡ word ∷ left self.new) }
        ensures none { result ≡ None → left self.old ≡ [] }
        ensures stays { result ≡ None → left self.new ≡ [] }
        ensures end { end self.new ≡ end self.old }
    {
        let Some(word) = self.next_word() else {
            return None;
        };
        Some(Located {
            at: word.at,
            token: token_of(word.text),
        })
    }

    /// Takes the word that comes first.
    #[inline]
    fn take_front(&mut self, front: FrontWord) -> Located
        requires { IsFront self.old.rest.now front }
        ensures first { left self.old ≡ result ∷ left self.new }
        ensures says { result.token ≡ Some front.token }
        ensures end { end self.new ≡ end self.old }
    {
        let word = Located {
            at: self.at + front.start,
            token: Some(front.token),
        };
        *self = Words {
            at: self.at + front.end,
            rest: &self.rest[front.end..],
        };
        word
    }
}

/// Where the first word of a line that begins at the offset `from` or after it begins, and the
/// offset after its last byte; `None` where no word begins there.
///
/// A word before which `from` lies in the midst is passed over, and a comment has no words.
pub fn word_at(line: &[u8], from: usize) -> Option<(usize, usize)>
    ensures { result ≡ option_map bounds (word_behind from (line_words line.now)) }
{
    let text = before_cr(line);
    let mut at = 0;
    while at < text.len() {
        let start = at + blanks(&text[at..]);
        let len = word_len(&text[start..]);
        if len == 0 {
            return None;
        }
        if start >= from {
            return Some((start, start + len));
        }
        at = start + len;
    }
    None
}

/// A line without the CR at its end.
fn before_cr(line: &[u8]) -> &[u8]
    ensures { result.now ≡ without_cr line.now }
{
    let len = line.len();
    if len == 0 {
        return line;
    }
    if line[len - 1] == b'\r' {
        &line[..len - 1]
    } else {
        line
    }
}

#[inline]
fn is_blank(byte: u8) -> bool
    ensures { result ≡ is_blank_byte byte }
{
    byte == b' ' || byte == b'\t'
}

#[inline]
fn ends_word(byte: u8) -> bool
    ensures { result ≡ ends_line_word byte }
{
    is_blank(byte) || byte == b'#'
}

/// How many blanks stand at the front of a text.
#[inline]
pub(crate) fn blanks(text: &[u8]) -> usize
    ensures within { result ≤ length text.now }
    ensures passed { (at : ℕ) → words_from at text.now ≡ words_from (at + result) (drop result text.now) }
    ensures stops { result < length text.now → is_blank_byte (slice_index text.now result) ≡ false }
{
    let mut n = 0;
    while n < text.len() && is_blank(text[n]) {
        n += 1;
    }
    n
}

/// How many bytes a word at the front of a text has.
#[inline]
fn word_len(text: &[u8]) -> usize
    ensures within { result ≤ length text.now }
    ensures each { (i : ℕ) → i < result → ends_line_word (slice_index text.now i) ≡ false }
    ensures stops { result < length text.now → ends_line_word (slice_index text.now result) ≡ true }
{
    let mut n = 0;
    while n < text.len() && !ends_word(text[n]) {
        n += 1;
    }
    n
}
