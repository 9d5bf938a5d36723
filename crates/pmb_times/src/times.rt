//! The times of words.
//!
//! `Times` keeps the time of the last word and that of the gap under way, and of the line under way
//! what it is so far: a comment from its first byte on is kept, up to the length of a time line, and
//! read at its LF; of all other lines no byte is kept. Most bytes come as a short word and the space
//! after it, which `take` takes at once. A line of canonical text tells no time, so `take_line` needs
//! no bytes.
//!
//! Its rows: `tests_bytes`, `src/times/rows.rt`, `src/times/rests.rt`.

ghost use Rattle.std.specs.Prelude.{◌≡◌, ◌++◌, ◌∷◌, [], ℕ, ◌+◌, ◌<◌, ◌≤◌, ◌≢◌, List, length, slice_index, take, true, IfSome};
ghost use Rattle.std.specs.Option.{option_map, option_or};
ghost use Rattle.pmb_bus.specs.declared.event.Event.{Event as BusEvent};
ghost use Rattle.pmb_bus.specs.declared.event.Event.TheVariants.{Stop};
ghost use Rattle.pmb_bus.specs.Event.{AreBytes, canonical_text};
ghost use Rattle.pmb_bus.specs.Text.{EndsBetween};
ghost use Rattle.pmb_times.specs.declared.times.LineState.TheVariants.{Between, Comment, Empty, Kept};
ghost use Rattle.pmb_times.specs.Line.{line_time};
ghost use Rattle.pmb_times.specs.TextLine.{HasNoLineFeed};
ghost use Rattle.pmb_times.specs.Times.{TimesStandAt, time_behind, time_of_last_word};
ghost use Rattle.pmb_times.specs.machine.Standing.{gap_behind, is_between, is_comment, kept_time, state_behind, word_behind};

pub use crate::line::TIME;
use crate::line::line_time;
use arrayvec::ArrayVec;
use memchr::memchr;
use pmb_places::short_word::{ShortWord, short_word};
use std::mem;

/// How many bytes a time line has at most: `# `, the time, ` s`, and a CR before its LF.
const LINE: usize = 45;

/// What the line under way is.
#[derive(Clone, Copy)]
enum LineState {
    /// No byte of it came.
    Empty,
    /// A comment from its first byte on, whose bytes are kept.
    Kept,
    /// No time line; the last byte stands in neither a word nor a comment.
    Between,
    /// No time line; a word is under way.
    Word,
    /// No time line; a comment is under way.
    Comment,
}

impl LineState {
    /// Whether a word may begin with the next byte.
    #[inline]
    fn is_between(self) -> bool
        ensures { result ≡ is_between self }
    {
        matches!(self, LineState::Empty | LineState::Between)
    }

    /// Whether a comment is under way.
    #[inline]
    fn is_comment(self) -> bool
        ensures { result ≡ is_comment self }
    {
        matches!(self, LineState::Kept | LineState::Comment)
    }

    /// What the line is after one byte more. A comment from the line's first byte on is kept.
    #[inline]
    fn behind(self, byte: u8) -> LineState
        ensures { result ≡ state_behind self byte }
    {
        match (self, byte) {
            (_, b'\n') => LineState::Empty,
            (LineState::Empty, b'#') => LineState::Kept,
            (LineState::Kept | LineState::Comment, _) => self,
            (_, b'#') => LineState::Comment,
            (_, b' ' | b'\t' | b'\r') => LineState::Between,
            _ => LineState::Word,
        }
    }
}

/// The times of the words of a text.
#[derive(Drop)]
pub struct Times {
    state: LineState,
    /// The line under way, where it is kept.
    line: ArrayVec<u8, LINE>,
    /// Of the gap under way, and of the last word. No bytes are no time.
    gap: ArrayVec<u8, TIME>,
    word: ArrayVec<u8, TIME>,
}

/// The time that is kept.
#[inline]
fn kept_time(kept: &ArrayVec<u8, TIME>) -> Option<&[u8]>
    ensures time { option_map (λ time. time.now) result ≡ kept_time kept.now.items }
    ensures short { IfSome result (λ time. length time.now ≤ 40) }
{
    if kept.is_empty() {
        None
    } else {
        Some(kept.as_slice())
    }
}

/// How many bytes come before the first LF.
#[inline]
fn line_length(bytes: &[u8]) -> usize
    ensures none { HasNoLineFeed (take result bytes.now) }
    ensures within { result ≤ length bytes.now }
    ensures some { slice_index bytes.now 0 ≢ 10 → 0 < length bytes.now → 0 < result }
{
    memchr(b'\n', bytes).unwrap_or(bytes.len())
}

/// Keeps a time in place of another.
fn keep(kept: &mut ArrayVec<u8, TIME>, time: &[u8])
    requires { length time.now ≤ 40 }
    ensures { kept.new.items ≡ time.now }
{
    kept.clear();
    let _ = kept.try_extend_from_slice(time);
}

impl Times {
    /// At the start of a text.
    pub fn new() -> Times
        ensures { TimesStandAt result [] }
    {
        Times {
            state: LineState::Empty,
            line: ArrayVec::new(),
            gap: ArrayVec::new(),
            word: ArrayVec::new(),
        }
    }

    /// The time of the last word, also if that has not ended; none before all words.
    #[inline]
    pub fn of_last_word(&self) -> Option<&[u8]>
        ensures time { (text : List ℕ) → TimesStandAt self.now text
            → option_map (λ time. time.now) result ≡ time_of_last_word text }
        ensures short { IfSome result (λ time. length time.now ≤ 40) }
    {
        kept_time(&self.word)
    }

    /// The time told since the last word, which the next word will have if no more is told before it.
    #[inline]
    pub fn of_next_word(&self) -> Option<&[u8]>
        ensures time { (text : List ℕ) → TimesStandAt self.now text
            → option_map (λ time. time.now) result ≡ time_behind text }
        ensures short { IfSome result (λ time. length time.now ≤ 40) }
    {
        kept_time(&self.gap)
    }

    /// Takes the next bytes of the text.
    #[inline]
    pub fn take(&mut self, bytes: &[u8])
        ensures { (text : List ℕ) → TimesStandAt self.old text → TimesStandAt self.new (text ++ bytes.now) }
    {
        match short_word(bytes) {
            ShortWord::One | ShortWord::Two if self.state.is_between() => self.take_word(),
            _ => self.take_each(bytes),
        }
    }

    /// Takes the rest of a line, of which no byte is needed. It follows a text that ends between
    /// words, and is the canonical text of one event or more and of STOP after them.
    #[inline]
    pub fn take_line(&mut self)
        ensures { (text : List ℕ) (events : List BusEvent) → TimesStandAt self.old text → EndsBetween text
            → AreBytes events → 0 < length events
            → TimesStandAt self.new (text ++ canonical_text (events ++ Stop ∷ [])) }
    {
        self.state = LineState::Empty;
        self.gap.clear();
        self.word.clear();
    }
    /// Ends the gap under way with the word that begins.
    #[inline]
    fn begin_word(&mut self)
        ensures word { self.new.word.items ≡ self.old.gap.items }
        ensures gap { self.new.gap.items ≡ [] }
        ensures same { (self.new.state ≡ self.old.state) × (self.new.line ≡ self.old.line) }
    {
        if self.gap.is_empty() {
            self.word.clear();
        } else {
            mem::swap(&mut self.word, &mut self.gap);
            self.gap.clear();
        }
    }

    /// Takes a word that begins and ends, and the separator after it.
    #[inline]
    fn take_word(&mut self)
        ensures word { self.new.word.items ≡ self.old.gap.items }
        ensures gap { self.new.gap.items ≡ [] }
        ensures state { self.new.state ≡ Between }
    {
        self.begin_word();
        self.state = LineState::Between;
    }

    /// Takes bytes that are no short word.
    fn take_each(&mut self, bytes: &[u8])
        ensures { (text : List ℕ) → TimesStandAt self.old text → TimesStandAt self.new (text ++ bytes.now) }
    {
        let mut rest = bytes;
        while !rest.is_empty() {
            let front = self.take_front(rest);
            rest = &rest[front..];
        }
    }

    /// Takes a byte, or all of a comment up to its LF. It returns how many bytes it took.
    #[inline]
    fn take_front(&mut self, bytes: &[u8]) -> usize
        requires { 0 < length bytes.now }
        ensures stands { (text : List ℕ) → TimesStandAt self.old text → TimesStandAt self.new (text ++ take result bytes.now) }
        ensures some { 0 < result }
        ensures within { result ≤ length bytes.now }
    {
        let first = bytes[0];
        if !self.state.is_comment() {
            self.take_byte(first);
            1
        } else if first == b'\n' {
            self.end_comment();
            1
        } else {
            let front = line_length(bytes);
            self.take_comment(&bytes[..front]);
            front
        }
    }

    /// Takes a byte that no comment comes before.
    #[inline]
    fn take_byte(&mut self, byte: u8)
        ensures state { self.new.state ≡ state_behind self.old.state byte }
        ensures gap { self.new.gap.items ≡ gap_behind self.old.state self.new.state self.old.gap.items }
        ensures word { self.new.word.items ≡ word_behind self.old.state self.new.state self.old.gap.items self.old.word.items }
        ensures line { self.new.state ≡ Kept → self.new.line.items ≡ byte ∷ [] }
    {
        let state = self.state.behind(byte);
        match (self.state, state) {
            (LineState::Empty | LineState::Between | LineState::Comment, LineState::Word) => {
                self.begin_word();
            }
            (_, LineState::Kept) => {
                self.line.clear();
                self.line.push(byte);
            }
            _ => {}
        }
        self.state = state;
    }

    /// Takes bytes of a comment, none of them LF. They are kept if they are of a line that is kept, and
    /// if a time line may be so long.
    fn take_comment(&mut self, bytes: &[u8])
        ensures { (text : List ℕ) → is_comment self.old.state ≡ true → HasNoLineFeed bytes.now
            → TimesStandAt self.old text → TimesStandAt self.new (text ++ bytes.now) }
    {
        match self.state {
            LineState::Kept => self.keep_line(bytes),
            LineState::Empty | LineState::Between | LineState::Word | LineState::Comment => {}
        }
    }

    /// Keeps more bytes of a line, if a time line may be so long.
    fn keep_line(&mut self, bytes: &[u8])
        ensures gap { self.new.gap ≡ self.old.gap }
        ensures word { self.new.word ≡ self.old.word }
        ensures kept { length self.old.line.items + length bytes.now ≤ 45
            → (self.new.state ≡ self.old.state) × (self.new.line.items ≡ self.old.line.items ++ bytes.now) }
        ensures long { 45 < length self.old.line.items + length bytes.now → self.new.state ≡ Comment }
    {
        if self.line.try_extend_from_slice(bytes).is_err() {
            self.state = LineState::Comment;
        }
    }

    /// Takes the LF of a comment, and keeps the time that its line tells.
    fn end_comment(&mut self)
        ensures { (text : List ℕ) → is_comment self.old.state ≡ true → TimesStandAt self.old text
            → TimesStandAt self.new (text ++ 10 ∷ []) }
    {
        match self.state {
            LineState::Kept => self.end_line(),
            LineState::Empty | LineState::Between | LineState::Word | LineState::Comment => {
                self.state = LineState::Empty;
            }
        }
    }

    /// Takes the LF of a line that is kept, and keeps the time that it tells.
    fn end_line(&mut self)
        ensures gap { kept_time self.new.gap.items ≡ option_or (line_time self.old.line.items) (kept_time self.old.gap.items) }
        ensures word { self.new.word.items ≡ self.old.word.items }
        ensures state { self.new.state ≡ Empty }
    {
        if let Some(time) = line_time(self.line.as_slice()) {
            keep(&mut self.gap, time);
        }
        self.state = LineState::Empty;
    }
}
