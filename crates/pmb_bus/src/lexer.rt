//! Reads events from the text of a capture.
//!
//! A [`Lexer`] keeps where it is within a word and how many bytes it has used, and nothing else of
//! the text. `feed_bytes` is a loop over `step`, which takes one byte: a byte ends the word under
//! way, or it is one more byte of a word. What each `LexerState` says of the text is `IsPlace` of the
//! specs: a new place needs its line there, and its arm in `LexerState::end` and `LexerState::lengthened`.
//!
//! Most of a capture is tokens with one separator each. Between words `feed` takes such a token at
//! once, where it and its separator lie in the next three bytes, and `feed_acked` a byte and its
//! ACK, in five. All else goes byte by byte.
//!
//! Its rows: `tests_bytes`, `src/bus/rows.rt`, `src/bus/steps.rt`, `src/bus/cuts.rt`.

ghost use Rattle.std.specs.Prelude.{◌≡◌, ◌↔◌, ◌+◌, ◌<◌, ◌≤◌, ◌++◌, ℕ, IsSome, IfSome, None, length, true, false, List, [], Err};
ghost use Rattle.pmb_bus.specs.declared.event.Event.{Event as BusEvent};
ghost use Rattle.pmb_bus.specs.Count.{capped};
ghost use Rattle.pmb_bus.specs.Text.{ends_in_comment, EndsBetween, Spells};
ghost use Rattle.pmb_bus.specs.Lexer.{LexerStandsAt, IsFaulted, Feeds, BeginsAcked, FeedsAcked, Finishes};
ghost use Rattle.pmb_bus.specs.machine.Bytes.{ends_word};
ghost use Rattle.pmb_bus.specs.machine.Standing.{IsPlace};
ghost use Rattle.pmb_bus.specs.machine.Steps.{Steps, OpenWordComesTo, Lengthens, place_behind_word};

use crate::alphabet::{digits, ends_word, front_acked, front_token, letter, starts_token};
use crate::event::Event;

/// A word that is no token.
#[derive(Clone, Copy, Debug, PartialEq, Eq)]
pub enum LexFault {
    /// `at` is the offset of the word's first byte, counted from the lexer's start. It stays at the
    /// greatest `u64`.
    BadToken { at: u64 },
}

/// The result of a piece of text.
#[derive(Clone, Copy, Debug, PartialEq, Eq)]
pub enum Step {
    /// All of the piece is used. A word may be under way.
    Need,
    /// A word has ended: the last byte used is the separator or the `#` after it.
    Event(Event),
    /// The next byte is not used: no valid text has this byte here.
    Fault(LexFault),
}

/// How many bytes of a piece were used, and the result.
#[derive(Clone, Copy, Debug, PartialEq, Eq)]
pub struct Lexed {
    /// How many bytes of the piece were used.
    pub used: usize,
    /// The result of these bytes.
    pub step: Step,
}

/// Where a lexer is.
#[derive(Clone, Copy, Debug, PartialEq, Eq)]
enum LexerState {
    /// Between words.
    Between,
    /// In a comment, after its `#`.
    Comment,
    /// After the first byte of a word, which lies at `at`.
    One { at: u64, first: u8 },
    /// After the two digits of `byte`, the first of which lies at `at`.
    Two { at: u64, byte: u8 },
    /// A word was no token.
    Faulted(LexFault),
}

impl LexerState {
    // The place after a byte that ends a word.
    #[inline]
    fn behind(byte: u8) -> LexerState
        ensures { result ≡ place_behind_word byte }
    {
        if byte == b'#' {
            LexerState::Comment
        } else {
            LexerState::Between
        }
    }

    // What the word under way comes to where it ends: its event, or `None` where there is none.
    #[inline]
    fn end(self) -> Result<Option<Event>, LexFault>
        ensures ends { (n : ℕ) (text : List ℕ) → IsPlace self n text → OpenWordComesTo n text result }
        ensures faulted { (fault : LexFault) → self ≡ LexerState.Faulted fault → result ≡ Err fault }
    {
        match self {
            LexerState::Between | LexerState::Comment => Ok(None),
            LexerState::One { at, first } => match letter(first) {
                Some(event) => Ok(Some(event)),
                None => Err(LexFault::BadToken { at }),
            },
            LexerState::Two { byte, .. } => Ok(Some(Event::Byte(byte))),
            LexerState::Faulted(fault) => Err(fault),
        }
    }

    // The place after one more byte of a word, the byte at offset `used`.
    #[inline]
    fn lengthened(self, byte: u8, used: u64) -> Result<LexerState, LexFault>
        ensures lengthens { (n : ℕ) (text : List ℕ) → used ≡ capped n → IsPlace self n text
            → ends_in_comment text ≡ false → ends_word byte ≡ false → Lengthens n text byte result }
        ensures faulted { (fault : LexFault) → self ≡ LexerState.Faulted fault → result ≡ Err fault }
    {
        match self {
            LexerState::Between | LexerState::Comment => {
                if starts_token(byte) {
                    Ok(LexerState::One {
                        at: used,
                        first: byte,
                    })
                } else {
                    Err(LexFault::BadToken { at: used })
                }
            }
            LexerState::One { at, first } => match digits(first, byte) {
                Some(byte) => Ok(LexerState::Two { at, byte }),
                None => Err(LexFault::BadToken { at }),
            },
            LexerState::Two { at, .. } => Err(LexFault::BadToken { at }),
            LexerState::Faulted(fault) => Err(fault),
        }
    }
}

/// Reads the text of a capture, in pieces of any size.
///
/// The tokens are `S`, `P`, `A` and `N` in upper case and two hexadecimal digits of either case.
/// Space, tab, CR and LF separate them. `#` ends a token too, and begins a comment up to the LF.
#[derive(Clone, Copy, Debug, PartialEq, Eq)]
pub struct Lexer {
    place: LexerState,
    /// How many bytes were used since `new`; stays at the greatest `u64`.
    used: u64,
}

impl Lexer {
    /// A lexer at the start of a text.
    pub fn new() -> Lexer
        ensures { LexerStandsAt result 0 [] [] }
    {
        Lexer {
            place: LexerState::Between,
            used: 0,
        }
    }

    /// Takes the next piece of the text.
    ///
    /// A piece is used up to the end of its first word, or whole: the bytes after `used` are to be
    /// given again. After a fault every such call answers that fault and uses nothing.
    #[inline(always)]
    pub fn feed(&mut self, bytes: &[u8]) -> Lexed
        ensures stands { (n : ℕ) (text : List ℕ) (events : List BusEvent) → LexerStandsAt self.old n text events
            → Feeds n text events bytes.now result.used result.step self.new }
        ensures faulted { (fault : LexFault) → IsFaulted self.old fault
            → (result ≡ record { used = 0; step = Step.Fault fault }) × (self.new ≡ self.old) }
        // What a caller's loop stands on, wherever the lexer stands.
        ensures within { result.used ≤ length bytes.now }
        ensures progress { (event : BusEvent) → result.step ≡ Step.Event event → 0 < result.used }
    {
        if let LexerState::Between = self.place {
            if let Some(token) = front_token(bytes) {
                self.used = self.used.saturating_add(token.used as u64);
                return Lexed {
                    used: token.used,
                    step: Step::Event(token.event),
                };
            }
        }
        self.feed_bytes(bytes)
    }

    /// Takes a byte and its ACK at the front of a piece as two calls of [`feed`](Lexer::feed)
    /// would, and answers the byte: five bytes of the piece are used. Else nothing changes, and the
    /// piece is to be given to `feed`.
    ///
    /// Most words of a capture are bytes and their ACK. Those are taken so that have a space after
    /// each, where no word and no comment is under way.
    #[inline(always)]
    pub fn feed_acked(&mut self, bytes: &[u8]) -> Option<u8>
        ensures feeds { (n : ℕ) (text : List ℕ) (events : List BusEvent) → LexerStandsAt self.old n text events
            → IfSome result (λ byte. FeedsAcked n text events bytes.now byte self.new) }
        // Between words it answers wherever the piece begins so, and only there.
        ensures exactly { (n : ℕ) (text : List ℕ) (events : List BusEvent) → LexerStandsAt self.old n text events
            → IsSome result ↔ (EndsBetween text × BeginsAcked bytes.now) }
        ensures within { IfSome result (λ byte. 5 ≤ length bytes.now) }
        ensures faulted { (fault : LexFault) → IsFaulted self.old fault → result ≡ None }
        ensures same { result ≡ None → self.new ≡ self.old }
    {
        let LexerState::Between = self.place else {
            return None;
        };
        let byte = front_acked(bytes)?;
        self.used = self.used.saturating_add(5);
        Some(byte)
    }

    /// Whether the text so far ends between words: no word and no comment is under way, and no
    /// fault was met.
    #[inline(always)]
    pub fn is_between(&self) -> bool
        ensures between { (n : ℕ) (text : List ℕ) (events : List BusEvent) → LexerStandsAt self.now n text events
            → (result ≡ true) ↔ EndsBetween text }
        ensures faulted { (fault : LexFault) → IsFaulted self.now fault → result ≡ false }
    {
        matches!(self.place, LexerState::Between)
    }

    /// Passes over bytes of the text that were read elsewhere. They begin and end between words,
    /// and spell events.
    #[inline(always)]
    pub fn skip(&mut self, bytes: &[u8])
        ensures stands { (n : ℕ) (text : List ℕ) (events more : List BusEvent) → LexerStandsAt self.old n text events
            → EndsBetween text → EndsBetween bytes.now → Spells bytes.now more
            → LexerStandsAt self.new (n + length bytes.now) (text ++ bytes.now) (events ++ more) }
        ensures faulted { (fault : LexFault) → IsFaulted self.old fault → IsFaulted self.new fault }
    {
        self.used = self.used.saturating_add(bytes.len() as u64);
    }

    // Takes the next piece of the text, one byte after the other.
    #[inline(never)]
    fn feed_bytes(&mut self, bytes: &[u8]) -> Lexed
        ensures stands { (n : ℕ) (text : List ℕ) (events : List BusEvent) → LexerStandsAt self.old n text events
            → Feeds n text events bytes.now result.used result.step self.new }
        ensures faulted { (fault : LexFault) → IsFaulted self.old fault
            → (result ≡ record { used = 0; step = Step.Fault fault }) × (self.new ≡ self.old) }
        ensures within { result.used ≤ length bytes.now }
        ensures progress { (event : BusEvent) → result.step ≡ Step.Event event → 0 < result.used }
    {
        if let LexerState::Faulted(fault) = self.place {
            return Lexed {
                used: 0,
                step: Step::Fault(fault),
            };
        }
        for (i, byte) in bytes.iter().enumerate() {
            match self.step(*byte) {
                Step::Need => {}
                Step::Event(event) => {
                    return Lexed {
                        used: i + 1,
                        step: Step::Event(event),
                    };
                }
                Step::Fault(fault) => {
                    return Lexed {
                        used: i,
                        step: Step::Fault(fault),
                    };
                }
            }
        }
        Lexed {
            used: bytes.len(),
            step: Step::Need,
        }
    }

    /// The end of the input: it ends a word as a separator of no bytes would.
    ///
    /// Answers the event of the word under way, or `None` between words and in a comment.
    pub fn finish(&mut self) -> Result<Option<Event>, LexFault>
        ensures stands { (n : ℕ) (text : List ℕ) (events : List BusEvent) → LexerStandsAt self.old n text events
            → Finishes n text events result self.new }
        ensures faulted { (fault : LexFault) → IsFaulted self.old fault → (result ≡ Err fault) × (self.new ≡ self.old) }
    {
        match self.place.end() {
            Ok(None) => Ok(None),
            Ok(Some(event)) => {
                self.place = LexerState::Between;
                Ok(Some(event))
            }
            Err(fault) => {
                self.place = LexerState::Faulted(fault);
                Err(fault)
            }
        }
    }

    // Takes one byte. Where it is refused it is not used.
    #[inline]
    fn step(&mut self, byte: u8) -> Step
        ensures stands { (n : ℕ) (text : List ℕ) (events : List BusEvent) → LexerStandsAt self.old n text events
            → Steps n text events byte result self.new }
        ensures faulted { (fault : LexFault) → IsFaulted self.old fault
            → (result ≡ Step.Fault fault) × (self.new ≡ self.old) }
    {
        if let LexerState::Comment = self.place {
            if byte == b'\n' {
                self.advance(LexerState::Between);
            } else {
                self.advance(LexerState::Comment);
            }
            return Step::Need;
        }
        if ends_word(byte) {
            self.step_end(byte)
        } else {
            self.step_word(byte)
        }
    }

    // Takes a byte that ends the word under way, if there is one.
    #[inline]
    fn step_end(&mut self, byte: u8) -> Step
        ensures stands { (n : ℕ) (text : List ℕ) (events : List BusEvent) → LexerStandsAt self.old n text events
            → ends_in_comment text ≡ false → ends_word byte ≡ true → Steps n text events byte result self.new }
        ensures faulted { (fault : LexFault) → IsFaulted self.old fault
            → (result ≡ Step.Fault fault) × (self.new ≡ self.old) }
    {
        match self.place.end() {
            Ok(None) => {
                self.advance(LexerState::behind(byte));
                Step::Need
            }
            Ok(Some(event)) => {
                self.advance(LexerState::behind(byte));
                Step::Event(event)
            }
            Err(fault) => self.fail(fault),
        }
    }

    // Takes one more byte of a word.
    #[inline]
    fn step_word(&mut self, byte: u8) -> Step
        ensures stands { (n : ℕ) (text : List ℕ) (events : List BusEvent) → LexerStandsAt self.old n text events
            → ends_in_comment text ≡ false → ends_word byte ≡ false → Steps n text events byte result self.new }
        ensures faulted { (fault : LexFault) → IsFaulted self.old fault
            → (result ≡ Step.Fault fault) × (self.new ≡ self.old) }
    {
        match self.place.lengthened(byte, self.used) {
            Ok(place) => {
                self.advance(place);
                Step::Need
            }
            Err(fault) => self.fail(fault),
        }
    }

    // Counts a byte that was used, and continues at `place`.
    #[inline]
    fn advance(&mut self, place: LexerState)
        ensures { self.new ≡ record { place = place; used = capped (self.old.used + 1) } }
    {
        self.place = place;
        self.used = self.used.saturating_add(1);
    }

    #[inline]
    fn fail(&mut self, fault: LexFault) -> Step
        ensures answer { result ≡ Step.Fault fault }
        ensures faulted { self.new ≡ record self.old { place = LexerState.Faulted fault } }
    {
        self.place = LexerState::Faulted(fault);
        Step::Fault(fault)
    }
}
