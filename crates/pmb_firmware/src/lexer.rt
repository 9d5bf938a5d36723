//! The lexer.
//!
//! After a text only its end counts: the bytes of the word that is under way, of which a token has
//! two at most, or that a comment is open. So a `PmbLexer` keeps these, and each call makes a
//! `Lexer` of `pmb_bus` that was given them, as a text of their own. What that one answers of a
//! piece is what it would answer after the whole text: `proofs/Tails` says so. Then `go_over` finds
//! the end of the bytes that were used.
//!
//! A struct from C may have any numbers. Those that a lexer has at no text are refused, as a word that is
//! no token is: so whatever they are, no answer depends on how the text is cut. The others it has after
//! spaces, and then nothing, a `#` or the bytes of a word (`proofs/Somewhere`).
//!
//! Its rows: `tests_bytes`, `src/firmware/cuts.rt`.

ghost use Rattle.std.specs.Prelude.{◌≡◌, ◌⊎◌, ◌↔◌, ◌+◌, ◌^◌, ◌<◌, ◌≤◌, ◌++◌, ◌∷◌, ℕ, true, IfSome, List, [], length, Err, None};
ghost use Rattle.pmb_bus.specs.declared.event.Event.{Event as BusEvent};
ghost use Rattle.pmb_bus.specs.Count.{capped};
ghost use Rattle.pmb_bus.specs.Lexer.{LexerStandsAt, IsFaulted as OtherIsFaulted};
ghost use Rattle.pmb_bus.specs.Text.{is_separator};
ghost use Rattle.pmb_firmware.specs.Lexer.{Feeds, Finishes, IsFaulted, StandsAt, StandsSomewhere};
ghost use Rattle.pmb_firmware.specs.machine.Standing.{IsTail, Resumes, ResumesBehind};
ghost use Rattle.pmb_firmware.specs.machine.Bytes.{IsEnd, behind, faulted, is_of_word, longer};

use pmb_bus::{Event, LexFault, Lexed, Lexer, Step};

/// Between words: no word and no comment is under way.
const BETWEEN: u8 = 0;
/// In a comment.
const COMMENT: u8 = 1;
/// After the first byte of a word.
const ONE: u8 = 2;
/// After two bytes of a word.
const TWO: u8 = 3;
/// A word is no token.
const BAD: u8 = 4;

/// A lexer of the text of a capture. With all numbers 0 it is one at the start of a text.
#[repr(C)]
#[derive(Clone, Copy, Debug, PartialEq, Eq)]
pub struct PmbLexer {
    /// How many bytes of the text were used; stays at the greatest `u64`.
    pub used: u64,
    /// The offset of the first byte of the word that is under way, or is no token.
    pub at: u64,
    /// 0 between words, 1 in a comment, 2 and 3 after one and two bytes of a word, 4 and more where
    /// a word is no token.
    pub place: u8,
    /// The first byte of the word under way.
    pub first: u8,
    /// Its second byte.
    pub second: u8,
}

impl PmbLexer {
    /// A lexer at the start of a text.
    pub fn new() -> PmbLexer
        ensures stands { StandsAt result 0 [] [] }
        ensures zeros { result ≡ record { used = 0; at = 0; place = 0; first = 0; second = 0 } }
    {
        PmbLexer {
            used: 0,
            at: 0,
            place: BETWEEN,
            first: 0,
            second: 0,
        }
    }

    /// Takes the next piece of the text.
    ///
    /// A piece is used up to the end of its first word, or whole: the bytes after `used` are to be
    /// given again. After a fault every such call answers that fault and uses nothing.
    pub fn feed(&mut self, bytes: &[u8]) -> Lexed
        ensures stands { (n : ℕ) (text : List ℕ) (events : List BusEvent) → StandsAt self.old n text events
            → Feeds n text events bytes.now result.used result.step self.new }
        ensures faulted { (fault : LexFault) → IsFaulted self.old fault
            → (result ≡ record { used = 0; step = Step.Fault fault }) × (self.new ≡ self.old) }

        // Whatever numbers it has: it is a lexer at some text, or it is refused.
        ensures any { StandsSomewhere self.old
            ⊎ ((result ≡ record { used = 0; step = Step.Fault (LexFault.BadToken self.old.at) }) × (self.new ≡ self.old)) }
        ensures within { result.used ≤ length bytes.now }
    {
        let Some(mut lexer) = self.resumed() else {
            return Lexed {
                used: 0,
                step: Step::Fault(self.fault()),
            };
        };
        let lexed = lexer.feed(bytes);
        self.go_over(&lexer, &bytes[..lexed.used]);
        let step = match lexed.step {
            Step::Fault(_) => Step::Fault(self.fail()),
            step => step,
        };
        Lexed {
            used: lexed.used,
            step,
        }
    }

    /// The end of the input: it ends a word as a separator of no bytes would.
    ///
    /// Answers the event of the word under way, or `None` between words and in a comment.
    pub fn finish(&mut self) -> Result<Option<Event>, LexFault>
        ensures stands { (n : ℕ) (text : List ℕ) (events : List BusEvent) → StandsAt self.old n text events
            → Finishes n text events result self.new }
        ensures faulted { (fault : LexFault) → IsFaulted self.old fault → (result ≡ Err fault) × (self.new ≡ self.old) }
        ensures any { StandsSomewhere self.old
            ⊎ ((result ≡ Err (LexFault.BadToken self.old.at)) × (self.new ≡ self.old)) }
    {
        let Some(mut lexer) = self.resumed() else {
            return Err(self.fault());
        };
        match lexer.finish() {
            Ok(None) => Ok(None),
            Ok(Some(event)) => {
                self.place = BETWEEN;
                Ok(Some(event))
            }
            Err(_) => Err(self.fail()),
        }
    }

    /// The lexer of `pmb_bus` that continues as this one does: it was given the end of the text
    /// alone. `None` after a fault, and where a lexer has these numbers at no text.
    fn resumed(&self) -> Option<Lexer>
        ensures stands { (n : ℕ) (text : List ℕ) (events : List BusEvent) → StandsAt self.now n text events
            → Resumes self.now text result }
        ensures faulted { (fault : LexFault) → IsFaulted self.now fault → result ≡ None }
        ensures somewhere { IfSome result (λ _. StandsSomewhere self.now) }
    {
        // Reading it tells the proof its range.
        let _used = self.used;
        match self.place {
            BETWEEN => Some(Lexer::new()),
            COMMENT => self.after_hash(),
            ONE => self.after_one(),
            TWO => self.after_two(),
            _ => None,
        }
    }

    /// The lexer in a comment. `None` where no byte was used, and so no `#`.
    fn after_hash(&self) -> Option<Lexer>
        requires { self.now.place ≡ 1 }
        ensures stands { (n : ℕ) (text : List ℕ) (events : List BusEvent) → StandsAt self.now n text events
            → Resumes self.now text result }
        ensures somewhere { IfSome result (λ _. StandsSomewhere self.now) }
    {
        if self.used > 0 {
            lexer_behind(b"#")
        } else {
            None
        }
    }

    /// The lexer after the first byte of a word. `None` where no word begins with it, or none can have
    /// begun there.
    fn after_one(&self) -> Option<Lexer>
        requires { self.now.place ≡ 2 }
        ensures stands { (n : ℕ) (text : List ℕ) (events : List BusEvent) → StandsAt self.now n text events
            → Resumes self.now text result }
        ensures somewhere { IfSome result (λ _. StandsSomewhere self.now) }
    {
        if self.has_begun(1) && is_of_word(self.first) {
            lexer_behind(&[self.first])
        } else {
            None
        }
    }

    /// The same after the first two bytes of a word.
    fn after_two(&self) -> Option<Lexer>
        requires { self.now.place ≡ 3 }
        ensures stands { (n : ℕ) (text : List ℕ) (events : List BusEvent) → StandsAt self.now n text events
            → Resumes self.now text result }
        ensures somewhere { IfSome result (λ _. StandsSomewhere self.now) }
    {
        if self.has_begun(2) && is_of_word(self.first) && is_of_word(self.second) {
            lexer_behind(&[self.first, self.second])
        } else {
            None
        }
    }

    /// Whether so many bytes were used since the word began.
    fn has_begun(&self, length: u64) -> bool
        ensures begun { (result ≡ true) ↔ (self.now.used ≡ capped (self.now.at + length)) }
        ensures fits { self.now.at < 2 ^ 64 }
    {
        self.used == self.at.saturating_add(length)
    }

    /// Goes over bytes that were used, after which the other lexer is. Most events end between
    /// words.
    fn go_over(&mut self, lexer: &Lexer, bytes: &[u8])
        ensures stands { (n m : ℕ) (text tail : List ℕ) (events : List BusEvent) → IsEnd self.old n text → IsTail text tail
            → LexerStandsAt lexer.now m (tail ++ bytes.now) events → IsEnd self.new (n + length bytes.now) (text ++ bytes.now) }
        ensures faulted { (n : ℕ) (text : List ℕ) (fault : LexFault) → IsEnd self.old n text → OtherIsFaulted lexer.now fault
            → IsEnd self.new (n + length bytes.now) (text ++ bytes.now) }
    {
        if lexer.is_between() {
            self.place = BETWEEN;
            self.used = self.used.saturating_add(bytes.len() as u64);
        } else {
            self.pass(bytes);
        }
    }

    /// Goes over bytes, one after the other.
    fn pass(&mut self, bytes: &[u8])
        ensures { (n : ℕ) (text : List ℕ) → IsEnd self.old n text → IsEnd self.new (n + length bytes.now) (text ++ bytes.now) }
    {
        for &byte in bytes {
            self.go_on(byte);
        }
    }

    /// Goes over one byte.
    fn go_on(&mut self, byte: u8)
        ensures { self.new ≡ behind self.old byte }
    {
        if self.place == COMMENT {
            if byte == b'\n' {
                self.place = BETWEEN;
            }
        } else if byte == b'#' {
            self.place = COMMENT;
        } else if is_separator(byte) {
            self.place = BETWEEN;
        } else {
            self.lengthen(byte);
        }
        self.used = self.used.saturating_add(1);
    }

    /// Goes over a byte of a word.
    fn lengthen(&mut self, byte: u8)
        ensures { self.new ≡ longer self.old byte }
    {
        match self.place {
            BETWEEN => {
                self.place = ONE;
                self.at = self.used;
                self.first = byte;
            }
            ONE => {
                self.place = TWO;
                self.second = byte;
            }
            _ => self.place = BAD,
        }
    }

    /// The word under way is no token: the one that has begun, or else the one that begins here.
    fn fail(&mut self) -> LexFault
        ensures new { self.new ≡ faulted self.old }
        ensures answer { result ≡ LexFault.BadToken self.new.at }
    {
        if self.place == BETWEEN || self.place == COMMENT {
            self.at = self.used;
        }
        self.place = BAD;
        self.fault()
    }

    /// The word that is no token.
    fn fault(&self) -> LexFault
        ensures { result ≡ LexFault.BadToken self.now.at }
    {
        LexFault::BadToken { at: self.at }
    }
}

/// A lexer that was given bytes in which no word ends.
fn lexer_behind(bytes: &[u8]) -> Option<Lexer>
    ensures { ResumesBehind bytes.now result }
{
    let mut lexer = Lexer::new();
    match lexer.feed(bytes).step {
        Step::Need => Some(lexer),
        Step::Event(_) | Step::Fault(_) => None,
    }
}

/// Whether a word can have this byte: it ends none.
fn is_of_word(byte: u8) -> bool
    ensures { result ≡ is_of_word byte }
{
    !(is_separator(byte) || byte == b'#')
}

fn is_separator(byte: u8) -> bool
    ensures { result ≡ is_separator byte }
{
    matches!(byte, b' ' | b'\t' | b'\n' | b'\r')
}
