//! The laws of spelling, which the contracts of [`Lexer`](crate::Lexer) and
//! [`event_text`](crate::event_text) rest on, and of packet error codes, which those of
//! [`pec_next`](crate::pec_next) and [`pec_of`](crate::pec_of) do; and that [`Kinds`](crate::Kinds)
//! are told by the events whose kinds they are. Each function is its contract, and does nothing.

ghost use Rattle.std.specs.Prelude.{◌≡◌, ◌+◌, ◌<◌, ◌⊎◌, ◌↔◌, ℕ, List, [], ◌∷◌, ◌++◌, bit_xor, codes, length};
ghost use Rattle.pmb_bus.specs.declared.event.Event.{Event};
ghost use Rattle.pmb_bus.specs.declared.kinds.Kinds.{Kinds};
ghost use Rattle.pmb_bus.specs.Event.{AreBytes, canonical_text, character};
ghost use Rattle.pmb_bus.specs.Kinds.{bits, holds};
ghost use Rattle.pmb_bus.specs.Pec.{bits_of, message, pec, IsRemainder};
ghost use Rattle.pmb_bus.specs.Text.{Spells, EndsBetween, EndedWordsSpell, FirstBadWord};

/// The canonical text of events spells them.
pub fn canonical_text_spells()
    ensures { (events : List Event) → AreBytes events → Spells (canonical_text events) events }
{}

/// A text spells the events of one capture at most.
pub fn one_spelling()
    ensures { (text : List ℕ) (a b : List Event) → Spells text a → Spells text b → a ≡ b }
{}

/// A text whose ended words are tokens spells their events, or with its last word one event more,
/// or its last word is its first bad one.
pub fn ended_words_lead_on()
    ensures { (text : List ℕ) (events : List Event) → EndedWordsSpell text events
        → Spells text events
        ⊎ (((event : Event) × Spells text (events ++ event ∷ [])) ⊎ ((place : ℕ) × FirstBadWord text events place)) }
{}

/// Each text spells events, or has a first bad word.
pub fn each_text_is_read()
    ensures { (text : List ℕ) → ((events : List Event) × Spells text events)
        ⊎ ((events : List Event) × (place : ℕ) × FirstBadWord text events place) }
{}

/// A text has one first bad word at most, and the same events before it.
pub fn one_bad_word()
    ensures { (text : List ℕ) (a b : List Event) (i j : ℕ) → FirstBadWord text a i → FirstBadWord text b j
        → (a ≡ b) × (i ≡ j) }
{}

/// A text that spells events has no bad word.
pub fn spelled_has_no_bad_word()
    ensures { (text : List ℕ) (a b : List Event) (i : ℕ) → Spells text a → FirstBadWord text b i → ⊥ }
{}

/// Where the first of two texts ends between words, both, one after the other, spell the events of
/// the first and then those of the second; the first bad word of the second is that of both. A text
/// that ends with LF ends between words.
pub fn texts_may_be_cut_between_words()
    ensures spelled { (front back : List ℕ) (events more : List Event) → EndsBetween front → Spells front events → Spells back more
        → Spells (front ++ back) (events ++ more) }
    ensures bad { (front back : List ℕ) (events more : List Event) (place : ℕ) → EndsBetween front → Spells front events
        → FirstBadWord back more place → FirstBadWord (front ++ back) (events ++ more) (length front + place) }
    ensures lines { (text : List ℕ) → EndsBetween (text ++ character "\n" ∷ []) }
{}

/// A packet error code is a byte.
pub fn pec_is_a_byte()
    ensures { (bytes : List ℕ) → pec bytes < 256 }
{}

/// The code of no bytes, and the check value by which a CRC is known: that of the ASCII digits 1
/// to 9.
pub fn worked_pecs()
    ensures nothing { pec [] ≡ 0 }
    ensures digits { pec (codes "123456789") ≡ 0xf4 }
{}

/// With one more byte, the code is that of the one byte which is the code so far, xor that byte.
pub fn pec_goes_on()
    ensures { (bytes : List ℕ) (byte : ℕ) → pec (bytes ++ byte ∷ []) ≡ pec (bit_xor (pec bytes) byte ∷ []) }
{}

/// Bytes count by their code alone for what follows them.
pub fn pec_is_all_that_counts()
    ensures { (a b more : List ℕ) → pec a ≡ pec b → pec (a ++ more) ≡ pec (b ++ more) }
{}

/// Bytes and their own code after them leave no remainder.
pub fn pec_leaves_no_remainder()
    ensures { (bytes : List ℕ) → pec (bytes ++ pec bytes ∷ []) ≡ 0 }
{}

/// The code is the one byte whose bits, after some multiple of the generator, make the message
/// times x^8: the remainder, told without a division.
pub fn pec_is_the_remainder()
    ensures { (bytes : List ℕ) (code : ℕ) → code < 256
        → (code ≡ pec bytes) ↔ IsRemainder (message bytes) (bits_of code) }
{}

/// A set of kinds is told by the events whose kinds it has.
pub fn kinds_are_told_by_events()
    ensures { (a b : Kinds) → bits a < 32 → bits b < 32 → ((event : Event) → holds a event ≡ holds b event) → a ≡ b }
{}
