//! Laws over the definitions alone. Each function is its contract, and does nothing.

ghost use Rattle.std.specs.Prelude.{◌≡◌, ℕ, ◌+◌, ◌++◌, ◌∷◌, [], List, None, true};
ghost use Rattle.pmb_stats_bits.specs.declared.history.BitHistory.{BitHistory};
ghost use Rattle.pmb_stats_bits.specs.Alike.{TellBitAlike};
ghost use Rattle.pmb_stats_bits.specs.Bits.{AreClear, RegisterRead, first_time, found, gone_time, last_time, set_count};
ghost use Rattle.pmb_stats_bits.specs.Standing.{BitStandsAt};

/// The counts of reads, and of those that come after them, add up.
pub fn counts_add_up()
    ensures { (reads more : List RegisterRead) (bit : ℕ) → set_count (reads ++ more) bit ≡ set_count reads bit + set_count more bit }
{}

/// A read that found a bit set is the first, if all before it found it clear.
pub fn none_is_before_the_first()
    ensures { (before after : List RegisterRead) (read : RegisterRead) (bit : ℕ) → AreClear before bit → found bit read ≡ true
        → first_time (before ++ read ∷ after) bit ≡ read.time }
{}

/// It is the last, if all after it found it clear.
pub fn none_is_after_the_last()
    ensures { (before after : List RegisterRead) (read : RegisterRead) (bit : ℕ) → found bit read ≡ true → AreClear after bit
        → last_time (before ++ read ∷ after) bit ≡ read.time }
{}

/// A bit is gone at the read after the last that found it set. It is not while that one is the last of
/// all, nor if it was never set.
pub fn bits_are_gone_after_the_last()
    ensures gone { (before after : List RegisterRead) (read next : RegisterRead) (bit : ℕ) → found bit read ≡ true
        → AreClear (next ∷ after) bit → gone_time (before ++ read ∷ next ∷ after) bit ≡ next.time }
    ensures still { (before : List RegisterRead) (read : RegisterRead) (bit : ℕ) → found bit read ≡ true
        → gone_time (before ++ read ∷ []) bit ≡ None }
    ensures never { (reads : List RegisterRead) (bit : ℕ) → AreClear reads bit → gone_time reads bit ≡ None }
{}

/// A history stands at no two lists of reads of which it would tell something else.
pub fn one_bit()
    ensures { (history : BitHistory) (reads others : List RegisterRead) (bit : ℕ) → BitStandsAt history reads bit
        → BitStandsAt history others bit → TellBitAlike reads others bit }
{}
