//! Laws over the definitions alone.

ghost use Rattle.std.specs.Prelude.{◌≡◌, ℕ, ◌+◌, ◌<◌, ◌≤◌, ◌++◌, ◌⊎◌, ◌↔◌, List, length};
ghost use Rattle.pmb_preamble.specs.Front.{EndsInOpening, FirstMark, IsFront, MayFit, NoMark, most_profile};

/// A text has one profile and one rest. With more after it, the profile stays, and the rest continues
/// with it.
pub fn one_front()
    ensures unique { (text p q a b : List ℕ) → IsFront text p a → IsFront text q b → (p ≡ q) × (a ≡ b) }
    ensures stays { (text p a more : List ℕ) → FirstMark text p a → FirstMark (text ++ more) p (a ++ more) }
{}

/// When a profile is too long whatever follows: a text without a line `%%` may still have a profile
/// within the limit where the text is no longer, or ends in the front of a line `%%` that starts there,
/// so at the latest four bytes past it. What cannot fit stays so, as a first line `%%` past the
/// limit does.
pub fn one_limit()
    ensures fits { (text : List ℕ) → NoMark text → MayFit text ↔ ((length text ≤ most_profile) ⊎ EndsInOpening text) }
    ensures long { (text : List ℕ) → NoMark text → most_profile + 4 ≤ length text → MayFit text → ⊥ }
    ensures late { (text p a : List ℕ) → FirstMark text p a → most_profile < length p → MayFit text → ⊥ }
    ensures stays { (text more : List ℕ) → (MayFit text → ⊥) → MayFit (text ++ more) → ⊥ }
{}
