//! Laws of a word that is no token. The function is its contract, and does nothing.

ghost use Rattle.std.specs.Prelude.{◌≡◌, ◌++◌, ℕ, List, true};
ghost use Rattle.pmb_bus.specs.Text.{EndsBetween, front_word, is_word, open_word};
ghost use Rattle.pmb_places.specs.Places.{place_behind, place_of_last_word};

use pmb_places::laws::{open_words_go_on, open_words_stand_in_front, open_words_stand_there};

/// Bytes of one word that come where words have ended are the word under way, and stand there. A text
/// ends with its word under way, which is one word.
pub(crate) fn bad_words_stand_there()
    ensures opened { (read front word : List ℕ) → EndsBetween read → EndsBetween front → front_word word ≡ word → open_word ((read ++ front) ++ word) ≡ word }
    ensures placed { (read front word : List ℕ) → EndsBetween read → EndsBetween front → front_word word ≡ word → is_word word ≡ true
        → place_of_last_word ((read ++ front) ++ word) ≡ place_behind (read ++ front) }
    ensures begun { (text : List ℕ) → (front : List ℕ) × (text ≡ front ++ open_word text) }
    ensures under_way { (text : List ℕ) → front_word (open_word text) ≡ open_word text }
{
    open_words_go_on();
    open_words_stand_in_front();
    open_words_stand_there();
}
