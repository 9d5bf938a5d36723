//! Laws over the definitions. Each function is its contract, and does nothing.

ghost use Rattle.std.specs.Prelude.{◌≡◌, ◌+◌, ◌++◌, ◌∷◌, [], ℕ, List, length, slice_index_or, false, true};
ghost use Rattle.std.specs.List.{AllByRecursion};
ghost use Rattle.pmb_bus.specs.Text.{EndsBetween, ends_in_comment, front_word, in_comment, is_separator, is_word, open_word, words};
ghost use Rattle.pmb_places.specs.declared.open_word.OpenWord.{OpenWord};
ghost use Rattle.pmb_places.specs.declared.places.Place.{Place};
ghost use Rattle.pmb_places.specs.Bounds.{IsInRange};
ghost use Rattle.pmb_places.specs.OpenWord.{OpenWordStandsAt};
ghost use Rattle.pmb_places.specs.Places.{end_of_last_word, place_behind, place_of_last_word, places_from, word_places};

/// There are as many places as words, in a text and after a front that ends between words.
pub fn each_word_has_a_place()
    ensures whole { (text : List ℕ) → length (word_places text) ≡ length (words text) }
    ensures behind { (front text : List ℕ) → EndsBetween front → length (places_from front text) ≡ length (words text) }
{}

/// The places of a text are those of its front, and then those after it, also where other bytes
/// come before the text.
pub fn places_go_on()
    ensures whole { (text more : List ℕ) → word_places (text ++ more) ≡ word_places text ++ places_from text more }
    ensures behind { (front text more : List ℕ)
        → places_from front (text ++ more) ≡ places_from front text ++ places_from (front ++ text) more }
{}

/// Where a text ends between words, and a word follows, the place after the text is that word's: it
/// comes after the places of the text's own words.
pub fn words_stand_at_their_places()
    ensures { (front rest : List ℕ) → EndsBetween front → is_word (front_word rest) ≡ true
        → (more : List Place) × (word_places (front ++ rest) ≡ word_places front ++ place_behind front ∷ more) }
{}

/// After a front that ends between words, the last word of a text stands where its number says,
/// whatever follows.
pub fn the_last_word_stands_there()
    ensures { (front text more : List ℕ) (n : ℕ) (other : Place) → EndsBetween front → length (words text) ≡ n + 1
        → slice_index_or (places_from front (text ++ more)) n other ≡ place_of_last_word (front ++ text) }
{}

/// The word under way stands after what comes before it. Bytes of one word after a text that ends
/// between words are under way. What comes before a word under way ends between words.
pub fn open_words_stand_there()
    ensures place { (front word : List ℕ) → is_word word ≡ true → open_word (front ++ word) ≡ word
        → place_of_last_word (front ++ word) ≡ place_behind front }
    ensures opened { (front word : List ℕ) → EndsBetween front → front_word word ≡ word → open_word (front ++ word) ≡ word }
    ensures found { (text : List ℕ) → is_word (open_word text) ≡ true
        → (front : List ℕ) × (text ≡ front ++ open_word text) × EndsBetween front × (place_of_last_word text ≡ place_behind front) }
{}

/// One more byte lengthens the word under way, or ends it: in a comment, or if it separates words.
pub fn open_words_go_on()
    ensures longer { (text : List ℕ) (b : ℕ) → in_comment (ends_in_comment text) b ≡ false → is_separator b ≡ false
        → open_word (text ++ b ∷ []) ≡ open_word text ++ b ∷ [] }
    ensures comment { (text : List ℕ) (b : ℕ) → in_comment (ends_in_comment text) b ≡ true → open_word (text ++ b ∷ []) ≡ [] }
    ensures separator { (text : List ℕ) (b : ℕ) → is_separator b ≡ true → open_word (text ++ b ∷ []) ≡ [] }
{}

/// With its bytes a word under way begins the word at the front of what follows the text before it,
/// and is that word where the next byte ends it, or nothing comes.
pub fn open_words_stand_in_front()
    ensures begun { (text more : List ℕ) → front_word (open_word text ++ more) ≡ open_word text ++ front_word more }
    ensures ended { (text more : List ℕ) (b : ℕ) → is_word (open_word text) ≡ true → open_word (text ++ b ∷ []) ≡ []
        → front_word (open_word text ++ b ∷ more) ≡ open_word text }
    ensures last { (text : List ℕ) → front_word (open_word text) ≡ open_word text }
{}

/// Two texts that end between words, one after the other, end between words too. There an
/// [`OpenWord`](crate::OpenWord) keeps nothing: it stands at every text that ends so.
pub fn texts_end_between_words()
    ensures both { (front back : List ℕ) → EndsBetween front → EndsBetween back → EndsBetween (front ++ back) }
    ensures kept { (word : OpenWord) (text other : List ℕ) → OpenWordStandsAt word text → EndsBetween text → EndsBetween other
        → OpenWordStandsAt word other }
{}

/// Each place, of what follows a text, of its words and of what follows its last word, has a line
/// and a column from 1 to 2^64 - 1.
pub fn places_are_in_range()
    ensures behind { (text : List ℕ) → IsInRange (place_behind text) }
    ensures words { (front text : List ℕ) → AllByRecursion IsInRange (places_from front text) }
    ensures last { (text : List ℕ) → IsInRange (place_of_last_word text) }
    ensures end { (text : List ℕ) → IsInRange (end_of_last_word text) }
{}
