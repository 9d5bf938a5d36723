//! The program of the crate's page, and each law.

use crate::compare::same;
use pmb_places::{OpenWord, Place, Places, WORD, laws};

#[test]
fn says_where_the_last_word_stands(rt: HostRuntime) {
    let mut places = Places::new();
    places.take(b"S b0 A # alert\n  21");
    same(
        &rt,
        "last word",
        places.word(),
        Place { line: 2, column: 3 },
    );
    same(&rt, "its end", places.end(), Place { line: 2, column: 5 });
    same(
        &rt,
        "next byte",
        places.here(),
        Place { line: 2, column: 5 },
    );
    let mut word = OpenWord::new();
    word.take(b"S b0 A # alert\n  21");
    same(&rt, "the word under way", word.bytes(), b"21".as_slice());
    same(&rt, "bytes kept", WORD, 32);
}

#[test]
fn calls_each_law() {
    laws::each_word_has_a_place();
    laws::places_go_on();
    laws::words_stand_at_their_places();
    laws::the_last_word_stands_there();
    laws::open_words_stand_there();
    laws::open_words_go_on();
    laws::open_words_stand_in_front();
    laws::texts_end_between_words();
}
