//! Texts, and where they stand at their ends.

use crate::compare::same;
use pmb_places::{Place, Places};

/// A text, and line and column of its next byte, of its last word, and after that.
struct Row {
    text: &'static [u8],
    here: (u64, u64),
    word: (u64, u64),
    end: (u64, u64),
}

#[rattlefmt::skip]
static ROWS: [Row; 14] = [
    Row { text: b"", here: (1, 1), word: (1, 1), end: (1, 1) },
    Row { text: b"S", here: (1, 2), word: (1, 1), end: (1, 2) },
    Row { text: b"S ", here: (1, 3), word: (1, 1), end: (1, 2) },
    Row { text: b" b0", here: (1, 4), word: (1, 2), end: (1, 4) },
    Row { text: b"S b0 A", here: (1, 7), word: (1, 6), end: (1, 7) },
    Row { text: b"S\n", here: (2, 1), word: (1, 1), end: (1, 2) },
    Row { text: b"S\nb0\n", here: (3, 1), word: (2, 1), end: (2, 3) },
    Row { text: b"S\r\n\tb0", here: (2, 4), word: (2, 2), end: (2, 4) },
    // a CR separates words, and ends no line
    Row { text: b"S\rb0", here: (1, 5), word: (1, 3), end: (1, 5) },
    // a comment has no words, and ends the one before it
    Row { text: b"# S b0 A", here: (1, 9), word: (1, 1), end: (1, 1) },
    Row { text: b"S#b0\nA", here: (2, 2), word: (2, 1), end: (2, 2) },
    Row { text: b"b0#1 2\n#3\n\n", here: (4, 1), word: (1, 1), end: (1, 3) },
    Row { text: b"# a # b\n  P", here: (2, 4), word: (2, 3), end: (2, 4) },
    // what is no token is a word too
    Row { text: b"S hello", here: (1, 8), word: (1, 3), end: (1, 8) },
];

fn place(numbers: (u64, u64)) -> Place {
    Place {
        line: numbers.0,
        column: numbers.1,
    }
}

/// Each row whole, and cut at each place.
#[test]
fn rows_stand_there(rt: HostRuntime) {
    for row in &ROWS {
        for cut in 0..row.text.len() + 1 {
            let mut places = Places::new();
            places.take(&row.text[..cut]);
            places.take(&row.text[cut..]);
            let found = (places.here(), places.word(), places.end());
            let wanted = (place(row.here), place(row.word), place(row.end));
            same(&rt, row.text, found, wanted);
        }
    }
}
