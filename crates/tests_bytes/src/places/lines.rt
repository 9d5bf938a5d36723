//! Rests of lines, each taken by its length alone.

use crate::compare::same;
use pmb_places::{Place, Places};

/// A text that ends between words, the rest of its line, and line and column of the next byte, of
/// the last word, and after that.
struct Row {
    text: &'static [u8],
    rest: &'static [u8],
    here: (u64, u64),
    word: (u64, u64),
    end: (u64, u64),
}

#[rattlefmt::skip]
static ROWS: [Row; 4] = [
    Row { text: b"", rest: b"P\n", here: (2, 1), word: (1, 1), end: (1, 2) },
    Row { text: b"S ", rest: b"b0 A 03 A P\n", here: (2, 1), word: (1, 13), end: (1, 14) },
    Row { text: b"# alert\n  S ", rest: b"19 N P\n", here: (3, 1), word: (2, 10), end: (2, 11) },
    Row { text: b"S b0 A 03 A P\n\tS ", rest: b"b0 A 8b A S b1 A 9a A 0c N P\n", here: (3, 1), word: (2, 31), end: (2, 32) },
];

fn place(numbers: (u64, u64)) -> Place {
    Place {
        line: numbers.0,
        column: numbers.1,
    }
}

/// Each row by its length, and by its bytes.
#[test]
fn rests_of_lines_are_taken_by_their_length(rt: HostRuntime) {
    for row in &ROWS {
        let mut by_length = Places::new();
        by_length.take(row.text);
        by_length.take_line(row.rest.len());
        let mut by_bytes = Places::new();
        by_bytes.take(row.text);
        by_bytes.take(row.rest);
        for places in [by_length, by_bytes] {
            let found = (places.here(), places.word(), places.end());
            let wanted = (place(row.here), place(row.word), place(row.end));
            same(&rt, row.text, found, wanted);
        }
    }
}
