//! Texts, and what is kept of the word under way at their ends.

use crate::compare::same;
use pmb_places::OpenWord;

/// A text, and the first bytes of the word under way.
struct Row {
    text: &'static [u8],
    word: &'static [u8],
}

#[rattlefmt::skip]
static ROWS: [Row; 23] = [
    Row { text: b"", word: b"" },
    Row { text: b"S", word: b"S" },
    Row { text: b" b0", word: b"b0" },
    Row { text: b"S b0 A", word: b"A" },
    // each separator ends a word
    Row { text: b"S ", word: b"" },
    Row { text: b"S\t", word: b"" },
    Row { text: b"S\r", word: b"" },
    Row { text: b"S\n", word: b"" },
    Row { text: b"S\rb0", word: b"b0" },
    Row { text: b"S\n\tb0", word: b"b0" },
    // other bytes below the space do not, nor do those above 127
    Row { text: b"S \x00b\x0b0\xff\x1f", word: b"\x00b\x0b0\xff\x1f" },
    // a comment has no words, and ends the one before it
    Row { text: b"S#", word: b"" },
    Row { text: b"S#b0", word: b"" },
    Row { text: b"# S b0 A", word: b"" },
    Row { text: b"# a # b\rc", word: b"" },
    // it ends with LF, and with nothing else
    Row { text: b"S#b0\n", word: b"" },
    Row { text: b"S#b0\nA", word: b"A" },
    Row { text: b"# a # b\n  hello", word: b"hello" },
    // up to 32 bytes are kept
    Row { text: b"0123456789abcdef0123456789ABCDE", word: b"0123456789abcdef0123456789ABCDE" },
    Row { text: b"0123456789abcdef0123456789ABCDEF", word: b"0123456789abcdef0123456789ABCDEF" },
    Row { text: b"0123456789abcdef0123456789ABCDEFg", word: b"0123456789abcdef0123456789ABCDEF" },
    Row { text: b"S 0123456789abcdef0123456789ABCDEFghijklmnopqrstuvwxyz", word: b"0123456789abcdef0123456789ABCDEF" },
    // and a new word is kept from its own first byte on
    Row { text: b"0123456789abcdef0123456789ABCDEFghi jk", word: b"jk" },
];

/// Each row whole, and cut at each place.
#[test]
fn rows_are_under_way(rt: HostRuntime) {
    for (number, row) in ROWS.iter().enumerate() {
        for cut in 0..row.text.len() + 1 {
            let mut word = OpenWord::new();
            word.take(&row.text[..cut]);
            word.take(&row.text[cut..]);
            same(&rt, ("row", number, "cut at", cut), word.bytes(), row.word);
        }
    }
}

/// Each row byte by byte, with pieces of no bytes between.
#[test]
fn rows_come_byte_by_byte(rt: HostRuntime) {
    for (number, row) in ROWS.iter().enumerate() {
        let mut word = OpenWord::new();
        for at in 0..row.text.len() {
            word.take(&row.text[at..at + 1]);
            word.take(b"");
        }
        same(&rt, ("row", number), word.bytes(), row.word);
    }
}
