//! Pieces of lines that say what would be right.
//!
//! Its rows: `tests/rows/explanations.txt`.

use crate::caret::marked_line;
use arrayvec::ArrayString;

/// The lines that say what would be right.
pub type Correction = ArrayString<2048>;

/// How many bytes of a word are shown between other words.
const MOST: usize = 32;

/// Adds a line, and under the byte at `at` a mark and a blank.
pub fn append_marked(text: &mut Correction, line: &[u8], at: usize) {
    if let Ok(lines) = std::str::from_utf8(marked_line(line, at).as_slice()) {
        push(text, lines);
    }
}

/// Adds a text, if it fits.
pub fn push(text: &mut Correction, more: &str) {
    let _ = text.try_push_str(more);
}

/// The front of a word, as it is shown between other words: a byte that is no printable character of ASCII
/// is a dot.
pub fn append_word(text: &mut Correction, word: &[u8]) {
    let end = word.len().min(MOST);
    for byte in &word[..end] {
        let shown = if *byte < 0x20 || *byte > 0x7e {
            b'.'
        } else {
            *byte
        };
        let _ = text.try_push(char::from(shown));
    }
    if end < word.len() {
        push(text, "..");
    }
}
