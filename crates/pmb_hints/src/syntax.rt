//! Texts that are no TOML.
//!
//! Its rows: `tests/rows/hints.txt`.

ghost use Rattle.std.specs.Prelude.{◌≡◌, Some, codes, false};

use crate::draft::Draft;
use std::fmt::Write;
use toml::de::Error;

/// The words with which captures, transaction lines and requests begin.
const FIRST_WORDS: [&str; 11] = [
    "S", "P", "A", "N", "write", "read", "call", "refused", "alert", "set", "get",
];

/// What the reader of TOML says of a text, or that it is a capture or lines without their profile.
pub(crate) fn syntax_hint(text: &str, error: &Error, lines: &mut Draft) {
    let Some(span) = error.span() else {
        return;
    };
    lines.at = Some(span.start);
    let _ = write!(lines.text, "  {}\n", error.message());
    if is_matter(text) {
        let _ = lines.text.try_push_str(
            "  This looks like a capture or lines: a profile and a line %% come first, or --sample.\n",
        );
    }
}

/// What is said of a text that stops being UTF-8 after so many bytes.
pub(crate) fn utf8_draft(at: usize) -> Draft
    ensures text { result.text.bytes ≡ codes "  not UTF-8\n" }
    ensures at { result.at ≡ Some at }
    ensures memory { result.has_no_memory ≡ false }
{
    let mut draft = Draft::new();
    draft.at = Some(at);
    let _ = draft.text.try_push_str("  not UTF-8\n");
    draft
}

/// Whether the first line of a text that is not blank and no comment begins as a capture or lines do.
fn is_matter(text: &str) -> bool {
    for line in text.lines() {
        let mut words = line.split_ascii_whitespace();
        if let Some(word) = words.next() {
            if !word.starts_with("#") {
                return is_first_word(word) && !begins_value(words.next());
            }
        }
    }
    false
}

/// Whether the word before this one is a key.
fn begins_value(word: Option<&str>) -> bool {
    match word {
        None => false,
        Some(word) => word.starts_with("="),
    }
}

/// Whether a capture or lines may begin with a word.
fn is_first_word(word: &str) -> bool {
    for first in &FIRST_WORDS {
        if word == *first {
            return true;
        }
    }
    false
}
