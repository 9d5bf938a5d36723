//! What is written of numbers that are outside of their ranges, and of words that are unknown.
//!
//! Its rows: `tests/rows/hints.txt`.

use crate::draft::Draft;
use crate::keyed::Keyed;
use crate::words::{VID, Words, is_among, likeness, similar};
use arrayvec::ArrayString;
use std::fmt::Write;

/// A rule as it is written after a key and its value.
pub(crate) type Rule = ArrayString<256>;

/// Writes the value of a key whose number is outside of two, if it is, and its rule.
pub(crate) fn out_of_range(
    keyed: Keyed<'_>,
    key: &str,
    least: i64,
    most: i64,
    lines: &mut Draft,
) -> bool {
    let Some(number) = keyed.number(key) else {
        return false;
    };
    if least <= number && number <= most {
        return false;
    }
    let mut rule = Rule::new();
    let _ = write!(rule, "a number from {least} to {most} is needed");
    keyed.rule(key, rule.as_str(), lines)
}

/// Writes the value of a key whose word is none of some, if it is, and the one that may have been
/// meant.
pub(crate) fn unknown_word(keyed: Keyed<'_>, key: &str, words: Words, lines: &mut Draft) -> bool {
    let Some(text) = keyed.text(key) else {
        return false;
    };
    match unknown_rule(text, words) {
        Some(rule) => keyed.rule(key, rule.as_str(), lines),
        None => false,
    }
}

/// Whether a word names a VID table.
fn is_table(word: &str) -> bool {
    is_among(VID, word.strip_prefix("vid:").unwrap_or(word))
}

/// The word of some that may have been meant, if there is one. A VID table whose name is nearly this one
/// is another table, so only the case of letters may differ.
fn meant(text: &str, words: Words) -> Option<&'static str> {
    let word = similar(text, words)?;
    if is_table(word) && likeness(text, word) != Some(0) {
        return None;
    }
    Some(word)
}

/// The rule that a word breaks that is none of some, if it is none: the one that may have been meant, or
/// all of them.
pub(crate) fn unknown_rule(text: &str, words: Words) -> Option<Rule> {
    if is_among(words, text) {
        return None;
    }
    let mut rule = Rule::new();
    if let Some(word) = meant(text, words) {
        let _ = write!(rule, "did you mean \"{word}\"?");
        return Some(rule);
    }
    let _ = rule.try_push_str("it is one of");
    for word in words {
        let _ = write!(rule, " \"{word}\"");
    }
    if is_among(words, "vr11") {
        let _ = rule.try_push_str(", with steps of 6.25, 5, 10, 10, 6.25 and 5 mV");
    }
    Some(rule)
}

/// Writes how many devices there are, where they are too many.
pub(crate) fn many_hint(keyed: Keyed<'_>, lines: &mut Draft) -> bool {
    let Some(devices) = keyed.items("device") else {
        return false;
    };
    let count = devices.len();
    keyed.stand_at_item("device", 64, lines);
    let _ = write!(
        lines.text,
        "  device: there are {count}, and 64 are the most\n"
    );
    true
}

/// Writes an address that no device may have, and the one of 7 bits, if it has 8.
pub(crate) fn address_hint(keyed: Keyed<'_>, lines: &mut Draft) -> bool {
    let Some(number) = keyed.number("address") else {
        return false;
    };
    let _ = keyed.rule(
        "address",
        "an address of 7 bits is needed, from 0x08 to 0x77, but not 0x0c",
        lines,
    );
    if number >= 0x78 && number <= 0xef {
        let seven = number / 2;
        let _ = write!(
            lines.text,
            "  0x{number:02x} is the 8-bit form of {seven:02x}h: address = 0x{seven:02x}\n"
        );
    }
    true
}
