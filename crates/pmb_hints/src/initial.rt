//! Hints for the bytes that a command begins with.
//!
//! Its rows: `tests/rows/hints.txt`.

use crate::draft::Draft;
use crate::forms::{Parts, parts_of};
use crate::keyed::Keyed;
use crate::lists::count_of_pages;
use arrayvec::ArrayString;
use std::fmt::Write;
use toml::Value;

/// A rule as it is written after a key and its value.
type Rule = ArrayString<96>;

/// Writes what is wrong with what a command begins with.
pub(crate) fn initial_hint(keyed: Keyed<'_>, lines: &mut Draft) -> bool {
    let Some(parts) = parts_of(keyed) else {
        return false;
    };
    let (_, form) = parts.value_form();
    match parts.code {
        0x00 => keyed.rule("initial", "PAGE begins as 0, without this key", lines),
        0x20 => keyed.rule(
            "initial",
            "VOUT_MODE begins as the device's vout_mode, without this key",
            lines,
        ),
        _ if form == "none" || form == "zero" => keyed.rule(
            "initial",
            "the command holds nothing, since it is neither read nor written with data",
            lines,
        ),
        _ => match keyed.items("initial") {
            Some(items) => items_hint(keyed, &parts, items, lines),
            None => text_hint(keyed, form, lines),
        },
    }
}

/// Writes what is wrong with a text of bytes.
fn text_hint(keyed: Keyed<'_>, form: &str, lines: &mut Draft) -> bool {
    let Some(text) = keyed.text("initial") else {
        return false;
    };
    match rule_of(form, text) {
        Some(rule) => keyed.rule("initial", rule.as_str(), lines),
        None => false,
    }
}

/// Writes what is wrong with a list of such texts: that the command has one value for all pages, how
/// many there are, or the first that is wrong.
fn items_hint(keyed: Keyed<'_>, parts: &Parts<'_>, items: &[Value], lines: &mut Draft) -> bool {
    if !parts.paged {
        return keyed.rule("initial", "only a paged command may have an array", lines);
    }
    if count_of_pages(keyed, "initial", lines) {
        return true;
    }
    let (_, form) = parts.value_form();
    for (place, item) in items.iter().enumerate() {
        if let Some(rule) = rule_of_item(form, item) {
            return keyed.item_rule("initial", place, rule.as_str(), lines);
        }
    }
    false
}

/// The rule that an item breaks, if it breaks one.
fn rule_of_item(form: &str, item: &Value) -> Option<Rule> {
    rule_of(form, item.as_str()?)
}

/// The rule that a text of bytes breaks, if it breaks one.
fn rule_of(form: &str, text: &str) -> Option<Rule> {
    let mut rule = Rule::new();
    let count = text.len() / 2;
    if !is_digits(text) {
        let _ = rule.try_push_str("two hexadecimal digits for each byte are needed");
        return Some(rule);
    }
    let (room, most) = room_of(form);
    if count == most || form == "block" && count < most {
        return None;
    }
    let _ = write!(rule, "the form \"{form}\" has {room}, not {count}");
    Some(rule)
}

/// How many bytes a form has, in words, and the most.
fn room_of(form: &str) -> (&'static str, usize) {
    match form {
        "one" => ("1 byte", 1),
        "two" => ("2 bytes", 2),
        "four" => ("4 bytes", 4),
        "eight" => ("8 bytes", 8),
        _ => ("255 bytes at most", 255),
    }
}

/// Whether a text is pairs of hexadecimal digits.
fn is_digits(text: &str) -> bool {
    for byte in text.as_bytes() {
        if !byte.is_ascii_hexdigit() {
            return false;
        }
    }
    text.len() % 2 == 0
}
