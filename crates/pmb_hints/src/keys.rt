//! What is written of the keys of a table: those that are unknown or missing, or of another type.
//!
//! Its rows: `tests/rows/hints.txt`.

use crate::draft::Draft;
use crate::keyed::Keyed;
use crate::values::word;
use crate::words::{
    COMMAND, DEVICE, Words, example_of, is_among, items_of, other_types_of, similar, type_of,
};
use arrayvec::ArrayString;
use std::fmt::Write;
use toml::Value;

/// Writes the first key that a table may not have, if there is one.
pub(crate) fn unknown_key(keyed: Keyed<'_>, keys: Words, lines: &mut Draft) -> bool {
    for key in keyed.table.keys() {
        if !is_among(keys, key.as_str()) {
            keyed.stand_at(key.as_str(), lines);
            let _ = write!(
                lines.text,
                "  {}{}: ",
                keyed.prefix,
                word(key.as_str()).as_str()
            );
            tell_unknown(key.as_str(), keys, lines);
            return true;
        }
    }
    false
}

/// Writes of an unknown key which one may have been meant, where it belongs, or which there are.
fn tell_unknown(text: &str, keys: Words, lines: &mut Draft) {
    if text == "ignore" {
        let _ = lines.text.try_push_str(
            "a key of the whole profile, so it belongs before the first [[device]]\n",
        );
    } else if is_among(DEVICE, text) {
        let _ = lines.text.try_push_str(
            "a key of a device, so it belongs between its [[device]] and the next header\n",
        );
    } else if is_among(COMMAND, text) {
        let _ = lines.text.try_push_str(
            "a key of a command, so it belongs after a line [[device.command]]\n",
        );
    } else if let Some(meant) = similar(text, keys) {
        let _ = write!(lines.text, "did you mean {meant}?\n");
    } else {
        let there = if keys.len() == 1 {
            "the only key here is"
        } else {
            "the keys here are"
        };
        let _ = lines.text.try_push_str(there);
        for key in keys {
            let _ = write!(lines.text, " {key}");
        }
        let _ = lines.text.try_push_str("\n");
    }
}

/// Writes the first key whose value has another type than it needs, if there is one.
pub(crate) fn wrong_type(keyed: Keyed<'_>, keys: Words, lines: &mut Draft) -> bool {
    for key in keys {
        if let Some(value) = keyed.get(*key) {
            if is_wrong(keyed, key, value, lines) {
                return true;
            }
        }
    }
    false
}

/// Writes a value of another type than its key needs, if it is one.
fn is_wrong(keyed: Keyed<'_>, key: &str, value: &Value, lines: &mut Draft) -> bool {
    if let (Some(needed), Some(items)) = (items_of(key), value.as_array()) {
        return wrong_item(keyed, key, items.as_slice(), needed, lines);
    }
    let found = value.type_str();
    let needed = type_of(key);
    if found == needed {
        return false;
    }
    let rule = types_rule(needed, other_types_of(key), found);
    keyed.rule(key, rule.as_str(), lines)
}

/// Writes the first item of an array that has another type than it needs, if there is one.
fn wrong_item(
    keyed: Keyed<'_>,
    key: &str,
    items: &[Value],
    needed: &str,
    lines: &mut Draft,
) -> bool {
    for (place, item) in items.iter().enumerate() {
        let found = item.type_str();
        if found != needed {
            return keyed.item_rule(key, place, types_rule(needed, "", found).as_str(), lines);
        }
    }
    false
}

/// Which types are needed, and the one that is there.
fn types_rule(needed: &str, others: &str, found: &str) -> ArrayString<128> {
    let mut rule = ArrayString::new();
    let _ = write!(
        rule,
        "{}{others} is needed, and this is {}",
        with_article(needed).as_str(),
        with_article(found).as_str()
    );
    rule
}

/// The name of a type with its article.
fn with_article(name: &str) -> ArrayString<16> {
    let mut text = ArrayString::new();
    let article = match name {
        "integer" | "array" => "an ",
        _ => "a ",
    };
    let _ = text.try_push_str(article);
    let _ = text.try_push_str(name);
    text
}

/// Writes the first of some keys that is not there, if there is one, with a value.
pub(crate) fn missing_key(keyed: Keyed<'_>, needed: Words, lines: &mut Draft) -> bool {
    for key in needed {
        if keyed.get(*key).is_none() {
            let (prefix, example) = (keyed.prefix, example_of(key));
            let _ = write!(
                lines.text,
                "  {prefix}{key} is missing, such as {prefix}{key} = {example}\n"
            );
            return true;
        }
    }
    false
}

/// Writes a line if a key is there and its value is no array.
pub(crate) fn no_array(keyed: Keyed<'_>, key: &str, line: &str, lines: &mut Draft) -> bool {
    match keyed.get(key) {
        Some(value) if value.as_array().is_none() => {
            keyed.stand_at(key, lines);
            lines.text.try_push_str(line).is_ok()
        }
        _ => false,
    }
}

/// Writes that a command has neither a code nor a name, if it has none.
pub(crate) fn missing_code(keyed: Keyed<'_>, lines: &mut Draft) -> bool {
    if keyed.get("code").is_some() || keyed.get("name").is_some() {
        return false;
    }
    let _ = lines.text.try_push_str(
        "  code or name is missing: code = 0xd0 is a command of the part's own, and name = \
         \"READ_VIN\" one of the standard\n",
    );
    true
}
