//! Hints for the VID tables of a device.
//!
//! Its rows: `tests/rows/hints.txt`.

use crate::draft::Draft;
use crate::keyed::Keyed;
use crate::keys::wrong_type;
use crate::lists::count_of_pages;
use crate::numbers::{Rule, unknown_rule, unknown_word};
use crate::values::word;
use crate::words::{TYPES, VID, is_among};
use std::fmt::Write;
use toml::Value;

/// Writes that `vid`, or what is in it, has another type than it needs, if it has.
pub(crate) fn vid_type(keyed: Keyed<'_>, lines: &mut Draft) -> bool {
    match keyed.vid() {
        Some(types) => wrong_type(types, TYPES, lines),
        None => wrong_type(keyed, &["vid"], lines),
    }
}

/// Writes what is wrong with `vid`: a table that there is not, how many there are for pages, or a key that
/// is no type.
pub(crate) fn vid_hint(keyed: Keyed<'_>, lines: &mut Draft) -> bool {
    if let Some(types) = keyed.vid() {
        return unknown_type(types, lines) || table_of_type(types, lines);
    }
    match keyed.items("vid") {
        Some(items) => table_of_page(keyed, items, lines) || count_of_pages(keyed, "vid", lines),
        None => unknown_word(keyed, "vid", VID, lines),
    }
}

/// Writes that `kind` names a VID table without `vid:`, if it does.
pub(crate) fn kind_of_table(keyed: Keyed<'_>, lines: &mut Draft) -> bool {
    let Some(table) = keyed.text("kind") else {
        return false;
    };
    if !is_among(VID, table) {
        return false;
    }
    let mut rule = Rule::new();
    let _ = write!(rule, "it is kind = \"vid:{table}\"");
    keyed.rule("kind", rule.as_str(), lines)
}

/// Writes the first key that is no type, if there is one.
fn unknown_type(keyed: Keyed<'_>, lines: &mut Draft) -> bool {
    for key in keyed.table.keys() {
        if !is_among(TYPES, key.as_str()) {
            keyed.stand_at(key.as_str(), lines);
            let _ = write!(
                lines.text,
                "  vid.{}: the keys here are types, from 0 to 31 without leading zeros\n",
                word(key.as_str()).as_str()
            );
            return true;
        }
    }
    false
}

/// Writes the first type whose table there is not, if there is one.
fn table_of_type(keyed: Keyed<'_>, lines: &mut Draft) -> bool {
    for key in TYPES {
        if unknown_word(keyed, key, VID, lines) {
            return true;
        }
    }
    false
}

/// Writes the first item that names no table, if there is one.
fn table_of_page(keyed: Keyed<'_>, items: &[Value], lines: &mut Draft) -> bool {
    for (place, item) in items.iter().enumerate() {
        if let Some(rule) = rule_of_item(item) {
            return keyed.item_rule("vid", place, rule.as_str(), lines);
        }
    }
    false
}

/// The rule that an item breaks, if it breaks one.
fn rule_of_item(item: &Value) -> Option<Rule> {
    unknown_rule(item.as_str()?, VID)
}
