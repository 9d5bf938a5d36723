//! Hints for keys whose value is an array of numbers, and for lists with an item for each page.
//!
//! Its rows: `tests/rows/hints.txt`.

use crate::draft::Draft;
use crate::forms::parts_of;
use crate::keyed::Keyed;
use arrayvec::ArrayString;
use std::fmt::Write;
use toml::Value;

/// A rule as it is written after a key and its value.
type Rule = ArrayString<128>;

/// The first item of a key's array that is no number up to another, if there is one.
fn first_over(keyed: Keyed<'_>, key: &str, most: i64) -> Option<usize> {
    for (place, item) in keyed.items(key)?.iter().enumerate() {
        if let Some(number) = item.as_integer() {
            if number < 0 || number > most {
                return Some(place);
            }
        }
    }
    None
}

/// Writes that a key's array has not an item for each page of the device, if it has not.
pub(crate) fn count_of_pages(keyed: Keyed<'_>, key: &str, lines: &mut Draft) -> bool {
    let Some(items) = keyed.items(key) else {
        return false;
    };
    let (count, pages) = (items.len(), keyed.place.pages);
    if i64::try_from(count) == Ok(pages) {
        return false;
    }
    let mut rule = Rule::new();
    let _ = write!(
        rule,
        "an item for each page is needed: pages are {pages}, items {count}"
    );
    keyed.rule(key, rule.as_str(), lines)
}

/// Writes what is wrong with a list of VOUT_MODE: an item that is no byte, or how many there are.
pub(crate) fn modes_hint(keyed: Keyed<'_>, lines: &mut Draft) -> bool {
    if let Some(place) = first_over(keyed, "vout_mode", 255) {
        let rule = "a number from 0 to 255 is needed";
        return keyed.item_rule("vout_mode", place, rule, lines);
    }
    count_of_pages(keyed, "vout_mode", lines)
}

/// Writes that the items of a list of VOUT_MODE differ while it has one value for all pages, if they do.
pub(crate) fn one_mode_hint(keyed: Keyed<'_>, lines: &mut Draft) -> bool {
    let rule = "the items have to be the same, since VOUT_MODE is not paged";
    modes_differ(keyed) && has_one_mode(keyed) && keyed.rule("vout_mode", rule, lines)
}

/// Whether a list of VOUT_MODE has items that differ.
fn modes_differ(keyed: Keyed<'_>) -> bool {
    let Some([first, rest @ ..]) = keyed.items("vout_mode") else {
        return false;
    };
    for item in rest {
        if item.as_integer() != first.as_integer() {
            return true;
        }
    }
    false
}

/// Whether a command of a device makes its VOUT_MODE one for all pages.
fn has_one_mode(keyed: Keyed<'_>) -> bool {
    for value in keyed.items("command").unwrap_or(&[]) {
        if let Some(table) = value.as_table() {
            if let Some(parts) = parts_of(keyed.place.keys_of(table, &[])) {
                if parts.code == 0x20 && !parts.paged {
                    return true;
                }
            }
        }
    }
    false
}

/// What is needed where a number of a list is no address.
const SEVEN_BITS: &str = "an address of 7 bits is needed, from 0 to 127";

/// Writes an ignored address that is none of 7 bits, if there is one.
pub(crate) fn ignored_hint(keyed: Keyed<'_>, lines: &mut Draft) -> bool {
    match first_over(keyed, "ignore", 127) {
        Some(place) => keyed.item_rule("ignore", place, SEVEN_BITS, lines),
        None => false,
    }
}

/// Writes that the address of a device is ignored, if it is.
pub(crate) fn address_ignored(keyed: Keyed<'_>, lines: &mut Draft) -> bool {
    let Some(address) = keyed.number("address") else {
        return false;
    };
    let rule = "ignore has this address, so no device can be there";
    is_item(keyed.place.ignored, address) && keyed.rule("address", rule, lines)
}

/// Whether a number is one of some values.
fn is_item(items: &[Value], number: i64) -> bool {
    for item in items {
        if item.as_integer() == Some(number) {
            return true;
        }
    }
    false
}

/// Writes the first of the other addresses of a device that is none of 7 bits, or that no device has, if
/// there is one.
pub(crate) fn also_hint(keyed: Keyed<'_>, lines: &mut Draft) -> bool {
    for (place, item) in keyed.items("also").unwrap_or(&[]).iter().enumerate() {
        if let Some(address) = item.as_integer() {
            if let Some(rule) = also_rule(keyed.place.devices, address) {
                return keyed.item_rule("also", place, rule.as_str(), lines);
            }
        }
    }
    false
}

/// The rule that one of the other addresses of a device breaks, if it breaks one.
fn also_rule(devices: &[Value], address: i64) -> Option<Rule> {
    let mut rule = Rule::new();
    if address < 0 || address > 127 {
        let _ = rule.try_push_str(SEVEN_BITS);
    } else if is_address(devices, address) {
        return None;
    } else if address < 0x08 || address > 0x77 || address == 0x0c {
        let _ = rule.try_push_str(
            "the address of a device of this profile is needed, from 0x08 to 0x77, but not 0x0c",
        );
    } else {
        let _ = write!(
            rule,
            "no device has this address: add a [[device]] with address = 0x{address:02x}"
        );
    }
    Some(rule)
}

/// Whether the table of a device has an address.
fn is_address(devices: &[Value], address: i64) -> bool {
    for device in devices {
        if let Some(table) = device.as_table() {
            if let Some(value) = table.get("address") {
                if value.as_integer() == Some(address) {
                    return true;
                }
            }
        }
    }
    false
}
