//! Addresses and codes that come twice, and names that no standard command has.
//!
//! Its rows: `tests/rows/hints.txt`.

use crate::draft::Draft;
use crate::keyed::Keyed;
use crate::words::likeness;
use arrayvec::ArrayString;
use pmb_command::{Name, by_name, standard};
use std::fmt::Write;
use toml::{Table, Value};

/// A rule as it is written after a key and its value.
type Rule = ArrayString<64>;

/// Writes which device before this one has its address.
pub(crate) fn address_twice(keyed: Keyed<'_>, lines: &mut Draft) -> bool {
    let address = keyed.number("address");
    for (place, device) in keyed.before.iter().enumerate() {
        if address_of(device) == address {
            let mut rule = Rule::new();
            let _ = write!(rule, "device {place} has this address");
            return keyed.rule("address", rule.as_str(), lines);
        }
    }
    false
}

/// The address of a device.
fn address_of(device: &Value) -> Option<i64> {
    device.as_table()?.get("address")?.as_integer()
}

/// Writes which command before this one has its code.
pub(crate) fn code_twice(keyed: Keyed<'_>, lines: &mut Draft) -> bool {
    let code = code_of(keyed.table);
    for (place, command) in keyed.before.iter().enumerate() {
        if is_of_code(command, code) {
            return tell_code(keyed, place, lines);
        }
    }
    false
}

/// Writes the code or the name of a command, and which command has it.
fn tell_code(keyed: Keyed<'_>, place: usize, lines: &mut Draft) -> bool {
    let mut rule = Rule::new();
    if keyed.get("code").is_some() {
        let _ = write!(rule, "command {place} of this device has this code");
        return keyed.rule("code", rule.as_str(), lines);
    }
    if let Some(code) = code_of(keyed.table) {
        let _ = write!(
            rule,
            "command {place} of this device has its code, {code:02x}h"
        );
        return keyed.rule("name", rule.as_str(), lines);
    }
    false
}

/// Whether a command has a code.
fn is_of_code(command: &Value, code: Option<i64>) -> bool {
    match command.as_table() {
        Some(table) => code_of(table) == code,
        None => false,
    }
}

/// The code of a command's table, from its key or of the standard command that it names.
pub(crate) fn code_of(table: &Table) -> Option<i64> {
    if let Some(code) = table.get("code") {
        return code.as_integer();
    }
    Some(i64::from(by_name(table.get("name")?.as_str()?)?))
}

/// Writes a name that no standard command has, and the one that may have been meant.
pub(crate) fn name_hint(keyed: Keyed<'_>, lines: &mut Draft) -> bool {
    let Some(text) = keyed.text("name") else {
        return false;
    };
    let Some(name) = similar_name(text) else {
        return keyed.rule(
            "name",
            "no standard command has this name, and one of the part's own needs its code",
            lines,
        );
    };
    let mut rule = Rule::new();
    let _ = write!(rule, "did you mean \"{}\"?", name.as_str());
    keyed.rule("name", rule.as_str(), lines)
}

/// The name of a standard command that is most like a text, if one may have been meant.
fn similar_name(text: &str) -> Option<Name> {
    let mut best = usize::MAX;
    let mut found = None;
    for code in 0u16..256 {
        if let Some(entry) = standard(code as u8) {
            if let Some(other) = likeness(text, entry.name.as_str()) {
                if other < best {
                    best = other;
                    found = Some(entry.name);
                }
            }
        }
    }
    found
}
