//! Hints for the names of a command: its own, and those of its bits. The unit of its numbers too.
//!
//! Its rows: `tests/rows/hints.txt`.

use crate::draft::Draft;
use crate::forms::parts_of;
use crate::keyed::Keyed;
use crate::keys::wrong_type;
use crate::values::word;
use crate::words::{BYTE_BITS, WORD_BITS, Words, is_among};
use arrayvec::ArrayString;
use pmb_command::{is_name, is_unit};
use std::fmt::Write;

/// The rule of a name of a command or a bit.
const NAME: &str = "a name is 1 to 32 of A to Z, 0 to 9 and _";

/// Writes a unit that is none, if it is one.
pub(crate) fn unit_hint(keyed: Keyed<'_>, lines: &mut Draft) -> bool {
    match keyed.text("unit") {
        Some(text) => !is_unit(text)
            && keyed.rule(
                "unit",
                "a unit is 1 to 16 characters of ASCII, from the blank to ~",
                lines,
            ),
        None => false,
    }
}

/// The bits of a command, by its form.
fn bits_of(keyed: Keyed<'_>) -> Words {
    match parts_of(keyed) {
        Some(parts) => {
            let (_, form) = parts.value_form();
            if form == "one" { BYTE_BITS } else { WORD_BITS }
        }
        None => WORD_BITS,
    }
}

/// Writes that the name of a bit has another type than it needs, if it has.
pub(crate) fn bits_type(keyed: Keyed<'_>, lines: &mut Draft) -> bool {
    match keyed.bits() {
        Some(named) => wrong_type(named, bits_of(keyed), lines),
        None => false,
    }
}

/// Writes the first key of `bits` that is no bit, if there is one.
pub(crate) fn bits_hint(keyed: Keyed<'_>, lines: &mut Draft) -> bool {
    let Some(named) = keyed.bits() else {
        return false;
    };
    let bits = bits_of(keyed);
    for key in named.table.keys() {
        if !is_among(bits, key.as_str()) {
            named.stand_at(key.as_str(), lines);
            let last = bits.len().saturating_sub(1);
            let _ = write!(
                lines.text,
                "  bits.{}: the keys here are bits, from 0 to {last} without leading zeros\n",
                word(key.as_str()).as_str()
            );
            return true;
        }
    }
    false
}

/// Writes what is wrong with a name: that of the command, or one of its bits.
pub(crate) fn names_hint(keyed: Keyed<'_>, lines: &mut Draft) -> bool {
    if own_name_hint(keyed, lines) {
        return true;
    }
    match keyed.bits() {
        Some(named) => bit_name_hint(named, bits_of(keyed), lines),
        None => false,
    }
}

/// Writes that the name of a command with a code is none, if it is none.
fn own_name_hint(keyed: Keyed<'_>, lines: &mut Draft) -> bool {
    match keyed.text("name") {
        Some(text) => keyed.get("code").is_some()
            && !is_name(text)
            && keyed.rule("name", NAME, lines),
        None => false,
    }
}

/// Writes the first bit whose name is none, or that of a bit before it, if there is one.
fn bit_name_hint(named: Keyed<'_>, bits: Words, lines: &mut Draft) -> bool {
    for bit in bits {
        if let Some(text) = named.text(*bit) {
            if !is_name(text) {
                return named.rule(bit, NAME, lines);
            }
            if let Some(other) = bit_with(named, bits, text) {
                if other != *bit {
                    return tell_twice(named, bit, other, lines);
                }
            }
        }
    }
    false
}

/// The first of some bits that has a name.
fn bit_with(named: Keyed<'_>, bits: Words, name: &str) -> Option<&'static str> {
    for bit in bits {
        if named.text(*bit) == Some(name) {
            return Some(*bit);
        }
    }
    None
}

/// Writes a bit, its name, and which bit before it has the name.
fn tell_twice(named: Keyed<'_>, bit: &str, other: &str, lines: &mut Draft) -> bool {
    let mut rule = ArrayString::<64>::new();
    let _ = write!(rule, "bit {other} has this name");
    named.rule(bit, rule.as_str(), lines)
}
