//! The value of a number: as an exact text, and as the nearest number, and its unit.
//!
//! Its rows: `tests_json`, `src/fields/numbers.rt` and `profiles.rt`.

ghost use Rattle.std.specs.Prelude.{◌≡◌, ◌+◌, ◌≤◌, ◌∷◌, [], codes, length};
ghost use Rattle.pmb_quantity.specs.QuantityText.{spelling};
ghost use Rattle.pmb_decimal.specs.Decimal.{rounded_text};
ghost use Rattle.pmb_keys.specs.CommandView.{command_parts};
ghost use Rattle.pmb_json_text.specs.Json.{IsNumber, number, string};
ghost use Rattle.pmb_json_text.specs.Member.{named};
ghost use Rattle.pmb_json_fields.specs.Value.{number_members, of_word, quantity_members, unit_members, voltage_members, voltage_unit};
ghost use Rattle.pmb_json_fields.specs.machine.Written.{Appends};

use crate::raw::{append_raw, append_text, word_fault_name};
use arrayvec::ArrayVec;
use pmb_decimal::{Digits, append_decimal};
use pmb_json_text::{ItemOrder, number_text_member};
use pmb_keys::Command;
use pmb_value::{NumberFormat, Quantity};

/// Appends what two bytes say in a format; nothing for another number of bytes.
pub(crate) fn append_number<const N: usize>(
    out: &mut ArrayVec<u8, N>,
    digits: Digits,
    command: &Command,
    format: NumberFormat,
    bytes: &[u8],
)
    requires { length out.old.items + 463 ≤ N }
    ensures { Appends (of_word (number_members digits (command_parts command.now).unit format) bytes.now) 463 out.old.items out.new.items }
{
    match bytes {
        [low, high] => append_word(
            out,
            digits,
            command,
            format,
            u16::from_le_bytes([*low, *high]),
        ),
        _ => {}
    }
}

/// Appends the value of a word in a format with its unit, or why it has none.
fn append_word<const N: usize>(
    out: &mut ArrayVec<u8, N>,
    digits: Digits,
    command: &Command,
    format: NumberFormat,
    word: u16,
)
    requires { length out.old.items + 463 ≤ N }
    ensures { Appends (number_members digits (command_parts command.now).unit format word) 463 out.old.items out.new.items }
{
    match format.value(word) {
        Ok(quantity) => {
            append_quantity(out, digits, &quantity);
            append_unit(out, command);
        }
        Err(fault) => append_raw(out, word_fault_name(fault)),
    }
}

/// Appends an exact value, and the nearest number.
fn append_quantity<const N: usize>(out: &mut ArrayVec<u8, N>, digits: Digits, quantity: &Quantity)
    requires { length out.old.items + 345 ≤ N }
    ensures { Appends (quantity_members digits quantity.now) 345 out.old.items out.new.items }
{
    append_exact(out, quantity);
    append_nearest(out, digits, quantity);
}

/// Appends an output voltage, or a factor of one.
pub(crate) fn append_voltage_value<const N: usize>(
    out: &mut ArrayVec<u8, N>,
    digits: Digits,
    is_ratio: bool,
    quantity: &Quantity,
)
    requires { length out.old.items + 345 ≤ N }
    ensures { Appends (voltage_members digits is_ratio quantity.now) 345 out.old.items out.new.items }
{
    if is_ratio {
        append_ratio(out, quantity);
    } else {
        append_quantity(out, digits, quantity);
    }
}

/// Appends the unit of an output voltage; nothing of a factor.
pub(crate) fn append_voltage_unit<const N: usize>(
    out: &mut ArrayVec<u8, N>,
    is_ratio: bool,
    command: &Command,
)
    requires { length out.old.items + 118 ≤ N }
    ensures { Appends (voltage_unit is_ratio (command_parts command.now).unit) 118 out.old.items out.new.items }
{
    if !is_ratio {
        append_unit(out, command);
    }
}

/// Appends the unit of a command's numbers, where they have one.
fn append_unit<const N: usize>(out: &mut ArrayVec<u8, N>, command: &Command)
    requires { length out.old.items + 118 ≤ N }
    ensures { Appends (unit_members (command_parts command.now).unit) 118 out.old.items out.new.items }
{
    match command.unit() {
        Some(unit) => append_text(out, "unit", unit.as_bytes()),
        None => {}
    }
}

/// Appends a factor.
fn append_ratio<const N: usize>(out: &mut ArrayVec<u8, N>, quantity: &Quantity)
    requires { length out.old.items + 292 ≤ N }
    ensures { Appends (named (codes "ratio") (string (spelling quantity.now)) ∷ []) 292 out.old.items out.new.items }
{
    append_text(out, "ratio", quantity.text().as_str().as_bytes());
}

/// Appends the exact value.
fn append_exact<const N: usize>(out: &mut ArrayVec<u8, N>, quantity: &Quantity)
    requires { length out.old.items + 292 ≤ N }
    ensures { Appends (named (codes "value") (string (spelling quantity.now)) ∷ []) 292 out.old.items out.new.items }
{
    append_text(out, "value", quantity.text().as_str().as_bytes());
}

/// Appends the nearest number.
fn append_nearest<const N: usize>(out: &mut ArrayVec<u8, N>, digits: Digits, quantity: &Quantity)
    requires { length out.old.items + 53 ≤ N }
    ensures { Appends (named (codes "number") (number (rounded_text digits quantity.now)) ∷ []) 53 out.old.items out.new.items }
{
    let text = nearest(digits, quantity);
    number_text_member(out, ItemOrder::Later, "number", text.as_slice());
}

/// The text of the nearest number.
fn nearest(digits: Digits, quantity: &Quantity) -> ArrayVec<u8, 33>
    ensures text { result.items ≡ rounded_text digits quantity.now }
    ensures number { IsNumber result.items }
{
    let mut text = ArrayVec::new();
    nearest_is_number(digits, quantity);
    append_decimal(quantity, digits, &mut text);
    text
}

/// The nearest decimal is a number of JSON. This does nothing: what `num` says of a quantity is all
/// that it needs.
fn nearest_is_number(digits: Digits, quantity: &Quantity)
    ensures { IsNumber (rounded_text digits quantity.now) }
{
    let _ = quantity.num();
}
