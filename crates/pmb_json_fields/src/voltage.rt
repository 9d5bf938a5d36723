//! Output voltages, which VOUT_MODE says how to read.
//!
//! Its rows: `tests_json`, `src/fields/voltages.rt`, `contexts.rt` and `profiles.rt`.

ghost use Rattle.std.specs.Prelude.{◌≡◌, ◌+◌, ◌≤◌, ◌++◌, length};
ghost use Rattle.pmb_keys.specs.CommandView.{command_parts};
ghost use Rattle.pmb_value.specs.WordFault.{value_in};
ghost use Rattle.pmb_voltage.specs.Voltage.{voltages_data};
ghost use Rattle.pmb_json_fields.specs.Value.{basis_members, marked_members, of_word, voltage_unit, vout_members};
ghost use Rattle.pmb_json_fields.specs.machine.Written.{Appends};

use crate::basis::Basis;
use crate::number::{append_voltage_unit, append_voltage_value};
use crate::raw::{append_raw, append_text, no_voltage_name, word_fault_name};
use arrayvec::ArrayVec;
use pmb_decimal::Digits;
use pmb_keys::Command;
use pmb_value::Sign;
use pmb_voltage::{VoltageFormat, Voltages};

/// Appends what two bytes of an output voltage say; nothing for another number of bytes.
pub(crate) fn append_voltage<const N: usize>(
    out: &mut ArrayVec<u8, N>,
    digits: Digits,
    voltages: &Voltages<'_>,
    basis: Basis,
    command: &Command,
    sign: Sign,
    bytes: &[u8],
)
    requires { length out.old.items + 528 ≤ N }
    ensures { Appends (of_word (vout_members digits (voltages_data voltages.now) basis (command_parts command.now) sign) bytes.now) 528 out.old.items out.new.items }
{
    match bytes {
        [low, high] => append_word(
            out,
            digits,
            voltages,
            basis,
            command,
            sign,
            u16::from_le_bytes([*low, *high]),
        ),
        _ => {}
    }
}

/// Appends what a word of an output voltage says.
fn append_word<const N: usize>(
    out: &mut ArrayVec<u8, N>,
    digits: Digits,
    voltages: &Voltages<'_>,
    basis: Basis,
    command: &Command,
    sign: Sign,
    word: u16,
)
    requires { length out.old.items + 528 ≤ N }
    ensures { Appends (vout_members digits (voltages_data voltages.now) basis (command_parts command.now) sign word) 528 out.old.items out.new.items }
{
    match voltages.format(command.entry.code, sign) {
        Ok(format) => append_in_format(out, digits, basis, command, format, word),
        Err(why) => append_raw(out, no_voltage_name(why)),
    }
}

/// Appends what a word of an output voltage says in its format.
fn append_in_format<const N: usize>(
    out: &mut ArrayVec<u8, N>,
    digits: Digits,
    basis: Basis,
    command: &Command,
    format: VoltageFormat,
    word: u16,
)
    requires { length out.old.items + 528 ≤ N }
    ensures { Appends (marked_members digits (command_parts command.now).unit format.is_ratio basis (value_in format.number word)) 528 out.old.items out.new.items }
{
    match format.number.value(word) {
        Ok(quantity) => {
            append_voltage_value(out, digits, format.is_ratio, &quantity);
            append_mark_and_unit(out, basis, format.is_ratio, command);
        }
        Err(fault) => append_raw(out, word_fault_name(fault)),
    }
}

/// Appends what stands after a value: the mark of one whose VOUT_MODE is assumed, and the unit.
fn append_mark_and_unit<const N: usize>(
    out: &mut ArrayVec<u8, N>,
    basis: Basis,
    is_ratio: bool,
    command: &Command,
)
    requires { length out.old.items + 183 ≤ N }
    ensures { Appends (basis_members basis ++ voltage_unit is_ratio (command_parts command.now).unit) 183 out.old.items out.new.items }
{
    append_basis(out, basis);
    append_voltage_unit(out, is_ratio, command);
}

/// Appends the mark of a value whose VOUT_MODE is assumed.
fn append_basis<const N: usize>(out: &mut ArrayVec<u8, N>, basis: Basis)
    requires { length out.old.items + 65 ≤ N }
    ensures { Appends (basis_members basis) 65 out.old.items out.new.items }
{
    match basis {
        Basis::Told => {}
        Basis::Assumed => append_text(out, "mode", b"assumed"),
    }
}
