//! The lines of what a profile says of the data of a command: their unit, the names of bits, and whether
//! there is a value for each phase.
//!
//! Its rows: `tests/rows/profile_text.txt`.

ghost use Rattle.std.specs.Prelude.{◌≡◌, ◌+◌, ◌≤◌, ◌++◌, true, IfSome, Some, length, map, option_map};
ghost use Rattle.std.specs.List.{AllByRecursion, flat_map};
ghost use Rattle.pmb_command.specs.Entry.{entry_parts};
ghost use Rattle.pmb_command.specs.Names.{is_name};
ghost use Rattle.pmb_command.specs.Parts.{CommandParts, command_with};
ghost use Rattle.pmb_keys.specs.CommandView.{bit_parts};
ghost use Rattle.pmb_profile_text.specs.Table.{bit_line, has_unit, is_unit_of, keeps_format, keeps_unit, meaning_lines, phased_line, unit_line};

use crate::row::{Row, append, append_number, append_spaces};
use pmb_command::{Entry, Kind, standard_unit};
use pmb_keys::NamedBit;
use pmb_table::DeviceProfile;
use pmb_value::NumberFormat;

/// The width of all columns before that of the kinds.
const BEFORE_KINDS: usize = 62;

/// Whether the standard has this unit.
fn is_unit_of(unit: &str, standard: Option<&str>) -> bool
    ensures { result ≡ is_unit_of unit.now (option_map (λ u. u.now) standard.entry) }
{
    match standard {
        Some(other) => unit.as_bytes() == other.as_bytes(),
        None => false,
    }
}

/// Whether a standard command keeps the standard's unit in this format.
fn keeps_format(format: &NumberFormat) -> bool
    ensures { result ≡ keeps_format format.now }
{
    match format {
        NumberFormat::Linear11 | NumberFormat::Linear11Fixed(_) => true,
        NumberFormat::Word(_) | NumberFormat::Half | NumberFormat::Vid(_) => false,
    }
}

/// Whether a standard command keeps the standard's unit with this kind.
fn keeps_unit(kind: &Kind) -> bool
    ensures { result ≡ keeps_unit kind.now }
{
    match kind {
        Kind::Number(format) => keeps_format(format),
        Kind::Vout | Kind::VoutSigned => true,
        Kind::Raw | Kind::Status | Kind::Text => false,
    }
}

/// Whether a command of this code and kind may have the unit without the key.
fn has_unit(entry: &Entry, unit: &str) -> bool
    ensures { result ≡ has_unit (entry_parts entry.now) unit.now }
{
    keeps_unit(&entry.kind) && is_unit_of(unit, standard_unit(entry.code))
}

/// Appends the line of the unit, unless a command of this code and kind may have it without the key: at
/// most 84 bytes.
fn append_unit(lines: &mut Row, entry: &Entry, unit: Option<&str>)
    requires short { IfSome unit (λ u. length u.now ≤ 16) }
    requires room { length lines.old.items + 84 ≤ 2048 }
    ensures text { lines.new.items ≡ lines.old.items ++ unit_line (entry_parts entry.now) (option_map (λ u. u.now) unit.entry) }
    ensures short { length lines.new.items ≤ length lines.old.items + 84 }
{
    match unit {
        Some(unit) => {
            if !has_unit(entry, unit) {
                append_spaces(lines, BEFORE_KINDS);
                append(lines, b"unit ");
                append(lines, unit.as_bytes());
                append(lines, b"\n");
            }
        }
        None => {}
    }
}

/// Appends the line of a bit: at most 104 bytes.
#[tactic(auto, using(crate::proofs::Names::short_name))]
fn append_bit(lines: &mut Row, named: &NamedBit)
    requires name { is_name named.now.name.bytes ≡ true }
    requires room { length lines.old.items + 104 ≤ 2048 }
    ensures text { lines.new.items ≡ lines.old.items ++ bit_line (bit_parts named.now) }
    ensures short { length lines.new.items ≤ length lines.old.items + 104 }
{
    append_spaces(lines, BEFORE_KINDS);
    append(lines, b"bit ");
    append_number(lines, named.bit);
    append(lines, b": ");
    append(lines, named.name.as_str().as_bytes());
    append(lines, b"\n");
}

/// Appends the lines of bits: at most 1,664 bytes.
fn append_bits(lines: &mut Row, bits: &[NamedBit])
    requires few { length bits.now ≤ 16 }
    requires names { AllByRecursion (λ b. is_name b.name.bytes ≡ true) bits.now }
    requires room { length lines.old.items + 1664 ≤ 2048 }
    ensures text { lines.new.items ≡ lines.old.items ++ flat_map bit_line (map bit_parts bits.now) }
    ensures short { length lines.new.items ≤ length lines.old.items + 1664 }
{
    for named in bits {
        append_bit(lines, named);
    }
}

/// Appends the line of a command that has a value for each phase: at most 69 bytes.
fn append_phased(lines: &mut Row, phased: bool)
    requires { length lines.old.items + 69 ≤ 2048 }
    ensures text { lines.new.items ≡ lines.old.items ++ phased_line phased }
    ensures short { length lines.new.items ≤ length lines.old.items + 69 }
{
    if phased {
        append_spaces(lines, BEFORE_KINDS);
        append(lines, b"phased");
        append(lines, b"\n");
    }
}

/// The lines of what the profile says of the data of a command.
pub(crate) fn meaning_lines(device: &DeviceProfile, entry: &Entry) -> Row
    ensures { (command : CommandParts) → command_with entry.now.code device.now.commands ≡ Some command → command.entry ≡ entry_parts entry.now
        → result.items ≡ meaning_lines command }
{
    let mut lines = Row::new();
    append_unit(&mut lines, entry, device.unit(entry.code));
    append_bits(&mut lines, device.bits(entry.code));
    append_phased(&mut lines, device.is_phased(entry.code));
    lines
}
