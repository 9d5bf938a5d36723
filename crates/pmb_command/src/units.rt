//! The units of the standard commands (PMBus Part II).
//!
//! The proof of `rows` computes that `ROWS` is the table of the definitions.
//!
//! Its rows: `tests_commands`, `src/units.rt`.

ghost use Rattle.std.specs.Prelude.{◌≡◌, ◌==◌, ◌≤◌, IfSome, find, length, map, option_map};
ghost use Rattle.std.specs.Option.{option_copied};
ghost use Rattle.pmb_command.specs.Names.{IsUnit};
ghost use Rattle.pmb_command.specs.Units.{standard_unit, unit_rows};
ghost use Rattle.pmb_command.specs.machine.UnitRows.{row_parts};

/// A standard command's code, and the unit of its numbers.
#[derive(Clone, Copy)]
struct Row(u8, &'static str);

// begin: written by tools/commands from docs/profiles.md
static ROWS: [Row; 74] = [
    Row(0x21, "V"),
    Row(0x22, "V"),
    Row(0x23, "V"),
    Row(0x24, "V"),
    Row(0x25, "V"),
    Row(0x26, "V"),
    Row(0x27, "mV/us"),
    Row(0x28, "mV/A"),
    Row(0x2b, "V"),
    Row(0x31, "W"),
    Row(0x32, "%"),
    Row(0x33, "kHz"),
    Row(0x35, "V"),
    Row(0x36, "V"),
    Row(0x38, "mOhm"),
    Row(0x39, "A"),
    Row(0x40, "V"),
    Row(0x42, "V"),
    Row(0x43, "V"),
    Row(0x44, "V"),
    Row(0x46, "A"),
    Row(0x48, "V"),
    Row(0x4a, "A"),
    Row(0x4b, "A"),
    Row(0x4f, "degC"),
    Row(0x51, "degC"),
    Row(0x52, "degC"),
    Row(0x53, "degC"),
    Row(0x55, "V"),
    Row(0x57, "V"),
    Row(0x58, "V"),
    Row(0x59, "V"),
    Row(0x5b, "A"),
    Row(0x5d, "A"),
    Row(0x5e, "V"),
    Row(0x5f, "V"),
    Row(0x60, "ms"),
    Row(0x61, "ms"),
    Row(0x62, "ms"),
    Row(0x64, "ms"),
    Row(0x65, "ms"),
    Row(0x66, "ms"),
    Row(0x68, "W"),
    Row(0x6a, "W"),
    Row(0x6b, "W"),
    Row(0x88, "V"),
    Row(0x89, "A"),
    Row(0x8a, "V"),
    Row(0x8b, "V"),
    Row(0x8c, "A"),
    Row(0x8d, "degC"),
    Row(0x8e, "degC"),
    Row(0x8f, "degC"),
    Row(0x90, "rpm"),
    Row(0x91, "rpm"),
    Row(0x92, "rpm"),
    Row(0x93, "rpm"),
    Row(0x94, "%"),
    Row(0x95, "kHz"),
    Row(0x96, "W"),
    Row(0x97, "W"),
    Row(0xa0, "V"),
    Row(0xa1, "V"),
    Row(0xa2, "A"),
    Row(0xa3, "W"),
    Row(0xa4, "V"),
    Row(0xa5, "V"),
    Row(0xa6, "A"),
    Row(0xa7, "W"),
    Row(0xa8, "degC"),
    Row(0xa9, "degC"),
    Row(0xc0, "degC"),
    Row(0xc1, "degC"),
    Row(0xc2, "degC"),
];
// end

/// The table, in the order of the codes.
fn rows() -> &'static [Row]
    ensures { map row_parts result.now ≡ unit_rows }
{
    &ROWS
}

/// The first row that has a code.
fn find_code(rows: &'static [Row], code: u8) -> Option<&'static Row>
    ensures { option_copied result ≡ find (λ r. (row_parts r).code == code) rows.now }
{
    rows.iter().find(|row| row.0 == code)
}

/// The unit of the standard command with a code, such as `V`, or `None` where it has none. It has at
/// most 5 bytes.
pub fn standard_unit(code: u8) -> Option<&'static str>
    ensures unit { option_map (λ unit. unit.now) result ≡ standard_unit code }
    ensures short { IfSome result (λ unit. length unit.now ≤ 5) }
    ensures fits { IfSome result (λ unit. IsUnit unit.now) }
{
    match find_code(rows(), code) {
        Some(row) => Some(row.1),
        None => None,
    }
}
