//! The standard commands (PMBus Part II Appendix I).
//!
//! `ROWS` is laid out as the standard's own table, so that it is checked by looking at it; the
//! proof of `rows` computes that it is the table of the definitions.
//!
//! Its rows: `tests_commands`, `src/standard_commands.rt`, `src/sample.rt`.
ghost use Rattle.std.specs.Prelude.{◌≡◌, ◌≤◌, ◌==◌, length, find, map, option_map, IfSome};
ghost use Rattle.std.specs.Option.{option_copied};
ghost use Rattle.std.specs.Str.{bytes_eq};
ghost use Rattle.pmb_command.specs.Entry.{entry_parts};
ghost use Rattle.pmb_command.specs.Commands.{code_of_name, standard_entries, standard_entry};
ghost use Rattle.pmb_command.specs.Standard.{IsStandardAt};
ghost use Rattle.pmb_command.specs.machine.Rows.{standard_kind, row_parts};

use crate::entry::{Entry, Kind};
use crate::form::{Form, Shape};
use StandardKind::{Linear11, Raw, Status, Vout, VoutSigned};
use arrayvec::ArrayString;
use pmb_value::NumberFormat;

/// What the data of a standard command stand for where no profile says otherwise. A number is in
/// LINEAR11 without a fixed exponent: other formats are a device's own.
#[derive(Clone, Copy)]
enum StandardKind {
    Raw,
    Linear11,
    Vout,
    VoutSigned,
    Status,
}

/// A standard command: its code, its name, its forms, what its data stand for, and whether it has a
/// value for each page.
#[derive(Clone, Copy)]
struct Row(u8, &'static str, Shape, StandardKind, bool);

const SEND_BYTE: Shape = Shape {
    write: Some(Form::Zero),
    read: None,
    call: None,
};

const WRITE_BYTE: Shape = Shape {
    write: Some(Form::One),
    read: None,
    call: None,
};

const WRITE_BLOCK: Shape = Shape {
    write: Some(Form::Block),
    read: None,
    call: None,
};

const READ_BYTE: Shape = Shape {
    write: None,
    read: Some(Form::One),
    call: None,
};

const READ_WORD: Shape = Shape {
    write: None,
    read: Some(Form::Two),
    call: None,
};

const READ_BLOCK: Shape = Shape {
    write: None,
    read: Some(Form::Block),
    call: None,
};

const BYTE: Shape = Shape {
    write: Some(Form::One),
    read: Some(Form::One),
    call: None,
};

const WORD: Shape = Shape {
    write: Some(Form::Two),
    read: Some(Form::Two),
    call: None,
};

const BLOCK: Shape = Shape {
    write: Some(Form::Block),
    read: Some(Form::Block),
    call: None,
};

const CALL_BLOCK: Shape = Shape {
    write: None,
    read: None,
    call: Some(Form::Block),
};

// SMBALERT_MASK is set by a word, and asked for by a block.
const MASK: Shape = Shape {
    write: Some(Form::Two),
    read: None,
    call: Some(Form::Block),
};

const PAGED: bool = true;

const COMMON: bool = false;

// The columns: code, name, forms, what the data stand for, and whether each page has a value.
// begin: written by tools/commands from docs/profiles.md
static ROWS: [Row; 156] = [
    Row(0x00, "PAGE", BYTE, Raw, COMMON),
    Row(0x01, "OPERATION", BYTE, Raw, PAGED),
    Row(0x02, "ON_OFF_CONFIG", BYTE, Raw, PAGED),
    Row(0x03, "CLEAR_FAULTS", SEND_BYTE, Raw, COMMON),
    Row(0x04, "PHASE", BYTE, Raw, PAGED),
    Row(0x05, "PAGE_PLUS_WRITE", WRITE_BLOCK, Raw, COMMON),
    Row(0x06, "PAGE_PLUS_READ", CALL_BLOCK, Raw, COMMON),
    Row(0x10, "WRITE_PROTECT", BYTE, Raw, COMMON),
    Row(0x11, "STORE_DEFAULT_ALL", SEND_BYTE, Raw, COMMON),
    Row(0x12, "RESTORE_DEFAULT_ALL", SEND_BYTE, Raw, COMMON),
    Row(0x13, "STORE_DEFAULT_CODE", WRITE_BYTE, Raw, COMMON),
    Row(0x14, "RESTORE_DEFAULT_CODE", WRITE_BYTE, Raw, COMMON),
    Row(0x15, "STORE_USER_ALL", SEND_BYTE, Raw, COMMON),
    Row(0x16, "RESTORE_USER_ALL", SEND_BYTE, Raw, COMMON),
    Row(0x17, "STORE_USER_CODE", WRITE_BYTE, Raw, COMMON),
    Row(0x18, "RESTORE_USER_CODE", WRITE_BYTE, Raw, COMMON),
    Row(0x19, "CAPABILITY", READ_BYTE, Raw, COMMON),
    Row(0x1a, "QUERY", CALL_BLOCK, Raw, COMMON),
    Row(0x1b, "SMBALERT_MASK", MASK, Raw, COMMON),
    Row(0x20, "VOUT_MODE", BYTE, Raw, PAGED),
    Row(0x21, "VOUT_COMMAND", WORD, Vout, PAGED),
    Row(0x22, "VOUT_TRIM", WORD, VoutSigned, PAGED),
    Row(0x23, "VOUT_CAL_OFFSET", WORD, VoutSigned, PAGED),
    Row(0x24, "VOUT_MAX", WORD, Vout, PAGED),
    Row(0x25, "VOUT_MARGIN_HIGH", WORD, Vout, PAGED),
    Row(0x26, "VOUT_MARGIN_LOW", WORD, Vout, PAGED),
    Row(0x27, "VOUT_TRANSITION_RATE", WORD, Linear11, PAGED),
    Row(0x28, "VOUT_DROOP", WORD, Linear11, PAGED),
    Row(0x29, "VOUT_SCALE_LOOP", WORD, Linear11, PAGED),
    Row(0x2a, "VOUT_SCALE_MONITOR", WORD, Linear11, PAGED),
    Row(0x2b, "VOUT_MIN", WORD, Vout, PAGED),
    Row(0x30, "COEFFICIENTS", CALL_BLOCK, Raw, COMMON),
    Row(0x31, "POUT_MAX", WORD, Linear11, PAGED),
    Row(0x32, "MAX_DUTY", WORD, Linear11, PAGED),
    Row(0x33, "FREQUENCY_SWITCH", WORD, Linear11, PAGED),
    Row(0x35, "VIN_ON", WORD, Linear11, PAGED),
    Row(0x36, "VIN_OFF", WORD, Linear11, PAGED),
    Row(0x37, "INTERLEAVE", WORD, Raw, PAGED),
    Row(0x38, "IOUT_CAL_GAIN", WORD, Linear11, PAGED),
    Row(0x39, "IOUT_CAL_OFFSET", WORD, Linear11, PAGED),
    Row(0x3a, "FAN_CONFIG_1_2", BYTE, Raw, PAGED),
    Row(0x3b, "FAN_COMMAND_1", WORD, Linear11, PAGED),
    Row(0x3c, "FAN_COMMAND_2", WORD, Linear11, PAGED),
    Row(0x3d, "FAN_CONFIG_3_4", BYTE, Raw, PAGED),
    Row(0x3e, "FAN_COMMAND_3", WORD, Linear11, PAGED),
    Row(0x3f, "FAN_COMMAND_4", WORD, Linear11, PAGED),
    Row(0x40, "VOUT_OV_FAULT_LIMIT", WORD, Vout, PAGED),
    Row(0x41, "VOUT_OV_FAULT_RESPONSE", BYTE, Raw, PAGED),
    Row(0x42, "VOUT_OV_WARN_LIMIT", WORD, Vout, PAGED),
    Row(0x43, "VOUT_UV_WARN_LIMIT", WORD, Vout, PAGED),
    Row(0x44, "VOUT_UV_FAULT_LIMIT", WORD, Vout, PAGED),
    Row(0x45, "VOUT_UV_FAULT_RESPONSE", BYTE, Raw, PAGED),
    Row(0x46, "IOUT_OC_FAULT_LIMIT", WORD, Linear11, PAGED),
    Row(0x47, "IOUT_OC_FAULT_RESPONSE", BYTE, Raw, PAGED),
    Row(0x48, "IOUT_OC_LV_FAULT_LIMIT", WORD, Vout, PAGED),
    Row(0x49, "IOUT_OC_LV_FAULT_RESPONSE", BYTE, Raw, PAGED),
    Row(0x4a, "IOUT_OC_WARN_LIMIT", WORD, Linear11, PAGED),
    Row(0x4b, "IOUT_UC_FAULT_LIMIT", WORD, Linear11, PAGED),
    Row(0x4c, "IOUT_UC_FAULT_RESPONSE", BYTE, Raw, PAGED),
    Row(0x4f, "OT_FAULT_LIMIT", WORD, Linear11, PAGED),
    Row(0x50, "OT_FAULT_RESPONSE", BYTE, Raw, PAGED),
    Row(0x51, "OT_WARN_LIMIT", WORD, Linear11, PAGED),
    Row(0x52, "UT_WARN_LIMIT", WORD, Linear11, PAGED),
    Row(0x53, "UT_FAULT_LIMIT", WORD, Linear11, PAGED),
    Row(0x54, "UT_FAULT_RESPONSE", BYTE, Raw, PAGED),
    Row(0x55, "VIN_OV_FAULT_LIMIT", WORD, Linear11, PAGED),
    Row(0x56, "VIN_OV_FAULT_RESPONSE", BYTE, Raw, PAGED),
    Row(0x57, "VIN_OV_WARN_LIMIT", WORD, Linear11, PAGED),
    Row(0x58, "VIN_UV_WARN_LIMIT", WORD, Linear11, PAGED),
    Row(0x59, "VIN_UV_FAULT_LIMIT", WORD, Linear11, PAGED),
    Row(0x5a, "VIN_UV_FAULT_RESPONSE", BYTE, Raw, PAGED),
    Row(0x5b, "IIN_OC_FAULT_LIMIT", WORD, Linear11, PAGED),
    Row(0x5c, "IIN_OC_FAULT_RESPONSE", BYTE, Raw, PAGED),
    Row(0x5d, "IIN_OC_WARN_LIMIT", WORD, Linear11, PAGED),
    Row(0x5e, "POWER_GOOD_ON", WORD, Vout, PAGED),
    Row(0x5f, "POWER_GOOD_OFF", WORD, Vout, PAGED),
    Row(0x60, "TON_DELAY", WORD, Linear11, PAGED),
    Row(0x61, "TON_RISE", WORD, Linear11, PAGED),
    Row(0x62, "TON_MAX_FAULT_LIMIT", WORD, Linear11, PAGED),
    Row(0x63, "TON_MAX_FAULT_RESPONSE", BYTE, Raw, PAGED),
    Row(0x64, "TOFF_DELAY", WORD, Linear11, PAGED),
    Row(0x65, "TOFF_FALL", WORD, Linear11, PAGED),
    Row(0x66, "TOFF_MAX_WARN_LIMIT", WORD, Linear11, PAGED),
    Row(0x68, "POUT_OP_FAULT_LIMIT", WORD, Linear11, PAGED),
    Row(0x69, "POUT_OP_FAULT_RESPONSE", BYTE, Raw, PAGED),
    Row(0x6a, "POUT_OP_WARN_LIMIT", WORD, Linear11, PAGED),
    Row(0x6b, "PIN_OP_WARN_LIMIT", WORD, Linear11, PAGED),
    Row(0x78, "STATUS_BYTE", BYTE, Status, PAGED),
    Row(0x79, "STATUS_WORD", WORD, Status, PAGED),
    Row(0x7a, "STATUS_VOUT", BYTE, Status, PAGED),
    Row(0x7b, "STATUS_IOUT", BYTE, Status, PAGED),
    Row(0x7c, "STATUS_INPUT", BYTE, Status, PAGED),
    Row(0x7d, "STATUS_TEMPERATURE", BYTE, Status, PAGED),
    Row(0x7e, "STATUS_CML", BYTE, Status, PAGED),
    Row(0x7f, "STATUS_OTHER", BYTE, Status, PAGED),
    Row(0x80, "STATUS_MFR_SPECIFIC", BYTE, Status, PAGED),
    Row(0x81, "STATUS_FANS_1_2", BYTE, Status, PAGED),
    Row(0x82, "STATUS_FANS_3_4", BYTE, Status, PAGED),
    Row(0x86, "READ_EIN", READ_BLOCK, Raw, PAGED),
    Row(0x87, "READ_EOUT", READ_BLOCK, Raw, PAGED),
    Row(0x88, "READ_VIN", READ_WORD, Linear11, PAGED),
    Row(0x89, "READ_IIN", READ_WORD, Linear11, PAGED),
    Row(0x8a, "READ_VCAP", READ_WORD, Linear11, PAGED),
    Row(0x8b, "READ_VOUT", READ_WORD, Vout, PAGED),
    Row(0x8c, "READ_IOUT", READ_WORD, Linear11, PAGED),
    Row(0x8d, "READ_TEMPERATURE_1", READ_WORD, Linear11, PAGED),
    Row(0x8e, "READ_TEMPERATURE_2", READ_WORD, Linear11, PAGED),
    Row(0x8f, "READ_TEMPERATURE_3", READ_WORD, Linear11, PAGED),
    Row(0x90, "READ_FAN_SPEED_1", READ_WORD, Linear11, PAGED),
    Row(0x91, "READ_FAN_SPEED_2", READ_WORD, Linear11, PAGED),
    Row(0x92, "READ_FAN_SPEED_3", READ_WORD, Linear11, PAGED),
    Row(0x93, "READ_FAN_SPEED_4", READ_WORD, Linear11, PAGED),
    Row(0x94, "READ_DUTY_CYCLE", READ_WORD, Linear11, PAGED),
    Row(0x95, "READ_FREQUENCY", READ_WORD, Linear11, PAGED),
    Row(0x96, "READ_POUT", READ_WORD, Linear11, PAGED),
    Row(0x97, "READ_PIN", READ_WORD, Linear11, PAGED),
    Row(0x98, "PMBUS_REVISION", READ_BYTE, Raw, COMMON),
    Row(0x99, "MFR_ID", BLOCK, Raw, COMMON),
    Row(0x9a, "MFR_MODEL", BLOCK, Raw, COMMON),
    Row(0x9b, "MFR_REVISION", BLOCK, Raw, COMMON),
    Row(0x9c, "MFR_LOCATION", BLOCK, Raw, COMMON),
    Row(0x9d, "MFR_DATE", BLOCK, Raw, COMMON),
    Row(0x9e, "MFR_SERIAL", BLOCK, Raw, COMMON),
    Row(0xa0, "MFR_VIN_MIN", READ_WORD, Linear11, PAGED),
    Row(0xa1, "MFR_VIN_MAX", READ_WORD, Linear11, PAGED),
    Row(0xa2, "MFR_IIN_MAX", READ_WORD, Linear11, PAGED),
    Row(0xa3, "MFR_PIN_MAX", READ_WORD, Linear11, PAGED),
    Row(0xa4, "MFR_VOUT_MIN", READ_WORD, Vout, PAGED),
    Row(0xa5, "MFR_VOUT_MAX", READ_WORD, Vout, PAGED),
    Row(0xa6, "MFR_IOUT_MAX", READ_WORD, Linear11, PAGED),
    Row(0xa7, "MFR_POUT_MAX", READ_WORD, Linear11, PAGED),
    Row(0xa8, "MFR_TAMBIENT_MAX", READ_WORD, Linear11, PAGED),
    Row(0xa9, "MFR_TAMBIENT_MIN", READ_WORD, Linear11, PAGED),
    Row(0xaa, "MFR_EFFICIENCY_LL", READ_BLOCK, Raw, COMMON),
    Row(0xab, "MFR_EFFICIENCY_HL", READ_BLOCK, Raw, COMMON),
    Row(0xad, "IC_DEVICE_ID", READ_BLOCK, Raw, COMMON),
    Row(0xae, "IC_DEVICE_REV", READ_BLOCK, Raw, COMMON),
    Row(0xb0, "USER_DATA_00", BLOCK, Raw, COMMON),
    Row(0xb1, "USER_DATA_01", BLOCK, Raw, COMMON),
    Row(0xb2, "USER_DATA_02", BLOCK, Raw, COMMON),
    Row(0xb3, "USER_DATA_03", BLOCK, Raw, COMMON),
    Row(0xb4, "USER_DATA_04", BLOCK, Raw, COMMON),
    Row(0xb5, "USER_DATA_05", BLOCK, Raw, COMMON),
    Row(0xb6, "USER_DATA_06", BLOCK, Raw, COMMON),
    Row(0xb7, "USER_DATA_07", BLOCK, Raw, COMMON),
    Row(0xb8, "USER_DATA_08", BLOCK, Raw, COMMON),
    Row(0xb9, "USER_DATA_09", BLOCK, Raw, COMMON),
    Row(0xba, "USER_DATA_10", BLOCK, Raw, COMMON),
    Row(0xbb, "USER_DATA_11", BLOCK, Raw, COMMON),
    Row(0xbc, "USER_DATA_12", BLOCK, Raw, COMMON),
    Row(0xbd, "USER_DATA_13", BLOCK, Raw, COMMON),
    Row(0xbe, "USER_DATA_14", BLOCK, Raw, COMMON),
    Row(0xbf, "USER_DATA_15", BLOCK, Raw, COMMON),
    Row(0xc0, "MFR_MAX_TEMP_1", WORD, Linear11, PAGED),
    Row(0xc1, "MFR_MAX_TEMP_2", WORD, Linear11, PAGED),
    Row(0xc2, "MFR_MAX_TEMP_3", WORD, Linear11, PAGED),
];
// end

/// The table, in the order of the codes.
fn rows() -> &'static [Row]
    ensures { map row_parts result.now ≡ standard_entries }
{
    &ROWS
}

/// The first row that has a code.
fn find_code(rows: &'static [Row], code: u8) -> Option<&'static Row>
    ensures { option_copied result ≡ find (λ r. (row_parts r).code == code) rows.now }
{
    rows.iter().find(|row| row.0 == code)
}

/// The first row that has a name.
fn find_name(rows: &'static [Row], name: &str) -> Option<&'static Row>
    ensures { option_copied result ≡ find (λ r. bytes_eq (row_parts r).name name.now) rows.now }
{
    rows.iter().find(|row| row.1 == name)
}

fn kind_of(kind: StandardKind) -> Kind
    ensures { result ≡ standard_kind kind }
{
    match kind {
        Raw => Kind::Raw,
        Linear11 => Kind::Number(NumberFormat::Linear11),
        Vout => Kind::Vout,
        VoutSigned => Kind::VoutSigned,
        Status => Kind::Status,
    }
}

/// A row as an entry; its name fits.
fn entry_of(row: &Row) -> Entry
    requires { length (row_parts row.now).name ≤ 32 }
    ensures { entry_parts result ≡ row_parts row.now }
{
    let Row(code, text, shape, kind, paged) = *row;
    let mut name = ArrayString::new();
    name.push_str(text);
    Entry {
        code,
        name,
        shape,
        kind: kind_of(kind),
        paged,
    }
}

/// The standard command of a code, with its forms and its defaults, or `None` where the code has
/// none.
pub fn standard(code: u8) -> Option<Entry>
    ensures entry { option_map entry_parts result ≡ standard_entry code }
    ensures sound { IfSome result (λ e. IsStandardAt code (entry_parts e)) }
{
    let row = find_code(rows(), code)?;
    Some(entry_of(row))
}

/// The code of the standard command with a name, or `None` where none has it.
pub fn by_name(name: &str) -> Option<u8>
    ensures { result ≡ code_of_name name.now }
{
    let row = find_name(rows(), name)?;
    Some(row.0)
}
