//! The standard's command table, typed by hand from PMBus Part II Appendix I: its names and forms;
//! the kinds and what is paged are this project's. It is not made from the table in
//! `docs/profiles.md`, as the code and the definitions are, so that a row that is wrong there is
//! found here.
use crate::compare::{ensure, same};
use crate::meanings::Meaning::{Linear11, Raw, Status, Vout, VoutSigned};
use crate::parts::{Parts, check_entry};
use crate::shapes::{
    BLOCK, BYTE, CALL_BLOCK, MASK, READ_BLOCK, READ_BYTE, READ_WORD, SEND_BYTE, WORD, WRITE_BLOCK,
    WRITE_BYTE,
};
use pmb_table::{by_name, laws, standard};

const PAGED: bool = true;

const COMMON: bool = false;

/// The table, in the order of the codes.
static COMMANDS: &[Parts] = &[
    Parts(0x00, "PAGE", BYTE, Raw, COMMON),
    Parts(0x01, "OPERATION", BYTE, Raw, PAGED),
    Parts(0x02, "ON_OFF_CONFIG", BYTE, Raw, PAGED),
    Parts(0x03, "CLEAR_FAULTS", SEND_BYTE, Raw, COMMON),
    Parts(0x04, "PHASE", BYTE, Raw, PAGED),
    Parts(0x05, "PAGE_PLUS_WRITE", WRITE_BLOCK, Raw, COMMON),
    Parts(0x06, "PAGE_PLUS_READ", CALL_BLOCK, Raw, COMMON),
    Parts(0x10, "WRITE_PROTECT", BYTE, Raw, COMMON),
    Parts(0x11, "STORE_DEFAULT_ALL", SEND_BYTE, Raw, COMMON),
    Parts(0x12, "RESTORE_DEFAULT_ALL", SEND_BYTE, Raw, COMMON),
    Parts(0x13, "STORE_DEFAULT_CODE", WRITE_BYTE, Raw, COMMON),
    Parts(0x14, "RESTORE_DEFAULT_CODE", WRITE_BYTE, Raw, COMMON),
    Parts(0x15, "STORE_USER_ALL", SEND_BYTE, Raw, COMMON),
    Parts(0x16, "RESTORE_USER_ALL", SEND_BYTE, Raw, COMMON),
    Parts(0x17, "STORE_USER_CODE", WRITE_BYTE, Raw, COMMON),
    Parts(0x18, "RESTORE_USER_CODE", WRITE_BYTE, Raw, COMMON),
    Parts(0x19, "CAPABILITY", READ_BYTE, Raw, COMMON),
    Parts(0x1a, "QUERY", CALL_BLOCK, Raw, COMMON),
    Parts(0x1b, "SMBALERT_MASK", MASK, Raw, COMMON),
    Parts(0x20, "VOUT_MODE", BYTE, Raw, PAGED),
    Parts(0x21, "VOUT_COMMAND", WORD, Vout, PAGED),
    Parts(0x22, "VOUT_TRIM", WORD, VoutSigned, PAGED),
    Parts(0x23, "VOUT_CAL_OFFSET", WORD, VoutSigned, PAGED),
    Parts(0x24, "VOUT_MAX", WORD, Vout, PAGED),
    Parts(0x25, "VOUT_MARGIN_HIGH", WORD, Vout, PAGED),
    Parts(0x26, "VOUT_MARGIN_LOW", WORD, Vout, PAGED),
    Parts(0x27, "VOUT_TRANSITION_RATE", WORD, Linear11, PAGED),
    Parts(0x28, "VOUT_DROOP", WORD, Linear11, PAGED),
    Parts(0x29, "VOUT_SCALE_LOOP", WORD, Linear11, PAGED),
    Parts(0x2a, "VOUT_SCALE_MONITOR", WORD, Linear11, PAGED),
    Parts(0x2b, "VOUT_MIN", WORD, Vout, PAGED),
    Parts(0x30, "COEFFICIENTS", CALL_BLOCK, Raw, COMMON),
    Parts(0x31, "POUT_MAX", WORD, Linear11, PAGED),
    Parts(0x32, "MAX_DUTY", WORD, Linear11, PAGED),
    Parts(0x33, "FREQUENCY_SWITCH", WORD, Linear11, PAGED),
    Parts(0x35, "VIN_ON", WORD, Linear11, PAGED),
    Parts(0x36, "VIN_OFF", WORD, Linear11, PAGED),
    Parts(0x37, "INTERLEAVE", WORD, Raw, PAGED),
    Parts(0x38, "IOUT_CAL_GAIN", WORD, Linear11, PAGED),
    Parts(0x39, "IOUT_CAL_OFFSET", WORD, Linear11, PAGED),
    Parts(0x3a, "FAN_CONFIG_1_2", BYTE, Raw, PAGED),
    Parts(0x3b, "FAN_COMMAND_1", WORD, Linear11, PAGED),
    Parts(0x3c, "FAN_COMMAND_2", WORD, Linear11, PAGED),
    Parts(0x3d, "FAN_CONFIG_3_4", BYTE, Raw, PAGED),
    Parts(0x3e, "FAN_COMMAND_3", WORD, Linear11, PAGED),
    Parts(0x3f, "FAN_COMMAND_4", WORD, Linear11, PAGED),
    Parts(0x40, "VOUT_OV_FAULT_LIMIT", WORD, Vout, PAGED),
    Parts(0x41, "VOUT_OV_FAULT_RESPONSE", BYTE, Raw, PAGED),
    Parts(0x42, "VOUT_OV_WARN_LIMIT", WORD, Vout, PAGED),
    Parts(0x43, "VOUT_UV_WARN_LIMIT", WORD, Vout, PAGED),
    Parts(0x44, "VOUT_UV_FAULT_LIMIT", WORD, Vout, PAGED),
    Parts(0x45, "VOUT_UV_FAULT_RESPONSE", BYTE, Raw, PAGED),
    Parts(0x46, "IOUT_OC_FAULT_LIMIT", WORD, Linear11, PAGED),
    Parts(0x47, "IOUT_OC_FAULT_RESPONSE", BYTE, Raw, PAGED),
    Parts(0x48, "IOUT_OC_LV_FAULT_LIMIT", WORD, Vout, PAGED),
    Parts(0x49, "IOUT_OC_LV_FAULT_RESPONSE", BYTE, Raw, PAGED),
    Parts(0x4a, "IOUT_OC_WARN_LIMIT", WORD, Linear11, PAGED),
    Parts(0x4b, "IOUT_UC_FAULT_LIMIT", WORD, Linear11, PAGED),
    Parts(0x4c, "IOUT_UC_FAULT_RESPONSE", BYTE, Raw, PAGED),
    Parts(0x4f, "OT_FAULT_LIMIT", WORD, Linear11, PAGED),
    Parts(0x50, "OT_FAULT_RESPONSE", BYTE, Raw, PAGED),
    Parts(0x51, "OT_WARN_LIMIT", WORD, Linear11, PAGED),
    Parts(0x52, "UT_WARN_LIMIT", WORD, Linear11, PAGED),
    Parts(0x53, "UT_FAULT_LIMIT", WORD, Linear11, PAGED),
    Parts(0x54, "UT_FAULT_RESPONSE", BYTE, Raw, PAGED),
    Parts(0x55, "VIN_OV_FAULT_LIMIT", WORD, Linear11, PAGED),
    Parts(0x56, "VIN_OV_FAULT_RESPONSE", BYTE, Raw, PAGED),
    Parts(0x57, "VIN_OV_WARN_LIMIT", WORD, Linear11, PAGED),
    Parts(0x58, "VIN_UV_WARN_LIMIT", WORD, Linear11, PAGED),
    Parts(0x59, "VIN_UV_FAULT_LIMIT", WORD, Linear11, PAGED),
    Parts(0x5a, "VIN_UV_FAULT_RESPONSE", BYTE, Raw, PAGED),
    Parts(0x5b, "IIN_OC_FAULT_LIMIT", WORD, Linear11, PAGED),
    Parts(0x5c, "IIN_OC_FAULT_RESPONSE", BYTE, Raw, PAGED),
    Parts(0x5d, "IIN_OC_WARN_LIMIT", WORD, Linear11, PAGED),
    Parts(0x5e, "POWER_GOOD_ON", WORD, Vout, PAGED),
    Parts(0x5f, "POWER_GOOD_OFF", WORD, Vout, PAGED),
    Parts(0x60, "TON_DELAY", WORD, Linear11, PAGED),
    Parts(0x61, "TON_RISE", WORD, Linear11, PAGED),
    Parts(0x62, "TON_MAX_FAULT_LIMIT", WORD, Linear11, PAGED),
    Parts(0x63, "TON_MAX_FAULT_RESPONSE", BYTE, Raw, PAGED),
    Parts(0x64, "TOFF_DELAY", WORD, Linear11, PAGED),
    Parts(0x65, "TOFF_FALL", WORD, Linear11, PAGED),
    Parts(0x66, "TOFF_MAX_WARN_LIMIT", WORD, Linear11, PAGED),
    Parts(0x68, "POUT_OP_FAULT_LIMIT", WORD, Linear11, PAGED),
    Parts(0x69, "POUT_OP_FAULT_RESPONSE", BYTE, Raw, PAGED),
    Parts(0x6a, "POUT_OP_WARN_LIMIT", WORD, Linear11, PAGED),
    Parts(0x6b, "PIN_OP_WARN_LIMIT", WORD, Linear11, PAGED),
    Parts(0x78, "STATUS_BYTE", BYTE, Status, PAGED),
    Parts(0x79, "STATUS_WORD", WORD, Status, PAGED),
    Parts(0x7a, "STATUS_VOUT", BYTE, Status, PAGED),
    Parts(0x7b, "STATUS_IOUT", BYTE, Status, PAGED),
    Parts(0x7c, "STATUS_INPUT", BYTE, Status, PAGED),
    Parts(0x7d, "STATUS_TEMPERATURE", BYTE, Status, PAGED),
    Parts(0x7e, "STATUS_CML", BYTE, Status, PAGED),
    Parts(0x7f, "STATUS_OTHER", BYTE, Status, PAGED),
    Parts(0x80, "STATUS_MFR_SPECIFIC", BYTE, Status, PAGED),
    Parts(0x81, "STATUS_FANS_1_2", BYTE, Status, PAGED),
    Parts(0x82, "STATUS_FANS_3_4", BYTE, Status, PAGED),
    Parts(0x86, "READ_EIN", READ_BLOCK, Raw, PAGED),
    Parts(0x87, "READ_EOUT", READ_BLOCK, Raw, PAGED),
    Parts(0x88, "READ_VIN", READ_WORD, Linear11, PAGED),
    Parts(0x89, "READ_IIN", READ_WORD, Linear11, PAGED),
    Parts(0x8a, "READ_VCAP", READ_WORD, Linear11, PAGED),
    Parts(0x8b, "READ_VOUT", READ_WORD, Vout, PAGED),
    Parts(0x8c, "READ_IOUT", READ_WORD, Linear11, PAGED),
    Parts(0x8d, "READ_TEMPERATURE_1", READ_WORD, Linear11, PAGED),
    Parts(0x8e, "READ_TEMPERATURE_2", READ_WORD, Linear11, PAGED),
    Parts(0x8f, "READ_TEMPERATURE_3", READ_WORD, Linear11, PAGED),
    Parts(0x90, "READ_FAN_SPEED_1", READ_WORD, Linear11, PAGED),
    Parts(0x91, "READ_FAN_SPEED_2", READ_WORD, Linear11, PAGED),
    Parts(0x92, "READ_FAN_SPEED_3", READ_WORD, Linear11, PAGED),
    Parts(0x93, "READ_FAN_SPEED_4", READ_WORD, Linear11, PAGED),
    Parts(0x94, "READ_DUTY_CYCLE", READ_WORD, Linear11, PAGED),
    Parts(0x95, "READ_FREQUENCY", READ_WORD, Linear11, PAGED),
    Parts(0x96, "READ_POUT", READ_WORD, Linear11, PAGED),
    Parts(0x97, "READ_PIN", READ_WORD, Linear11, PAGED),
    Parts(0x98, "PMBUS_REVISION", READ_BYTE, Raw, COMMON),
    Parts(0x99, "MFR_ID", BLOCK, Raw, COMMON),
    Parts(0x9a, "MFR_MODEL", BLOCK, Raw, COMMON),
    Parts(0x9b, "MFR_REVISION", BLOCK, Raw, COMMON),
    Parts(0x9c, "MFR_LOCATION", BLOCK, Raw, COMMON),
    Parts(0x9d, "MFR_DATE", BLOCK, Raw, COMMON),
    Parts(0x9e, "MFR_SERIAL", BLOCK, Raw, COMMON),
    Parts(0xa0, "MFR_VIN_MIN", READ_WORD, Linear11, PAGED),
    Parts(0xa1, "MFR_VIN_MAX", READ_WORD, Linear11, PAGED),
    Parts(0xa2, "MFR_IIN_MAX", READ_WORD, Linear11, PAGED),
    Parts(0xa3, "MFR_PIN_MAX", READ_WORD, Linear11, PAGED),
    Parts(0xa4, "MFR_VOUT_MIN", READ_WORD, Vout, PAGED),
    Parts(0xa5, "MFR_VOUT_MAX", READ_WORD, Vout, PAGED),
    Parts(0xa6, "MFR_IOUT_MAX", READ_WORD, Linear11, PAGED),
    Parts(0xa7, "MFR_POUT_MAX", READ_WORD, Linear11, PAGED),
    Parts(0xa8, "MFR_TAMBIENT_MAX", READ_WORD, Linear11, PAGED),
    Parts(0xa9, "MFR_TAMBIENT_MIN", READ_WORD, Linear11, PAGED),
    Parts(0xaa, "MFR_EFFICIENCY_LL", READ_BLOCK, Raw, COMMON),
    Parts(0xab, "MFR_EFFICIENCY_HL", READ_BLOCK, Raw, COMMON),
    Parts(0xad, "IC_DEVICE_ID", READ_BLOCK, Raw, COMMON),
    Parts(0xae, "IC_DEVICE_REV", READ_BLOCK, Raw, COMMON),
    Parts(0xb0, "USER_DATA_00", BLOCK, Raw, COMMON),
    Parts(0xb1, "USER_DATA_01", BLOCK, Raw, COMMON),
    Parts(0xb2, "USER_DATA_02", BLOCK, Raw, COMMON),
    Parts(0xb3, "USER_DATA_03", BLOCK, Raw, COMMON),
    Parts(0xb4, "USER_DATA_04", BLOCK, Raw, COMMON),
    Parts(0xb5, "USER_DATA_05", BLOCK, Raw, COMMON),
    Parts(0xb6, "USER_DATA_06", BLOCK, Raw, COMMON),
    Parts(0xb7, "USER_DATA_07", BLOCK, Raw, COMMON),
    Parts(0xb8, "USER_DATA_08", BLOCK, Raw, COMMON),
    Parts(0xb9, "USER_DATA_09", BLOCK, Raw, COMMON),
    Parts(0xba, "USER_DATA_10", BLOCK, Raw, COMMON),
    Parts(0xbb, "USER_DATA_11", BLOCK, Raw, COMMON),
    Parts(0xbc, "USER_DATA_12", BLOCK, Raw, COMMON),
    Parts(0xbd, "USER_DATA_13", BLOCK, Raw, COMMON),
    Parts(0xbe, "USER_DATA_14", BLOCK, Raw, COMMON),
    Parts(0xbf, "USER_DATA_15", BLOCK, Raw, COMMON),
    Parts(0xc0, "MFR_MAX_TEMP_1", WORD, Linear11, PAGED),
    Parts(0xc1, "MFR_MAX_TEMP_2", WORD, Linear11, PAGED),
    Parts(0xc2, "MFR_MAX_TEMP_3", WORD, Linear11, PAGED),
];

/// Names of no standard command.
static NO_NAMES: [&str; 7] = [
    "",
    "page",
    "PAGE ",
    "VOUT",
    "READ_VI",
    "READ_VINS",
    "USER_DATA_16",
];

/// The rows of the table.
pub(crate) fn rows() -> &'static [Parts] {
    COMMANDS
}

/// The row of a code, if there is one.
fn row_of(code: u8) -> Option<&'static Parts> {
    rows().iter().find(|row| row.0 == code)
}

// Each code has the command of its row, and no command without a row.
#[test]
fn commands(rt: HostRuntime) {
    for code in 0..=255u8 {
        let found = standard(code);
        match row_of(code) {
            Some(row) => {
                check_entry(&rt, row.1, found.as_ref(), row);
                same(&rt, row.1, by_name(row.1), Some(code));
            }
            None => ensure(&rt, ("no row, and no command", code), found.is_none()),
        }
    }
}

// No code has two rows, of which the later one would be compared with nothing.
#[test]
fn each_code_has_one_row(rt: HostRuntime) {
    let count = (0..=255u8).filter(|code| row_of(*code).is_some()).count();
    same(&rt, "rows", rows().len(), count);
}

#[test]
fn names_of_no_command(rt: HostRuntime) {
    for name in &NO_NAMES {
        same(&rt, name, by_name(name), None);
    }
}

#[test]
fn laws_are_called() {
    laws::standard_entries_are_sound();
    laws::names_are_of_entries();
    laws::forms_are_told_apart();
}
