//! Status registers that are read or written: the names of their set bits (PMBus Part II 1.3 section
//! 17), worked out apart from the code. The names are those that `pmb_command` has.

use crate::compare::same;
use crate::fields::says::{Text, joined, plain, push, said};
use pmb_command::Kind;
use pmb_json_fields::Access;
use pmb_json_fields::Access::{Read, Write};

/// The access, the command's code, the bytes, and the names in the member, where there is one.
type Register = (Access, u8, &'static [u8], Option<&'static str>);

/// The rows of the table. A call keeps the proof of a loop over them from carrying the table.
fn rows() -> &'static [Register] {
    &REGISTERS
}

#[rattlefmt::skip]
static REGISTERS: [Register; 43] = [
    (Read, 0x79, &[], None),
    (Read, 0x79, &[0x01, 0x02, 0x03], None),
    (Read, 0x78, &[0xff], Some("BUSY OFF VOUT_OV_FAULT IOUT_OC_FAULT VIN_UV_FAULT TEMPERATURE CML NONE_OF_THE_ABOVE")),
    (Write, 0x78, &[0xff], Some("BUSY OFF VOUT_OV_FAULT IOUT_OC_FAULT VIN_UV_FAULT TEMPERATURE CML NONE_OF_THE_ABOVE")),
    (Read, 0x78, &[0x00], Some("")),
    (Write, 0x78, &[0xa5], Some("BUSY VOUT_OV_FAULT TEMPERATURE NONE_OF_THE_ABOVE")),
    (Read, 0x79, &[0xff, 0xff], Some("VOUT IOUT_POUT INPUT MFR_SPECIFIC POWER_GOOD_N FANS OTHER UNKNOWN BUSY OFF VOUT_OV_FAULT IOUT_OC_FAULT VIN_UV_FAULT TEMPERATURE CML NONE_OF_THE_ABOVE")),
    (Write, 0x79, &[0xff, 0xff], Some("VOUT IOUT_POUT INPUT MFR_SPECIFIC POWER_GOOD_N FANS OTHER UNKNOWN BUSY OFF VOUT_OV_FAULT IOUT_OC_FAULT VIN_UV_FAULT TEMPERATURE CML NONE_OF_THE_ABOVE")),
    (Read, 0x79, &[0x00, 0x00], Some("")),
    (Write, 0x79, &[0xa5, 0xa5], Some("VOUT INPUT FANS UNKNOWN BUSY VOUT_OV_FAULT TEMPERATURE NONE_OF_THE_ABOVE")),
    (Read, 0x7a, &[0xff], Some("VOUT_OV_FAULT VOUT_OV_WARN VOUT_UV_WARN VOUT_UV_FAULT VOUT_MAX_MIN TON_MAX_FAULT TOFF_MAX_WARN TRACKING")),
    (Write, 0x7a, &[0xff], Some("VOUT_OV_FAULT VOUT_OV_WARN VOUT_UV_WARN VOUT_UV_FAULT VOUT_MAX_MIN TON_MAX_FAULT TOFF_MAX_WARN TRACKING")),
    (Read, 0x7a, &[0x00], Some("")),
    (Write, 0x7a, &[0xa5], Some("VOUT_OV_FAULT VOUT_UV_WARN TON_MAX_FAULT TRACKING")),
    (Read, 0x7b, &[0xff], Some("IOUT_OC_FAULT IOUT_OC_LV_FAULT IOUT_OC_WARN IOUT_UC_FAULT CURRENT_SHARE POWER_LIMITING POUT_OP_FAULT POUT_OP_WARN")),
    (Write, 0x7b, &[0xff], Some("IOUT_OC_FAULT IOUT_OC_LV_FAULT IOUT_OC_WARN IOUT_UC_FAULT CURRENT_SHARE POWER_LIMITING POUT_OP_FAULT POUT_OP_WARN")),
    (Read, 0x7b, &[0x00], Some("")),
    (Write, 0x7b, &[0xa5], Some("IOUT_OC_FAULT IOUT_OC_WARN POWER_LIMITING POUT_OP_WARN")),
    (Read, 0x7c, &[0xff], Some("VIN_OV_FAULT VIN_OV_WARN VIN_UV_WARN VIN_UV_FAULT LOW_INPUT_OFF IIN_OC_FAULT IIN_OC_WARN PIN_OP_WARN")),
    (Write, 0x7c, &[0xff], Some("VIN_OV_FAULT VIN_OV_WARN VIN_UV_WARN VIN_UV_FAULT LOW_INPUT_OFF IIN_OC_FAULT IIN_OC_WARN PIN_OP_WARN")),
    (Read, 0x7c, &[0x00], Some("")),
    (Write, 0x7c, &[0xa5], Some("VIN_OV_FAULT VIN_UV_WARN IIN_OC_FAULT PIN_OP_WARN")),
    (Read, 0x7d, &[0xff], Some("OT_FAULT OT_WARN UT_WARN UT_FAULT bit3 bit2 bit1 bit0")),
    (Write, 0x7d, &[0xff], Some("OT_FAULT OT_WARN UT_WARN UT_FAULT bit3 bit2 bit1 bit0")),
    (Read, 0x7d, &[0x00], Some("")),
    (Write, 0x7d, &[0xa5], Some("OT_FAULT UT_WARN bit2 bit0")),
    (Read, 0x7e, &[0xff], Some("BAD_COMMAND BAD_VALUE PEC_FAILED MEMORY_FAULT PROCESSOR_FAULT bit2 OTHER_COMM OTHER_LOGIC")),
    (Write, 0x7e, &[0xff], Some("BAD_COMMAND BAD_VALUE PEC_FAILED MEMORY_FAULT PROCESSOR_FAULT bit2 OTHER_COMM OTHER_LOGIC")),
    (Read, 0x7e, &[0x00], Some("")),
    (Write, 0x7e, &[0xa5], Some("BAD_COMMAND PEC_FAILED bit2 OTHER_LOGIC")),
    (Read, 0x81, &[0xff], Some("FAN_1_FAULT FAN_2_FAULT FAN_1_WARN FAN_2_WARN FAN_1_OVERRIDE FAN_2_OVERRIDE AIRFLOW_FAULT AIRFLOW_WARN")),
    (Write, 0x81, &[0xff], Some("FAN_1_FAULT FAN_2_FAULT FAN_1_WARN FAN_2_WARN FAN_1_OVERRIDE FAN_2_OVERRIDE AIRFLOW_FAULT AIRFLOW_WARN")),
    (Read, 0x81, &[0x00], Some("")),
    (Write, 0x81, &[0xa5], Some("FAN_1_FAULT FAN_1_WARN FAN_2_OVERRIDE AIRFLOW_WARN")),
    (Read, 0x79, &[0x40, 0x88], Some("VOUT POWER_GOOD_N OFF")),
    (Read, 0x79, &[0x01, 0x00], Some("NONE_OF_THE_ABOVE")),
    (Write, 0x79, &[0x00, 0x80], Some("VOUT")),
    (Write, 0x79, &[0x00, 0x00], Some("")),
    (Read, 0x79, &[0x81], Some("BUSY NONE_OF_THE_ABOVE")),
    (Read, 0x78, &[0x81, 0x81], Some("bit15 bit8 BUSY NONE_OF_THE_ABOVE")),
    (Read, 0xd0, &[0xff], Some("bit7 bit6 bit5 bit4 bit3 bit2 bit1 bit0")),
    (Write, 0xd0, &[0xff, 0xff], Some("bit15 bit14 bit13 bit12 bit11 bit10 bit9 bit8 bit7 bit6 bit5 bit4 bit3 bit2 bit1 bit0")),
    (Read, 0xd0, &[0x00, 0x04], Some("bit10")),
];

/// The member of a register: the bits that are set, or those that a write clears.
fn member(access: Access, names: Option<&str>) -> Text {
    let Some(names) = names else {
        return joined(&[]);
    };
    let mut text = joined(&[match access {
        Read => ",\"bits\":[",
        Write => ",\"clears\":[",
    }]);
    for (number, name) in names.split_ascii_whitespace().enumerate() {
        push(&mut text, if number == 0 { "\"" } else { ",\"" });
        push(&mut text, name);
        push(&mut text, "\"");
    }
    push(&mut text, "]");
    text
}

#[test]
fn registers(rt: HostRuntime) {
    for &(access, code, bytes, names) in rows() {
        let text = said(&plain(6, access), code, Kind::Status, bytes);
        let wanted = member(access, names);
        same(
            &rt,
            (access, code, bytes),
            text.as_slice(),
            wanted.as_slice(),
        );
    }
}
