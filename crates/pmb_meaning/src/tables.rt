//! The fields of the standard's commands (PMBus Part II 1.3), as `docs/meaning.md` has them.
//!
//! A row is a field's name, its lowest bit, how many bits it has, what they say, and when there is
//! the field. The bits of the reply come after those that were sent.

ghost use Rattle.std.specs.Prelude.{◌≡◌, IsTrue, length, map};
ghost use Rattle.std.specs.List.{list_all};
ghost use Rattle.pmb_meaning.specs.Tables.{layouts, page_and_code};
ghost use Rattle.pmb_meaning.specs.machine.Rows.{layout_parts, row_parts};
ghost use Rattle.pmb_meaning.specs.machine.Sound.{is_sound_row};

use crate::field::Value::{Number, Word, Words};
use crate::layout::Condition::{Always, Among};
use crate::layout::Sense::{Choice, Code, Flag, Mask, NumberOr, Signed};
use crate::layout::Way::{Called, Read, Register, Sent, Written};
use crate::layout::{Condition, Layout, Named, Row, Sense};

// Values that several fields have.

const PLAIN: Sense = NumberOr(&[]);

const OFF_ON: Sense = Choice(&[Named(0, Word("off")), Named(1, Word("on"))]);

const IGNORED_REQUIRED: Sense = Choice(&[Named(0, Word("ignored")), Named(1, Word("required"))]);

const PAGE: Sense = NumberOr(&[Named(0xff, Word("all"))]);

// OPERATION, section 12.1.

const TURN_OFF: Sense = Choice(&[Named(0, Word("immediate")), Named(1, Word("soft"))]);

const VOLTAGE_SOURCE: Sense = Choice(&[
    Named(0, Word("VOUT_COMMAND")),
    Named(1, Word("VOUT_MARGIN_LOW")),
    Named(2, Word("VOUT_MARGIN_HIGH")),
    Named(3, Word("AVS_VOUT_COMMAND")),
]);

const MARGIN_FAULTS: Sense = Choice(&[Named(1, Word("ignore")), Named(2, Word("act"))]);

const TRANSITION: Sense = Choice(&[Named(0, Word("keep")), Named(1, Word("copy"))]);

const IF_MARGIN: Condition = Among(4, 2, &[1, 2]);

const OPERATION: &[Row] = &[
    Row("output", 7, 1, OFF_ON, Always),
    Row("turn_off", 6, 1, TURN_OFF, Always),
    Row("voltage_source", 4, 2, VOLTAGE_SOURCE, Always),
    Row("margin_faults", 2, 2, MARGIN_FAULTS, IF_MARGIN),
    Row("transition", 1, 1, TRANSITION, Always),
];

// ON_OFF_CONFIG, section 12.2.

const POWER_UP: Sense = Choice(&[Named(0, Word("any_time")), Named(1, Word("commanded"))]);

const POLARITY: Sense = Choice(&[Named(0, Word("active_low")), Named(1, Word("active_high"))]);

const CONTROL_OFF: Sense = Choice(&[Named(0, Word("soft")), Named(1, Word("immediate"))]);

const ON_OFF_CONFIG: &[Row] = &[
    Row("power_up", 4, 1, POWER_UP, Always),
    Row("operation", 3, 1, IGNORED_REQUIRED, Always),
    Row("control_pin", 2, 1, IGNORED_REQUIRED, Always),
    Row("control_polarity", 1, 1, POLARITY, Always),
    Row("control_off", 0, 1, CONTROL_OFF, Always),
];

// PAGE_PLUS_WRITE, section 11.11, and PAGE_PLUS_READ, section 11.12: the first two bytes.

const PAGE_AND_CODE: &[Row] = &[
    Row("page", 0, 8, PAGE, Always),
    Row("code", 8, 8, Code, Always),
];

// WRITE_PROTECT, section 11.1.

const WRITABLE: Sense = Choice(&[
    Named(0x00, Word("all")),
    Named(
        0x20,
        Words(&[
            "WRITE_PROTECT",
            "OPERATION",
            "PAGE",
            "ON_OFF_CONFIG",
            "VOUT_COMMAND",
        ]),
    ),
    Named(0x40, Words(&["WRITE_PROTECT", "OPERATION", "PAGE"])),
    Named(0x80, Words(&["WRITE_PROTECT"])),
]);

const WRITE_PROTECT: &[Row] = &[Row("writable", 0, 8, WRITABLE, Always)];

// CAPABILITY, section 11.

const BUS_SPEED: Sense = Choice(&[
    Named(0, Word("100 kHz")),
    Named(1, Word("400 kHz")),
    Named(2, Word("1 MHz")),
]);

const NUMERIC_FORMAT: Sense = Choice(&[Named(0, Word("linear_or_direct")), Named(1, Word("half"))]);

const CAPABILITY: &[Row] = &[
    Row("pec", 7, 1, Flag, Always),
    Row("bus_speed", 5, 2, BUS_SPEED, Always),
    Row("smbalert", 4, 1, Flag, Always),
    Row("numeric_format", 3, 1, NUMERIC_FORMAT, Always),
    Row("avsbus", 2, 1, Flag, Always),
];

// QUERY, section 11.

const QUERY_FORMAT: Sense = Choice(&[
    Named(0, Word("linear")),
    Named(1, Word("signed_16")),
    Named(3, Word("direct")),
    Named(4, Word("unsigned_8")),
    Named(5, Word("vid")),
    Named(6, Word("manufacturer")),
    Named(7, Word("not_numeric")),
]);

const IF_SUPPORTED: Condition = Among(15, 1, &[1]);

const QUERY: &[Row] = &[Row("code", 0, 8, Code, Always)];

const QUERY_CALL: &[Row] = &[
    Row("code", 0, 8, Code, Always),
    Row("supported", 15, 1, Flag, Always),
    Row("write", 14, 1, Flag, IF_SUPPORTED),
    Row("read", 13, 1, Flag, IF_SUPPORTED),
    Row("format", 10, 3, QUERY_FORMAT, IF_SUPPORTED),
];

// SMBALERT_MASK, section 15.

const MASK_REGISTER: &[Row] = &[Row("register", 0, 8, Code, Always)];

const SMBALERT_MASK: &[Row] = &[
    Row("register", 0, 8, Code, Always),
    Row("mask", 0, 16, Mask, Always),
];

// VOUT_MODE, section 8.3.

const MODE: Sense = Choice(&[
    Named(0, Word("linear")),
    Named(1, Word("vid")),
    Named(2, Word("direct")),
    Named(3, Word("half")),
]);

const NOTHING: Sense = Choice(&[Named(0, Number(0))]);

const VOUT_MODE: &[Row] = &[
    Row("relative", 7, 1, Flag, Always),
    Row("mode", 5, 2, MODE, Always),
    Row("exponent", 0, 5, Signed, Among(5, 2, &[0])),
    Row("vid_type", 0, 5, PLAIN, Among(5, 2, &[1])),
    Row("parameter", 0, 5, NOTHING, Among(5, 2, &[2, 3])),
];

// COEFFICIENTS, section 14.1.

const DIRECTION: Sense = Choice(&[Named(0, Word("write")), Named(1, Word("read"))]);

const COEFFICIENTS: &[Row] = &[
    Row("code", 0, 8, Code, Always),
    Row("direction", 8, 8, DIRECTION, Always),
];

const COEFFICIENTS_CALL: &[Row] = &[
    Row("code", 0, 8, Code, Always),
    Row("direction", 8, 8, DIRECTION, Always),
    Row("m", 16, 16, Signed, Always),
    Row("b", 32, 16, Signed, Always),
    Row("r", 48, 8, Signed, Always),
];

// FAN_CONFIG_1_2 and FAN_CONFIG_3_4, section 14.

const DUTY_RPM: Sense = Choice(&[Named(0, Word("duty")), Named(1, Word("rpm"))]);

const PULSES: Sense = Choice(&[
    Named(0, Number(1)),
    Named(1, Number(2)),
    Named(2, Number(3)),
    Named(3, Number(4)),
]);

const FANS_1_2: &[Row] = &[
    Row("fan_1_installed", 7, 1, Flag, Always),
    Row("fan_1_command", 6, 1, DUTY_RPM, Always),
    Row("fan_1_pulses", 4, 2, PULSES, Always),
    Row("fan_2_installed", 3, 1, Flag, Always),
    Row("fan_2_command", 2, 1, DUTY_RPM, Always),
    Row("fan_2_pulses", 0, 2, PULSES, Always),
];

const FANS_3_4: &[Row] = &[
    Row("fan_3_installed", 7, 1, Flag, Always),
    Row("fan_3_command", 6, 1, DUTY_RPM, Always),
    Row("fan_3_pulses", 4, 2, PULSES, Always),
    Row("fan_4_installed", 3, 1, Flag, Always),
    Row("fan_4_command", 2, 1, DUTY_RPM, Always),
    Row("fan_4_pulses", 0, 2, PULSES, Always),
];

// Responses to faults, sections 10.5.1 and 10.5.2.

const VOLTAGE_WAYS: Sense = Choice(&[
    Named(0, Word("continue")),
    Named(1, Word("continue_for_delay")),
    Named(2, Word("shut_down")),
    Named(3, Word("off_while_fault")),
]);

const CURRENT_WAYS: Sense = Choice(&[
    Named(0, Word("limit")),
    Named(1, Word("limit_to_low_voltage")),
    Named(2, Word("limit_for_delay")),
    Named(3, Word("shut_down")),
]);

const RETRIES: Sense = NumberOr(&[Named(0, Word("none")), Named(7, Word("unlimited"))]);

const VOLTAGE_RESPONSE: &[Row] = &[
    Row("response", 6, 2, VOLTAGE_WAYS, Always),
    Row("retries", 3, 3, RETRIES, Always),
    Row("delay_units", 0, 3, PLAIN, Always),
];

const CURRENT_RESPONSE: &[Row] = &[
    Row("response", 6, 2, CURRENT_WAYS, Always),
    Row("retries", 3, 3, RETRIES, Always),
    Row("delay_units", 0, 3, PLAIN, Always),
];

// READ_EIN and READ_EOUT, section 18.

const ENERGY: &[Row] = &[
    Row("accumulator", 0, 16, PLAIN, Always),
    Row("rollovers", 16, 8, PLAIN, Always),
    Row("samples", 24, 24, PLAIN, Always),
];

// PMBUS_REVISION, section 22.1.

const REVISION: Sense = NumberOr(&[
    Named(0, Word("1.0")),
    Named(1, Word("1.1")),
    Named(2, Word("1.2")),
    Named(3, Word("1.3")),
]);

const PMBUS_REVISION: &[Row] = &[
    Row("part_i", 4, 4, REVISION, Always),
    Row("part_ii", 0, 4, REVISION, Always),
];

/// The commands, but PAGE_PLUS_WRITE where it is written and PAGE_PLUS_READ where it is called.
static LAYOUTS: [Layout; 30] = [
    Layout(0x01, Register(1), OPERATION),
    Layout(0x02, Register(1), ON_OFF_CONFIG),
    Layout(0x06, Sent(2), PAGE_AND_CODE),
    Layout(0x10, Register(1), WRITE_PROTECT),
    Layout(0x19, Read(1), CAPABILITY),
    Layout(0x1a, Sent(1), QUERY),
    Layout(0x1a, Called(1, 1), QUERY_CALL),
    Layout(0x1b, Written(2), SMBALERT_MASK),
    Layout(0x1b, Sent(1), MASK_REGISTER),
    Layout(0x1b, Called(1, 1), SMBALERT_MASK),
    Layout(0x20, Register(1), VOUT_MODE),
    Layout(0x30, Sent(2), COEFFICIENTS),
    Layout(0x30, Called(2, 5), COEFFICIENTS_CALL),
    Layout(0x3a, Register(1), FANS_1_2),
    Layout(0x3d, Register(1), FANS_3_4),
    Layout(0x41, Register(1), VOLTAGE_RESPONSE),
    Layout(0x45, Register(1), VOLTAGE_RESPONSE),
    Layout(0x47, Register(1), CURRENT_RESPONSE),
    Layout(0x49, Register(1), CURRENT_RESPONSE),
    Layout(0x4c, Register(1), CURRENT_RESPONSE),
    Layout(0x50, Register(1), VOLTAGE_RESPONSE),
    Layout(0x54, Register(1), VOLTAGE_RESPONSE),
    Layout(0x56, Register(1), VOLTAGE_RESPONSE),
    Layout(0x5a, Register(1), VOLTAGE_RESPONSE),
    Layout(0x5c, Register(1), CURRENT_RESPONSE),
    Layout(0x63, Register(1), VOLTAGE_RESPONSE),
    Layout(0x69, Register(1), VOLTAGE_RESPONSE),
    Layout(0x86, Read(6), ENERGY),
    Layout(0x87, Read(6), ENERGY),
    Layout(0x98, Read(1), PMBUS_REVISION),
];

/// The table.
pub(crate) fn layouts() -> &'static [Layout]
    ensures { map layout_parts result.now ≡ layouts }
{
    &LAYOUTS
}

/// The first two bytes of PAGE_PLUS_WRITE and PAGE_PLUS_READ.
pub(crate) fn page_and_code() -> &'static [Row]
    ensures rows { map row_parts result.now ≡ page_and_code }
    ensures sound { IsTrue (list_all is_sound_row (map row_parts result.now)) }
    ensures two { length result.now ≡ 2 }
{
    PAGE_AND_CODE
}
