//! Each status register with no bit, with each bit alone, and with all.

use crate::compare::ensure;
use crate::notes::says::said;
use arrayvec::ArrayVec;
use pmb_table::{Profile, SAMPLE};
use std::test::Fail;

/// The code of a status command in digits, its name, and what is said of each bit, from the highest
/// down.
type Register = (&'static str, &'static str, &'static [&'static str]);

/// The rows of the table. A call keeps the proof of a loop over them from carrying the table.
fn rows() -> &'static [Register] {
    &REGISTERS
}

#[rattlefmt::skip]
static REGISTERS: [Register; 11] = [
    ("78", "STATUS_BYTE", &["BUSY", "OFF", "VOUT_OV_FAULT", "IOUT_OC_FAULT", "VIN_UV_FAULT", "TEMPERATURE", "CML", "NONE_OF_THE_ABOVE"]),
    ("79", "STATUS_WORD", &["VOUT", "IOUT_POUT", "INPUT", "MFR_SPECIFIC", "POWER_GOOD_N", "FANS", "OTHER", "UNKNOWN", "BUSY", "OFF", "VOUT_OV_FAULT", "IOUT_OC_FAULT", "VIN_UV_FAULT", "TEMPERATURE", "CML", "NONE_OF_THE_ABOVE"]),
    ("7a", "STATUS_VOUT", &["VOUT_OV_FAULT", "VOUT_OV_WARN", "VOUT_UV_WARN", "VOUT_UV_FAULT", "VOUT_MAX_MIN", "TON_MAX_FAULT", "TOFF_MAX_WARN", "TRACKING"]),
    ("7b", "STATUS_IOUT", &["IOUT_OC_FAULT", "IOUT_OC_LV_FAULT", "IOUT_OC_WARN", "IOUT_UC_FAULT", "CURRENT_SHARE", "POWER_LIMITING", "POUT_OP_FAULT", "POUT_OP_WARN"]),
    ("7c", "STATUS_INPUT", &["VIN_OV_FAULT", "VIN_OV_WARN", "VIN_UV_WARN", "VIN_UV_FAULT", "LOW_INPUT_OFF", "IIN_OC_FAULT", "IIN_OC_WARN", "PIN_OP_WARN"]),
    ("7d", "STATUS_TEMPERATURE", &["OT_FAULT", "OT_WARN", "UT_WARN", "UT_FAULT", "bit3", "bit2", "bit1", "bit0"]),
    ("7e", "STATUS_CML", &["BAD_COMMAND", "BAD_VALUE", "PEC_FAILED", "MEMORY_FAULT", "PROCESSOR_FAULT", "bit2", "OTHER_COMM", "OTHER_LOGIC"]),
    ("7f", "STATUS_OTHER", &["bit7", "bit6", "bit5", "bit4", "bit3", "bit2", "bit1", "bit0"]),
    ("80", "STATUS_MFR_SPECIFIC", &["bit7", "bit6", "bit5", "bit4", "bit3", "bit2", "bit1", "bit0"]),
    ("81", "STATUS_FANS_1_2", &["FAN_1_FAULT", "FAN_2_FAULT", "FAN_1_WARN", "FAN_2_WARN", "FAN_1_OVERRIDE", "FAN_2_OVERRIDE", "AIRFLOW_FAULT", "AIRFLOW_WARN"]),
    ("82", "STATUS_FANS_3_4", &["bit7", "bit6", "bit5", "bit4", "bit3", "bit2", "bit1", "bit0"]),
];

/// The bits of a byte and of a word, each alone, from the highest down, in digits, the low byte
/// first.
static BYTES: [&str; 8] = ["80", "40", "20", "10", "08", "04", "02", "01"];

static WORDS: [&str; 16] = [
    "00 80", "00 40", "00 20", "00 10", "00 08", "00 04", "00 02", "00 01", "80 00", "40 00",
    "20 00", "10 00", "08 00", "04 00", "02 00", "01 00",
];

/// No bit, each bit alone, and all bits, of a register of one byte or of two.
fn replies(bits: usize) -> (&'static str, &'static [&'static str], &'static str) {
    if bits == 8 {
        ("00", &BYTES, "ff")
    } else {
        ("00 00", &WORDS, "ff ff")
    }
}

type Text = ArrayVec<u8, 512>;

fn push(text: &mut Text, word: &str) {
    let _ = text.try_extend_from_slice(word.as_bytes());
}

/// A read of the register that replies these bytes.
fn line(row: &Register, bytes: &str) -> Text {
    let mut line = Text::new();
    push(&mut line, "read 58 ");
    push(&mut line, row.0);
    push(&mut line, " : ");
    push(&mut line, bytes);
    line
}

/// The name of the register, and these words after it.
fn note(row: &Register, words: &[&str]) -> Text {
    let mut note = Text::new();
    push(&mut note, row.1);
    for word in words {
        push(&mut note, " ");
        push(&mut note, word);
    }
    note
}

/// Whether these words are said of a register that replies these bytes.
fn says(profile: &Profile, row: &Register, bytes: &str, words: &[&str]) -> bool {
    said(profile, &[], line(row, bytes).as_slice()).as_slice() == note(row, words).as_slice()
}

#[test]
fn status_registers(rt: HostRuntime) -> Result<(), Fail> {
    let profile = Profile::from_toml(rt.alloc(), SAMPLE.as_bytes())?;
    for row in rows() {
        let (none, each, all) = replies(row.2.len());
        ensure(
            &rt,
            (row.1, "without a bit"),
            says(&profile, row, none, &["none"]),
        );
        ensure(
            &rt,
            (row.1, "with all bits"),
            says(&profile, row, all, row.2),
        );
        ensure(&rt, (row.1, "has so many bits"), each.len() == row.2.len());
        for (bytes, bit) in each.iter().zip(row.2) {
            ensure(&rt, (row.1, bit), says(&profile, row, bytes, &[*bit]));
        }
    }
    Ok(())
}
