//! The names of the bits of the status commands (PMBus Part II section 17).
//!
//! Each table has the names from the highest bit down, as the standard's tables do.
//!
//! Its rows: `tests_commands`, `src/status_bits.rt`.
ghost use Rattle.std.specs.Prelude.{◌≡◌, map, option_map};
ghost use Rattle.pmb_command.specs.StatusBits.{bit_text, status_bits};

// begin: written by tools/commands from docs/profiles.md

// The high byte, and the low byte, which is STATUS_BYTE.
static STATUS_WORD: [Option<&str>; 16] = [
    Some("VOUT"),
    Some("IOUT_POUT"),
    Some("INPUT"),
    Some("MFR_SPECIFIC"),
    Some("POWER_GOOD_N"),
    Some("FANS"),
    Some("OTHER"),
    Some("UNKNOWN"),
    Some("BUSY"),
    Some("OFF"),
    Some("VOUT_OV_FAULT"),
    Some("IOUT_OC_FAULT"),
    Some("VIN_UV_FAULT"),
    Some("TEMPERATURE"),
    Some("CML"),
    Some("NONE_OF_THE_ABOVE"),
];

static STATUS_VOUT: [Option<&str>; 8] = [
    Some("VOUT_OV_FAULT"),
    Some("VOUT_OV_WARN"),
    Some("VOUT_UV_WARN"),
    Some("VOUT_UV_FAULT"),
    Some("VOUT_MAX_MIN"),
    Some("TON_MAX_FAULT"),
    Some("TOFF_MAX_WARN"),
    Some("TRACKING"),
];

static STATUS_IOUT: [Option<&str>; 8] = [
    Some("IOUT_OC_FAULT"),
    Some("IOUT_OC_LV_FAULT"),
    Some("IOUT_OC_WARN"),
    Some("IOUT_UC_FAULT"),
    Some("CURRENT_SHARE"),
    Some("POWER_LIMITING"),
    Some("POUT_OP_FAULT"),
    Some("POUT_OP_WARN"),
];

static STATUS_INPUT: [Option<&str>; 8] = [
    Some("VIN_OV_FAULT"),
    Some("VIN_OV_WARN"),
    Some("VIN_UV_WARN"),
    Some("VIN_UV_FAULT"),
    Some("LOW_INPUT_OFF"),
    Some("IIN_OC_FAULT"),
    Some("IIN_OC_WARN"),
    Some("PIN_OP_WARN"),
];

static STATUS_TEMPERATURE: [Option<&str>; 8] = [
    Some("OT_FAULT"),
    Some("OT_WARN"),
    Some("UT_WARN"),
    Some("UT_FAULT"),
    None,
    None,
    None,
    None,
];

static STATUS_CML: [Option<&str>; 8] = [
    Some("BAD_COMMAND"),
    Some("BAD_VALUE"),
    Some("PEC_FAILED"),
    Some("MEMORY_FAULT"),
    Some("PROCESSOR_FAULT"),
    None,
    Some("OTHER_COMM"),
    Some("OTHER_LOGIC"),
];

static STATUS_FANS_1_2: [Option<&str>; 8] = [
    Some("FAN_1_FAULT"),
    Some("FAN_2_FAULT"),
    Some("FAN_1_WARN"),
    Some("FAN_2_WARN"),
    Some("FAN_1_OVERRIDE"),
    Some("FAN_2_OVERRIDE"),
    Some("AIRFLOW_FAULT"),
    Some("AIRFLOW_WARN"),
];

// end

/// The names of the bits of a status command, from the highest down; none for another command.
#[tactic(auto, unfolding(crate::specs::StatusBits::status_bits))]
fn names_of(code: u8) -> &'static [Option<&'static str>]
    ensures { map (option_map (λ s. s.now)) result.now ≡ status_bits code }
{
    match code {
        // begin: written by tools/commands from docs/profiles.md
        0x78 => &STATUS_WORD[8..],
        0x79 => &STATUS_WORD,
        0x7a => &STATUS_VOUT,
        0x7b => &STATUS_IOUT,
        0x7c => &STATUS_INPUT,
        0x7d => &STATUS_TEMPERATURE,
        0x7e => &STATUS_CML,
        0x81 => &STATUS_FANS_1_2,
        // end
        _ => &[],
    }
}

/// The name of a bit of a status command, counted from 0 at the lowest, or `None` where it has none
/// or the command has no such bit.
#[tactic(auto, unfolding(crate::specs::StatusBits::bit_text))]
pub fn bit_name(code: u8, bit: u8) -> Option<&'static str>
    ensures { option_map (λ s. s.now) result ≡ bit_text code bit }
{
    *names_of(code).iter().rev().nth(usize::from(bit))?
}
