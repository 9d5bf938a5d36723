//! Phases.
//!
//! Its rows: `tests_commands`, `src/command_data.rt`.

ghost use Rattle.std.specs.Prelude.{◌≡◌, ◌||◌, ◌&&◌, is_some};
ghost use Rattle.pmb_command.specs.Entry.{entry_parts};
ghost use Rattle.pmb_keys.specs.CommandView.{command_parts};
ghost use Rattle.pmb_command_data.specs.Phases.{has_phases, is_of_phases, is_phase_code};

use crate::standard::has_standard_name;
use pmb_command::Entry;
use pmb_keys::Command;
use pmb_table::DeviceProfile;

/// IOUT_CAL_GAIN, IOUT_CAL_OFFSET, READ_IOUT.
fn is_phase_code(code: u8) -> bool
    ensures { result ≡ is_phase_code code }
{
    matches!(code, 0x38 | 0x39 | 0x8c)
}

/// Whether the standard gives a command a value for each phase.
fn is_of_phases(entry: &Entry) -> bool
    ensures { result ≡ is_of_phases (entry_parts entry.now) }
{
    is_phase_code(entry.code) && has_standard_name(entry)
}

/// Whether a command of a device has a value for each phase, which PHASE (04h) selects: on a device
/// that has phases the standard's IOUT_CAL_GAIN, IOUT_CAL_OFFSET and READ_IOUT, and those of which
/// the profile says so.
pub fn has_phases(device: &DeviceProfile, command: &Command) -> bool
    ensures { result ≡ has_phases device.now (command_parts command.now) }
{
    device.phases().is_some() && (command.phased || is_of_phases(&command.entry))
}
