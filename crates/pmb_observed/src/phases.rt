//! The phases of a command, in the order of output.
//!
//! Its rows: `tests/rows/stats.txt`, phases.

ghost use Rattle.std.specs.Prelude.{◌≡◌, ◌+◌, ◌<◌, ◌≤◌, Some, length, slice_get};
ghost use Rattle.pmb_keys.specs.CommandView.{command_parts};
ghost use Rattle.pmb_observed.specs.Spot.{phase_keys, phases_of};

use crate::spot::PhaseKey;
use pmb_command_data::has_phases;
use pmb_keys::Command;
use pmb_table::DeviceProfile;

/// How many phases a command of a device has; `None` for one that has one value for all phases.
pub fn phases_of(device: &DeviceProfile, command: &Command) -> Option<u8>
    ensures { result ≡ phases_of device.now (command_parts command.now) }
{
    if has_phases(device, command) {
        device.phases()
    } else {
        None
    }
}

/// How many phases there are in the output of a command: each of its own, all, and the unknown one;
/// of a command that has none, one alone.
pub fn phase_count(phases: Option<u8>) -> u16
    ensures count { result ≡ length (phase_keys phases) }
    ensures few { result ≤ 257 }
{
    match phases {
        Some(phases) => u16::from(phases) + 2,
        None => 1,
    }
}

/// The phase at an index among these, in the order of output.
pub fn phase_at(phases: Option<u8>, index: u16) -> PhaseKey
    requires { index < length (phase_keys phases) }
    ensures { slice_get (phase_keys phases) index ≡ Some result }
{
    match phases {
        Some(phases) => phase_of(phases, index),
        None => PhaseKey::Unphased,
    }
}

/// The phase at an index, of a command that has this many.
fn phase_of(phases: u8, index: u16) -> PhaseKey
    requires { index < phases + 2 }
    ensures { slice_get (phase_keys (Some phases)) index ≡ Some result }
{
    let counted = u16::from(phases);
    if index < counted {
        PhaseKey::OnPhase(index as u8)
    } else if index == counted {
        PhaseKey::AllPhases
    } else {
        PhaseKey::UnknownPhase
    }
}
