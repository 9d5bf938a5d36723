//! The widths of columns.
//!
//! Its rows: `tests/rows/stats.txt`.

ghost use Rattle.std.specs.Prelude.{◌≡◌, ◌≤◌, Some, length, option_map, slice_get};
ghost use Rattle.std.specs.Option.{ForSome};
ghost use Rattle.pmb_command.specs.Parts.{DeviceParts};
ghost use Rattle.pmb_stats_table.specs.Widths.{IsNarrow, device_phase_width, phase_width, widths_of};

use crate::times::or_nothing;
use pmb_log_lines::Layout;
use pmb_table::{DeviceProfile, Profile};

/// The widths of the columns that the profile and the capture fix.
#[derive(Clone, Copy)]
pub(crate) struct Widths {
    /// Of phases: 5, or 0 where there is no such column, since no device has phases.
    pub(crate) phase: usize,
    /// Of names of commands: that of the longest in the profile, at least 7.
    pub(crate) command: usize,
    /// Of times: that of the last, at least 10.
    pub(crate) time: usize,
}

impl Widths {
    /// The widths for a profile and for the last time of a capture, of at most 40 bytes.
    pub(crate) fn of(profile: &Profile, last: Option<&[u8]>) -> Widths
        requires { ForSome last (λ time. length time.now ≤ 40) }
        ensures widths { result ≡ widths_of profile.now (option_map (λ time. time.now) last.entry) }
        ensures narrow { IsNarrow result }
    {
        Widths {
            phase: phase_width(profile),
            command: Layout::of(profile).command.max(7),
            time: or_nothing(last).len().max(10),
        }
    }
}

/// The width of phases.
fn phase_width(profile: &Profile) -> usize
    ensures width { result ≡ phase_width profile.now }
    ensures narrow { result ≤ 5 }
{
    let mut width = 0;
    for index in 0..profile.len() {
        width = width.max(phase_width_at(profile, index));
    }
    width
}

/// The width of phases for the device at an index.
fn phase_width_at(profile: &Profile, index: usize) -> usize
    ensures width { (device : DeviceParts) → slice_get profile.now index ≡ Some device → result ≡ device_phase_width device }
    ensures narrow { result ≤ 5 }
{
    match profile.device_at(index) {
        Some(device) => device_phase_width(device),
        None => 0,
    }
}

/// The width of phases for a device.
fn device_phase_width(device: &DeviceProfile) -> usize
    ensures width { result ≡ device_phase_width device.now }
    ensures narrow { result ≤ 5 }
{
    if device.phases().is_some() { 5 } else { 0 }
}
