//! How wide the columns are that a profile fixes.
//!
//! Its rows: `tests/rows/log.txt`; `tests_json`, `src/log_lines/`.

ghost use Rattle.std.specs.Prelude.{◌≡◌, ◌≤◌, Some, map, slice_get};
ghost use Rattle.pmb_command.specs.Parts.{CommandParts, DeviceParts};
ghost use Rattle.pmb_log_lines.specs.Layout.{IsNarrow, command_width, device_command_width, entry_length, greatest, layout_of, name_length, name_width, page_count, page_width};

use pmb_log_data::name_of;
use pmb_table::{DeviceProfile, Profile};

/// The widths of the columns that a profile fixes.
#[derive(Clone, Copy, Debug, PartialEq, Eq)]
pub struct Layout {
    /// Of names of devices; 0 where there is no such column.
    pub name: usize,
    /// Of pages; 0 where there is no such column.
    pub page: usize,
    /// Of names of commands.
    pub command: usize,
}

impl Layout {
    /// The layout of a profile.
    pub fn of(profile: &Profile) -> Layout
        ensures layout { result ≡ layout_of profile.now }
        ensures narrow { IsNarrow result }
    {
        Layout {
            name: name_width(profile),
            page: page_width(profile),
            command: command_width(profile),
        }
    }
}

/// The longest name of a device; 0 where none has one.
fn name_width(profile: &Profile) -> usize
    ensures width { result ≡ name_width profile.now }
    ensures narrow { result ≤ 32 }
{
    let mut width = 0;
    for index in 0..profile.len() {
        width = width.max(name_length(profile, index));
    }
    width
}

/// How long the name of the device at an index is; 0 where it has none.
fn name_length(profile: &Profile, index: usize) -> usize
    ensures length { (device : DeviceParts) → slice_get profile.now index ≡ Some device → result ≡ name_length device }
    ensures narrow { result ≤ 32 }
{
    match profile.device_at(index) {
        Some(device) => name_of(device).len(),
        None => 0,
    }
}

/// As many as the greatest page has digits; 0 where no device has two pages.
fn page_width(profile: &Profile) -> usize
    ensures width { result ≡ page_width profile.now }
    ensures narrow { result ≤ 2 }
{
    let most = most_pages(profile);
    if most <= 1 {
        0
    } else if most <= 10 {
        1
    } else {
        2
    }
}

/// The most pages of a device.
fn most_pages(profile: &Profile) -> u8
    ensures { result ≡ greatest (map page_count profile.now) }
{
    let mut most = 0;
    for index in 0..profile.len() {
        most = most.max(page_count(profile, index));
    }
    most
}

/// How many pages the device at an index has.
fn page_count(profile: &Profile, index: usize) -> u8
    ensures { (device : DeviceParts) → slice_get profile.now index ≡ Some device → result ≡ page_count device }
{
    match profile.device_at(index) {
        Some(device) => device.pages(),
        None => 0,
    }
}

/// The longest name of a command.
fn command_width(profile: &Profile) -> usize
    ensures width { result ≡ command_width profile.now }
    ensures narrow { result ≤ 32 }
{
    let mut width = 0;
    for index in 0..profile.len() {
        width = width.max(width_at(profile, index));
    }
    width
}

/// The longest name of a command of the device at an index.
fn width_at(profile: &Profile, index: usize) -> usize
    ensures width { (device : DeviceParts) → slice_get profile.now index ≡ Some device → result ≡ device_command_width device }
    ensures narrow { result ≤ 32 }
{
    match profile.device_at(index) {
        Some(device) => device_command_width(device),
        None => 0,
    }
}

/// The longest name of a command of a device.
fn device_command_width(device: &DeviceProfile) -> usize
    ensures width { result ≡ device_command_width device.now }
    ensures narrow { result ≤ 32 }
{
    let mut width = 0;
    for index in 0..device.len() {
        width = width.max(entry_length(device, index));
    }
    width
}

/// How long the name of the command at an index is.
fn entry_length(device: &DeviceProfile, index: usize) -> usize
    ensures length { (command : CommandParts) → slice_get device.now.commands index ≡ Some command → result ≡ entry_length command }
    ensures narrow { result ≤ 32 }
{
    match device.entry_at(index) {
        Some(entry) => entry.name.len(),
        None => 0,
    }
}
