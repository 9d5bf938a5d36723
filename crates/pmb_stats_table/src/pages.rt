//! Pages and phases, and the command at a spot.
//!
//! Its rows: `tests/rows/stats.txt`, pages and phases.

ghost use Rattle.std.specs.Prelude.{◌≡◌, ◌+◌, ◌<◌, ◌≤◌, length, option_map, slice_get, Some};
ghost use Rattle.pmb_command.specs.Parts.{device_with};
ghost use Rattle.pmb_json_objects.specs.Seen.{command_of};
ghost use Rattle.pmb_keys.specs.CommandView.{command_parts};
ghost use Rattle.pmb_observed.specs.Spot.{page_keys};
ghost use Rattle.pmb_observed.specs.Told.{device_pages};
ghost use Rattle.pmb_stats_table.specs.Rows.{page_sign, phase_sign};

use arrayvec::ArrayVec;
use itoa::Buffer;
use pmb_keys::Command;
use pmb_log_data::append;
use pmb_observed::{PageKey, PhaseKey, Spot};
use pmb_table::laws::accepted_device;
use pmb_table::{DeviceProfile, Profile};

/// How many command codes there are.
pub(crate) const CODES: u16 = 256;

/// What stands for a page in its column.
pub(crate) fn page_sign(page: PageKey) -> ArrayVec<u8, 4>
    ensures sign { result.items ≡ page_sign page }
    ensures short { length result.items ≤ 4 }
{
    let mut sign = ArrayVec::<u8, 4>::new();
    match page {
        PageKey::OnPage(page) => append(&mut sign, Buffer::new().format(page).as_bytes()),
        PageKey::AllPages => append(&mut sign, b"*"),
        PageKey::UnknownPage => append(&mut sign, b"?"),
        PageKey::Unpaged => {}
    }
    sign
}

/// What stands for a phase in its column.
pub(crate) fn phase_sign(phase: PhaseKey) -> ArrayVec<u8, 4>
    ensures sign { result.items ≡ phase_sign phase }
    ensures short { length result.items ≤ 4 }
{
    let mut sign = ArrayVec::<u8, 4>::new();
    match phase {
        PhaseKey::OnPhase(phase) => append(&mut sign, Buffer::new().format(phase).as_bytes()),
        PhaseKey::AllPhases => append(&mut sign, b"*"),
        PhaseKey::UnknownPhase => append(&mut sign, b"?"),
        PhaseKey::Unphased => {}
    }
    sign
}

/// How many pages the device with an address has in the table; 0 where there is no such device.
pub(crate) fn page_count(profile: &Profile, addr: u8) -> u8
    ensures count { result ≡ length (device_pages profile.now addr) }
    ensures few { result ≤ 35 }
{
    match profile.device(addr) {
        Some(device) => device_pages(device),
        None => 0,
    }
}

/// How many pages a device has in the table.
fn device_pages(device: &DeviceProfile) -> u8
    ensures count { result ≡ length (page_keys device.now.pages) }
    ensures few { result ≤ 35 }
{
    accepted_device(device);
    device.pages() + 3
}

/// The page at an index among those of the device with an address.
pub(crate) fn page_of(profile: &Profile, addr: u8, index: u8) -> PageKey
    requires within { index < length (device_pages profile.now addr) }
    ensures { slice_get (device_pages profile.now addr) index ≡ Some result }
{
    match profile.device(addr) {
        Some(device) => {
            accepted_device(device);
            page_at(device.pages(), index)
        }
        None => PageKey::Unpaged,
    }
}

/// The page at an index among those of a device, which has so many pages of its own.
fn page_at(pages: u8, index: u8) -> PageKey
    requires few { pages ≤ 32 }
    requires within { index < pages + 3 }
    ensures { slice_get (page_keys pages) index ≡ Some result }
{
    if index < pages {
        PageKey::OnPage(index)
    } else if index == pages {
        PageKey::AllPages
    } else if index == pages + 1 {
        PageKey::UnknownPage
    } else {
        PageKey::Unpaged
    }
}

/// The command at a spot.
pub(crate) fn command_at(profile: &Profile, spot: Spot) -> Option<&Command>
    ensures { option_map (λ c. command_parts c.now) result ≡ command_of (device_with spot.addr profile.now) spot.code }
{
    match profile.device(spot.addr) {
        Some(device) => device.command(spot.code),
        None => None,
    }
}
