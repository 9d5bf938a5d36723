//! What is known of the device and the command of a fact.
//!
//! Its rows: `tests/rows/log.txt`; `tests_json`, `src/log_lines/`.

ghost use Rattle.std.specs.Prelude.{◌≡◌, ◌≤◌, length, option_map};
ghost use Rattle.pmb_command.specs.Entry.{entry_parts};
ghost use Rattle.pmb_command.specs.Parts.{device_with};
ghost use Rattle.pmb_json_objects.specs.Seen.{SeenData, command_at, entry_at, mode_at, page_at, phase_at};
ghost use Rattle.pmb_json_objects.specs.Sees.{Sees};
ghost use Rattle.pmb_keys.specs.CommandView.{command_parts};
ghost use Rattle.pmb_log_data.specs.Text.{or_nothing};

use pmb_command::Entry;
use pmb_json_objects::Seen;
use pmb_keys::Command;
use pmb_table::DeviceProfile;
use pmb_table::laws::accepted_device;
use pmb_unknown_start::KnownMode;

/// The device with an address.
pub fn device<'s>(seen: &'s Seen<'_>, addr: u8) -> Option<&'s DeviceProfile>
    ensures { (known : SeenData) → Sees seen.now known → option_map (λ d. d.now) result ≡ device_with addr known.profile }
{
    seen.profile.device(addr)
}

/// The command with a code of the device with an address.
pub fn entry<'s>(seen: &'s Seen<'_>, addr: u8, code: u8) -> Option<&'s Entry>
    ensures { (known : SeenData) → Sees seen.now known → option_map (λ e. entry_parts e.now) result ≡ entry_at known addr code }
{
    match seen.profile.device(addr) {
        Some(device) => device.entry(code),
        None => None,
    }
}

/// What the profile says of that command.
pub fn command<'s>(seen: &'s Seen<'_>, addr: u8, code: u8) -> Option<&'s Command>
    ensures { (known : SeenData) → Sees seen.now known → option_map (λ c. command_parts c.now) result ≡ command_at known addr code }
{
    match seen.profile.device(addr) {
        Some(device) => device.command(code),
        None => None,
    }
}

/// PAGE of the device with an address, where it is known.
pub fn page(seen: &Seen<'_>, addr: u8) -> Option<u8>
    ensures { (known : SeenData) → Sees seen.now known → result ≡ page_at known addr }
{
    seen.late.page(addr)
}

/// PHASE of the device with an address, where it is known.
pub fn phase(seen: &Seen<'_>, addr: u8) -> Option<u8>
    ensures { (known : SeenData) → Sees seen.now known → result ≡ phase_at known addr }
{
    seen.late.phase(addr)
}

/// What is known of the VOUT_MODE that its output voltages are read by.
pub(crate) fn mode(seen: &Seen<'_>, addr: u8) -> KnownMode
    ensures { (known : SeenData) → Sees seen.now known → result ≡ mode_at known addr }
{
    seen.late.mode(addr)
}

/// The name of a device; nothing where it has none.
pub fn name_of(device: &DeviceProfile) -> &[u8]
    ensures name { result.now ≡ or_nothing device.now.name }
    ensures short { length result.now ≤ 32 }
{
    accepted_device(device);
    match device.name() {
        Some(name) => name.as_bytes(),
        None => b"",
    }
}
