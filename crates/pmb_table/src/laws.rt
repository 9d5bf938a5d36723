//! Laws over the definitions that the contracts cite, and what each value of a type keeps: each is
//! the contract of a function that does nothing.
ghost use Rattle.pmb_command.specs.Bus.{IsBus, IsDevice};
ghost use Rattle.pmb_table.specs.Profile.{AreApart, ignored_addresses};

use crate::bus_profile::BusProfile;
use crate::device_profile::DeviceProfile;
use crate::profile::Profile;
pub use pmb_command::laws::{
    forms_are_told_apart, names_are_of_entries, standard_entries_are_sound,
};

/// What was tested when a profile was accepted holds of it from then on.
pub fn accepted_bus(profile: &Profile)
    ensures { IsBus profile.now }
{
    let _ = profile.len();
}

/// What was tested when a device was accepted holds of it from then on.
pub fn accepted_device(device: &DeviceProfile)
    ensures { IsDevice device.now }
{
    let _ = device.len();
}

/// No device has an address that the profile ignores.
pub fn ignored_are_no_devices(bus: &BusProfile)
    ensures { AreApart (ignored_addresses bus.now.ignored) bus.now.devices }
{
    let _ = bus.profile();
}
