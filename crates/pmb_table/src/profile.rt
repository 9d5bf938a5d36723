//! The devices of a bus, as a profile describes them.
//!
//! Each packet looks a device up by its address, so `places` says for each address where its device
//! stands. An address without a device has a place too, which says nothing: `place_of` looks whether
//! the device there has the address.
//!
//! Its rows: `tests_commands`, `src/parts.rt`, `src/sample.rt`; `tests/rows/profiles.txt`.

ghost use Rattle.std.specs.Prelude.{◌≡◌, ◌⊎◌, ◌≤◌, length, option_map, slice_get, Err, Some, IfNone, IfSome, IsUtf8};
ghost use Rattle.std.specs.List.{AllByRecursion};
ghost use Rattle.pmb_table.specs.Profile.{Says, at_top};
ghost use Rattle.pmb_command.specs.Bus.{AreOfDevices, IsBus, IsDevice};
ghost use Rattle.pmb_command.specs.Parts.{HaveOwnAddresses, IsNew, device_with};
ghost use Rattle.pmb_table.specs.machine.Places.{ArePlaces};
ghost use Rattle.pmb_table.specs.machine.Profile.{addresses_of};

use crate::bus_profile::BusProfile;
use crate::device_profile::DeviceProfile;
use crate::fault::ProfileFault;
use pmb_keys::FaultKind;
use std::alloc::Global;
use std::marker::Model;

/// How many numbers a byte can be: an address has seven bits, but any byte can be looked up.
const BYTES: usize = 256;

/// The devices of a bus in their order, no two of which have one address.
#[derive(Debug, Drop)]
pub struct Profile {
    devices: Vec<DeviceProfile>,
    /// For the address of each device its index.
    places: [u8; BYTES],
}

impl Model for Profile {
    ghost use Rattle.std.specs.Prelude.{List};
    ghost use Rattle.pmb_command.specs.Parts.{DeviceParts};
    ghost use Rattle.pmb_table.specs.machine.Profile.{IsFoundByAddress};

    ghost Value = { List DeviceParts };

    ghost view = { λ p. p.devices.items };

    ghost invariant = { λ p. IsFoundByAddress p.devices.items p.places };
}

/// The index of each device, at its address.
fn places_of(devices: &[DeviceProfile]) -> [u8; BYTES]
    requires few { length devices.now ≤ 64 }
    requires own_addresses { HaveOwnAddresses devices.now }
    ensures { ArePlaces result (addresses_of devices.now) }
{
    let mut places = [0; BYTES];
    for i in 0..devices.len() {
        let address = devices[i].address();
        places[address as usize] = i as u8;
    }
    places
}

impl Profile {
    /// The profile of these devices.
    pub(crate) fn from_devices(devices: Vec<DeviceProfile>) -> Profile
        requires few { length devices.items ≤ 64 }
        requires own_addresses { HaveOwnAddresses devices.items }
        requires devices { AllByRecursion IsDevice devices.items }
        requires also { AllByRecursion (λ d. AreOfDevices devices.items d.also) devices.items }
        ensures { result ≡ devices.items }
    {
        let places = places_of(devices.as_slice());
        Profile { devices, places }
    }

    /// Reads the devices of a profile, a TOML document in UTF-8, as `BusProfile::from_toml` does, and
    /// leaves out which addresses it ignores.
    pub fn from_toml(alloc: Global, text: &[u8]) -> Result<Profile, ProfileFault>
        ensures says { (result ≡ Err (at_top FaultKind.OutOfMemory)) ⊎ Says text.now result }
        ensures utf8 { ¬ IsUtf8 text.now → result ≡ Err (at_top FaultKind.NotToml) }
    {
        match BusProfile::from_toml(alloc, text) {
            Ok(bus) => Ok(bus.into_profile()),
            Err(fault) => Err(fault),
        }
    }

    /// How many devices there are.
    pub fn len(&self) -> usize
        ensures len { result ≡ length self.now }
        ensures small { length self.now ≤ 64 }
        ensures own_addresses { HaveOwnAddresses self.now }
        ensures devices { AllByRecursion IsDevice self.now }
        ensures accepted { IsBus self.now }
    {
        self.devices.len()
    }

    /// The device at an index.
    pub fn device_at(&self, index: usize) -> Option<&DeviceProfile>
        ensures device { option_map (λ d. d.now) result ≡ slice_get self.now index }
        ensures accepted { IfSome result (λ d. IsDevice d.now) }
    {
        self.devices.get(index)
    }

    /// The index of the device with an address.
    fn place_of(&self, address: u8) -> Option<usize>
        ensures found { IfSome result (λ place. slice_get (addresses_of self.now) place ≡ Some address) }
        ensures absent { IfNone result (IsNew address (addresses_of self.now)) }
        ensures own_addresses { HaveOwnAddresses self.now }
    {
        let place = self.places[address as usize] as usize;
        let device = self.device_at(place)?;
        if device.address() == address {
            Some(place)
        } else {
            None
        }
    }

    /// The device with an address.
    pub fn device(&self, address: u8) -> Option<&DeviceProfile>
        ensures device { option_map (λ d. d.now) result ≡ device_with address self.now }
        ensures accepted { IfSome result (λ d. IsDevice d.now) }
    {
        let place = self.place_of(address)?;
        self.device_at(place)
    }
}
