//! A bus of devices.
//!
//! Each signal of the host is given to each device. At most one of them is not silent, since no two
//! have one address: its answer is the one on the bus. After STOP, devices whose parts take what is
//! written at other addresses take that (`others`); whether there are such devices is found out once.
//!
//! Its rows: `tests_devices`, `src/devices/sessions.rt`, `calls.rt`, `compared.rt`.

ghost use Rattle.std.specs.Prelude.{◌≡◌, ◌&&◌, ℕ, ◌+◌, ◌<◌, List, [], IfOk, MatchOption, OnOk, length, take, vec_capacity};
ghost use Rattle.pmb_registers.specs.State.{InState};
ghost use Rattle.pmb_device.specs.Legs.{Legs, Outside};
ghost use Rattle.pmb_devices.specs.Bus.{recorded};
ghost use Rattle.pmb_devices.specs.Runs.{first_members};
ghost use Rattle.pmb_devices.specs.Signal.{BusStanding, BusStandsAt, BusTakes, HasNone, Tells};
ghost use Rattle.pmb_devices.specs.machine.Others.{devices_of, some_listens};
ghost use Rattle.pmb_devices.specs.machine.Standing.{AllStand};
ghost use Rattle.pmb_devices.specs.machine.Hands.{Gives, HandsOn, is_stop, or_else};

use crate::laws::transactions_are_applied;
use crate::others::{some_listens, take_others};
use crate::recorded::Recorded;
use pmb_device::{Device, DeviceSignal, HostSignal};
use pmb_table::Profile;
use pmb_table::laws::accepted_bus;
use std::alloc::{AllocError, Global};

/// The simulated devices of a profile on one bus.
#[derive(Drop)]
pub struct Bus<'p> {
    profile: &'p Profile,
    /// The devices, in the profile's order.
    devices: Vec<Device<'p>>,
    /// Whether some device takes what is written at other addresses.
    listens: bool,
}

/// One answer, or, where that is silence, another one.
fn or_else(answer: DeviceSignal, other: DeviceSignal) -> DeviceSignal
    ensures { result ≡ or_else answer other }
{
    match answer {
        DeviceSignal::Silent => other,
        DeviceSignal::Ack | DeviceSignal::Nack | DeviceSignal::Byte(_) => answer,
    }
}

/// Gives a signal to each device, and returns the last answer that is not silence.
fn hand_on(devices: &mut [Device<'_>], signal: HostSignal) -> DeviceSignal
    ensures { (legs : Legs) (members : List InState) → AllStand legs devices.old members → HandsOn legs signal members result devices.new }
{
    let mut answer = DeviceSignal::Silent;
    for device in devices.iter_mut() {
        answer = or_else(device.on(signal), answer);
    }
    answer
}

/// Whether devices take now what was written at other addresses: after STOP, if some device does so.
fn take_now(listens: bool, signal: HostSignal) -> bool
    ensures { result ≡ listens && is_stop signal }
{
    listens && matches!(signal, HostSignal::Stop)
}

/// Gives a signal to each device, and returns the last answer that is not silence. After STOP, if some
/// device takes what is written at other addresses, each takes that.
fn give(devices: &mut [Device<'_>], signal: HostSignal, listens: bool) -> DeviceSignal
    ensures { (legs : Legs) (members : List InState) → AllStand legs devices.old members
        → listens ≡ some_listens (devices_of members) → Gives legs signal members result devices.new }
{
    let answer = hand_on(devices, signal);
    if take_now(listens, signal) {
        take_others(devices);
    }
    answer
}

/// Adds the device at a place of the profile. There is room for it.
fn add_device<'p>(
    devices: &mut Vec<Device<'p>>,
    alloc: Global,
    profile: &'p Profile,
    i: usize,
) -> Result<(), AllocError>
    requires within { i < length profile.now }
    requires room { length devices.old.items < vec_capacity devices.old }
    ensures stand { AllStand Outside devices.old.items (first_members (take i profile.now))
        → OnOk result (AllStand Outside devices.new.items (first_members (take (i + 1) profile.now))) }
    ensures one { OnOk result (length devices.new.items ≡ length devices.old.items + 1) }
    ensures room { OnOk result (vec_capacity devices.new ≡ vec_capacity devices.old) }
{
    if let Some(device) = profile.device_at(i) {
        devices.push_reserved(Device::new(alloc, device)?);
    }
    Ok(())
}

impl<'p> Bus<'p> {
    /// A bus of the devices of a profile, each in its first state. It takes all memory that the
    /// devices will ever need, once for just as many as there are and once for the registers of each;
    /// where an allocation is refused nothing was made.
    pub fn new(alloc: Global, profile: &'p Profile) -> Result<Self, AllocError>
        ensures { IfOk result (λ bus. BusStandsAt bus (record { past = []; members = first_members profile.now; history = [] })) }
    {
        accepted_bus(profile);
        let mut devices = Vec::with_capacity(alloc, profile.len())?;
        for i in 0..profile.len() {
            add_device(&mut devices, alloc, profile, i)?;
        }
        Ok(Bus {
            profile,
            devices,
            listens: some_listens(profile),
        })
    }

    /// Gives a signal to each device, and records it with the answer on the bus. At STOP each device
    /// does what its own leg asks for, and takes after that what was written at its other addresses.
    pub fn signal(&mut self, signal: HostSignal) -> Recorded
        ensures events { result.events ≡ recorded signal result.result }
        ensures takes { (standing : BusStanding) → BusStandsAt self.old standing → BusTakes standing signal result.result self.new }
    {
        transactions_are_applied();
        let answer = give(self.devices.as_mut_slice(), signal, self.listens);
        Recorded::new(signal, answer)
    }

    /// The device with an address.
    pub fn device(&self, address: u8) -> Option<&Device<'p>>
        ensures { (standing : BusStanding) → BusStandsAt self.now standing
            → MatchOption result (HasNone standing address) (λ device. Tells standing address device.now) }
    {
        for device in self.devices.iter() {
            if device.address() == address {
                return Some(device);
            }
        }
        None
    }
}
