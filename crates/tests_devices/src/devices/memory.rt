//! Want of memory: each of these passes whichever one allocation is refused, since what is made
//! anew after an error is as if nothing had been tried. `rt try --test --fail-alloc N` refuses the
//! Nth.

use crate::compare::{ensure, same};
use pmb_device::{Device, DeviceSignal, HostSignal};
use pmb_devices::Bus;
use pmb_table::{Profile, SAMPLE};
use std::alloc::{AllocError, Global};
use std::test::Fail;

/// The sample profile, at the second try where memory was refused.
fn sample(alloc: Global) -> Result<Profile, Fail> {
    match Profile::from_toml(alloc, SAMPLE.as_bytes()) {
        Ok(profile) => Ok(profile),
        Err(_) => Ok(Profile::from_toml(alloc, SAMPLE.as_bytes())?),
    }
}

/// A bus, at the second try where memory was refused.
fn make_bus(alloc: Global, profile: &Profile) -> Result<Bus<'_>, AllocError> {
    match Bus::new(alloc, profile) {
        Ok(bus) => Ok(bus),
        Err(AllocError) => Bus::new(alloc, profile),
    }
}

#[test]
fn a_bus_is_made_or_memory_was_refused(rt: HostRuntime) -> Result<(), Fail> {
    let profile = sample(rt.alloc())?;
    let mut bus = make_bus(rt.alloc(), &profile)?;
    bus.signal(HostSignal::Start);
    for byte in [0xb0, 0x99, 0x01, 0x41] {
        same(
            &rt,
            byte,
            bus.signal(HostSignal::Byte(byte)).answer(),
            DeviceSignal::Ack,
        );
    }
    bus.signal(HostSignal::Stop);
    let device = bus.device(0x58).ok_or("no device")?;
    ensure(&rt, "MFR_ID", device.register(0, 0x99) == Some(b"A"));
    Ok(())
}

#[test]
fn a_device_is_made_or_memory_was_refused(rt: HostRuntime) -> Result<(), Fail> {
    let profile = sample(rt.alloc())?;
    let first = profile.device(0x58).ok_or("no device")?;
    let device = match Device::new(rt.alloc(), first) {
        Ok(device) => device,
        Err(AllocError) => Device::new(rt.alloc(), first)?,
    };
    ensure(
        &rt,
        "READ_VIN of page 1",
        device.register(1, 0x88) == Some(b"\x00\xd3"),
    );
    Ok(())
}
