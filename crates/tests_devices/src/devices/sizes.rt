//! With ample memory each call that takes memory succeeds, whatever the number of devices and of
//! their pages: want of memory is reported where an allocation was refused, and nowhere else.

use crate::compare::ensure;
use pmb_device::Device;
use pmb_devices::Bus;
use pmb_registers::Registers;
use pmb_table::Profile;
use std::alloc::{AllocError, Global};
use std::process::Abort;
use std::test::Fail;

/// The most pages that a device has.
const MOST_PAGES: u8 = 32;

/// The most devices that a bus has.
const MOST_DEVICES: u8 = 64;

/// What a device has in its profile besides its address and its pages.
const COMMANDS: &str =
    "pec = \"off\", standard = false, command = [{ name = \"PAGE\" }, { name = \"READ_VIN\" }, { name = \"MFR_ID\" }]";

/// A profile of so many devices, from 10h on, each with so many pages.
fn profile_text(alloc: Global, devices: u8, pages: u8) -> Result<String, AllocError> {
    let mut text = String::new(alloc);
    text.push_str("device = [")?;
    for i in 0..devices {
        let address = u16::from(i) + 0x10;
        let numbers = format!(in alloc; "{{ address = {address}, pages = {pages}, ")?;
        text.push_str(numbers.as_str())?;
        text.push_str(COMMANDS)?;
        text.push_str(" },")?;
    }
    text.push_str("]\n")?;
    Ok(text)
}

/// Makes the registers of each device, the device, and the bus.
fn are_made(rt: &impl Abort, alloc: Global, devices: u8, pages: u8) -> Result<(), Fail> {
    let text = profile_text(alloc, devices, pages)?;
    let profile = Profile::from_toml(alloc, text.as_bytes())?;
    let size = (devices, pages);
    ensure(rt, ("devices", size), profile.len() == usize::from(devices));
    ensure(rt, ("bus", size), Bus::new(alloc, &profile).is_ok());
    for i in 0..profile.len() {
        let device = profile.device_at(i).ok_or("no device")?;
        ensure(
            rt,
            ("registers", size),
            Registers::new(alloc, device).is_ok(),
        );
        let alone = Device::new(alloc, device)?;
        let on_last_page = alone.register(pages.saturating_sub(1), 0x88);
        ensure(rt, ("device", size), on_last_page == Some(b"\x00\x00"));
    }
    Ok(())
}

#[test]
fn each_size_is_made_with_ample_memory(rt: HostRuntime) -> Result<(), Fail> {
    for devices in 0..=MOST_DEVICES {
        are_made(&rt, rt.alloc(), devices, 1)?;
    }
    for pages in 1..=MOST_PAGES {
        are_made(&rt, rt.alloc(), 1, pages)?;
    }
    are_made(&rt, rt.alloc(), MOST_DEVICES, MOST_PAGES)
}
