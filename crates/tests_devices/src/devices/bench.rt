//! The programs of `docs/devices.md`: a write, and a bench that plays what an analyser recorded of
//! real devices to simulated ones, and tells the first event at which they differ.

use crate::compare::{ensure, same};
use pmb_bus::Event;
use pmb_bus::Event::{Ack, Byte, Nack, Start, Stop};
use pmb_device::HostSignal;
use pmb_devices::Bus;
use pmb_table::{Profile, SAMPLE};
use std::test::Fail;

/// What the host gave where an event was recorded. A byte that a device gave is asked for.
fn signal_of(event: Event, is_read: bool) -> HostSignal {
    match event {
        Start => HostSignal::Start,
        Byte(_) if is_read => HostSignal::Ask,
        Byte(byte) => HostSignal::Byte(byte),
        Ack => HostSignal::Ack,
        Nack => HostSignal::Nack,
        Stop => HostSignal::Stop,
    }
}

/// Plays a capture of real devices to a bus of simulated ones. What the host gave is given again;
/// the first event that the simulated devices would not have recorded is told, counted from 0.
fn first_difference(bus: &mut Bus<'_>, capture: &[Event]) -> Option<usize> {
    let mut is_address = false;
    let mut is_read = false;
    // The answer of the simulated devices to the byte that the host gave last.
    let mut answer = None;
    for (i, event) in capture.iter().enumerate() {
        if let Some(expected) = answer {
            answer = None;
            if *event != expected {
                return Some(i);
            }
        } else {
            let recorded = bus.signal(signal_of(*event, is_read));
            let events = recorded.events();
            if events.first() != Some(event) {
                return Some(i);
            }
            answer = events.get(1).copied();
            if let Byte(byte) = *event {
                is_read |= is_address && byte & 1 == 1;
            } else if *event == Start {
                is_read = false;
            }
            is_address = *event == Start;
        }
    }
    None
}

/// A read of READ_VIN as the simulated device answers it, and as one does whose input has another
/// voltage; a write that a real device refuses at its last byte.
#[rattlefmt::skip]
static CAPTURES: [(&[Event], Option<usize>); 3] = [
    (&[Start, Byte(0xb0), Ack, Byte(0x88), Ack, Start, Byte(0xb1), Ack, Byte(0x00), Ack, Byte(0xd3), Nack, Stop], None),
    (&[Start, Byte(0xb0), Ack, Byte(0x88), Ack, Start, Byte(0xb1), Ack, Byte(0x1a), Ack, Byte(0xd3), Nack, Stop], Some(8)),
    (&[Start, Byte(0xb0), Ack, Byte(0x21), Ack, Byte(0x00), Ack, Byte(0x18), Nack, Stop], Some(8)),
];

#[test]
fn real_devices_are_compared(rt: HostRuntime) -> Result<(), Fail> {
    let profile = Profile::from_toml(rt.alloc(), SAMPLE.as_bytes())?;
    for (capture, difference) in CAPTURES.iter() {
        let mut bus = Bus::new(rt.alloc(), &profile)?;
        same(
            &rt,
            *capture,
            first_difference(&mut bus, capture),
            *difference,
        );
    }
    Ok(())
}

#[test]
fn registers_are_looked_at(rt: HostRuntime) -> Result<(), Fail> {
    let profile = Profile::from_toml(rt.alloc(), SAMPLE.as_bytes())?;
    let mut bus = Bus::new(rt.alloc(), &profile)?;
    bus.signal(HostSignal::Start);
    for byte in [0xb0, 0x21, 0x00, 0x18] {
        bus.signal(HostSignal::Byte(byte));
    }
    bus.signal(HostSignal::Stop);
    let device = bus.device(0x58).ok_or("no device")?;
    ensure(
        &rt,
        "VOUT_COMMAND",
        device.register(0, 0x21) == Some(b"\x00\x18"),
    );
    Ok(())
}
