//! Each call of a bus, of a device, and of a device without its registers.

use crate::compare::{ensure, same};
use pmb_bus::Event;
use pmb_device::{Device, DevicePacket, DeviceSignal, Effect, Heard, HostSignal};
use pmb_devices::Bus;
use pmb_registers::CmlBit;
use pmb_table::{DeviceProfile, Profile, SAMPLE};
use std::process::Abort;
use std::test::Fail;

// The program at the head of `pmb_devices`.
#[test]
fn records_an_address(rt: HostRuntime) -> Result<(), Fail> {
    let profile = Profile::from_toml(rt.alloc(), SAMPLE.as_bytes())?;
    let mut bus = Bus::new(rt.alloc(), &profile)?;
    bus.signal(HostSignal::Start);
    let address = bus.signal(HostSignal::Byte(0xb0));
    same(
        &rt,
        "events",
        address.events(),
        [Event::Byte(0xb0), Event::Ack].as_slice(),
    );
    same(&rt, "answer", address.answer(), DeviceSignal::Ack);
    Ok(())
}

#[test]
fn devices_are_found_by_address(rt: HostRuntime) -> Result<(), Fail> {
    let profile = Profile::from_toml(rt.alloc(), SAMPLE.as_bytes())?;
    let mut bus = Bus::new(rt.alloc(), &profile)?;
    ensure(&rt, "no device", bus.device(0x20).is_none());
    ensure(&rt, "a device", bus.device(0x5a).is_some());
    let start = bus.signal(HostSignal::Start);
    same(
        &rt,
        "events of START",
        start.events(),
        [Event::Start].as_slice(),
    );
    same(&rt, "answer to START", start.answer(), DeviceSignal::Silent);
    Ok(())
}

#[test]
fn the_bus_tells_the_byte_of_an_answer(rt: HostRuntime) -> Result<(), Fail> {
    let profile = Profile::from_toml(rt.alloc(), SAMPLE.as_bytes())?;
    let mut bus = Bus::new(rt.alloc(), &profile)?;
    bus.signal(HostSignal::Start);
    bus.signal(HostSignal::Byte(0xb0));
    bus.signal(HostSignal::Byte(0x88));
    bus.signal(HostSignal::Start);
    bus.signal(HostSignal::Byte(0xb1));
    let first = bus.signal(HostSignal::Ask);
    same(&rt, "low byte", first.answer(), DeviceSignal::Byte(0x00));
    same(
        &rt,
        "its event",
        first.events(),
        [Event::Byte(0x00)].as_slice(),
    );
    bus.signal(HostSignal::Ack);
    let second = bus.signal(HostSignal::Ask);
    same(&rt, "high byte", second.answer(), DeviceSignal::Byte(0xd3));
    Ok(())
}

#[test]
fn a_device_knows_its_address(rt: HostRuntime) -> Result<(), Fail> {
    let profile = Profile::from_toml(rt.alloc(), SAMPLE.as_bytes())?;
    let first = profile.device_at(0).ok_or("no device")?;
    let mut device = Device::new(rt.alloc(), first)?;
    same(&rt, "address", device.address(), 0x58);
    same(&rt, "PAGE", device.page(), 0);
    same(
        &rt,
        "START",
        device.on(HostSignal::Start),
        DeviceSignal::Silent,
    );
    same(
        &rt,
        "its address",
        device.on(HostSignal::Byte(0xb0)),
        DeviceSignal::Ack,
    );
    let mut other = Device::new(rt.alloc(), first)?;
    same(
        &rt,
        "START",
        other.on(HostSignal::Start),
        DeviceSignal::Silent,
    );
    same(
        &rt,
        "another address",
        other.on(HostSignal::Byte(0xb2)),
        DeviceSignal::Silent,
    );
    ensure(&rt, "VOUT_MODE", other.register(0, 0x20) == Some(b"\x17"));
    Ok(())
}

/// An exchange in which 88h was asked for, up to the read address.
fn parse_command<'p>(rt: &impl Abort, device: &'p DeviceProfile) -> DevicePacket<'p> {
    let mut exchange = DevicePacket::new(device);
    exchange.start();
    same(rt, "write address", exchange.byte(0xb0), Heard::Ack);
    same(rt, "command", exchange.byte(0x88), Heard::Ack);
    exchange.start();
    same(rt, "read address", exchange.byte(0xb1), Heard::Read);
    exchange
}

#[test]
fn an_exchange_without_registers_gives_what_it_is_handed(rt: HostRuntime) -> Result<(), Fail> {
    let profile = Profile::from_toml(rt.alloc(), SAMPLE.as_bytes())?;
    let device = profile.device_at(0).ok_or("no device")?;
    let mut exchange = parse_command(&rt, device);
    same(
        &rt,
        "bytes before the read",
        exchange.body(),
        [0x88].as_slice(),
    );
    exchange.reply(&[0x00, 0xd3]);
    same(&rt, "low byte", exchange.ask(), DeviceSignal::Byte(0x00));
    exchange.ack();
    same(&rt, "high byte", exchange.ask(), DeviceSignal::Byte(0xd3));
    exchange.nack();
    same(&rt, "at the end", exchange.ask(), DeviceSignal::Silent);
    ensure(
        &rt,
        "outcome",
        matches!(exchange.outcome(), Effect::Nothing),
    );
    exchange.end();
    same(&rt, "after the end", exchange.byte(0xb0), Heard::Silent);
    Ok(())
}

#[test]
fn an_exchange_tells_what_its_leg_does(rt: HostRuntime) -> Result<(), Fail> {
    let profile = Profile::from_toml(rt.alloc(), SAMPLE.as_bytes())?;
    let device = profile.device_at(0).ok_or("no device")?;
    let mut exchange = parse_command(&rt, device);
    exchange.refuse(CmlBit::BadValue);
    ensure(
        &rt,
        "outcome",
        matches!(exchange.outcome(), Effect::Note(CmlBit::BadValue)),
    );
    exchange.end();
    exchange.start();
    same(&rt, "address", exchange.byte(0xb0), Heard::Ack);
    same(&rt, "PAGE", exchange.byte(0x00), Heard::Ack);
    same(&rt, "its value", exchange.byte(0x01), Heard::Ack);
    ensure(
        &rt,
        "outcome of the write",
        matches!(
            exchange.outcome(),
            Effect::Write {
                code: 0x00,
                bytes: [0x01]
            }
        ),
    );
    Ok(())
}
