//! The program of docs/devices.md that makes a request on a bench.

use crate::compare::same;
use pmb_device::{DeviceSignal, HostSignal};
use pmb_devices::Bus;
use pmb_host::{Host, HostFault, Reply, Request, Wire, drive};
use pmb_table::{Profile, SAMPLE};
use pmb_value::Quantity;
use std::test::Fail;

/// Simulated devices here; a real bench puts the signal on its adapter and waits for the answer.
#[derive(Drop)]
struct Bench<'p> {
    bus: Bus<'p>,
}

impl Wire for Bench<'_> {
    ghost StandsAt = { λ bench told. Unit {0} };

    fn put(&mut self, signal: HostSignal) -> DeviceSignal {
        self.bus.signal(signal).answer()
    }
}

/// READ_VIN of the device 58h, with a packet error code.
fn input_voltage(profile: &Profile, bench: &mut Bench<'_>) -> Result<Reply, HostFault> {
    let request = Request::Get {
        addr: 0x58,
        code: 0x88,
        mode: None,
        pec: true,
    };
    let mut host = Host::new(profile, request)?;
    drive(&mut host, bench)
}

#[test]
fn the_input_voltage_is_read(rt: HostRuntime) -> Result<(), Fail> {
    let profile = Profile::from_toml(rt.alloc(), SAMPLE.as_bytes()).map_err(|_| "profile")?;
    let bus = Bus::new(rt.alloc(), &profile).map_err(|_| "bus")?;
    let mut bench = Bench { bus };
    // d300h in LINEAR11: 11010 is -6, and 768 / 64 = 12.
    let twelve = Quantity::new(12, 1).map_err(|_| "quantity")?;
    let read = input_voltage(&profile, &mut bench);
    same(&rt, "READ_VIN", read, Ok(Reply::Value(twelve)));
    Ok(())
}
