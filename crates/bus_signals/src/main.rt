//! Gives a bus of simulated devices signals from a fixed seed, for `bench/run` to count what one
//! costs.
//!
//! Standard input is a profile, and the word says how many packets there are. Writes and reads of a
//! word go to its devices in turn of a random draw, some of them in groups of two, and each is
//! ended by STOP.
#![tactic(auto)]

use plain_packets::Random;
use pmb_device::HostSignal;
use pmb_devices::Bus;
use pmb_table::Profile;
use std::io::{self, Read};
use std::process::ExitCode;

/// A host that counts its signals.
#[derive(Drop)]
struct Counting<'b, 'p> {
    bus: &'b mut Bus<'p>,
    signals: u64,
}

impl<'b, 'p> Counting<'b, 'p> {
    fn give(&mut self, signal: HostSignal) {
        let _ = self.bus.signal(signal);
        self.signals = self.signals.saturating_add(1);
    }

    fn give_bytes(&mut self, bytes: &[u8]) {
        self.give(HostSignal::Start);
        for byte in bytes {
            self.give(HostSignal::Byte(*byte));
        }
    }
}

/// One packet to a device, and to a second one where it is a group.
fn packet(host: &mut Counting<'_, '_>, random: u32, address: u8, other: u8) {
    let own = address.wrapping_mul(2);
    let low = (random >> 8 & 0xff) as u8;
    if random % 2 == 0 {
        host.give_bytes(&[own, 0x21, low, 0x18]);
        if random % 16 == 0 && other != address {
            host.give_bytes(&[other.wrapping_mul(2), 0x03]);
        }
    } else {
        host.give_bytes(&[own, 0x8b]);
        host.give_bytes(&[own | 1]);
        host.give(HostSignal::Ask);
        host.give(HostSignal::Ack);
        host.give(HostSignal::Ask);
        host.give(HostSignal::Nack);
    }
    host.give(HostSignal::Stop);
}

/// The address of a device that a number draws.
fn drawn(profile: &Profile, number: u32) -> u8 {
    let at = number as usize % profile.len().max(1);
    profile.device_at(at).map_or(0, |device| device.address())
}

fn run(bus: &mut Bus<'_>, profile: &Profile, packets: u32) -> u64 {
    let mut random = Random::new(0x2545_f491);
    let mut host = Counting { bus, signals: 0 };
    for _ in 0..packets {
        let number = random.next();
        let first = drawn(profile, number >> 4);
        let second = drawn(profile, number >> 12);
        packet(&mut host, number, first, second);
    }
    host.signals
}

/// The number of packets that the first word after the program's name tells.
fn count(rt: &HostRuntime) -> io::Result<u32> {
    let words: Vec<String> = std::env::args(rt)?.collect(rt.alloc())?;
    let count = match words.get(1) {
        Some(word) => word.as_str().parse::<u32>().ok(),
        None => None,
    };
    Ok(count.unwrap_or(0))
}

fn main(rt: HostRuntime) -> io::Result<ExitCode> {
    let packets = count(&rt)?;
    let mut text = Vec::new(rt.alloc());
    rt.stdin().read_to_end(&mut text)?;
    let Ok(profile) = Profile::from_toml(rt.alloc(), text.as_slice()) else {
        println!(rt; "no profile")?;
        return Ok(ExitCode::from(2));
    };
    let mut bus = Bus::new(rt.alloc(), &profile)?;
    let signals = run(&mut bus, &profile, packets);
    println!(rt; "{packets} packets, {signals} signals")?;
    Ok(ExitCode::from(0))
}
