//! Random lists of signals, from a fixed seed: packets, and packets that were broken.

use crate::compare::{ensure, same};
use crate::devices::compared::Compared;
use crate::plain::{EVERY_KIND, OTHERS, PROTECTED, many_devices};
use plain_packets::Random;
use pmb_bus::pec_of;
use pmb_device::HostSignal;
use pmb_table::{DeviceProfile, Entry, Form, PecMode, Profile, SAMPLE};
use std::alloc::{AllocError, Global};
use std::process::Abort;
use std::test::Fail;

/// Signals that are put together.
#[derive(Drop)]
struct Script {
    signals: Vec<HostSignal>,
}

impl Script {
    fn put(&mut self, signal: HostSignal) -> Result<(), AllocError> {
        self.signals.push(signal)?;
        Ok(())
    }

    fn put_bytes(&mut self, bytes: &[u8]) -> Result<(), AllocError> {
        for byte in bytes {
            self.put(HostSignal::Byte(*byte))?;
        }
        Ok(())
    }
}

/// A byte of a command's data: of PAGE mostly a page, of WRITE_PROTECT mostly one of its values.
fn data_byte(random: &mut Random, code: u8) -> u8 {
    match code {
        0x00 => match random.below(6) {
            0 => 0xff,
            1 => 1,
            2 => random.byte(),
            _ => 0,
        },
        0x10 => match random.below(8) {
            0 => 0x80,
            1 => 0x40,
            2 => 0x20,
            3 => random.byte(),
            _ => 0,
        },
        _ => random.byte(),
    }
}

/// Appends random data in a form.
fn put_data(
    random: &mut Random,
    bytes: &mut Vec<u8>,
    code: u8,
    form: Form,
) -> Result<(), AllocError> {
    let count = random.data_count(form);
    if form == Form::Block {
        bytes.push(count)?;
    }
    for _ in 0..count {
        bytes.push(data_byte(random, code))?;
    }
    Ok(())
}

/// An entry of a device.
fn entry<'p>(random: &mut Random, device: &'p DeviceProfile) -> Option<&'p Entry> {
    match random.below(6) {
        0 => device.entry(0x00),
        1 => device.entry(0x7e),
        2 => device.entry(0x21),
        _ => device.entry_at(random.below(device.len())),
    }
}

/// The address of a device and the code of an entry.
fn asking(alloc: Global, device: &DeviceProfile, entry: &Entry) -> Result<Vec<u8>, AllocError> {
    let mut bytes = Vec::new(alloc);
    bytes.push(device.address().wrapping_mul(2))?;
    bytes.push(entry.code)?;
    Ok(bytes)
}

/// A leg with a write body.
fn put_write(
    alloc: Global,
    random: &mut Random,
    script: &mut Script,
    device: &DeviceProfile,
) -> Result<(), AllocError> {
    let Some(entry) = entry(random, device) else {
        return Ok(());
    };
    let Some(form) = entry.shape.write else {
        return Ok(());
    };
    let mut bytes = asking(alloc, device, entry)?;
    put_data(random, &mut bytes, entry.code, form)?;
    let with_pec = match device.pec() {
        PecMode::Off => false,
        PecMode::On => true,
        PecMode::Optional => random.once_in(2),
    };
    if with_pec {
        let mut code = pec_of(bytes.as_slice());
        if random.once_in(8) {
            code ^= 0x10;
        }
        bytes.push(code)?;
    }
    script.put(HostSignal::Start)?;
    script.put_bytes(bytes.as_slice())
}

/// Appends the data of a call; of COEFFICIENTS mostly a code of the device.
fn put_call_data(
    random: &mut Random,
    bytes: &mut Vec<u8>,
    device: &DeviceProfile,
    code: u8,
    form: Form,
) -> Result<(), AllocError> {
    if code != 0x30 || random.once_in(4) {
        return put_data(random, bytes, code, form);
    }
    let other = device.entry_at(random.below(device.len()));
    bytes.push(2)?;
    bytes.push(other.map_or(0xe6, |other| other.code))?;
    bytes.push(random.byte())?;
    Ok(())
}

/// Asks for the bytes of a reply in a form, with a packet error code where there may be one, and
/// ends it. Of a block it asks for some.
fn put_asks(
    random: &mut Random,
    script: &mut Script,
    device: &DeviceProfile,
    form: Form,
) -> Result<(), AllocError> {
    let count = match form {
        Form::Zero => 0,
        Form::One => 1,
        Form::Two => 2,
        Form::Four => 4,
        Form::Eight => 8,
        Form::Block => random.below(7).saturating_add(1),
    };
    let with_pec = match device.pec() {
        PecMode::Off => 0,
        PecMode::On => 1,
        PecMode::Optional => random.below(2),
    };
    for _ in 1..count.saturating_add(with_pec) {
        script.put(HostSignal::Ask)?;
        script.put(HostSignal::Ack)?;
    }
    script.put(HostSignal::Ask)?;
    script.put(HostSignal::Nack)
}

/// A leg that asks a device, and one that reads it.
fn put_read(
    alloc: Global,
    random: &mut Random,
    script: &mut Script,
    device: &DeviceProfile,
) -> Result<(), AllocError> {
    let Some(entry) = entry(random, device) else {
        return Ok(());
    };
    let mut bytes = asking(alloc, device, entry)?;
    let is_called = entry.shape.call.is_some() && (entry.shape.read.is_none() || random.once_in(2));
    let form = if is_called {
        entry.shape.call
    } else {
        entry.shape.read
    };
    let Some(form) = form else {
        return Ok(());
    };
    if is_called {
        put_call_data(random, &mut bytes, device, entry.code, form)?;
    }
    script.put(HostSignal::Start)?;
    script.put_bytes(bytes.as_slice())?;
    script.put(HostSignal::Start)?;
    script.put(HostSignal::Byte(device.address().wrapping_mul(2) | 1))?;
    put_asks(random, script, device, form)
}

/// The signals of some packet.
fn put_packet(
    alloc: Global,
    random: &mut Random,
    script: &mut Script,
    profile: &Profile,
) -> Result<(), AllocError> {
    let Some(device) = profile.device_at(random.below(profile.len())) else {
        return Ok(());
    };
    match random.below(8) {
        0 => {
            script.put(HostSignal::Start)?;
            script.put(HostSignal::Byte(0x19))?;
        }
        1 | 2 => put_read(alloc, random, script, device)?,
        3 | 4 => {
            for i in 0..profile.len().min(3) {
                if let Some(device) = profile.device_at(i)
                    && !random.once_in(3)
                {
                    put_write(alloc, random, script, device)?;
                }
            }
        }
        _ => put_write(alloc, random, script, device)?,
    }
    script.put(HostSignal::Stop)
}

/// A signal, a byte of which is often an address.
fn any_signal(random: &mut Random, profile: &Profile) -> HostSignal {
    match random.below(10) {
        0 | 1 => HostSignal::Start,
        2 => HostSignal::Ack,
        3 => HostSignal::Nack,
        4 | 5 => HostSignal::Ask,
        6 => HostSignal::Stop,
        7 | 8 => match profile.device_at(random.below(profile.len())) {
            Some(device) => HostSignal::Byte(
                device.address().wrapping_mul(2) | (random.byte() & 1),
            ),
            None => HostSignal::Byte(0x40),
        },
        _ => HostSignal::Byte(random.byte()),
    }
}

/// The signals with some of them left out, put in or changed.
fn broken(
    alloc: Global,
    random: &mut Random,
    profile: &Profile,
    signals: &[HostSignal],
) -> Result<Vec<HostSignal>, AllocError> {
    let mut changed = Vec::new(alloc);
    for signal in signals {
        match random.below(40) {
            0 => {}
            1 => {
                changed.push(any_signal(random, profile))?;
                changed.push(*signal)?;
            }
            2 => changed.push(any_signal(random, profile))?,
            3 => {
                changed.push(*signal)?;
                changed.push(*signal)?;
            }
            _ => changed.push(*signal)?,
        }
    }
    changed.push(HostSignal::Stop)?;
    Ok(changed)
}

/// The number of the first list of signals in which the bus and what it is compared with differ,
/// and at how many STOPs the transactions that were read had made the same.
fn first_difference(
    alloc: Global,
    profile: &Profile,
    seed: u32,
    lists: usize,
) -> Result<(Option<usize>, usize), AllocError> {
    let mut random = Random::new(seed);
    let mut alike: usize = 0;
    for list in 0..lists {
        let mut script = Script {
            signals: Vec::new(alloc),
        };
        for _ in 0..random.below(6).saturating_add(2) {
            put_packet(alloc, &mut random, &mut script, profile)?;
        }
        let mut signals = script.signals;
        if list % 2 == 1 {
            signals = broken(alloc, &mut random, profile, signals.as_slice())?;
        }
        let mut compared = Compared::new(alloc, profile)?;
        for signal in signals.iter() {
            if !compared.take(*signal)? {
                return Ok((Some(list), alike));
            }
        }
        alike = alike.saturating_add(compared.alike);
    }
    Ok((None, alike))
}

/// Compares lists of signals under a profile: none differs, and in most of them transactions are
/// read.
fn act_by_the_rules<R: Abort>(
    rt: &R,
    alloc: Global,
    text: &[u8],
    seed: u32,
    lists: usize,
) -> Result<(), Fail> {
    let profile = Profile::from_toml(alloc, text)?;
    let (differs, alike) = first_difference(alloc, &profile, seed, lists)?;
    same(rt, seed, differs, None);
    ensure(rt, alike, alike > lists);
    Ok(())
}

// 30,000 lists in all.

#[test]
fn the_sample_acts_by_the_rules(rt: HostRuntime) -> Result<(), Fail> {
    act_by_the_rules(&rt, rt.alloc(), SAMPLE.as_bytes(), 0x2545_f491, 3_000)
}

#[test]
fn every_kind_acts_by_the_rules(rt: HostRuntime) -> Result<(), Fail> {
    act_by_the_rules(&rt, rt.alloc(), EVERY_KIND.as_bytes(), 0x1234_5677, 13_000)
}

#[test]
fn protected_devices_act_by_the_rules(rt: HostRuntime) -> Result<(), Fail> {
    act_by_the_rules(&rt, rt.alloc(), PROTECTED.as_bytes(), 0x0010_8040, 4_000)
}

#[test]
fn devices_with_other_addresses_act_by_the_rules(rt: HostRuntime) -> Result<(), Fail> {
    act_by_the_rules(&rt, rt.alloc(), OTHERS.as_bytes(), 0x5b20_2122, 6_000)
}

#[test]
fn many_devices_act_by_the_rules(rt: HostRuntime) -> Result<(), Fail> {
    let text = many_devices(rt.alloc())?;
    act_by_the_rules(&rt, rt.alloc(), text.as_slice(), 0x0bad_cafe, 4_000)
}
