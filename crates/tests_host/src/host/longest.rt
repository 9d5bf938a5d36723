//! The longest run of a host: a group of 16 blocks of 255 bytes, each with a packet error code.

use crate::compare::same;
use arrayvec::ArrayVec;
use pmb_device::{DeviceSignal, HostSignal};
use pmb_host::{Host, HostFault, HostStep, Reply, Request, Wire, drive};
use pmb_table::Profile;
use pmb_transaction::Part;
use std::alloc::{AllocError, Global};
use std::test::Fail;

/// A profile of 16 devices, at 10h to 1fh.
fn profile_text(alloc: Global) -> Result<String, AllocError> {
    let mut text = String::new(alloc);
    for address in 0x10..0x20_u8 {
        text.push_str("[[device]]\npec = \"on\"\naddress = ")?;
        text.push_str(format!(in alloc; "{address}\n\n")?.as_str())?;
    }
    Ok(text)
}

/// MFR_ID of each of them.
fn parts() -> ArrayVec<Part, 16> {
    let mut parts = ArrayVec::new();
    for addr in 0x10..0x20 {
        let mut bytes = ArrayVec::new();
        let _ = bytes.try_extend_from_slice(&[0x41; 255]);
        let _ = parts.try_push(Part {
            addr,
            code: 0x99,
            bytes,
            pec: true,
        });
    }
    parts
}

#[test]
fn it_has_4161_signals(rt: HostRuntime) -> Result<(), Fail> {
    let text = profile_text(rt.alloc())?;
    let profile = Profile::from_toml(rt.alloc(), text.as_bytes()).map_err(|_| "profile")?;
    let request = Request::Write { parts: parts() };
    let mut host = Host::new(&profile, request).map_err(|_| "host")?;
    let mut sent: usize = 0;
    let mut last = HostSignal::Start;
    for _ in 0..5000 {
        match host.next(DeviceSignal::Ack) {
            HostStep::Send(signal) => {
                sent = sent.saturating_add(1);
                last = signal;
            }
            end => {
                same(&rt, "the end", end, HostStep::Done(Reply::Written));
                same(&rt, "the last signal", last, HostSignal::Stop);
                break;
            }
        }
    }
    same(&rt, "signals", sent, 4161);
    Ok(())
}

/// How many signals a host sends where the one after so many others gets NACK and each other one
/// ACK, and how it ends.
fn refused_at(host: &mut Host<'_>, place: u16) -> (u16, Option<HostStep>) {
    let mut answer = DeviceSignal::Ack;
    for sent in 0..4162 {
        match host.next(answer) {
            HostStep::Send(_) if sent == place => answer = DeviceSignal::Nack,
            HostStep::Send(_) => answer = DeviceSignal::Ack,
            end => return (sent, Some(end)),
        }
    }
    (4162, None)
}

/// The signals of a leg: START, the address, the code, the count, the data and the packet error
/// code.
const LEG: u16 = 260;

/// How many signals there have to be, and the end. The answer to a START counts for nothing.
fn expected_at(place: u16) -> (u16, Option<HostStep>) {
    let leg = u8::try_from(place / LEG).unwrap_or(0).saturating_add(1);
    match (place % LEG).checked_sub(1) {
        None => (4161, Some(HostStep::Done(Reply::Written))),
        Some(byte) => {
            let at_read = false;
            let fault = HostFault::Refused { leg, byte, at_read };
            (place.saturating_add(2), Some(HostStep::Failed(fault)))
        }
    }
}

#[test]
fn it_stops_where_a_byte_is_refused(rt: HostRuntime) -> Result<(), Fail> {
    let text = profile_text(rt.alloc())?;
    let profile = Profile::from_toml(rt.alloc(), text.as_bytes()).map_err(|_| "profile")?;
    for step in 0..69_u16 {
        let place = step * 61;
        let request = Request::Write { parts: parts() };
        let mut host = Host::new(&profile, request).map_err(|_| "host")?;
        same(
            &rt,
            ("at", place),
            refused_at(&mut host, place),
            expected_at(place),
        );
    }
    Ok(())
}

/// A wire that answers ACK to each signal, and counts them.
#[derive(Drop)]
struct Acking {
    put: usize,
}

impl Wire for Acking {
    ghost StandsAt = { λ wire told. Unit {0} };

    fn put(&mut self, _signal: HostSignal) -> DeviceSignal {
        self.put = self.put.saturating_add(1);
        DeviceSignal::Ack
    }
}

#[test]
fn it_is_made_on_a_wire(rt: HostRuntime) -> Result<(), Fail> {
    let text = profile_text(rt.alloc())?;
    let profile = Profile::from_toml(rt.alloc(), text.as_bytes()).map_err(|_| "profile")?;
    let request = Request::Write { parts: parts() };
    let mut host = Host::new(&profile, request).map_err(|_| "host")?;
    let mut wire = Acking { put: 0 };
    same(
        &rt,
        "the reply",
        drive(&mut host, &mut wire),
        Ok(Reply::Written),
    );
    same(&rt, "signals", wire.put, 4161);
    same(
        &rt,
        "after the end",
        host.next(DeviceSignal::Silent),
        HostStep::Done(Reply::Written),
    );
    Ok(())
}
