//! Hosts of every kind against answers from a fixed seed: how each ends is found by the rules in words.

use crate::compare::{ensure, same};
use crate::host::answers::{Answering, Heard};
use crate::host::plain::{Row, Told, form_of_reply, plain_end, plain_packet, recorded};
use crate::host::requests::{Asked, request_of};
use plain_packets::{NoPacket, Random, data_like, push_wire};
use pmb_bus::Event;
use pmb_device::{DeviceSignal, HostSignal};
use pmb_host::{Host, HostFault, HostStep};
use pmb_table::{Profile, SAMPLE};
use std::alloc::{AllocError, Global};
use std::process::Abort;
use std::test::Fail;

/// A write, read or call.
fn plain(asked: Asked) -> Row {
    Row {
        asked,
        packet: asked,
        told: Told::Bytes,
    }
}

/// Requests under the sample profile.
fn rows() -> [Row; 26] {
    [
        plain(Asked::Write(&[(0x58, 0x03, &[], false)])),
        plain(Asked::Write(&[(0x58, 0x03, &[], true)])),
        plain(Asked::Write(&[(0x59, 0x00, &[0xff], false)])),
        plain(Asked::Write(&[(0x5a, 0x21, &[0x00, 0x18], true)])),
        plain(Asked::Write(&[(0x58, 0x99, &[], false)])),
        plain(Asked::Write(&[(0x58, 0x99, &[0x41, 0x42, 0x43], true)])),
        plain(Asked::Write(&[(0x58, 0x03, &[], false), (0x59, 0x03, &[], false)])),
        plain(Asked::Write(&[
            (0x5a, 0x9a, &[0x01, 0x02], true),
            (0x58, 0x21, &[0x12, 0x34], true),
            (0x59, 0x20, &[0x14], false),
        ])),
        plain(Asked::Read(0x58, 0x88, false)),
        plain(Asked::Read(0x58, 0x88, true)),
        plain(Asked::Read(0x5a, 0x78, true)),
        plain(Asked::Read(0x59, 0x99, false)),
        plain(Asked::Read(0x58, 0x99, true)),
        plain(Asked::Call(0x58, 0x30, &[0xd0, 0x01], false)),
        plain(Asked::Call(0x58, 0x30, &[0xd0, 0x01], true)),
        plain(Asked::Call(0x59, 0x06, &[], false)),
        plain(Asked::Call(0x5a, 0x1b, &[0x7a], true)),
        Row {
            asked: Asked::Set(0x58, 0x21, b"1.5", Some(0x14), false),
            packet: Asked::Write(&[(0x58, 0x21, &[0x00, 0x18], false)]),
            told: Told::Bytes,
        },
        Row {
            asked: Asked::Set(0x5a, 0x46, b"12", None, true),
            packet: Asked::Write(&[(0x5a, 0x46, &[0x00, 0xd3], true)]),
            told: Told::Bytes,
        },
        Row {
            asked: Asked::Set(0x58, 0xd0, b"1", None, false),
            packet: Asked::Write(&[(0x58, 0xd0, &[0x32, 0x00], false)]),
            told: Told::Bytes,
        },
        Row {
            asked: Asked::Get(0x58, 0x21, Some(0x14), false),
            packet: Asked::Read(0x58, 0x21, false),
            told: Told::Unsigned(4096),
        },
        Row {
            asked: Asked::Get(0x5a, 0x8b, Some(0x17), true),
            packet: Asked::Read(0x5a, 0x8b, true),
            told: Told::Unsigned(512),
        },
        Row {
            asked: Asked::Get(0x58, 0x22, Some(0x17), true),
            packet: Asked::Read(0x58, 0x22, true),
            told: Told::Signed(512),
        },
        Row {
            asked: Asked::Get(0x59, 0x88, None, false),
            packet: Asked::Read(0x59, 0x88, false),
            told: Told::Linear11,
        },
        Row {
            asked: Asked::Get(0x58, 0x8d, None, true),
            packet: Asked::Read(0x58, 0x8d, true),
            told: Told::Linear11,
        },
        Row {
            asked: Asked::Get(0x58, 0xd0, None, true),
            packet: Asked::Read(0x58, 0xd0, true),
            told: Told::Ratio,
        },
    ]
}

/// Any row.
fn any_row(random: &mut Random) -> Result<Row, NoPacket> {
    let rows = rows();
    match rows.get(random.below(rows.len())) {
        Some(row) => Ok(*row),
        None => Err(NoPacket::AgainstTheRules),
    }
}

/// A reply in the form that a request asks for, as it is on the wire: of any data, mostly few.
fn any_reply(
    alloc: Global,
    random: &mut Random,
    profile: &Profile,
    asked: Asked,
) -> Result<Vec<u8>, NoPacket> {
    let mut wire = Vec::new(alloc);
    let Some(form) = form_of_reply(profile, asked)? else {
        return Ok(wire);
    };
    let count = if random.once_in(32) {
        random.byte()
    } else {
        random.byte() % 4
    };
    let like = [count, random.byte(), random.byte(), random.byte()];
    let data = data_like(alloc, form, &like)?;
    push_wire(&mut wire, form, data.as_slice())?;
    Ok(wire)
}

/// The most calls of a host until it has ended.
const MOST_CALLS: usize = 4162;

/// What a host heard, and how it ended, where it did.
#[derive(Drop)]
struct Ran {
    heard: Vec<Heard>,
    end: Option<HostStep>,
}

/// Runs a host to its end.
fn run(
    alloc: Global,
    random: &mut Random,
    host: &mut Host<'_>,
    answering: &mut Answering,
) -> Result<Ran, AllocError> {
    let mut heard = Vec::new(alloc);
    let mut answer = DeviceSignal::Silent;
    for _ in 0..MOST_CALLS {
        match host.next(answer) {
            HostStep::Send(signal) => {
                let one = answering.answer(random, signal)?;
                answer = one.answer;
                heard.push(one)?;
            }
            end => {
                return Ok(Ran {
                    heard,
                    end: Some(end),
                });
            }
        }
    }
    Ok(Ran { heard, end: None })
}

/// Whether the last signal is STOP, and no other.
fn stops_once(heard: &[Heard]) -> bool {
    match heard.split_last() {
        Some((last, before)) => {
            last.signal == HostSignal::Stop
                && before.iter().all(|one| one.signal != HostSignal::Stop)
        }
        None => false,
    }
}

/// Whether a capture shows the packet, where all went well; or its front up to what went wrong, and then
/// NACK and STOP.
fn is_told(events: &[Event], packet: &[Event], end: &HostStep) -> bool {
    let wrong = match end {
        HostStep::Failed(HostFault::BadPec) => 3,
        HostStep::Failed(_) => 2,
        _ => return events == packet,
    };
    match events.len().checked_sub(wrong) {
        Some(well) => packet.starts_with(&events[..well])
            && events.ends_with(&[Event::Nack, Event::Stop]),
        None => false,
    }
}

/// Whether a host that has ended tells its end three times more, whatever is answered.
fn stays_at(random: &mut Random, host: &mut Host<'_>, end: &HostStep) -> bool {
    for _ in 0..3 {
        if host.next(DeviceSignal::Byte(random.byte())) != *end {
            return false;
        }
    }
    true
}

/// How many hosts ended so.
#[derive(Clone, Copy, Debug)]
struct Ends {
    done: u32,
    refused: u32,
    no_byte: u32,
    bad_pec: u32,
}

impl Ends {
    fn count(&mut self, end: &HostStep) {
        let number = match end {
            HostStep::Failed(HostFault::NoByte) => &mut self.no_byte,
            HostStep::Failed(HostFault::BadPec) => &mut self.bad_pec,
            HostStep::Failed(_) => &mut self.refused,
            _ => &mut self.done,
        };
        *number = number.saturating_add(1);
    }
}

/// Runs a host of some kind, and checks how it ends; returns its end.
fn check_one(
    rt: &impl Abort,
    alloc: Global,
    random: &mut Random,
    profile: &Profile,
) -> Result<HostStep, Fail> {
    let row = any_row(random).map_err(|_| "row")?;
    let reply = any_reply(alloc, random, profile, row.packet).map_err(|_| "reply")?;
    let mut answering = Answering::new(random, reply, 20);
    let request = request_of(row.asked).ok_or("request")?;
    let mut host = Host::new(profile, request).map_err(|_| "host")?;
    let Ran { heard, end } = run(alloc, random, &mut host, &mut answering)?;
    let end = end.ok_or("no end")?;
    let heard = heard.as_slice();
    ensure(rt, (row, heard), stops_once(heard));
    let plain = plain_end(alloc, profile, row, heard).map_err(|_| "end")?;
    same(rt, (row, heard), &end, &plain);
    let events = recorded(alloc, heard).map_err(|_| "events")?;
    let packet = plain_packet(alloc, profile, row.packet, heard).map_err(|_| "packet")?;
    let is_told = is_told(events.as_slice(), packet.as_slice(), &end);
    ensure(rt, (row, heard), is_told);
    ensure(rt, (row, heard), stays_at(random, &mut host, &end));
    Ok(end)
}

#[test]
fn hosts_end_by_the_rules(rt: HostRuntime) -> Result<(), Fail> {
    let profile = Profile::from_toml(rt.alloc(), SAMPLE.as_bytes()).map_err(|_| "profile")?;
    let mut random = Random::new(0x4d59_52a7);
    let mut ends = Ends {
        done: 0,
        refused: 0,
        no_byte: 0,
        bad_pec: 0,
    };
    for _ in 0..20_000 {
        let end = check_one(&rt, rt.alloc(), &mut random, &profile)?;
        ends.count(&end);
    }
    // Each end is frequent.
    ensure(&rt, &ends, ends.done > 5_000 && ends.refused > 2_000);
    ensure(&rt, &ends, ends.no_byte > 500 && ends.bad_pec > 500);
    Ok(())
}
