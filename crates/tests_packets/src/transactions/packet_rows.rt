//! Transactions with their packets, told by hand.

use crate::compare::{ensure, same};
use crate::transactions::said::Said;
use plain_packets::{LONG_FORMS, events, is_viable, packet};
use pmb_bus::Event;
use pmb_table::{Profile, SAMPLE};
use std::alloc::Global;
use std::process::Abort;
use std::test::Fail;

/// A transaction, and its packet under a profile as capture text.
struct Row {
    name: &'static str,
    profile: &'static str,
    said: Said,
    packet: &'static str,
}

#[rattlefmt::skip]
static WRITES: [Row; 10] = [
    Row { name: "a word with a packet error code", profile: SAMPLE, said: Said::Write(&[(0x58, 0x21, &[0x00, 0x18], true)]), packet: "S b0 A 21 A 00 A 18 A f8 A P" },
    Row { name: "a word", profile: SAMPLE, said: Said::Write(&[(0x58, 0x21, &[0x00, 0x18], false)]), packet: "S b0 A 21 A 00 A 18 A P" },
    Row { name: "no data", profile: SAMPLE, said: Said::Write(&[(0x5a, 0x03, &[], true)]), packet: "S b4 A 03 A 12 A P" },
    Row { name: "a command that is called too", profile: SAMPLE, said: Said::Write(&[(0x58, 0x1b, &[0x01, 0x7a], false)]), packet: "S b0 A 1b A 01 A 7a A P" },
    Row { name: "a block", profile: SAMPLE, said: Said::Write(&[(0x58, 0x99, b"AB", true)]), packet: "S b0 A 99 A 02 A 41 A 42 A 60 A P" },
    Row { name: "an empty block", profile: SAMPLE, said: Said::Write(&[(0x59, 0x99, &[], false)]), packet: "S b2 A 99 A 00 A P" },
    Row { name: "four bytes", profile: LONG_FORMS, said: Said::Write(&[(0x10, 0xe0, &[0x01, 0x02, 0x03, 0x04], true)]), packet: "S 20 A e0 A 01 A 02 A 03 A 04 A e3 A P" },
    Row { name: "a group", profile: SAMPLE, said: Said::Write(&[(0x58, 0x03, &[], false), (0x59, 0x03, &[], false)]), packet: "S b0 A 03 A S b2 A 03 A P" },
    Row { name: "a group, with a packet error code of a part", profile: SAMPLE, said: Said::Write(&[(0x58, 0x03, &[], false), (0x5a, 0x03, &[], true)]), packet: "S b0 A 03 A S b4 A 03 A 12 A P" },
    Row { name: "a group, with a packet error code of each part", profile: SAMPLE, said: Said::Write(&[(0x5a, 0x03, &[], true), (0x59, 0x21, &[0x00, 0x18], false), (0x58, 0x03, &[], true)]), packet: "S b4 A 03 A 12 A S b2 A 21 A 00 A 18 A S b0 A 03 A 46 A P" },
];

#[rattlefmt::skip]
static ANSWERS: [Row; 11] = [
    Row { name: "a word is read, with a packet error code", profile: SAMPLE, said: Said::Read { addr: 0x58, code: 0x88, reply: &[0x00, 0xd3], pec: true }, packet: "S b0 A 88 A S b1 A 00 A d3 A f6 N P" },
    Row { name: "a word is read", profile: SAMPLE, said: Said::Read { addr: 0x58, code: 0x79, reply: &[0x40, 0x88], pec: false }, packet: "S b0 A 79 A S b1 A 40 A 88 N P" },
    Row { name: "a byte is read", profile: SAMPLE, said: Said::Read { addr: 0x58, code: 0x7e, reply: &[0x26], pec: false }, packet: "S b0 A 7e A S b1 A 26 N P" },
    Row { name: "an empty block is read", profile: SAMPLE, said: Said::Read { addr: 0x58, code: 0x99, reply: &[], pec: false }, packet: "S b0 A 99 A S b1 A 00 N P" },
    Row { name: "an empty block is read, with a packet error code", profile: SAMPLE, said: Said::Read { addr: 0x58, code: 0x99, reply: &[], pec: true }, packet: "S b0 A 99 A S b1 A 00 A 51 N P" },
    Row { name: "a block is read", profile: SAMPLE, said: Said::Read { addr: 0x59, code: 0x99, reply: b"AB", pec: false }, packet: "S b2 A 99 A S b3 A 02 A 41 A 42 N P" },
    Row { name: "eight bytes are read", profile: LONG_FORMS, said: Said::Read { addr: 0x10, code: 0xe1, reply: &[0x01, 0x02, 0x03, 0x04, 0x05, 0x06, 0x07, 0x08], pec: false }, packet: "S 20 A e1 A S 21 A 01 A 02 A 03 A 04 A 05 A 06 A 07 A 08 N P" },
    Row { name: "a call of a block", profile: SAMPLE, said: Said::Call { addr: 0x58, code: 0x1b, bytes: &[0x7a], reply: &[0x10], pec: false }, packet: "S b0 A 1b A 01 A 7a A S b1 A 01 A 10 N P" },
    Row { name: "a call of a block, with a packet error code", profile: SAMPLE, said: Said::Call { addr: 0x58, code: 0x1b, bytes: &[0x7a], reply: &[0x10], pec: true }, packet: "S b0 A 1b A 01 A 7a A S b1 A 01 A 10 A 7a N P" },
    Row { name: "a call of blocks of two lengths", profile: SAMPLE, said: Said::Call { addr: 0x58, code: 0x30, bytes: &[0xd0, 0x01], reply: &[0x03, 0x00, 0x02, 0x00, 0x01], pec: false }, packet: "S b0 A 30 A 02 A d0 A 01 A S b1 A 05 A 03 A 00 A 02 A 00 A 01 N P" },
    Row { name: "a call of a word", profile: LONG_FORMS, said: Said::Call { addr: 0x10, code: 0xe2, bytes: &[0x01, 0x02], reply: &[0x03, 0x04], pec: false }, packet: "S 20 A e2 A 01 A 02 A S 21 A 03 A 04 N P" },
];

#[rattlefmt::skip]
static REFUSALS: [Row; 12] = [
    Row { name: "an address that no device has", profile: SAMPLE, said: Said::Refused { parts: &[], addr: 0x20, sent: &[], at_read: false }, packet: "S 40 N P" },
    Row { name: "an address that a device has", profile: SAMPLE, said: Said::Refused { parts: &[], addr: 0x58, sent: &[], at_read: false }, packet: "S b0 N P" },
    Row { name: "an address behind a part", profile: SAMPLE, said: Said::Refused { parts: &[(0x58, 0x03, &[], true)], addr: 0x59, sent: &[], at_read: false }, packet: "S b0 A 03 A 46 A S b2 N P" },
    Row { name: "a code that the device has not", profile: SAMPLE, said: Said::Refused { parts: &[], addr: 0x58, sent: &[0xc8], at_read: false }, packet: "S b0 A c8 N P" },
    Row { name: "a value", profile: SAMPLE, said: Said::Refused { parts: &[], addr: 0x58, sent: &[0x00, 0x05], at_read: false }, packet: "S b0 A 00 A 05 N P" },
    Row { name: "a wrong packet error code", profile: SAMPLE, said: Said::Refused { parts: &[], addr: 0x58, sent: &[0x03, 0x47], at_read: false }, packet: "S b0 A 03 A 47 N P" },
    Row { name: "a right packet error code", profile: SAMPLE, said: Said::Refused { parts: &[], addr: 0x58, sent: &[0x21, 0x00, 0x18, 0xf8], at_read: false }, packet: "S b0 A 21 A 00 A 18 A f8 N P" },
    Row { name: "a value behind a part", profile: SAMPLE, said: Said::Refused { parts: &[(0x58, 0x03, &[], false)], addr: 0x59, sent: &[0x21, 0x00], at_read: false }, packet: "S b0 A 03 A S b2 A 21 A 00 N P" },
    Row { name: "a byte of a block that is called", profile: SAMPLE, said: Said::Refused { parts: &[], addr: 0x58, sent: &[0x30, 0x02, 0xd0, 0xff], at_read: false }, packet: "S b0 A 30 A 02 A d0 A ff N P" },
    Row { name: "a read address", profile: SAMPLE, said: Said::Refused { parts: &[], addr: 0x58, sent: &[0x88], at_read: true }, packet: "S b0 A 88 A S b1 N P" },
    Row { name: "the read address of a call", profile: SAMPLE, said: Said::Refused { parts: &[], addr: 0x58, sent: &[0x06, 0x01, 0x01], at_read: true }, packet: "S b0 A 06 A 01 A 01 A S b1 N P" },
    Row { name: "the Alert Response Address, written", profile: SAMPLE, said: Said::Refused { parts: &[], addr: 0x0c, sent: &[], at_read: false }, packet: "S 18 N P" },
];

#[rattlefmt::skip]
static ALERTS: [Row; 4] = [
    Row { name: "an alert", profile: SAMPLE, said: Said::Alert { byte: 0xb0, pec: false }, packet: "S 19 A b0 N P" },
    Row { name: "an alert with a packet error code", profile: SAMPLE, said: Said::Alert { byte: 0xb0, pec: true }, packet: "S 19 A b0 A f3 N P" },
    Row { name: "an alert of no device of the profile", profile: LONG_FORMS, said: Said::Alert { byte: 0xb1, pec: false }, packet: "S 19 A b1 N P" },
    Row { name: "no alert", profile: SAMPLE, said: Said::NoAlert, packet: "S 19 N P" },
];

/// The row's packet, its fronts and what is longer.
fn holds<R: Abort>(rt: &R, alloc: Global, row: &Row) -> Result<(), Fail> {
    let name = row.name;
    let profile = Profile::from_toml(alloc, row.profile.as_bytes())?;
    let mut told = events(alloc, row.packet)?;
    let built = packet(alloc, &profile, &row.said.transaction())?;
    same(rt, name, built.as_slice(), told.as_slice());
    for count in 0..built.len() + 1 {
        let viable = is_viable(alloc, &profile, &built.as_slice()[..count])?;
        ensure(rt, (count, "of", name), viable);
    }
    told.push(Event::Start)?;
    ensure(rt, name, !is_viable(alloc, &profile, told.as_slice())?);
    Ok(())
}

fn hold<R: Abort>(rt: &R, alloc: Global, rows: &[Row]) -> Result<(), Fail> {
    for row in rows {
        holds(rt, alloc, row)?;
    }
    Ok(())
}

#[test]
fn each_transaction_has_its_packet(rt: HostRuntime) -> Result<(), Fail> {
    let alloc = rt.alloc();
    hold(&rt, alloc, WRITES.as_slice())?;
    hold(&rt, alloc, ANSWERS.as_slice())?;
    hold(&rt, alloc, REFUSALS.as_slice())?;
    hold(&rt, alloc, ALERTS.as_slice())
}
