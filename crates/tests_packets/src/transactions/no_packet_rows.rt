//! Transactions that have no packet, one rule broken in each.

use crate::compare::same;
use crate::transactions::said::Said;
use plain_packets::{NoPacket, packet};
use pmb_table::{Profile, SAMPLE};
use std::alloc::Global;
use std::process::Abort;
use std::test::Fail;

type Row = (&'static str, Said);

#[rattlefmt::skip]
static WRITES: [Row; 8] = [
    ("no parts", Said::Write(&[])),
    ("a device that is not there", Said::Write(&[(0x20, 0x03, &[], false)])),
    ("one device twice", Said::Write(&[(0x58, 0x03, &[], false), (0x58, 0x03, &[], true)])),
    ("a code that is not there", Said::Write(&[(0x58, 0xc8, &[], false)])),
    ("a command that is read alone", Said::Write(&[(0x58, 0x88, &[0x00, 0x00], false)])),
    ("a byte for a word", Said::Write(&[(0x58, 0x21, &[0x00], false)])),
    ("a packet error code where there are none", Said::Write(&[(0x59, 0x03, &[], true)])),
    ("no packet error code where there is one each time", Said::Write(&[(0x5a, 0x03, &[], false)])),
];

fn read(addr: u8, code: u8, reply: &'static [u8], pec: bool) -> Said {
    Said::Read {
        addr,
        code,
        reply,
        pec,
    }
}

fn call(addr: u8, code: u8, bytes: &'static [u8], reply: &'static [u8], pec: bool) -> Said {
    Said::Call {
        addr,
        code,
        bytes,
        reply,
        pec,
    }
}

fn refused(addr: u8, sent: &'static [u8], at_read: bool) -> Said {
    Said::Refused {
        parts: &[],
        addr,
        sent,
        at_read,
    }
}

fn behind_a_part(addr: u8, sent: &'static [u8], at_read: bool) -> Said {
    Said::Refused {
        parts: &[(0x58, 0x03, &[], false)],
        addr,
        sent,
        at_read,
    }
}

fn answers() -> [Row; 9] {
    [
        ("no such device", read(0x20, 0x88, &[0x00, 0x00], false)),
        ("no such code", read(0x58, 0xc8, &[0x00, 0x00], false)),
        ("written alone", read(0x58, 0x03, &[], false)),
        ("a byte for a word", read(0x58, 0x88, &[0x00], false)),
        (
            "three bytes for a word",
            read(0x58, 0x88, &[0x00, 0x00, 0x00], false),
        ),
        ("a packet error code", read(0x59, 0x88, &[0x00, 0x00], true)),
        (
            "no packet error code",
            read(0x5a, 0x88, &[0x00, 0x00], false),
        ),
        (
            "not called",
            call(0x58, 0x21, &[0x00, 0x00], &[0x00, 0x00], false),
        ),
        (
            "a call with one",
            call(0x59, 0x30, &[0xd0, 0x01], &[], true),
        ),
    ]
}

fn refusals() -> [Row; 10] {
    [
        ("an address of eight bits", refused(0x80, &[], false)),
        ("bytes to no device", refused(0x20, &[0x03], false)),
        ("bytes behind a body", refused(0x59, &[0x03, 0x00], false)),
        ("bytes behind no body", refused(0x58, &[0xc8, 0x00], false)),
        (
            "bytes behind a packet error code",
            refused(0x58, &[0x03, 0x46, 0x00], false),
        ),
        ("a read of nothing", refused(0x58, &[], true)),
        (
            "a read behind data",
            refused(0x58, &[0x21, 0x00, 0x18], true),
        ),
        ("the address of a part", behind_a_part(0x58, &[], false)),
        ("a read in a group", behind_a_part(0x59, &[0x88], true)),
        (
            "a call in a group",
            behind_a_part(0x59, &[0x30, 0x02], false),
        ),
    ]
}

fn have_none<R: Abort>(rt: &R, alloc: Global, profile: &Profile, rows: &[Row]) {
    for (name, said) in rows {
        match packet(alloc, profile, &said.transaction()) {
            Ok(_) => assert!(rt; false, "{name}"),
            Err(fault) => same(rt, name, fault, NoPacket::AgainstTheRules),
        }
    }
}

#[test]
fn none_has_a_packet(rt: HostRuntime) -> Result<(), Fail> {
    let alloc = rt.alloc();
    let profile = Profile::from_toml(alloc, SAMPLE.as_bytes())?;
    have_none(&rt, alloc, &profile, WRITES.as_slice());
    have_none(&rt, alloc, &profile, answers().as_slice());
    have_none(&rt, alloc, &profile, refusals().as_slice());
    Ok(())
}
