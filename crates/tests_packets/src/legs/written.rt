//! Legs that are written.

use crate::compare::{ensure, same};
use crate::legs::words::digits;
use plain_packets::LONG_FORMS;
use pmb_leg::{Asked, LegPlace, WrittenLeg};
use pmb_table::{Profile, SAMPLE};
use std::alloc::{AllocError, Global};
use std::process::Abort;
use std::test::Fail;

/// Bytes to a device after its address, how many of them are taken before the first that is not,
/// and what is told of these: whether more may come, what they say as a write, and what they ask.
#[derive(Clone, Copy)]
struct Row {
    profile: &'static str,
    device: u8,
    place: LegPlace,
    bytes: &'static [u8],
    taken: usize,
    told: &'static str,
}

fn first(device: u8, bytes: &'static [u8], taken: usize, told: &'static str) -> Row {
    Row {
        profile: SAMPLE,
        device,
        place: LegPlace::First,
        bytes,
        taken,
        told,
    }
}

fn later(device: u8, bytes: &'static [u8], taken: usize, told: &'static str) -> Row {
    Row {
        place: LegPlace::Later,
        ..first(device, bytes, taken, told)
    }
}

fn long(bytes: &'static [u8], taken: usize, told: &'static str) -> Row {
    Row {
        profile: LONG_FORMS,
        ..first(0x10, bytes, taken, told)
    }
}

/// Writes, and reads by the code alone.
fn writes() -> [Row; 18] {
    [
        first(0x58, &[], 0, "more"),
        first(0x58, &[0x21], 1, "more, read 21"),
        first(0x58, &[0x21, 0x00], 2, "more"),
        first(0x58, &[0x21, 0x00, 0x18], 3, "more, write 21 00 18"),
        first(0x58, &[0x21, 0x00, 0x18, 0xf8], 4, "write 21 00 18 pec"),
        first(0x58, &[0x21, 0x00, 0x18, 0xf7], 3, "more, write 21 00 18"),
        first(
            0x58,
            &[0x21, 0x00, 0x18, 0xf8, 0x00],
            4,
            "write 21 00 18 pec",
        ),
        first(0x58, &[0x03], 1, "more, write 03"),
        first(0x58, &[0x03, 0x46], 2, "write 03 pec"),
        first(0x58, &[0x03, 0x47], 1, "more, write 03"),
        first(0x59, &[0x03], 1, "write 03"),
        first(0x59, &[0x03, 0x46], 1, "write 03"),
        first(0x5a, &[0x03], 1, "more"),
        first(0x5a, &[0x03, 0x12], 2, "write 03 pec"),
        first(0x58, &[0x99, 0x00], 2, "more, write 99"),
        first(0x58, &[0x99, 0x02, 0x41, 0x42], 4, "more, write 99 41 42"),
        first(0x58, &[0x88, 0x00], 1, "read 88"),
        first(0x58, &[0xc8], 0, "more"),
    ]
}

/// Calls, legs after parts, and forms of four and eight bytes.
fn others() -> [Row; 11] {
    [
        first(
            0x58,
            &[0x1b, 0x01, 0x7a],
            3,
            "more, write 1b 01 7a, call 1b 7a",
        ),
        first(0x58, &[0x1b, 0x02, 0x7a], 3, "more, write 1b 02 7a"),
        first(0x58, &[0x1b, 0x02, 0x7a, 0x00], 4, "call 1b 7a 00"),
        first(0x58, &[0x30, 0x02, 0xd0, 0x01], 4, "call 30 d0 01"),
        first(0x58, &[0x30, 0x00, 0x00], 2, "call 30"),
        later(0x58, &[0x88], 0, "more"),
        later(0x58, &[0x30], 0, "more"),
        later(0x58, &[0x1b, 0x01, 0x7a], 3, "more, write 1b 01 7a"),
        later(0x58, &[0x21], 1, "more"),
        long(
            &[0xe0, 0x01, 0x02, 0x03, 0x04, 0xe3],
            6,
            "write e0 01 02 03 04 pec",
        ),
        long(&[0xe1, 0x01], 1, "read e1"),
    ]
}

/// What a leg tells.
fn told(alloc: Global, leg: &WrittenLeg) -> Result<String, AllocError> {
    let mut text = String::new(alloc);
    if leg.goes_on() {
        text.push_str(", more")?;
    }
    if let Some(said) = leg.says() {
        text.push_str(format!(in alloc; ", write {:02x}", said.code)?.as_str())?;
        text.push_str(digits(alloc, said.bytes)?.as_str())?;
        if said.pec {
            text.push_str(" pec")?;
        }
    }
    match leg.asked() {
        Some(Asked::Read { code }) => {
            text.push_str(format!(in alloc; ", read {code:02x}")?.as_str())?;
        }
        Some(Asked::Call { code, bytes }) => {
            text.push_str(format!(in alloc; ", call {code:02x}")?.as_str())?;
            text.push_str(digits(alloc, bytes)?.as_str())?;
        }
        None => {}
    }
    Ok(text)
}

/// How many of some bytes a leg takes before the first that it doesn't.
fn take_all(leg: &mut WrittenLeg, bytes: &[u8]) -> Option<usize> {
    let mut taken = 0;
    for &byte in bytes {
        let begins = leg.begins(byte);
        if leg.take(byte) != begins {
            return None;
        }
        if !begins {
            return Some(taken);
        }
        taken = leg.bytes().len();
    }
    Some(taken)
}

fn check_row(alloc: Global, row: &Row) -> Result<(Option<usize>, String), &'static str> {
    let profile = Profile::from_toml(alloc, row.profile.as_bytes()).map_err(|_| "profile")?;
    let device = profile.device(row.device).ok_or("device")?;
    let mut leg = WrittenLeg::new(device, LegPlace::First);
    let _ = take_all(&mut leg, &[0x21, 0x00]);
    leg.restart(device, row.place);
    let taken = take_all(&mut leg, row.bytes);
    let text = told(alloc, &leg).map_err(|_| "memory")?;
    Ok((taken, text))
}

/// Whether each row is taken as far as it says, and told so.
fn check_rows(rt: &impl Abort, alloc: Global, rows: &[Row]) -> Result<(), &'static str> {
    for row in rows {
        let (taken, text) = check_row(alloc, row)?;
        let found = (taken, text.strip_prefix(", ").unwrap_or(""));
        same(rt, row.bytes, found, (Some(row.taken), row.told));
    }
    Ok(())
}

#[test]
fn writes_reads_calls_later_legs_and_long_forms(rt: HostRuntime) -> Result<(), Fail> {
    check_rows(&rt, rt.alloc(), &writes())?;
    check_rows(&rt, rt.alloc(), &others())?;
    Ok(())
}

// The largest block, with its packet error code: 258 bytes after the address.
#[test]
fn a_block_of_255(rt: HostRuntime) -> Result<(), Fail> {
    let profile = Profile::from_toml(rt.alloc(), SAMPLE.as_bytes()).map_err(|_| "profile")?;
    let device = profile.device(0x5a).ok_or("device")?;
    let mut leg = WrittenLeg::new(device, LegPlace::Later);
    ensure(&rt, "the code", leg.take(0x99));
    ensure(&rt, "the count", leg.take(0xff));
    for count in 0..255 {
        ensure(&rt, count, leg.says().is_none());
        ensure(&rt, count, leg.take(0x41));
    }
    ensure(&rt, "one byte short", leg.says().is_none());
    same(
        &rt,
        "bytes that may follow",
        (0..=255u8).filter(|&byte| leg.begins(byte)).count(),
        1,
    );
    Ok(())
}
