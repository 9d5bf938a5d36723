//! Each kind of packet is taken at once, where its canonical text lies whole in a piece, and word by
//! word in another spelling.
//!
//! A scan that took none at once would keep all its promises, and be slow. So here is a row for each
//! kind of `docs/packets.md`, and for each form of data. On the sample's bus stand a device at 58h
//! whose address bytes are b0 and b1, with packet error codes allowed, one at 59h without, and one at
//! 5ah that wants them. The codes are those of CRC-8 over the bytes before them (SMBus 3.0 section
//! 6.4), in a group over those of their own part.

use crate::compare::same;
use crate::scan::log::Log;
use plain_packets::LONG_FORMS;
use pmb_io::{Io, Waiting};
use pmb_scan::Scan;
use pmb_table::{Profile, SAMPLE};
use std::alloc::Global;
use std::process::Abort;
use std::test::Fail;

/// A kind of packet, the canonical text of one, and how many events that spells.
type Kind = (&'static str, &'static str, usize);

#[rattlefmt::skip]
static KINDS: [Kind; 45] = [
    // writes: the device's code may follow (58h), doesn't (59h) or does (5ah)
    ("a write of nothing", "S b0 A 03 A P\n", 6),
    ("with a code", "S b0 A 03 A 46 A P\n", 8),
    ("to a device that knows no code", "S b2 A 03 A P\n", 6),
    ("to a device that wants one", "S b4 A 03 A 12 A P\n", 8),
    ("a write of a byte", "S b0 A 00 A 01 A P\n", 8),
    ("with a code", "S b0 A 00 A 01 A ed A P\n", 10),
    ("a write of a word", "S b0 A 21 A 00 A 18 A P\n", 10),
    ("with a code", "S b0 A 21 A 00 A 18 A f8 A P\n", 12),
    ("a write of a block", "S b0 A 99 A 02 A 41 A 42 A P\n", 12),
    ("with a code", "S b0 A 99 A 02 A 41 A 42 A 60 A P\n", 14),
    ("a write of an empty block", "S b0 A 99 A 00 A P\n", 8),
    ("with a code", "S b0 A 99 A 00 A b6 A P\n", 10),
    // groups
    ("a group of two parts", "S b0 A 03 A S b2 A 03 A P\n", 11),
    ("a group of three, with codes and without", "S b0 A 21 A 00 A 18 A f8 A S b4 A 03 A 12 A S b2 A 99 A 01 A 41 A P\n", 28),
    // reads
    ("a read of a byte", "S b0 A 98 A S b1 A 33 N P\n", 11),
    ("with a code", "S b0 A 98 A S b1 A 33 A a3 N P\n", 13),
    ("a read of a word", "S b0 A 88 A S b1 A 00 A d3 N P\n", 13),
    ("with a code", "S b0 A 88 A S b1 A 00 A d3 A f6 N P\n", 15),
    ("from a device that knows no code", "S b2 A 88 A S b3 A 00 A d3 N P\n", 13),
    ("from a device that wants one", "S b4 A 88 A S b5 A 00 A d3 A d2 N P\n", 15),
    ("a read of a block", "S b0 A 99 A S b1 A 02 A 41 A 42 N P\n", 15),
    ("with a code", "S b0 A 99 A S b1 A 02 A 41 A 42 A 48 N P\n", 17),
    ("a read of an empty block", "S b0 A 99 A S b1 A 00 N P\n", 11),
    ("with a code", "S b0 A 99 A S b1 A 00 A 51 N P\n", 13),
    // calls
    ("a call with a block", "S b0 A 1b A 01 A 7a A S b1 A 01 A 10 N P\n", 17),
    ("with a code", "S b0 A 1b A 01 A 7a A S b1 A 01 A 10 A 7a N P\n", 19),
    // refused, with NACK: an address, of no device and of one
    ("an address without a device", "S 40 N P\n", 4),
    ("an address", "S b0 N P\n", 4),
    // a byte: a code, whatever it is, data, and where a packet error code may come, which is 46
    ("a code", "S b0 A 03 N P\n", 6),
    ("a code of no command", "S b0 A c8 N P\n", 6),
    ("data", "S b0 A 21 A 00 N P\n", 8),
    ("the last of the data", "S b0 A 21 A 00 A 18 N P\n", 10),
    ("a wrong packet error code", "S b0 A 03 A 47 N P\n", 8),
    ("a right packet error code", "S b0 A 03 A 46 N P\n", 8),
    ("data of a call", "S b0 A 1b A 01 A 7a N P\n", 10),
    // to be read
    ("to be read", "S b0 A 88 A S b1 N P\n", 9),
    ("to be read, after the data of a call", "S b0 A 1b A 01 A 7a A S b1 N P\n", 13),
    // after the parts of a group
    ("an address without a device, after a part", "S b0 A 03 A S 40 N P\n", 9),
    ("an address, after a part with a code", "S b0 A 03 A 46 A S b2 N P\n", 11),
    ("a code, after a part", "S b0 A 03 A S b2 A 03 N P\n", 11),
    ("data, after two parts", "S b0 A 03 A S b4 A 03 A 12 A S b2 A 21 A 00 N P\n", 20),
    ("a packet error code, after a part", "S b2 A 03 A S b0 A 03 A 47 N P\n", 13),
    // alerts
    ("an alert", "S 19 A b0 N P\n", 6),
    ("with a code", "S 19 A b0 A f3 N P\n", 8),
    ("an alert that no device answers", "S 19 N P\n", 4),
];

/// Those of the device of [`LONG_FORMS`].
#[rattlefmt::skip]
static LONG_KINDS: [Kind; 8] = [
    ("a write of four bytes", "S 20 A e0 A 01 A 02 A 03 A 04 A P\n", 14),
    ("with a code", "S 20 A e0 A 01 A 02 A 03 A 04 A e3 A P\n", 16),
    ("a read of four bytes", "S 20 A e0 A S 21 A 01 A 02 A 03 A 04 N P\n", 17),
    ("with a code", "S 20 A e0 A S 21 A 01 A 02 A 03 A 04 A e5 N P\n", 19),
    ("a read of eight bytes", "S 20 A e1 A S 21 A 01 A 02 A 03 A 04 A 05 A 06 A 07 A 08 N P\n", 25),
    ("with a code", "S 20 A e1 A S 21 A 01 A 02 A 03 A 04 A 05 A 06 A 07 A 08 A 22 N P\n", 27),
    ("a call with a word", "S 20 A e2 A 01 A 02 A S 21 A 03 A 04 N P\n", 17),
    ("with a code", "S 20 A e2 A 01 A 02 A S 21 A 03 A 04 A 17 N P\n", 19),
];

/// What a scan tells of a text that comes in two pieces.
fn told(alloc: Global, profile: &Profile, front: &[u8], back: &[u8]) -> Result<Log, Fail> {
    let mut scan = Scan::new(profile);
    let mut log = Log::default();
    let mut waiting = Waiting::new();
    let mut writer = Io::new(Vec::new(alloc));
    for piece in [front, back] {
        let _ = scan.take_words(piece, &mut log, &mut waiting, &mut writer)?;
    }
    let _ = scan.take_end(&mut log, &mut waiting, &mut writer)?;
    Ok(log)
}

/// Each kind is taken at once, whole; cut anywhere it is taken word by word, and comes to the same.
fn check_kinds<R: Abort>(rt: &R, alloc: Global, profile: &str, kinds: &[Kind]) -> Result<(), Fail> {
    let profile = Profile::from_toml(alloc, profile.as_bytes())?;
    for row in kinds {
        let (kind, text, events) = *row;
        let text = text.as_bytes();
        let whole = told(alloc, &profile, text, &[])?;
        same(
            rt,
            (kind, "whole"),
            (whole.wholes, whole.events_at_once, whole.singles),
            (1, events, 0),
        );
        for cut in 1..text.len() {
            let (front, back) = text.split_at(cut);
            let apart = told(alloc, &profile, front, back)?;
            same(
                rt,
                (kind, "cut at", cut),
                (apart.wholes, apart.events_at_once, apart.singles),
                (0, 0, 1),
            );
            same(
                rt,
                (kind, "cut at", cut),
                apart.events.as_slice(),
                whole.events.as_slice(),
            );
        }
    }
    Ok(())
}

#[test]
fn each_kind_is_taken_at_once(rt: HostRuntime) -> Result<(), Fail> {
    check_kinds(&rt, rt.alloc(), SAMPLE, KINDS.as_slice())
}

#[test]
fn long_kinds_are_taken_at_once(rt: HostRuntime) -> Result<(), Fail> {
    check_kinds(&rt, rt.alloc(), LONG_FORMS, LONG_KINDS.as_slice())
}

/// A text, how many of its packets are taken at once, how many word by word, and how many events are
/// refused.
type Mixed = (&'static str, usize, usize, usize);

#[rattlefmt::skip]
static MIXED: [Mixed; 22] = [
    ("S b0 A 03 A P\nS b0 A 03 A P\n", 2, 0, 0),
    // after comments and separators
    ("# 1\n \t\r\n# 2\nS b0 A 03 A P\n", 1, 0, 0),
    ("S b0 A 03 A P\n\nS b0 A 03 A P\n", 2, 0, 0),
    // the first has no LF after STOP, but a separator, a comment or CR
    ("S b0 A 03 A P S b0 A 03 A P\n", 1, 1, 0),
    ("S b0 A 03 A P # 1\nS b0 A 03 A P\n", 1, 1, 0),
    ("S b0 A 03 A P\r\nS b0 A 03 A P\n", 1, 1, 0),
    // directly before a comment, which the word of its STOP ends in: so the next one isn't either
    ("S b0 A 03 A P# 1\nS b0 A 03 A P\n", 0, 2, 0),
    // the last one has nothing after STOP
    ("S b0 A 03 A P\nS b0 A 03 A P", 1, 1, 0),
    // in a comment, and in one that a piece ends in
    ("# S b0 A 03 A P\n", 0, 0, 0),
    ("S b0 A 03 A P\n# S b0 A 03 A P", 1, 0, 0),
    // another separator between words, more than one, a comment, and a byte in upper case
    ("S\tb0 A 03 A P\n", 0, 1, 0),
    ("S b0 A  03 A P\n", 0, 1, 0),
    ("S b0 A # 1\n03 A P\n", 0, 1, 0),
    ("S B0 A 03 A P\n", 0, 1, 0),
    // what is no packet: a byte is read without a command, the packet error code is 46, no device is
    // at 20h, a second part for one device, an ACK after an alert
    ("S b1 A 00 N P\n", 0, 0, 1),
    ("S b0 A 03 A 47 A P\n", 0, 0, 1),
    ("S 40 A 03 A P\n", 0, 0, 1),
    ("S b0 A 03 A S b0 A 03 A P\n", 0, 0, 1),
    ("S 19 A b0 A P\n", 0, 0, 1),
    // what is passed over, and a packet after that
    ("S b1 A 00 N S b0 A 03 A P\n", 0, 0, 1),
    ("S b1 A 00 N P\nS b0 A 03 A P\n", 1, 0, 1),
    // a STOP that is refused is the first and the last that is passed over
    ("S P\nS b0 A 03 A P\n", 1, 0, 1),
];

/// The table. A call keeps the proof of a loop over it from carrying the table.
fn mixed() -> &'static [Mixed] {
    &MIXED
}

#[test]
fn texts_of_all_sorts_are_told(rt: HostRuntime) -> Result<(), Fail> {
    let profile = Profile::from_toml(rt.alloc(), SAMPLE.as_bytes())?;
    for row in mixed() {
        let (text, wholes, singles, refusals) = *row;
        let log = told(rt.alloc(), &profile, text.as_bytes(), &[])?;
        same(
            &rt,
            text,
            (log.wholes, log.singles, log.places.len()),
            (wholes, singles, refusals),
        );
        same(&rt, text, log.bytes.as_slice(), text.as_bytes());
    }
    Ok(())
}
