//! Packets by hand, and texts before which none is taken.
//!
//! On the sample's bus stand a device at 58h whose address bytes are b0 and b1, with packet error
//! codes allowed, one at 59h without, and one at 5ah that wants them. The codes are those of CRC-8
//! over the bytes before them (SMBus 3.0 section 6.4), in a group over those of their own part.

use crate::compare::same;
use pmb_canonical::{CanonicalReader, TakenPacket};
use pmb_line::line_of;
use pmb_table::{Profile, SAMPLE};
use pmb_transaction_slot::TransactionSlot;
use std::alloc::{AllocError, Global};
use std::test::Fail;

/// A text, what is taken of it, and the line of the transaction.
type Row = (&'static str, usize, usize, &'static str);

const TAKEN: [Row; 28] = [
    ("S b0 A 03 A P\n", 14, 6, "write 58 03"),
    ("S b0 A 03 A 46 A P\nS b0", 19, 8, "write 58 03 pec"),
    ("S b0 A 21 A 00 A 10 A P\n", 24, 10, "write 58 21 00 10"),
    (
        "S b0 A 88 A S b1 A 00 A 08 N P\n",
        31,
        13,
        "read 58 88 : 00 08",
    ),
    (
        "S b0 A 1b A 01 A 7a A S b1 A 01 A 10 N P\n",
        41,
        17,
        "call 58 1b 7a : 10",
    ),
    (
        "S b0 A 1b A 01 A 7a A S b1 A 01 A 10 A 7a N P\n",
        46,
        19,
        "call 58 1b 7a : 10 pec",
    ),
    (
        "S b0 A 30 A 02 A d0 A 01 A S b1 A 05 A 03 A 00 A 02 A 00 A 01 N P\nS 19",
        66,
        27,
        "call 58 30 d0 01 : 03 00 02 00 01",
    ),
    (
        "S b0 A 03 A S b2 A 03 A P\nS",
        26,
        11,
        "write 58 03 + 59 03",
    ),
    (
        "S b0 A 21 A 00 A 10 A c0 A S b4 A 03 A 12 A S b2 A 00 A 01 A P\n",
        63,
        26,
        "write 58 21 00 10 pec + 5a 03 pec + 59 00 01",
    ),
    (
        "S b4 A 99 A 02 A 41 A 42 A ef A S b0 A 03 A P\n",
        46,
        19,
        "write 5a 99 41 42 pec + 58 03",
    ),
    // an address that is refused, of no device and of one
    ("S 40 N P\n", 9, 4, "refused 20"),
    ("S b0 N P\nS", 9, 4, "refused 58"),
    // a byte that is refused: a code, whatever it is, data, and where a packet error code may come
    ("S b0 A c8 N P\n", 14, 6, "refused 58 c8"),
    ("S b0 A 21 A 00 N P\nS 19", 19, 8, "refused 58 21 00"),
    ("S b0 A 03 A 47 N P\n", 19, 8, "refused 58 03 47"),
    (
        "S b0 A 1b A 01 A 7a A 10 N P\n",
        29,
        12,
        "refused 58 1b 01 7a 10",
    ),
    // to be read, after a code and after the data of a call
    ("S b0 A 88 A S b1 N P\n", 21, 9, "refused 58 88 read"),
    (
        "S b0 A 1b A 01 A 7a A S b1 N P\n",
        31,
        13,
        "refused 58 1b 01 7a read",
    ),
    // after parts of a group: an address, of no device and of one
    ("S b0 A 03 A S 40 N P\n", 21, 9, "refused 58 03 + 20"),
    ("S b0 A 03 A S b2 N P\nS", 21, 9, "refused 58 03 + 59"),
    // a code, data, and where a packet error code may come, which is 46
    (
        "S b0 A 03 A S b2 A 03 N P\n",
        26,
        11,
        "refused 58 03 + 59 03",
    ),
    (
        "S b0 A 03 A S b2 A 21 A 00 N P\nS 19",
        31,
        13,
        "refused 58 03 + 59 21 00",
    ),
    (
        "S b2 A 03 A S b4 A 03 A 12 A S b0 A 03 A 47 N P\n",
        48,
        20,
        "refused 59 03 + 5a 03 pec + 58 03 47",
    ),
    // a code that is no command's
    (
        "S b0 A 03 A S b2 A c8 N P\n",
        26,
        11,
        "refused 58 03 + 59 c8",
    ),
    // an answer at the Alert Response Address, of a device or of none, and no answer
    ("S 19 A b0 N P\n", 14, 6, "alert b0"),
    ("S 19 A 41 N P\nS b0 ", 14, 6, "alert 41"),
    ("S 19 A b0 A f3 N P\n", 19, 8, "alert b0 pec"),
    ("S 19 N P\n", 9, 4, "alert none"),
];

const NOT_TAKEN: [&str; 74] = [
    "",
    "S",
    "S b0 A 03 A P",
    "S b0 A 03 A P ",
    "S b0 A 03 A P\r\n",
    "S  b0 A 03 A P\n",
    "S B0 A 03 A P\n",
    "S b0 A 03 A # a comment\nP\n",
    // the packet error code is 46
    "S b0 A 03 A 47 A P\n",
    // what is refused, spelled in another way or cut off
    "S b0 N P",
    "S b0 N P ",
    "S b0 N  P\n",
    "S B0 N P\n",
    "S b0 A 03 n P\n",
    "S b0 A 03 N P",
    "S b0 A 88 A S b1 N P",
    // no device is at 57h to take its address
    "S ae A 03 N P\n",
    // a code that is no command's was acknowledged
    "S b0 A c8 A 00 N P\n",
    // a byte more after a packet error code, and after data where the device knows no code
    "S b0 A 03 A 46 A 00 N P\n",
    "S b2 A 03 A 47 N P\n",
    // and after the data of a call, which has its code after the reply
    "S b0 A 30 A 02 A d0 A 01 A 55 N P\n",
    // a wrong packet error code was acknowledged
    "S b0 A 03 A 47 A 00 N P\n",
    // NACK, and then more than STOP
    "S b0 A 03 N S b0 A 03 A P\n",
    "S b0 N S b0 A 03 A P\n",
    "S b0 A 03 N N P\n",
    // a command that is not read, a part of a call, nothing that was asked, another device
    "S b0 A 03 A S b1 N P\n",
    "S b0 A 1b A 02 A 7a A S b1 N P\n",
    "S b0 A S b1 N P\n",
    "S b0 A 88 A S b3 N P\n",
    "S b1 N P\n",
    // the last byte of a reply is acknowledged
    "S b0 A 88 A S b1 A 00 A 08 A P\n",
    // no device is at 57h
    "S ae A 03 A P\n",
    // another device is read than was asked
    "S b0 A 88 A S b3 A 00 A 08 N P\n",
    // a group with a second part for one device
    "S b0 A 03 A S b2 A 03 A S b0 A 03 A P\n",
    "S b0 A 03 A S b0 A 03 A P\n",
    // the packet error code of its first part is 46, that of its second part 12
    "S b0 A 03 A 47 A S b4 A 03 A 12 A P\n",
    "S b0 A 03 A 46 A S b4 A 03 A 13 A P\n",
    // that of both parts together is 37
    "S b0 A 03 A S b4 A 03 A 37 A P\n",
    // none is sent to a device that wants one, and one to a device that knows none
    "S b0 A 03 A S b4 A 03 A P\n",
    "S b0 A 03 A S b2 A 03 A 6c A P\n",
    // a part for a device that isn't there, and parts without a code and without an address
    "S b0 A 03 A S ae A 03 A P\n",
    "S b0 A 03 A S b2 A P\n",
    "S b0 A 03 A S P\n",
    // a group that is cut off
    "S b0 A 03 A S b2 A 03 A P",
    "S b0 A 03 A S b2 A 03 A ",
    // a read after a part
    "S b0 A 03 A S b2 A 88 A S b3 A 00 A 08 N P\n",
    // a part after what looks like a read
    "S b0 A 88 A S b1 A 00 A 08 N S b2 A 03 A P\n",
    // data too many, and too few
    "S b0 A 21 A 00 A 10 A 00 A 00 A P\n",
    "S b0 A 21 A 00 A P\n",
    // another device replies than was called
    "S b0 A 1b A 01 A 7a A S b3 A 01 A 10 N P\n",
    // a command that isn't called
    "S b0 A 21 A 00 A 10 A S b1 A 00 A 10 N P\n",
    // fewer bytes are sent than the count says, and more
    "S b0 A 1b A 02 A 7a A S b1 A 01 A 10 N P\n",
    "S b0 A 1b A 00 A 7a A S b1 A 01 A 10 N P\n",
    // a packet error code, a2, after the written leg
    "S b0 A 1b A 01 A 7a A a2 A S b1 A 01 A 10 N P\n",
    // the packet error code of the call is 7a
    "S b0 A 1b A 01 A 7a A S b1 A 01 A 10 A 7b N P\n",
    // no code is sent, and no reply
    "S b0 A S b1 A 01 A 10 N P\n",
    // what is refused after a part, spelled in another way or cut off
    "S b0 A 03 A S 40 N P",
    "S b0 A 03 A S 40 N  P\n",
    "S b0 A 03 A S 4O N P\n",
    "S b0 A 03 A S b2 A 03 N P ",
    // and then more than STOP
    "S b0 A 03 A S 40 N S b2 A 03 A P\n",
    // the device of the part, for its address and for a byte
    "S b0 A 03 A S b0 N P\n",
    "S b0 A 03 A S b0 A 03 N P\n",
    // no device is at 57h, and a code that is no command's was acknowledged
    "S b0 A 03 A S ae A 03 N P\n",
    "S b0 A 03 A S b2 A c8 A 00 N P\n",
    // the data of a call, which no part comes before
    "S b2 A 03 A S b0 A 30 A 02 N P\n",
    // the packet error code of the part is 46
    "S b0 A 03 A 47 A S 40 N P\n",
    // to be read
    "S b0 A 03 A S b2 A 88 A S b3 N P\n",
    // an alert that is cut off, and one whose byte is acknowledged
    "S 19 A b0 N P",
    "S 19 A b0 A P\n",
    "S 19 A P\n",
    // a byte more, and a wrong packet error code
    "S 19 A b0 A f3 A 00 N P\n",
    "S 19 A b0 A 00 N P\n",
    // the Alert Response Address is not written
    "S 18 A b0 N P\n",
];

#[test]
fn takes_each_row(rt: HostRuntime) -> Result<(), Fail> {
    let profile = Profile::from_toml(rt.alloc(), SAMPLE.as_bytes())?;
    let mut canonical = CanonicalReader::new();
    let mut kept = TransactionSlot::new();
    for (text, used, events, line) in TAKEN {
        let taken = canonical.take(&mut kept, &profile, text.as_bytes());
        same(&rt, text, taken, Some(TakenPacket { used, events }));
        same(&rt, text, line_of(kept.last()).as_str(), line);
    }
    Ok(())
}

#[test]
fn leaves_each_row(rt: HostRuntime) -> Result<(), Fail> {
    let profile = Profile::from_toml(rt.alloc(), SAMPLE.as_bytes())?;
    let mut canonical = CanonicalReader::new();
    let mut kept = TransactionSlot::new();
    for text in NOT_TAKEN {
        same(
            &rt,
            text,
            canonical.take(&mut kept, &profile, text.as_bytes()),
            None,
        );
    }
    Ok(())
}

/// The device of each of so many address bytes, from 20 on.
fn devices(alloc: Global, count: u8) -> Result<String, AllocError> {
    let mut text = String::new(alloc);
    for index in 0..count {
        let address = index.wrapping_add(0x10);
        let device = format!(in alloc; "[[device]]\naddress = {address}\npec = \"off\"\n")?;
        text.push_str(device.as_str())?;
    }
    Ok(text)
}

/// A group of so many parts, to the devices with these address bytes, and what ends it.
fn group(alloc: Global, count: u8, end: &str) -> Result<String, AllocError> {
    let mut text = String::new(alloc);
    for index in 0..count {
        let to_write = index.wrapping_add(0x10).wrapping_mul(2);
        let part = format!(in alloc; "S {to_write:02x} A 03 A ")?;
        text.push_str(part.as_str())?;
    }
    text.push_str(end)?;
    Ok(text)
}

#[test]
fn takes_sixteen_parts(rt: HostRuntime) -> Result<(), Fail> {
    let alloc = rt.alloc();
    let profile = Profile::from_toml(alloc, devices(alloc, 17)?.as_bytes())?;
    let mut canonical = CanonicalReader::new();
    let mut kept = TransactionSlot::new();
    let sixteen = TakenPacket {
        used: 194,
        events: 81,
    };
    same(
        &rt,
        "16 parts",
        canonical.take(&mut kept, &profile, group(alloc, 16, "P\n")?.as_bytes()),
        Some(sixteen),
    );
    same(
        &rt,
        "17 parts",
        canonical.take(&mut kept, &profile, group(alloc, 17, "P\n")?.as_bytes()),
        None,
    );
    Ok(())
}

#[test]
fn takes_what_is_refused_after_fifteen_parts(rt: HostRuntime) -> Result<(), Fail> {
    let alloc = rt.alloc();
    let profile = Profile::from_toml(alloc, devices(alloc, 17)?.as_bytes())?;
    let mut canonical = CanonicalReader::new();
    let mut kept = TransactionSlot::new();
    let refused = TakenPacket {
        used: 189,
        events: 79,
    };
    same(
        &rt,
        "15 parts and a refused one",
        canonical.take(
            &mut kept,
            &profile,
            group(alloc, 15, "S 40 N P\n")?.as_bytes(),
        ),
        Some(refused),
    );
    same(
        &rt,
        "16 parts and a refused one",
        canonical.take(
            &mut kept,
            &profile,
            group(alloc, 16, "S 40 N P\n")?.as_bytes(),
        ),
        None,
    );
    Ok(())
}

/// The packet error code of a call that sends 255 bytes 11 with COEFFICIENTS, and of its reply of
/// 255 bytes 22.
const FULL_BLOCKS_PEC: &str = "ad";

#[test]
fn takes_two_full_blocks(rt: HostRuntime) -> Result<(), Fail> {
    let profile = Profile::from_toml(rt.alloc(), SAMPLE.as_bytes())?;
    let mut canonical = CanonicalReader::new();
    let mut kept = TransactionSlot::new();
    let mut text = String::new(rt.alloc());
    text.push_str("S b0 A 30 A ff A ")?;
    for _ in 0..255 {
        text.push_str("11 A ")?;
    }
    text.push_str("S b1 A ff A ")?;
    for _ in 0..255 {
        text.push_str("22 A ")?;
    }
    text.push_str(FULL_BLOCKS_PEC)?;
    text.push_str(" N P\n")?;
    // 516 bytes, each with ACK or NACK in five characters, two STARTs and a STOP, of two each
    same(
        &rt,
        "the longest packet",
        canonical.take(&mut kept, &profile, text.as_bytes()),
        Some(TakenPacket {
            used: 2586,
            events: 1035,
        }),
    );
    Ok(())
}
