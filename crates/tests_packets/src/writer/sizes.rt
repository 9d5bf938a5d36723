//! Groups, blocks and refused bytes of all sizes.

ghost use Rattle.std.specs.Prelude.{◌≤◌};

use crate::compare::same;
use crate::writer::says::{answer, list};
use arrayvec::ArrayVec;
use plain_packets::seventeen_devices;
use pmb_table::{Profile, SAMPLE};
use pmb_transaction::{Part, Transaction};
use std::alloc::{AllocError, Global};
use std::test::Fail;

fn clear_faults(address: u8) -> Part {
    Part {
        addr: address,
        code: 0x03,
        bytes: ArrayVec::new(),
        pec: false,
    }
}

/// A group to so many devices from 10h on.
fn group<const N: usize>(size: u8) -> ArrayVec<Part, N> {
    let mut parts = ArrayVec::new();
    for number in 0..size {
        let _ = parts.try_push(clear_faults(0x10u8.saturating_add(number)));
    }
    parts
}

/// The legs of such a group.
fn group_text(alloc: Global, size: u8) -> Result<String, AllocError> {
    let mut text = String::new(alloc);
    for number in 0..size {
        let address = 0x20u8.saturating_add(number.saturating_mul(2));
        text.push_str(format!(in alloc; "S {address:02x} A 03 A ")?.as_str())?;
    }
    Ok(text)
}

// A 17th part has no room in a `Transaction`.
#[test]
fn groups_of_up_to_sixteen(rt: HostRuntime) -> Result<(), Fail> {
    let text = seventeen_devices(rt.alloc())?;
    let profile = Profile::from_toml(rt.alloc(), text.as_bytes()).map_err(|_| "profile")?;
    for size in [1u8, 2, 15, 16] {
        let write = Transaction::Write { parts: group(size) };
        let mut expected = group_text(rt.alloc(), size)?;
        expected.push_str("P\n")?;
        same(
            &rt,
            (size, "parts"),
            answer(rt.alloc(), &profile, &write)?.as_str(),
            expected.as_str(),
        );
    }
    Ok(())
}

#[test]
fn refused_behind_none_and_fifteen(rt: HostRuntime) -> Result<(), Fail> {
    let text = seventeen_devices(rt.alloc())?;
    let profile = Profile::from_toml(rt.alloc(), text.as_bytes()).map_err(|_| "profile")?;
    for size in [0u8, 1, 15] {
        let refused = Transaction::Refused {
            parts: group(size),
            addr: 0x20,
            sent: list(&[0x21, 0x00]),
            at_read: false,
        };
        let mut expected = group_text(rt.alloc(), size)?;
        expected.push_str("S 40 A 21 A 00 N P\n")?;
        same(
            &rt,
            (size, "parts"),
            answer(rt.alloc(), &profile, &refused)?.as_str(),
            expected.as_str(),
        );
    }
    Ok(())
}

const LETTERS: [u8; 258] = [0x41; 258];

/// A text so many times.
fn repeated(alloc: Global, text: &str, times: usize) -> Result<String, AllocError> {
    let mut all = String::new(alloc);
    for _ in 0..times {
        all.push_str(text)?;
    }
    Ok(all)
}

#[test]
fn blocks_written(rt: HostRuntime) -> Result<(), Fail> {
    let profile = Profile::from_toml(rt.alloc(), SAMPLE.as_bytes()).map_err(|_| "sample")?;
    for size in [0usize, 1, 254, 255] {
        let mut parts = ArrayVec::new();
        parts.push(Part {
            addr: 0x58,
            code: 0x99,
            bytes: list(&LETTERS[..size]),
            pec: false,
        });
        let letters = repeated(rt.alloc(), "41 A ", size)?;
        let letters = letters.as_str();
        let expected = format!(in rt.alloc(); "S b0 A 99 A {size:02x} A {letters}P\n")?;
        same(
            &rt,
            (size, "bytes"),
            answer(rt.alloc(), &profile, &Transaction::Write { parts })?.as_str(),
            expected.as_str(),
        );
    }
    Ok(())
}

#[test]
fn blocks_read(rt: HostRuntime) -> Result<(), Fail> {
    let profile = Profile::from_toml(rt.alloc(), SAMPLE.as_bytes()).map_err(|_| "sample")?;
    for size in [1usize, 254, 255] {
        let read = Transaction::Read {
            addr: 0x58,
            code: 0x99,
            reply: list(&LETTERS[..size]),
            pec: false,
        };
        let letters = repeated(rt.alloc(), "41 A ", size - 1)?;
        let letters = letters.as_str();
        let expected = format!(in rt.alloc(); "S b0 A 99 A S b1 A {size:02x} A {letters}41 N P\n")?;
        same(
            &rt,
            (size, "bytes"),
            answer(rt.alloc(), &profile, &read)?.as_str(),
            expected.as_str(),
        );
    }
    Ok(())
}

/// Bytes that begin a block of 255, so many in all, of which the last is refused.
fn refused_block(at_read: bool, size: usize) -> Transaction
    requires some { 2 ≤ size }
    requires few { size ≤ 258 }
{
    let mut sent = LETTERS;
    sent[0] = 0x99;
    sent[1] = 0xff;
    Transaction::Refused {
        parts: ArrayVec::new(),
        addr: 0x58,
        sent: list(&sent[..size]),
        at_read,
    }
}

#[test]
fn long_blocks_refused(rt: HostRuntime) -> Result<(), Fail> {
    let profile = Profile::from_toml(rt.alloc(), SAMPLE.as_bytes()).map_err(|_| "sample")?;
    for size in [3usize, 257, 258] {
        let letters = repeated(rt.alloc(), "41 A ", size - 3)?;
        let letters = letters.as_str();
        let expected = format!(in rt.alloc(); "S b0 A 99 A ff A {letters}41 N P\n")?;
        same(
            &rt,
            (size, "bytes"),
            answer(rt.alloc(), &profile, &refused_block(false, size))?.as_str(),
            expected.as_str(),
        );
    }
    Ok(())
}
