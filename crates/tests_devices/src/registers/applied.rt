//! What transactions make of a device's registers.

use crate::compare::{ensure, same};
use crate::registers::held::holds;
use arrayvec::ArrayVec;
use plain_packets::part;
use pmb_registers::Registers;
use pmb_table::{Profile, SAMPLE};
use pmb_transaction::Transaction;
use std::test::Fail;

/// The selected page, the bytes after the address 58h of a leg that was refused, whether that was
/// at the read, and what STATUS_CML of page 0 then holds.
type Row = (u8, &'static [u8], bool, &'static [u8]);

/// The rows of the table. A call keeps the proof of a loop over them from carrying the table.
fn rows() -> &'static [Row] {
    &REFUSED
}

/// Refused legs, and the bits that they set.
static REFUSED: [Row; 10] = [
    (0, b"", false, b"\x00"),
    (0, b"\xc8", false, b"\x80"),
    (0, b"\x00\x05", false, b"\x40"),
    (0, b"\x03\x47", false, b"\x20"),
    (0, b"\x30\x02\x21\x01", true, b"\x40"),
    (0, b"\x1a\x01\x21", true, b"\x80"),
    (0xff, b"\x88", true, b"\x40"),
    (0xff, b"\xc8", false, b"\x80"),
    (1, b"\xc8", false, b"\x00"),
    (0, b"\x88", true, b"\x00"),
];

#[test]
fn each_part_of_a_group_that_is_its_own_acts(rt: HostRuntime) -> Result<(), Fail> {
    let profile = Profile::from_toml(rt.alloc(), SAMPLE.as_bytes()).map_err(|_| "profile")?;
    let device = profile.device(0x58).ok_or("no device")?;
    let mut registers = Registers::new(rt.alloc(), device)?;
    let mut parts = ArrayVec::new();
    let _ = parts.try_push(part(0x59, 0x21, &[0x00, 0x19], false));
    let _ = parts.try_push(part(0x58, 0x00, &[1], false));
    let _ = parts.try_push(part(0x58, 0x21, &[0x00, 0x18], false));
    registers.apply(&Transaction::Write { parts });
    same(&rt, "its page", registers.page(), 1);
    ensure(&rt, "page 0", holds(&registers, 0, 0x21, b"\x00\x00"));
    ensure(&rt, "page 1", holds(&registers, 1, 0x21, b"\x00\x18"));
    registers.apply(&Transaction::NoAlert);
    same(&rt, "no alert", registers.page(), 1);
    Ok(())
}

#[test]
fn each_refused_leg_is_noted(rt: HostRuntime) -> Result<(), Fail> {
    let profile = Profile::from_toml(rt.alloc(), SAMPLE.as_bytes()).map_err(|_| "profile")?;
    let device = profile.device(0x58).ok_or("no device")?;
    for (i, (page, bytes, at_read, held)) in rows().iter().enumerate() {
        let mut registers = Registers::new(rt.alloc(), device)?;
        registers.write(0x00, &[*page]);
        let mut sent = ArrayVec::new();
        let _ = sent.try_extend_from_slice(bytes);
        registers.apply(&Transaction::Refused {
            parts: ArrayVec::new(),
            addr: 0x58,
            sent,
            at_read: *at_read,
        });
        ensure(&rt, i, holds(&registers, 0, 0x7e, held));
    }
    Ok(())
}

#[test]
fn the_parts_in_front_of_a_refusal_act_before_it_is_noted(rt: HostRuntime) -> Result<(), Fail> {
    let profile = Profile::from_toml(rt.alloc(), SAMPLE.as_bytes()).map_err(|_| "profile")?;
    let device = profile.device(0x58).ok_or("no device")?;
    let mut registers = Registers::new(rt.alloc(), device)?;
    let mut parts = ArrayVec::new();
    let _ = parts.try_push(part(0x58, 0x00, &[1], false));
    let mut sent = ArrayVec::new();
    let _ = sent.try_push(0xc8);
    registers.apply(&Transaction::Refused {
        parts,
        addr: 0x59,
        sent,
        at_read: false,
    });
    same(&rt, "its page", registers.page(), 1);
    ensure(&rt, "page 0", holds(&registers, 0, 0x7e, b"\x00"));
    ensure(&rt, "page 1", holds(&registers, 1, 0x7e, b"\x00"));
    Ok(())
}

#[test]
fn what_is_read_or_called_changes_nothing(rt: HostRuntime) -> Result<(), Fail> {
    let profile = Profile::from_toml(rt.alloc(), SAMPLE.as_bytes()).map_err(|_| "profile")?;
    let device = profile.device(0x58).ok_or("no device")?;
    let mut registers = Registers::new(rt.alloc(), device)?;
    let mut reply = ArrayVec::new();
    let _ = reply.try_extend_from_slice(&[0x34, 0x12]);
    registers.apply(&Transaction::Read {
        addr: 0x58,
        code: 0x21,
        reply,
        pec: false,
    });
    ensure(&rt, "a read", holds(&registers, 0, 0x21, b"\x00\x00"));
    let mut bytes = ArrayVec::new();
    let _ = bytes.try_push(0x7a);
    let mut reply = ArrayVec::new();
    let _ = reply.try_push(0x10);
    registers.apply(&Transaction::Call {
        addr: 0x58,
        code: 0x1b,
        bytes,
        reply,
        pec: false,
    });
    ensure(&rt, "a call", holds(&registers, 0, 0x1b, b"\x00\x00"));
    registers.apply(&Transaction::Alert {
        byte: 0xb0,
        pec: false,
    });
    same(&rt, "its page", registers.page(), 0);
    ensure(&rt, "STATUS_CML", holds(&registers, 0, 0x7e, b"\x00"));
    Ok(())
}
