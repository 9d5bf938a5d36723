//! The program of `pmb_registers`' documentation.

use crate::compare::{ensure, same};
use crate::registers::held::holds;
use pmb_registers::Registers;
use pmb_table::{Profile, SAMPLE};
use std::test::Fail;

// The program at the head of `pmb_registers`.
#[test]
fn writes_a_register(rt: HostRuntime) -> Result<(), Fail> {
    let profile = Profile::from_toml(rt.alloc(), SAMPLE.as_bytes()).map_err(|_| "profile")?;
    let device = profile.device(0x58).ok_or("no device")?;
    let mut registers = Registers::new(rt.alloc(), device)?;
    registers.write(0x21, &[0x00, 0x18]);
    ensure(&rt, "VOUT_COMMAND", holds(&registers, 0, 0x21, b"\x00\x18"));
    Ok(())
}

#[test]
fn begins_on_page_0(rt: HostRuntime) -> Result<(), Fail> {
    let profile = Profile::from_toml(rt.alloc(), SAMPLE.as_bytes()).map_err(|_| "profile")?;
    let device = profile.device(0x59).ok_or("no device")?;
    let registers = Registers::new(rt.alloc(), device)?;
    same(&rt, "address", registers.device().address(), 0x59);
    same(&rt, "PAGE", registers.page(), 0);
    Ok(())
}
