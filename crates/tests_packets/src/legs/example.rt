//! The program of `pmb_leg`'s documentation.

use crate::compare::ensure;
use pmb_leg::{Answer, LegPlace, WrittenLeg};
use pmb_table::{Profile, SAMPLE};
use std::test::Fail;

// The program at the head of `pmb_leg`.
#[test]
fn asks_for_an_answer(rt: HostRuntime) -> Result<(), Fail> {
    let profile = Profile::from_toml(rt.alloc(), SAMPLE.as_bytes()).map_err(|_| "profile")?;
    let device = profile.device(0x58).ok_or("no device")?;
    let mut leg = WrittenLeg::new(device, LegPlace::First);
    // (`ask` needs what is asserted here, which `ensure` would not hand on)
    assert!(rt; leg.take(0x88));
    assert!(rt; leg.asked().is_some());
    let mut answer = Answer::at_alert();
    leg.ask(&mut answer);
    ensure(&rt, "a byte of the answer", answer.begins(0xd3));
    Ok(())
}
