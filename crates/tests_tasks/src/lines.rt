//! `build` and `run`.

use pmb_build::build;
use pmb_io::{Io, Tally};
use pmb_run::run;
use pmb_table::{Profile, SAMPLE};
use std::test::Fail;

#[test]
fn builds_each_line(rt: HostRuntime) -> Result<(), Fail> {
    let profile = Profile::from_toml(rt.alloc(), SAMPLE.as_bytes())?;
    let mut reader = Io::new(b"03\nwrite 58\n".as_slice());
    let mut writer = Io::new(Vec::new(rt.alloc()));
    let tally = build(&profile, b"write 58 ", &mut reader, &mut writer)?;
    assert!(rt;
        tally
            == Tally {
                packets: 1,
                refusals: 1
            }
    );
    let written = "S b0 A 03 A P\n# line 2: BadWord at 8\n";
    assert!(rt; writer.into_inner().as_slice() == written.as_bytes());
    Ok(())
}

// 3.3 * 512 is 1689.6, and 1690 is 069ah; 1690 / 512 is 3.30078125.
#[test]
fn runs_each_request(rt: HostRuntime) -> Result<(), Fail> {
    let profile = Profile::from_toml(rt.alloc(), SAMPLE.as_bytes())?;
    let mut reader = Io::new(b"21 3.3\nget 58 21".as_slice());
    let mut writer = Io::new(Vec::new(rt.alloc()));
    let tally = run(rt.alloc(), &profile, b"set 58 ", &mut reader, &mut writer)?;
    assert!(rt;
        tally
            == Tally {
                packets: 2,
                refusals: 0
            }
    );
    let written = "S b0 A 21 A 9a A 06 A P\n# done\nS b0 A 21 A S b1 A 9a A 06 N P\n# 3.30078125\n";
    assert!(rt; writer.into_inner().as_slice() == written.as_bytes());
    Ok(())
}
