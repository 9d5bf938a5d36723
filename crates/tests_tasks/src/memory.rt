//! Want of memory. This passes whichever one allocation is refused: `rt try --test --fail-alloc N
//! -- memory` refuses the Nth.

use arrayvec::ArrayVec;
use pmb_io::{Io, Tally, ToolFault};
use pmb_run::run;
use pmb_table::{Profile, SAMPLE};
use std::alloc::Global;
use std::process::Abort;
use std::test::Fail;

const REQUESTS: &[u8] = b"write 58 99 41\nread 58 99\n";

const WRITTEN: &[u8] = b"S b0 A 99 A 01 A 41 A P\n# done\nS b0 A 99 A S b1 A 01 A 41 N P\n# 41\n";

/// The sample profile, at the second try where memory was refused.
fn sample(alloc: Global) -> Result<Profile, Fail> {
    match Profile::from_toml(alloc, SAMPLE.as_bytes()) {
        Ok(profile) => Ok(profile),
        Err(_) => Ok(Profile::from_toml(alloc, SAMPLE.as_bytes())?),
    }
}

/// Runs the requests, into a writer that takes no memory: all of them are answered, or none is read
/// and nothing is written. Returns the answer.
fn all_or_nothing(rt: &impl Abort, alloc: Global, profile: &Profile) -> Result<Tally, ToolFault> {
    let mut reader = Io::new(REQUESTS);
    let mut writer = Io::new(ArrayVec::<u8, 128>::new());
    let answer = run(alloc, profile, b"", &mut reader, &mut writer);
    let (left, written) = (reader.into_inner(), writer.into_inner());
    let told = match answer {
        Ok(_) => (b"".as_slice(), WRITTEN),
        Err(_) => (REQUESTS, b"".as_slice()),
    };
    assert!(rt; (left, written.as_slice()) == told);
    answer
}

#[test]
fn memory_is_refused_before_all_else(rt: HostRuntime) -> Result<(), Fail> {
    let done = Ok(Tally {
        packets: 2,
        refusals: 0,
    });
    let profile = sample(rt.alloc())?;
    let first = all_or_nothing(&rt, rt.alloc(), &profile);
    assert!(rt;
        first == done || first == Err(ToolFault::Memory),
        "{first:?}"
    );
    // One allocation alone is refused, so the run after it is as any other, or that one is.
    let second = all_or_nothing(&rt, rt.alloc(), &profile);
    assert!(rt; second == done || first == done, "{second:?}");
    Ok(())
}
