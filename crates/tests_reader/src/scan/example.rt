//! The program of `pmb_scan`'s documentation.

use crate::compare::same;
use crate::scan::log::Log;
use pmb_bus::LexFault;
use pmb_io::{Io, Waiting};
use pmb_scan::{PieceEnd, Scan};
use pmb_table::{Profile, SAMPLE};
use std::test::Fail;

#[test]
fn stops_at_a_bad_word(rt: HostRuntime) -> Result<(), Fail> {
    let profile = Profile::from_toml(rt.alloc(), SAMPLE.as_bytes())?;
    let mut scan = Scan::new(&profile);
    let mut log = Log::default();
    let mut writer = Io::new(Vec::new(rt.alloc()));
    let text = b"S b0 A 03 A P oops".as_slice();
    let taken = scan.take_words(text, &mut log, &mut Waiting::new(), &mut writer)?;
    same(
        &rt,
        "a bad word",
        taken,
        PieceEnd::Fault {
            used: 14,
            fault: LexFault::BadToken { at: 14 },
        },
    );
    same(
        &rt,
        "what was told",
        log.events.as_slice(),
        b"S b0 A 03 A packet ".as_slice(),
    );
    same(&rt, "not cut short", scan.truncation(), None);
    Ok(())
}
