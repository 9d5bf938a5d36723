//! Long lines: a piece repeated, and where a list has no room for what comes.

use crate::compare::ensure;
use crate::requests::says::answer;
use harness::repeated;
use pmb_note::Context;
use pmb_table::{Profile, SAMPLE};
use std::test::Fail;

/// The front of a line, a piece, how many times it follows, the end, and the answer.
#[rattlefmt::skip]
type Long = (&'static str, &'static str, usize, &'static str, &'static str);

/// The rows of the table. A call keeps the proof of a loop over them from carrying the table.
fn rows() -> &'static [Long] {
    &LONGS
}

/// Lines under the sample profile. A `*` stands for the line itself.
static LONGS: [Long; 17] = [
    // The 17th part of a write shows at its address.
    ("write", " 58 03 +", 15, " 58 03", "*"),
    ("write", " 58 03 +", 16, "", "BadWord at 133"),
    ("write", " 58 03 +", 16, " 58 03", "TooLong at 134"),
    ("write", " 58 03 +", 16, " 58 zz", "TooLong at 134"),
    ("write", " 58 03 +", 16, " zz", "BadWord at 134"),
    // The 256th byte of data shows itself.
    ("write 58 99", " 41", 255, " pec", "*"),
    ("write 58 99", " 41", 256, "", "TooLong at 777"),
    ("write 58 99", " 41", 256, " zz", "TooLong at 777"),
    ("write 58 99", " 41", 255, " zz", "BadWord at 777"),
    ("call 58 06", " 41", 255, "", "*"),
    ("call 58 06", " 41", 255, " pec", "*"),
    ("call 58 06", " 41", 255, " +", "BadWord at 776"),
    ("call 58 06", " 41", 255, " pec pec", "BadWord at 780"),
    ("call 58 06", " 41", 256, "", "TooLong at 776"),
    ("call 58 06", " 41", 256, " zz", "TooLong at 776"),
    // A quantity of many digits.
    ("set 58 21 1.", "0", 2000, "", "set 58 21 1 mode 17"),
    ("set 58 21 1", "0", 2000, "", "TooLarge"),
];

#[test]
fn long_lines(rt: HostRuntime) -> Result<(), Fail> {
    let profile = Profile::from_toml(rt.alloc(), SAMPLE.as_bytes())?;
    let context = Context::new(&profile);
    for &(front, piece, times, end, told) in rows() {
        let line = repeated(rt.alloc(), front, piece, times, end)?;
        let given = answer(&context, line.as_bytes());
        let told = if told == "*" { line.as_str() } else { told };
        ensure(
            &rt,
            (front, times, "of", piece, end),
            given.as_slice() == told.as_bytes(),
        );
    }
    Ok(())
}
