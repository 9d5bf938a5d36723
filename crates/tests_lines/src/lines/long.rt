//! Long lines: a piece repeated, and where a list has no room for what comes.

use crate::compare::ensure;
use crate::lines::says::answer;
use harness::repeated;
use pmb_table::{Profile, SAMPLE};
use std::test::Fail;

/// The front of a line, a piece, how many times it follows, the end, and the answer.
#[rattlefmt::skip]
type Long = (&'static str, &'static str, usize, &'static str, &'static str);

/// The rows of the table. A call keeps the proof of a loop over them from carrying the table.
fn rows() -> &'static [Long] {
    &LONGS
}

/// Lines under the sample profile.
static LONGS: [Long; 23] = [
    // The 17th part of a write shows at its address.
    ("write", " 58 03 +", 15, " 58 03", "AddressTwice"),
    ("write", " 58 03 +", 16, "", "BadWord at 133"),
    ("write", " 58 03 +", 16, " 58 03", "TooLong at 134"),
    ("write", " 58 03 +", 16, " zz", "BadWord at 134"),
    ("write", " 58 03 +", 16, " +", "BadWord at 134"),
    // The 256th byte of data shows itself.
    ("write 58 21", " 41", 255, "", "WrongLength"),
    ("write 58 99", " 41", 256, "", "TooLong at 777"),
    ("write 58 99", " 41", 255, " zz", "BadWord at 777"),
    ("write 59 99", " 41", 255, " pec", "PecMode"),
    ("read 58 99 :", " 41", 256, "", "TooLong at 778"),
    ("call 58 06", " 41", 256, " :", "TooLong at 776"),
    ("call 58 06 :", " 41", 256, "", "TooLong at 778"),
    // The 16th part of a refused packet shows at its `pec` or `+`.
    ("refused", " 58 03 +", 15, " 58 03", "AddressTwice"),
    ("refused", " 58 03 +", 15, " 59 03 +", "TooLong at 134"),
    ("refused", " 58 03 +", 15, " 59 03 pec", "TooLong at 134"),
    ("refused", " 58 03 +", 15, " 59 03 zz", "BadWord at 134"),
    // So does a part of 256 or 257 bytes of data.
    ("refused 58 99", " 41", 255, " pec + 59", "refused 58 99*"),
    ("refused 58 99", " 41", 256, " pec", "TooLong at 782"),
    ("refused 58 99", " 41", 256, " +", "TooLong at 782"),
    ("refused 58 99", " 41", 257, " +", "TooLong at 785"),
    // 258 bytes may be sent.
    ("refused 58 99", " 41", 257, "", "WrongLength"),
    ("refused 58 99", " 41", 258, "", "TooLong at 785"),
    ("refused 58 99", " 41", 257, " zz", "BadWord at 785"),
];

/// Whether a text is the one told, or begins as it, where that ends in `*`.
fn agrees(text: &[u8], told: &[u8]) -> bool {
    match told {
        [front @ .., b'*'] => text.starts_with(front),
        _ => text == told,
    }
}

#[test]
fn long_lines(rt: HostRuntime) -> Result<(), Fail> {
    let profile = Profile::from_toml(rt.alloc(), SAMPLE.as_bytes())?;
    for &(front, piece, times, end, told) in rows() {
        let line = repeated(rt.alloc(), front, piece, times, end)?;
        let given = answer(&profile, line.as_bytes());
        let is_told = agrees(given.as_slice(), told.as_bytes());
        ensure(&rt, (front, times, "of", piece, end), is_told);
    }
    Ok(())
}
