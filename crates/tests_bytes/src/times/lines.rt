//! Lines, and the time that each tells.

use crate::compare::same;
use pmb_times::Times;

/// A line without its LF, and the time that it tells.
type Row = (&'static str, Option<&'static [u8]>);

#[rattlefmt::skip]
static LINES: &[Row] = &[
    // seconds: digits, with at most one point, and a sign before them or none
    ("# 0.5 s", Some(b"0.5")),
    ("# 0 s", Some(b"0")),
    ("# 00.10 s", Some(b"00.10")),
    ("# 5. s", Some(b"5.")),
    ("# .5 s", Some(b".5")),
    ("# s", None),
    ("#  s", None),
    ("# . s", None),
    ("# .. s", None),
    ("# 1.2.3 s", None),
    ("# -1 s", Some(b"-1")),
    ("# +1 s", Some(b"+1")),
    ("# -0.000128 s", Some(b"-0.000128")),
    ("# -.5 s", Some(b"-.5")),
    ("# - s", None),
    ("# --1 s", None),
    ("# 1- s", None),
    ("# - 1 s", None),
    ("# 1e3 s", None),
    ("# 1,5 s", None),
    ("# 1:30 s", None),
    // their unit
    ("# 12", None),
    ("# 1s", None),
    ("# 1 S", None),
    ("# 1 ms", None),
    ("# 1 s s", None),
    // the `#` comes first
    ("", None),
    ("#", None),
    ("# ", None),
    (" # 1 s", None),
    ("\t# 1 s", None),
    ("\r# 1 s", None),
    ("## 1 s", None),
    ("# # 1 s", None),
    // one blank where one is shown
    ("#1 s", None),
    ("#  1 s", None),
    ("#\t1 s", None),
    ("# 1  s", None),
    ("# 1\ts", None),
    ("# 1 s ", None),
    ("# 1 s# ", None),
    // one CR at the end
    ("# 2 s\r", Some(b"2")),
    ("# 1 s\r\r", None),
    ("# 1\r s", None),
    ("# 1 s\r# 2 s", None),
    ("\r", None),
    // an ISO 8601 time has no unit, and is not looked at behind its hour
    ("# 2026-11-27T10", Some(b"2026-11-27T10")),
    ("# 2026-11-27T10\r", Some(b"2026-11-27T10")),
    ("# 2026-11-27T10:00:00.25Z", Some(b"2026-11-27T10:00:00.25Z")),
    ("# 2026-11-27T10:00:00.000001+01:00Z", Some(b"2026-11-27T10:00:00.000001+01:00Z")),
    ("# 9999-99-99T99-", Some(b"9999-99-99T99-")),
    ("# 2026-11-27T10TTZ", Some(b"2026-11-27T10TTZ")),
    ("# 2026-11-27T10:00:00.000001+01:00Z s", None),
    ("# 2026-11-27T1", None),
    ("# 2026-11-27T1Z", None),
    ("# 2026-11-27t10", None),
    ("# 2026-11-27 10:00:00", None),
    ("# 2026-11-27T10:00:00,25", None),
    ("# 2026-11-27T10z", None),
    ("# 2026-11-27T10 ", None),
    ("#  2026-11-27T10", None),
    ("#2026-11-27T10", None),
    // up to 40 bytes
    ("# 1234567890123456789012345678901234567890 s", Some(b"1234567890123456789012345678901234567890")),
    ("# 1234567890123456789012345678901234567890 s\r", Some(b"1234567890123456789012345678901234567890")),
    ("# 1234567890123456789012345678901234567890 s\r\r", None),
    ("# 12345678901234567890123456789012345678901 s", None),
    ("# 2026-11-27T10:00:00.00000000000000000000", Some(b"2026-11-27T10:00:00.00000000000000000000")),
    ("# 2026-11-27T10:00:00.00000000000000000000\r", Some(b"2026-11-27T10:00:00.00000000000000000000")),
    ("# 2026-11-27T10:00:00.000000000000000000000", None),
    ("# 1 second is a time, and what is longer than a time line is a comment as any other 1 s", None),
];

// A function, so that the proofs of the loops don't carry the rows.
fn lines() -> &'static [Row] {
    LINES
}

/// Each line cut at each place: the next word has its time.
#[test]
fn lines_tell_their_times(rt: HostRuntime) {
    for &(line, time) in lines() {
        let bytes = line.as_bytes();
        for cut in 0..bytes.len() + 1 {
            let mut times = Times::new();
            times.take(&bytes[..cut]);
            times.take(&bytes[cut..]);
            same(
                &rt,
                (line, "no LF, cut at", cut),
                times.of_next_word(),
                None,
            );
            times.take(b"\n");
            same(&rt, (line, "next, cut at", cut), times.of_next_word(), time);
            times.take(b"S");
            same(&rt, (line, "last, cut at", cut), times.of_last_word(), time);
        }
    }
}

/// Each line byte by byte, with pieces of no bytes between.
#[test]
fn lines_come_byte_by_byte(rt: HostRuntime) {
    for &(line, time) in lines() {
        let bytes = line.as_bytes();
        let mut times = Times::new();
        for at in 0..bytes.len() {
            times.take(&bytes[at..at + 1]);
            times.take(b"");
        }
        times.take(b"\n");
        same(&rt, line, times.of_next_word(), time);
    }
}
