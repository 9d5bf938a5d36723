//! Rests of lines of canonical text, each taken without its bytes.

use crate::compare::same;
use pmb_times::Times;

/// A name, a text that ends between words, and the rest of its line.
type Row = (&'static str, &'static [u8], &'static [u8]);

// A function, so that the proof of the loop doesn't carry the rows.
#[rattlefmt::skip]
fn rests() -> &'static [Row] {
    &[
        ("nothing", b"", b"S b0 A P\n"),
        ("START", b"S ", b"b0 A 03 A P\n"),
        ("a time line", b"# 7 s\n", b"S 19 N P\n"),
        ("a time line and START", b"# 7 s\nS ", b"b0 A 8b A S b1 A 9a A 0c N P\n"),
        ("a time line behind a packet", b"S b0 N P\n# 7 s\n", b"S b0 A P\n"),
        ("a blank line", b"# 7 s\n\n", b"S P\n"),
        ("blanks", b"# 7 s\n  ", b"S P\n"),
        ("a comment", b"# 7 s\n# alert\n", b"S 19 N P\n"),
    ]
}

/// Each row by its bytes, and without them: STOP has no time, nor has the next word, until a time
/// line comes.
#[test]
fn rests_of_lines_tell_no_time(rt: HostRuntime) {
    for &(name, text, rest) in rests() {
        let mut by_line = Times::new();
        by_line.take(text);
        by_line.take_line();
        let mut by_bytes = Times::new();
        by_bytes.take(text);
        by_bytes.take(rest);
        for mut times in [by_line, by_bytes] {
            same(&rt, (name, "last"), times.of_last_word(), None);
            same(&rt, (name, "next"), times.of_next_word(), None);
            times.take(b"# 8 s\nS ");
            same(
                &rt,
                (name, "then"),
                times.of_last_word(),
                Some(b"8".as_slice()),
            );
        }
    }
}
