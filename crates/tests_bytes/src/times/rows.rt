//! Texts, and the times at their ends.

use crate::compare::same;
use pmb_times::Times;

/// A name, a text, the time of its last word, and that of the next one if it comes then.
type Row = (
    &'static str,
    &'static [u8],
    Option<&'static [u8]>,
    Option<&'static [u8]>,
);

#[rattlefmt::skip]
static ROWS: &[Row] = &[
    ("no bytes", b"", None, None),
    ("a word alone", b"S", None, None),
    // a time line counts from its LF on
    ("a line that has not ended", b"# 1 s", None, None),
    ("a line that may have ended", b"# 1 s\r", None, None),
    ("a line", b"# 1 s\n", None, Some(b"1")),
    // the word behind it has its time, and no other
    ("a word under way", b"# 0.5 s\nS", Some(b"0.5"), None),
    ("a word that has ended", b"# 0.5 s\nS ", Some(b"0.5"), None),
    ("a word of many bytes", b"# 0.5 s\nhello", Some(b"0.5"), None),
    ("the next word", b"# 1 s\nS b0 ", None, None),
    ("the next word of one letter", b"# 1 s\nS A", None, None),
    ("a word behind the next line's end", b"# 1 s\nS\nA", None, None),
    // the last one since the word before counts
    ("two lines", b"# 1 s\n# 2 s\nS", Some(b"2"), None),
    ("two lines of different lengths", b"# 2026-11-27T10\n# 2 s\nS", Some(b"2"), None),
    ("one line before a word and one behind", b"# 1 s\nS\n# 3 s\n", Some(b"1"), Some(b"3")),
    ("one line before each word", b"# 1 s\nS\n# 3 s\nb0", Some(b"3"), None),
    ("one line before each packet", b"# 1 s\nS b0 A P\n# 3 s\nS", Some(b"3"), None),
    ("the STOP before it", b"# 1 s\nS b0 A P\n# 3 s\n", None, Some(b"3")),
    // other comments and blank lines change nothing
    ("a blank line and a comment", b"# 1 s\n\n# done\n  S", Some(b"1"), None),
    ("an empty comment", b"# 1 s\n#\nS", Some(b"1"), None),
    ("a number without a unit", b"# 1 s\n# 12\nS", Some(b"1"), None),
    ("a time that is no line's", b"# 1 s\n # 2 s\nS", Some(b"1"), None),
    ("a long comment", b"# 7 s\n# a comment longer than any time line may be, up to its end\nS", Some(b"7"), None),
    // a comment behind a word is no time line
    ("a comment behind STOP", b"P # 1 s\nS", None, None),
    ("a comment right behind STOP", b"P# 1 s\nS", None, None),
    ("a comment behind a bad token", b"hello # 1 s\nS", None, None),
    ("a comment behind the word with a time", b"# 1 s\nS # 2 s\nb0 ", None, None),
    ("a CR ends no line", b"P\r# 1 s\nS", None, None),
    ("such a comment and a time line", b"P # 1 s\n# 2 s\r\n# x\nS", Some(b"2"), None),
];

// A function, so that the proofs of the loops don't carry the rows.
fn rows() -> &'static [Row] {
    ROWS
}

/// Each row whole, and cut at each place.
#[test]
fn rows_have_their_times(rt: HostRuntime) {
    for &(name, text, last, next) in rows() {
        for cut in 0..text.len() + 1 {
            let mut times = Times::new();
            times.take(&text[..cut]);
            times.take(&text[cut..]);
            same(&rt, (name, "last, cut at", cut), times.of_last_word(), last);
            same(&rt, (name, "next, cut at", cut), times.of_next_word(), next);
        }
    }
}

/// Each row byte by byte, with pieces of no bytes between.
#[test]
fn rows_come_byte_by_byte(rt: HostRuntime) {
    for &(name, text, last, next) in rows() {
        let mut times = Times::new();
        for at in 0..text.len() {
            times.take(&text[at..at + 1]);
            times.take(b"");
        }
        same(&rt, (name, "last"), times.of_last_word(), last);
        same(&rt, (name, "next"), times.of_next_word(), next);
    }
}
