//! What would be right in place of a word of a capture that is no token.
//!
//! Its rows: `tests/rows/explanations.txt`.

use crate::bytes::{append_of_byte, byte_with_radix};
use crate::marked::{Correction, append_marked, push};

/// Words that others have for events, and what they are here.
#[rattlefmt::skip]
const EVENTS: &[(&[u8], &str)] = &[
    (b"start", "S is START"), (b"[s]", "S is START"), (b"(s)", "S is START"), (b"[", "S is START"),
    (b"sr", "a repeated START is S too"), (b"rs", "a repeated START is S too"),
    (b"restart", "a repeated START is S too"), (b"[sr]", "a repeated START is S too"),
    (b"stop", "P is STOP"), (b"[p]", "P is STOP"), (b"(p)", "P is STOP"), (b"]", "P is STOP"),
    (b"ack", "A is ACK"), (b"[a]", "A is ACK"), (b"(a)", "A is ACK"), (b"+", "A is ACK, and N is NACK"),
    (b"nack", "N is NACK"), (b"nak", "N is NACK"), (b"[n]", "N is NACK"), (b"-", "A is ACK, and N is NACK"),
    (b"s", "in upper case: S"), (b"p", "in upper case: P"), (b"n", "in upper case: N"),
    (b"w", "the direction is in the address byte: 58 to write is b0, and to read b1"),
    (b"wr", "the direction is in the address byte: 58 to write is b0, and to read b1"),
    (b"r", "the direction is in the address byte: 58 to write is b0, and to read b1"),
    (b"rd", "the direction is in the address byte: 58 to write is b0, and to read b1"),
    (b"write", "this is a transaction line: pmb build takes it"),
    (b"read", "this is a transaction line: pmb build takes it"),
    (b"call", "this is a transaction line: pmb build takes it"),
    (b"refused", "this is a transaction line: pmb build takes it"),
    (b"alert", "this is a transaction line: pmb build takes it"),
    (b"set", "this is a request: pmb run takes it"), (b"get", "this is a request: pmb run takes it"),
    (b"[[device]]", "this is a profile: it comes before a line %%"),
    (b"address", "this is a profile: it comes before a line %%"),
    (b"device", "this is a profile: it comes before a line %%"),
    (b"%%", "the line %% stands once, after the profile; with --sample there is none"),
    (b"//", "a comment begins with #"), (b";", "a comment begins with #"), (b"--", "a comment begins with #"),
];

/// What words of a capture are.
const TOKENS: &str = "a word of a capture is S, P, A, N or two hexadecimal digits";

/// What would be right in place of the word of a line at an offset: the line with a mark, and what may
/// stand there.
pub fn token_correction(line: &[u8], at: usize) -> Correction {
    let mut lines = Correction::new();
    append_marked(&mut lines, line, at);
    append_of_token(word_from(line, at), &mut lines);
    push(&mut lines, "\n");
    lines
}

/// The word of a line that begins at an offset.
fn word_from(line: &[u8], at: usize) -> &[u8] {
    let rest = line.get(at..).unwrap_or(&[]);
    let mut end: usize = 0;
    for byte in rest {
        if *byte == b' ' || *byte == b'\t' || *byte == b'\r' || *byte == b'\n' || *byte == b'#' {
            break;
        }
        end = end.saturating_add(1);
    }
    rest.get(..end).unwrap_or(rest)
}

/// Writes what is wrong with a word.
fn append_of_token(word: &[u8], lines: &mut Correction) {
    for (name, meant) in EVENTS {
        if word.eq_ignore_ascii_case(name) {
            push(lines, *meant);
            return;
        }
    }
    match word {
        [b'a'] => push(lines, "in upper case: A"),
        [high, low, b'A' | b'a' | b'N' | b'n']
            if high.is_ascii_hexdigit() && low.is_ascii_hexdigit() => {
            push(lines, "a blank stands between a byte and its ACK or NACK");
        }
        [b'{', ..] => push(lines, "this is JSON, and no capture"),
        _ if byte_with_radix(word).is_some() => {
            let _ = append_of_byte(word, lines);
        }
        _ if word.contains(&b',') => push(
            lines,
            "this looks like a table: pmb import makes a capture of a recording",
        ),
        _ if word.contains(&b':') => push(
            lines,
            "this looks like a recording: pmb import makes a capture of it",
        ),
        _ => push(lines, TOKENS),
    }
}
