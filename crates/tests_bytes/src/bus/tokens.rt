//! Each token with each separator, each pair of digits, and each byte that begins no token.

use crate::bus::cuts::spells;
use crate::compare::same;
use pmb_bus::{Event, LexFault, Lexed, Lexer, Step, event_text};
use std::io;

/// A token, and the text of its event.
fn tokens() -> &'static [(&'static str, &'static str)] {
    &[
        ("S", "S "),
        ("P", "P\n"),
        ("A", "A "),
        ("N", "N "),
        ("00", "00 "),
        ("aA", "aa "),
        ("Ff", "ff "),
        ("9e", "9e "),
    ]
}

fn separators() -> &'static [(&'static str, &'static str)] {
    &[
        ("a space", " "),
        ("a tab", "\t"),
        ("a LF", "\n"),
        ("a CR", "\r"),
        ("CR LF", "\r\n"),
        ("two spaces", "  "),
        ("a comment", "#\n"),
        ("a comment of tokens", "#S b0 ?\n"),
        ("a space and a comment", " # A\n"),
        ("a comment and a tab", "# A\r\n\t"),
    ]
}

#[test]
fn each_token_ends_at_each_separator(rt: HostRuntime) -> io::Result<()> {
    let alloc = rt.alloc();
    for &(token, event) in tokens() {
        for &(separator, between) in separators() {
            let name = format!(in alloc; "{token} and {separator}")?;
            let twice = format!(in alloc; "{token}{between}{token}{between}")?;
            let wanted = format!(in alloc; "{event}{event}")?;
            spells(&rt, alloc, name.as_str(), twice.as_bytes(), wanted.as_str())?;
        }
    }
    Ok(())
}

fn digits() -> &'static [(u8, u8)] {
    &[
        (b'0', 0),
        (b'1', 1),
        (b'2', 2),
        (b'3', 3),
        (b'4', 4),
        (b'5', 5),
        (b'6', 6),
        (b'7', 7),
        (b'8', 8),
        (b'9', 9),
        (b'a', 10),
        (b'b', 11),
        (b'c', 12),
        (b'd', 13),
        (b'e', 14),
        (b'f', 15),
        (b'A', 10),
        (b'B', 11),
        (b'C', 12),
        (b'D', 13),
        (b'E', 14),
        (b'F', 15),
    ]
}

#[test]
fn each_pair_of_digits_is_its_byte(rt: HostRuntime) -> io::Result<()> {
    for &(first, high) in digits() {
        for &(second, low) in digits() {
            let text = [first, second, b' '];
            let byte = event_text(Event::Byte(high << 4 | low));
            spells(&rt, rt.alloc(), "two digits", &text, byte.as_str())?;
        }
    }
    Ok(())
}

const BEGINNINGS: &[u8] = b"SPANabcdefABCDEF0123456789 \t\r\n#";

#[test]
fn no_other_byte_begins_a_token(rt: HostRuntime) {
    for byte in 0..=255u8 {
        if BEGINNINGS.contains(&byte) {
            continue;
        }
        for text in [[byte, b' ', b' '], [byte, b'0', b' ']] {
            let mut lexer = Lexer::new();
            let lexed = Lexed {
                used: 0,
                step: Step::Fault(LexFault::BadToken { at: 0 }),
            };
            same(&rt, ("byte", byte), lexer.feed(&text), lexed);
        }
    }
}
