//! The event of a capture with a number: where it stands, and the bytes before it in its packet.
//!
//! Its rows: `tests/rows/explanations.txt`.

use pmb_bus::pec_next;
use pmb_line::{Token, token_of};

/// An event of a capture, and what comes before it in its packet.
#[derive(Clone, Copy)]
pub(crate) struct EventPlace {
    /// The offset of its word in the text.
    pub(crate) at: usize,
    /// The byte that came last before it.
    pub(crate) last: Option<u8>,
    /// The packet error code of the bytes before it in its packet.
    pub(crate) code: u8,
    /// .. and of those before the last.
    pub(crate) code_before: u8,
    /// The same of its leg alone.
    pub(crate) leg_code_before: u8,
}

/// The event with a number, from 0, of a capture without a bad token.
pub(crate) fn event_at(text: &[u8], number: u64) -> Option<EventPlace> {
    let mut place = EventPlace {
        at: 0,
        last: None,
        code: 0,
        code_before: 0,
        leg_code_before: 0,
    };
    let mut leg_code: u8 = 0;
    let mut left = number;
    let mut start: usize = 0;
    for line in text.split_inclusive(|byte| *byte == b'\n') {
        let mut at = start;
        for word in line.split(|byte| is_blank(*byte)) {
            if word.starts_with(b"#") {
                break;
            }
            let (word, is_last) = without_comment(word);
            if !word.is_empty() {
                if left == 0 {
                    place.at = at;
                    return Some(place);
                }
                left = left.saturating_sub(1);
                match (word, byte_of(word)) {
                    (b"P", _) => {
                        place.code = 0;
                        place.code_before = 0;
                        leg_code = 0;
                    }
                    (b"S", _) => leg_code = 0,
                    (_, Some(byte)) => {
                        place.last = Some(byte);
                        place.code_before = place.code;
                        place.code = pec_next(place.code, byte);
                        place.leg_code_before = leg_code;
                        leg_code = pec_next(leg_code, byte);
                    }
                    _ => {}
                }
            }
            if is_last {
                break;
            }
            at = at.saturating_add(word.len()).saturating_add(1);
        }
        start = start.saturating_add(line.len());
    }
    None
}

/// Whether a byte separates words.
fn is_blank(byte: u8) -> bool {
    byte == b' ' || byte == b'\t' || byte == b'\r' || byte == b'\n'
}

/// A word up to a comment in it, and whether there is one.
fn without_comment(word: &[u8]) -> (&[u8], bool) {
    let mut end: usize = 0;
    for byte in word {
        if *byte == b'#' {
            return (word.get(..end).unwrap_or(word), true);
        }
        end = end.saturating_add(1);
    }
    (word, false)
}

/// The byte that two hexadecimal digits write.
fn byte_of(word: &[u8]) -> Option<u8> {
    match token_of(word) {
        Some(Token::Byte(byte)) => Some(byte),
        _ => None,
    }
}
