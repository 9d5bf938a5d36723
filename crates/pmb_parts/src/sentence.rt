//! What a part is.
//!
//! Its rows: `.ci/boards`.

use crate::line::line_length;
use std::alloc::{AllocError, Global};

/// Says what a part is: the first sentence of the comment at the top of its profile, on one line.
///
/// # Errors
///
/// There was no memory.
pub fn about(alloc: Global, text: &[u8]) -> Result<Vec<u8>, AllocError> {
    let mut words = Vec::new(alloc);
    let mut at = 0;
    while at < text.len() {
        let count = line_length(&text[at..]);
        let line = &text[at..at + count];
        if line.first() != Some(&b'#') {
            break;
        }
        put_words(&mut words, &line[1..])?;
        at += count;
    }
    let end = sentence_end(words.as_slice());
    words.truncate(end);
    Ok(words)
}

/// Appends the words of a line, each after one blank.
fn put_words(words: &mut Vec<u8>, line: &[u8]) -> Result<(), AllocError> {
    let mut is_word = false;
    for byte in line {
        if byte.is_ascii_whitespace() {
            is_word = false;
        } else {
            if !is_word && !words.is_empty() {
                words.extend_from_slice(b" ")?;
            }
            is_word = true;
            words.extend_from_slice(&[*byte])?;
        }
    }
    Ok(())
}

/// Where the first sentence ends: after a full stop before a blank or the end.
fn sentence_end(words: &[u8]) -> usize {
    for (i, byte) in words.iter().enumerate() {
        if *byte == b'.' && (i + 1 == words.len() || words[i + 1] == b' ') {
            return i + 1;
        }
    }
    words.len()
}
