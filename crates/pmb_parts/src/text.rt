//! The lines that a board takes of a part.
//!
//! Its rows: `.ci/boards`.

use crate::line::{
    after_address, begins_table, comment_of, is_comment, is_empty, line_length, without_line_end,
};
use std::alloc::AllocError;

/// Appends a line, with an LF where it has none.
fn put_line(text: &mut Vec<u8>, line: &[u8]) -> Result<(), AllocError> {
    text.extend_from_slice(line)?;
    if line.last() != Some(&b'\n') {
        text.extend_from_slice(b"\n")?;
    }
    Ok(())
}

/// Appends an empty line behind others.
pub(crate) fn put_gap(text: &mut Vec<u8>) -> Result<(), AllocError> {
    if text.is_empty() {
        return Ok(());
    }
    text.extend_from_slice(b"\n")
}

/// Appends lines.
pub(crate) fn put_lines(text: &mut Vec<u8>, lines: &[u8]) -> Result<(), AllocError> {
    put_line(text, lines)
}

/// Appends the lines of a text that are comments, and the empty ones too if they are wanted.
pub(crate) fn put_comments(
    text: &mut Vec<u8>,
    lines: &[u8],
    with_empty: bool,
) -> Result<(), AllocError> {
    let mut at = 0;
    while at < lines.len() {
        let count = line_length(&lines[at..]);
        let line = &lines[at..at + count];
        if is_comment(line) && (with_empty || !is_empty(line)) {
            put_line(text, line)?;
        }
        at += count;
    }
    Ok(())
}

/// Appends the two hexadecimal digits of a byte.
pub(crate) fn put_byte(text: &mut Vec<u8>, byte: u8) -> Result<(), AllocError> {
    let mut digits = [0; 2];
    let _ = hex::encode_to_slice([byte], &mut digits);
    text.extend_from_slice(b"0x")?;
    text.extend_from_slice(&digits)
}

/// Appends the lines of a table with another address, and returns whether it has a line for it. `value`
/// is what follows its `=`.
fn put_address(
    text: &mut Vec<u8>,
    line: &[u8],
    value: &[u8],
    address: u8,
) -> Result<(), AllocError> {
    // (a value is no longer than its line)
    let front = line.len().saturating_sub(value.len());
    if let Some(key) = line.get(..front) {
        text.extend_from_slice(key)?;
    }
    text.extend_from_slice(b" ")?;
    put_byte(text, address)?;
    text.extend_from_slice(without_line_end(comment_of(value)))?;
    text.extend_from_slice(b"\n")
}

/// Appends the lines of a table with another address, and returns whether it has a line for one.
pub(crate) fn put_table_at(
    text: &mut Vec<u8>,
    table: &[u8],
    address: u8,
) -> Result<bool, AllocError> {
    let mut at = 0;
    let mut is_open = true;
    let mut is_put = false;
    while at < table.len() {
        let count = line_length(&table[at..]);
        let line = &table[at..at + count];
        if at > 0 && begins_table(line) {
            is_open = false;
        }
        match after_address(line) {
            Some(value) if is_open && !is_put => {
                put_address(text, line, value, address)?;
                is_put = true;
            }
            _ => put_line(text, line)?,
        }
        at += count;
    }
    Ok(is_put)
}
