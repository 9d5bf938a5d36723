//! What was read, in its parts: the profile, and the capture or the lines.

/// What follows the profile of an input and its line `%%`; all of it, where no profile comes first.
pub(crate) fn matter_of(input: &[u8], has_profile: bool) -> &[u8] {
    if !has_profile {
        return input;
    }
    match mark_of(input) {
        Some(mark) => input.get(mark.1..).unwrap_or(&[]),
        None => &[],
    }
}

/// The profile of an input: what comes before its line `%%`, or all of it.
pub(crate) fn profile_of(input: &[u8]) -> &[u8] {
    match mark_of(input) {
        Some(mark) => input.get(..mark.0).unwrap_or(input),
        None => input,
    }
}

/// Where the first line `%%` begins, and where what follows it does.
pub(crate) fn mark_of(input: &[u8]) -> Option<(usize, usize)> {
    let mut start: usize = 0;
    for line in input.split_inclusive(|byte| *byte == b'\n') {
        let end = start.saturating_add(line.len());
        if line == b"%%\n".as_slice() || line == b"%%\r\n".as_slice() {
            return Some((start, end));
        }
        start = end;
    }
    None
}

/// The line with a number, from 1, without its LF; and where it begins.
pub(crate) fn line_of(text: &[u8], number: u64) -> Option<&[u8]> {
    let mut left = number;
    for line in text.split(|byte| *byte == b'\n') {
        left = left.saturating_sub(1);
        if left == 0 {
            return Some(line);
        }
    }
    None
}

/// The line that has a byte of a text, without its LF, and the offset of the byte in it.
pub(crate) fn line_at(text: &[u8], at: usize) -> Option<(&[u8], usize)> {
    let mut start: usize = 0;
    for line in text.split(|byte| *byte == b'\n') {
        let end = start.saturating_add(line.len());
        if at <= end {
            return Some((line, at.saturating_sub(start)));
        }
        start = end.saturating_add(1);
    }
    None
}
