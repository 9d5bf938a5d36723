//! Captures that make no sense, from a fixed seed.

use std::alloc::{AllocError, Global};

/// This many words that are tokens but follow no pattern.
pub fn senseless_words(alloc: Global, count: u32) -> Result<Vec<u8>, AllocError> {
    let mut bytes = Vec::new(alloc);
    let mut state = 0x2545_f491u32;
    for _ in 0..count {
        state = state.wrapping_mul(1_664_525).wrapping_add(1_013_904_223);
        let word: &[u8] = match state >> 29 {
            0 => b"S ",
            1 => b"P\n",
            2 => b"N ",
            3 => b"b0 ",
            4 => b"21 ",
            _ => b"A ",
        };
        bytes.extend_from_slice(word)?;
    }
    Ok(bytes)
}

/// These bytes first, and then a million: one byte over and over, or bytes that follow no pattern.
pub fn senseless_bytes(
    alloc: Global,
    first: &[u8],
    byte: Option<u8>,
) -> Result<Vec<u8>, AllocError> {
    let mut bytes = Vec::from_slice(alloc, first)?;
    let mut state = 0x2545_f491u32;
    for _ in 0..1_000_000 {
        state = state.wrapping_mul(1_664_525).wrapping_add(1_013_904_223);
        bytes.push(byte.unwrap_or((state >> 24) as u8))?;
    }
    Ok(bytes)
}
