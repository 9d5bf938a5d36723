//! Bytes as text.

use std::alloc::{AllocError, Global};

/// Bytes in digits, a space before each.
pub(crate) fn digits(alloc: Global, bytes: &[u8]) -> Result<String, AllocError> {
    let mut text = String::new(alloc);
    for byte in bytes {
        text.push_str(format!(in alloc; " {byte:02x}")?.as_str())?;
    }
    Ok(text)
}
