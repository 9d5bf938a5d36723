//! Values and keys as they are shown.
//!
//! Its rows: `tests/rows/hints.txt`.

use arrayvec::ArrayString;
use std::fmt::Write;
use toml::Value;

/// A value, or the front of a long one.
pub(crate) type Shown = ArrayString<320>;

/// How many bytes of a text are shown.
const MOST: usize = 48;

/// A value as it is shown: a number in decimal, a text between quotation marks, and of an array or a
/// table only what it is.
pub(crate) fn shown(value: &Value) -> Shown {
    if let Some(text) = value.as_str() {
        return quoted(text);
    }
    let mut shown = Shown::new();
    if let Some(number) = value.as_integer() {
        let _ = write!(shown, "{number}");
    } else if let Some(flag) = value.as_bool() {
        let _ = write!(shown, "{flag}");
    } else {
        let _ = write!(shown, "({})", value.type_str());
    }
    shown
}

/// A key as it is shown: as it stands, or between quotation marks if it needs them.
pub(crate) fn word(key: &str) -> Shown {
    if is_bare(key) && key.len() <= MOST {
        let mut shown = Shown::new();
        let _ = shown.try_push_str(key);
        return shown;
    }
    quoted(key)
}

/// A text between quotation marks, and `..` after the front of a long one.
fn quoted(text: &str) -> Shown {
    let mut shown = Shown::new();
    let front = &text[..text.floor_char_boundary(MOST)];
    let _ = write!(shown, "{front:?}");
    if front.len() < text.len() {
        let _ = shown.try_push_str("..");
    }
    shown
}

/// Whether a key needs no quotation marks.
fn is_bare(key: &str) -> bool {
    for byte in key.as_bytes() {
        if !byte.is_ascii_alphanumeric() && *byte != b'_' && *byte != b'-' {
            return false;
        }
    }
    !key.is_empty()
}
