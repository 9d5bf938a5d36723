//! What is said of a profile's mistake, by every command.
//!
//! Its rows: `tests/rows/explanations.txt`.

use crate::explanation::{Explanation, add};
use crate::matter::{mark_of, profile_of};
use pmb_hints::hints;
use pmb_io::without_return;
use pmb_table::{BusProfile, FaultKind};
use std::alloc::Global;

/// What pmb_hints says of a text that begins as a capture or lines do.
const LOOKS_LIKE_MATTER: &str = "This looks like a capture or lines";

/// Writes what is right in place of the mistake of the profile that comes first in an input: the lines that
/// `pmb profile` writes of it, if they were not written already, and of a text that is no TOML, that its line
/// `%%` is missing.
pub(crate) fn explain_profile(
    alloc: Global,
    input: &[u8],
    is_hinted: bool,
    text: &mut Explanation,
) {
    let profile = profile_of(input);
    let Err(fault) = BusProfile::from_toml(alloc, profile) else {
        return;
    };
    let hints = hints(alloc, profile, fault);
    let lines = hints.lines.as_str();
    if !is_hinted {
        add(text, lines);
    }
    if let Some(about) = about_mark(input, fault.what, lines.contains(LOOKS_LIKE_MATTER)) {
        add(text, about);
    }
}

/// What is said of the line `%%`, if it is missing.
fn about_mark(input: &[u8], what: FaultKind, looks_like_matter: bool) -> Option<&'static str> {
    if mark_of(input).is_some() {
        return None;
    }
    if input.is_empty() {
        return Some("  Nothing was read: is there a file, and is it empty?\n");
    }
    if what != FaultKind::NotToml {
        return None;
    }
    if ends_in_mark(input) {
        return Some(
            "  A line ends in %%: the profile before it lacks its last LF. With -p board.toml no line %% is needed.\n",
        );
    }
    if looks_like_matter {
        return Some("  pmb log -p board.toml capture.txt\n");
    }
    Some("  No line is %%: one stands between the profile and the capture or the lines.\n")
}

/// Whether a line of a text ends in `%%` and has something before.
fn ends_in_mark(input: &[u8]) -> bool {
    for line in input.split(|byte| *byte == b'\n') {
        if without_return(line).ends_with(b"%%") {
            return true;
        }
    }
    false
}
