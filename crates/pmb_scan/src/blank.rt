//! What stands between two words of a text: separators and comments.
//!
//! Its rows: `tests_reader`, `src/scan/scans.rt`.

ghost use Rattle.std.specs.Prelude.{◌≤◌, [], IfSome, length, take};
ghost use Rattle.pmb_bus.specs.Text.{EndsBetween, Spells};
ghost use Rattle.pmb_scan.specs.machine.Blank.{Passes};

/// Whether a text ends in a comment after one more byte, given whether it did before; `None` where
/// a word begins with that byte.
#[inline(always)]
fn pass(in_comment: bool, byte: u8) -> Option<bool>
    ensures { IfSome result (λ after. Passes in_comment byte after) }
{
    if in_comment {
        return Some(byte != b'\n');
    }
    match byte {
        b' ' | b'\t' | b'\n' | b'\r' => Some(false),
        b'#' => Some(true),
        _ => None,
    }
}

/// Whether a text begins with a separator or a comment.
#[inline(always)]
pub(crate) fn begins_blank(text: &[u8]) -> bool {
    match text {
        [b' ' | b'\t' | b'\n' | b'\r' | b'#', ..] => true,
        _ => false,
    }
}

/// How many bytes at the front of a text are separators and whole comments, each comment with its
/// LF.
#[inline(never)]
pub(crate) fn front_blank(text: &[u8]) -> usize
    ensures within { result ≤ length text.now }
    ensures between { EndsBetween (take result text.now) }
    ensures spells { Spells (take result text.now) [] }
{
    let mut blank = 0;
    let mut in_comment = false;
    for (i, byte) in text.iter().enumerate() {
        let Some(after) = pass(in_comment, *byte) else {
            return blank;
        };
        in_comment = after;
        if !in_comment {
            blank = i + 1;
        }
    }
    blank
}
