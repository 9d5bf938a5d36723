//! What a line of an input holds.

ghost use Rattle.std.specs.Prelude.{◌≡◌, ◌≤◌, IfSome, length, option_copied};
ghost use Rattle.pmb_io.specs.Lines.{line_text};
ghost use Rattle.pmb_recording.specs.Content.{content as content_of, if_empty as no_line, if_short as short_line, most_content, without_mark as mark_dropped};

use pmb_io::{InputLine, without_return};
use pmb_words::behind;

/// The most bytes of a line, with a byte order mark in front and CR behind.
pub const MOST_LINE: usize = 65540;

/// The most bytes of a line that can be read.
const MOST_CONTENT: usize = 65536;

/// The byte order mark.
const MARK: &[u8] = &[0xef, 0xbb, 0xbf];

/// The bytes of a line, without a mark in the first and CR at the end; `None` of one that is too
/// long or lacks its LF.
pub fn content(is_first: bool, line: InputLine<'_>) -> Option<&[u8]>
    ensures text { option_copied result ≡ content_of is_first (line_text line.entry) }
    ensures short { IfSome result (λ text. length text.now ≤ most_content) }
{
    match line {
        InputLine::Ended(line) => if_short(without_mark(is_first, without_return(line))),
        InputLine::Last(line) => if_empty(without_mark(is_first, line)),
        InputLine::TooLong => None,
    }
}

/// A line without the mark, if it is the first and begins with it.
fn without_mark(is_first: bool, line: &[u8]) -> &[u8]
    ensures { result.now ≡ mark_dropped is_first line.now }
{
    if !is_first {
        return line;
    }
    match behind(MARK, line) {
        Some(rest) => rest,
        None => line,
    }
}

/// A line that is not too long.
fn if_short(line: &[u8]) -> Option<&[u8]>
    ensures text { option_copied result ≡ short_line line.now }
    ensures short { IfSome result (λ text. length text.now ≤ most_content) }
{
    if line.len() > MOST_CONTENT {
        None
    } else {
        Some(line)
    }
}

/// What follows the last LF, if nothing does.
fn if_empty(line: &[u8]) -> Option<&[u8]>
    ensures text { option_copied result ≡ no_line line.now }
    ensures short { IfSome result (λ text. length text.now ≤ most_content) }
{
    if line.is_empty() { Some(line) } else { None }
}
