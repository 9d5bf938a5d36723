//! The tables of devices in a text.
//!
//! Its rows: `.ci/boards`.

ghost use Rattle.std.specs.Prelude.{◌≡◌, ◌≤◌, ◌++◌, length, IfSome};

use crate::line::{is_comment, is_head, line_length};

/// The next table of a device in a text.
#[derive(Clone, Copy)]
pub(crate) struct Cut<'t> {
    /// What stands before it.
    pub(crate) before: &'t [u8],
    /// Its lines, up to the last that is more than a comment.
    pub(crate) table: &'t [u8],
    /// What follows.
    pub(crate) rest: &'t [u8],
}

/// Where the next head of a table begins.
fn find_head(text: &[u8]) -> Option<usize>
    ensures { IfSome result (λ at. at ≤ length text.now) }
{
    let mut at = 0;
    while at < text.len() {
        let count = line_length(&text[at..]);
        if is_head(&text[at..at + count]) {
            return Some(at);
        }
        at += count;
    }
    None
}

/// Where a table that a text begins with ends: after its last line that is more than a comment.
fn table_end(text: &[u8]) -> usize
    ensures { result ≤ length text.now }
{
    let mut at = line_length(text);
    let mut end = at;
    while at < text.len() {
        let count = line_length(&text[at..]);
        let line = &text[at..at + count];
        if is_head(line) {
            return end;
        }
        at += count;
        if !is_comment(line) {
            end = at;
        }
    }
    end
}

/// The next table of a text, where there is one.
pub(crate) fn next_table(text: &[u8]) -> Option<Cut<'_>>
    ensures { IfSome result (λ parts. (parts.before.now ++ parts.table.now) ++ parts.rest.now ≡ text.now) }
{
    let head = find_head(text)?;
    let (before, from) = text.split_at(head);
    let (table, rest) = from.split_at(table_end(from));
    Some(Cut {
        before,
        table,
        rest,
    })
}
