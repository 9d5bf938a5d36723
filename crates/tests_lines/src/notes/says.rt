//! What is said of a line after others.

use arrayvec::ArrayVec;
use pmb_line::parse_line;
use pmb_note::Context;
use pmb_table::Profile;

/// Lines that come before, a line, and its note.
pub(crate) type Row = (&'static [&'static str], &'static str, &'static str);

/// The rows of a table. A call keeps the proof of a loop over them from carrying the table.
pub(crate) fn rows_of(table: &'static [Row]) -> &'static [Row] {
    table
}

/// Takes the transactions that lines spell; false where one has none.
pub(crate) fn observe(profile: &Profile, context: &mut Context<'_>, lines: &[&str]) -> bool {
    for line in lines {
        match parse_line(profile, line.as_bytes()) {
            Ok(transaction) => context.observe(&transaction),
            Err(_) => return false,
        }
    }
    true
}

/// The note of a line after others; `?` where a line spells no transaction.
pub(crate) fn said(profile: &Profile, before: &[&str], line: &[u8]) -> ArrayVec<u8, 4096> {
    let mut text = ArrayVec::new();
    let mut context = Context::new(profile);
    if !observe(profile, &mut context, before) {
        let _ = text.try_extend_from_slice(b"? before");
        return text;
    }
    match parse_line(profile, line) {
        Ok(transaction) => {
            let note = context.note(&transaction);
            let _ = text.try_extend_from_slice(note.as_str().as_bytes());
        }
        Err(_) => {
            let _ = text.try_extend_from_slice(b"?");
        }
    }
    text
}
