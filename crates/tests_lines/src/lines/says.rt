//! Lines as rows tell them, and what is answered to them.

use arrayvec::ArrayVec;
use pmb_line::{line_of, parse_line};
use pmb_table::Profile;

/// A line, and the line that is written for what it spells, or its first fault.
pub(crate) type Row = (&'static str, &'static str);

/// The rows of a table. A call keeps the proof of a loop over them from carrying the table.
pub(crate) fn rows_of(table: &'static [Row]) -> &'static [Row] {
    table
}

/// What is answered to a line: the line of what it spells, or its fault.
pub(crate) fn answer(profile: &Profile, line: &[u8]) -> ArrayVec<u8, 1024> {
    let mut text = ArrayVec::new();
    match parse_line(profile, line) {
        Ok(transaction) => {
            let line = line_of(&transaction);
            let _ = text.try_extend_from_slice(line.as_str().as_bytes());
        }
        Err(fault) => {
            let fault = fault.text();
            let _ = text.try_extend_from_slice(fault.as_slice());
        }
    }
    text
}
