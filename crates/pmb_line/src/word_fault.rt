//! What is wrong with a line's words. Its rows: `tests_lines`, `src/lines/rows.rt` and `long.rt`.

/// Why a line spells no transaction. A place is an offset in the line.
#[derive(Clone, Copy, Debug, PartialEq, Eq)]
pub enum WordFault {
    /// It has no word.
    Blank,
    /// The first word that does not fit, or the line's length where words are missing.
    BadWord(usize),
    /// The first word that a list has no room for.
    TooLong(usize),
}
