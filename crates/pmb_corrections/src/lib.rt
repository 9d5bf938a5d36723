//! What would be right in place of a word, a number or a line that has a fault: short lines for people,
//! each after two blanks.
//!
//! No clause says which lines they are: the rows of `tests/rows/explanations.txt` do.
#![tactic(auto)]

mod arguments;
mod bytes;
mod caret;
mod codes;
mod formats;
mod likeness;
mod line_words;
mod marked;
mod quantities;
mod ranges;
mod tokens;

pub use arguments::{
    address_correction, digits_correction, fail_correction, rate_correction, source_correction,
};
pub use caret::{TwoLines, marked_line};
pub use codes::{code_correction, code_mark};
pub use formats::format_correction;
pub use likeness::nearest;
pub use line_words::{LineSort, word_correction};
pub use marked::{Correction, append_marked, append_word, push};
pub use quantities::{quantity_correction, quantity_mark};
pub use ranges::range_correction;
pub use tokens::token_correction;
