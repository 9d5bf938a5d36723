//! What a caller may choose of the objects of a whole capture.
//!
//! Its rows: `tests_tasks`, `src/whole.rt`; `tests/rows/json_objects.txt`, flags.

use pmb_decimal::Digits;
use pmb_telling::AfterBadToken;
use pmb_unknown_start::Start;

/// How the objects of a whole capture are wanted. Which addresses are ignored, its profile says.
#[derive(Clone, Copy)]
pub struct JsonChoice {
    /// The most digits after the point of a number.
    pub digits: Digits,
    /// What is known of PAGE and VOUT_MODE where the capture begins, and after a line that was dropped.
    pub start: Start,
    /// Whether reading ends at a word that is no token, or continues with the next line.
    pub bad_words: AfterBadToken,
}
