//! What is seen of a spot.
//!
//! Its rows: `tests/rows/stats.txt`.

use pmb_mean::Number;

/// What is seen of a spot.
#[derive(Clone, Copy)]
pub(crate) enum Sight<'s> {
    /// A read of a status register: the word, and the time of its packet, of at most 40 bytes, if one is
    /// known.
    Read(u16, Option<&'s [u8]>),
    /// A number.
    Number(&'s Number),
}
