//! Where a member or a value stands among its like.
//!
//! Its rows: `tests_json`, `src/objects/objects.rt`.

/// Whether something comes before it in its object or array: a comma stands before each but the
/// first.
#[derive(Clone, Copy, Debug, PartialEq, Eq)]
pub enum ItemOrder {
    /// It is the first.
    First,
    /// Another comes before it.
    Later,
}
