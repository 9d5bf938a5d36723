//! A stream, and the keeper that its facts are handed to.
//!
//! Its rows: `tests/rows/json_objects.txt`, `stats.txt`.

use crate::stream::Stream;

/// A stream, with the keeper that each of its facts is handed to. It is what a scan tells.
#[derive(Drop)]
pub struct KeptStream<'p, K> {
    /// What is known of the capture so far.
    pub stream: Stream<'p>,
    /// What is kept of its facts.
    pub keeper: K,
}
