//! A refused event. Its rows: `tests_reader`, `src/reader/rows.rt`; `tests/rows/captures.txt`.

use pmb_bus::Kinds;
use pmb_transaction::Reason;

/// The refusal of an event that no packet can have there, or of an end of the events in a packet.
#[derive(Clone, Copy, Debug, PartialEq, Eq)]
pub struct Refusal {
    /// How many events came before, since the reader was made; stays at the greatest `u64`.
    pub at: u64,
    /// Why.
    pub reason: Reason,
    /// The kinds of the events that might have come.
    pub expected: Kinds,
}
