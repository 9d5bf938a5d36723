//! A writer that writes nowhere.
//!
//! The text of a request waits until it is whole. There is room for all of it, so nothing is to be written before.
//!
//! Its rows: `tests_host`, `src/session.rt`.

use pmb_io::{IoFault, Sink};

/// A writer that takes nothing: each write fails.
#[derive(Drop)]
pub(crate) struct Nowhere {
    /// How many writes there were; stays at the greatest `u64`.
    failures: u64,
}

impl Nowhere {
    pub(crate) fn new() -> Nowhere {
        Nowhere { failures: 0 }
    }
}

impl Sink for Nowhere {
    ghost use Rattle.std.specs.Prelude.{Some, []};

    ghost told = { λ nowhere. record { held = Some []; failures = nowhere.failures } };

    fn write_all(&mut self, _bytes: &[u8]) -> Result<(), IoFault> {
        self.failures = self.failures.saturating_add(1);
        Err(IoFault)
    }
}
