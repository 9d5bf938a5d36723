//! Where a run writes while nothing is to be written.

ghost use Rattle.std.specs.Prelude.{None};

use pmb_io::{IoFault, Sink};

/// Takes all bytes, keeps none and never fails.
#[derive(Drop)]
pub(crate) struct Nowhere {
    /// How many calls there were.
    calls: u64,
}

impl Nowhere {
    /// No byte came.
    pub(crate) fn new() -> Nowhere {
        Nowhere { calls: 0 }
    }
}

impl Sink for Nowhere {
    ghost told = { λ nowhere. record { held = None; failures = 0 } };

    fn write_all(&mut self, _bytes: &[u8]) -> Result<(), IoFault> {
        self.calls = self.calls.saturating_add(1);
        Ok(())
    }
}
