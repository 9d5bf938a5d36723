//! What one call of a reader makes.
//!
//! Its rows: `tests_tasks`, `src/capture_reader.rt`.

ghost use Rattle.std.specs.Prelude.{◌≡◌, []};
ghost use Rattle.pmb_capture_reader.specs.Fresh.{fresh_bytes};

use pmb_io::{IoFault, Sink};
use std::alloc::Global;

/// A writer into memory for what one call makes, which is kept apart: so where memory is refused in the
/// middle of it, what was ready before is as it was.
#[derive(Drop)]
pub(crate) struct Fresh {
    pub(crate) bytes: Vec<u8>,
    /// How often memory was refused; stays at the greatest `u64`.
    failures: u64,
}

impl Fresh {
    /// Nothing is written yet. It takes no memory.
    pub(crate) fn new(alloc: Global) -> Fresh {
        Fresh {
            bytes: Vec::new(alloc),
            failures: 0,
        }
    }

    /// Drops what was written. Its memory is kept.
    pub(crate) fn clear(&mut self)
        ensures { fresh_bytes self.new ≡ [] }
    {
        self.bytes.clear();
    }
}

impl Sink for Fresh {
    ghost use Rattle.std.specs.Prelude.{Some};

    ghost told = { λ fresh. record { held = Some fresh.bytes.items; failures = fresh.failures } };

    fn write_all(&mut self, bytes: &[u8]) -> Result<(), IoFault> {
        match self.bytes.extend_from_slice(bytes) {
            Ok(()) => Ok(()),
            Err(_) => {
                self.failures = self.failures.saturating_add(1);
                Err(IoFault)
            }
        }
    }
}
