//! What the tool says on standard error.
//!
//! Its rows: `tests/files/rows.txt`.

use pmb_io::{IoFault, Sink};
use std::alloc::Global;

/// A writer into memory for what the tool says, which is kept until it is known of which file that is.
#[derive(Drop)]
pub(crate) struct Said {
    text: Vec<u8>,
    /// How often memory was refused; stays at the greatest `u64`.
    failures: u64,
}

impl Said {
    ghost use Rattle.std.specs.Prelude.{◌≡◌, ◌↔◌, IsTrue};
    ghost use Rattle.pmb_files.specs.Over.{nothing_said};
    ghost use Rattle.pmb_files.specs.machine.Said.{said_text, said_told};

    /// Nothing is said yet. It takes no memory.
    pub(crate) fn new(alloc: Global) -> Said
        ensures { said_told result ≡ nothing_said }
    {
        Said {
            text: Vec::new(alloc),
            failures: 0,
        }
    }

    /// Whether there was memory for all that was said.
    pub(crate) fn is_whole(&self) -> bool
        ensures { IsTrue result ↔ ((said_told self.now).failures ≡ 0) }
    {
        self.failures == 0
    }

    /// What was said.
    pub(crate) fn text(&self) -> &[u8]
        ensures { result.now ≡ said_text self.now }
    {
        self.text.as_slice()
    }
}

impl Sink for Said {
    ghost use Rattle.std.specs.Prelude.{Some};

    ghost told = { λ said. record { held = Some said.text.items; failures = said.failures } };

    fn write_all(&mut self, bytes: &[u8]) -> Result<(), IoFault> {
        match self.text.extend_from_slice(bytes) {
            Ok(()) => Ok(()),
            Err(_) => {
                self.failures = self.failures.saturating_add(1);
                Err(IoFault)
            }
        }
    }
}
