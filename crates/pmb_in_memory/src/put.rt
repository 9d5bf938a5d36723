//! What is told of a text that was put into a room.
//!
//! Its rows: `tests_tasks`, `src/whole.rt`.

ghost use Rattle.std.specs.Prelude.{◌≡◌};
ghost use Rattle.pmb_in_memory.specs.Put.{put_of};

use crate::fault::WholeFault;
use pmb_io::Tally;

/// What is told of a text that was put into a room.
#[derive(Clone, Copy, Debug, PartialEq, Eq)]
pub struct Put {
    /// How many packets and refusals there were.
    pub tally: Tally,
    /// How many bytes the text has, also where they don't fit; at most the greatest `usize`.
    pub length: usize,
}

/// What is told where a text of so many bytes was written.
pub(crate) fn put_of(length: usize, outcome: Result<Tally, WholeFault>) -> Result<Put, WholeFault>
    ensures { result ≡ put_of length outcome }
{
    match outcome {
        Ok(tally) => Ok(Put { tally, length }),
        Err(fault) => Err(fault),
    }
}
