//! A reader that keeps the front of what it gave.
//!
//! Its rows: `tests/rows/explanations.txt`.

use pmb_io::{IoFault, Source};
use std::alloc::Global;

/// A reader, and the front of the bytes that it gave: up to a limit, or less where there is no memory.
#[derive(Drop)]
pub struct KeptInput<R> {
    inner: R,
    kept: Vec<u8>,
    /// How many bytes are kept at most.
    limit: usize,
}

impl<R> KeptInput<R> {
    ghost use Rattle.std.specs.Prelude.{◌≡◌, ◌++◌, [], take};
    ghost use Rattle.pmb_explained.specs.Kept.{input_inner, input_kept};

    /// A reader of which nothing is kept so far, and at most so many bytes will be.
    pub fn new(alloc: Global, inner: R, limit: usize) -> KeptInput<R>
        ensures inner { input_inner result ≡ inner }
        ensures kept { input_kept result ≡ [] }
    {
        KeptInput {
            inner,
            kept: Vec::new(alloc),
            limit,
        }
    }

    /// The reader inside, and the front of the bytes that were read.
    pub fn into_parts(self) -> (R, Vec<u8>)
        ensures inner { result.0 ≡ input_inner self }
        ensures kept { result.1.items ≡ input_kept self }
    {
        let KeptInput { inner, kept, .. } = self;
        (inner, kept)
    }

    /// Keeps a front of some bytes that were read, and returns how many. Without memory nothing more is kept
    /// from then on.
    fn keep(&mut self, bytes: &[u8]) -> usize
        ensures inner { input_inner self.new ≡ input_inner self.old }
        ensures kept { input_kept self.new ≡ input_kept self.old ++ take result bytes.now }
    {
        let room = self.limit.saturating_sub(self.kept.len());
        let front = &bytes[..room.min(bytes.len())];
        match self.kept.extend_from_slice(front) {
            Ok(()) => front.len(),
            Err(_) => {
                self.limit = 0;
                0
            }
        }
    }
}

impl<R: Source> Source for KeptInput<R> {
    ghost use Rattle.std.specs.Prelude.{◌≤◌, length, IfOk};
    ghost use Rattle.std.specs.Io.KnownBytes.{ReadConsumes};
    ghost use Rattle.pmb_io.specs.Calls.{CountsBytes, CountsFailure, CountsRead, TellsEnd};
    ghost use Rattle.pmb_explained.specs.Kept.{input_inner};

    ghost told = { λ it. R.told it.inner };

    // It reads what the reader inside reads, and keeps a front of it.
    fn read(&mut self, buffer: &mut [u8]) -> Result<usize, IoFault>
        ensures within { IfOk result (λ n. n ≤ length buffer.new) }
        ensures bytes { ReadConsumes (R.told (input_inner self.old)).left (R.told (input_inner self.new)).left result buffer.new }
        ensures failed { CountsFailure (R.told (input_inner self.old)).failures (R.told (input_inner self.new)).failures result }
        ensures read { CountsRead (R.told (input_inner self.old)) (R.told (input_inner self.new)) result buffer.new }
        ensures given { CountsBytes (R.told (input_inner self.old)).given (R.told (input_inner self.new)).given result }
        ensures ended { TellsEnd (R.told (input_inner self.old)).ended (R.told (input_inner self.new)).ended result buffer.new }
    {
        match self.inner.read(buffer) {
            Ok(count) => {
                let _ = self.keep(&buffer[..count]);
                Ok(count)
            }
            Err(fault) => Err(fault),
        }
    }
}
