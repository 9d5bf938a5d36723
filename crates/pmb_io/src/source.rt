//! What bytes are read from.
//!
//! Its rows: `tests_bytes`, `src/io/giving.rt`, `src/io/interrupted.rt`.

ghost use Rattle.std.specs.Prelude.{◌≤◌, length, IfOk};
ghost use Rattle.std.specs.Io.KnownBytes.{ReadConsumes};
ghost use Rattle.pmb_io.specs.Calls.{CountsBytes, CountsFailure, CountsRead, TellsEnd};
ghost use Rattle.pmb_io.specs.Told.{ReaderTold};

use crate::fault::IoFault;

/// What bytes are read from. It tells what its reads did, also where its bytes are not known, as
/// those of a file or a pipe are not.
pub trait Source {
    /// The bytes that it has left, and what its reads did so far.
    ghost told: { Self → ReaderTold };

    /// Reads some bytes into the front of the buffer and returns how many; 0 is the end.
    fn read(&mut self, buffer: &mut [u8]) -> Result<usize, IoFault>
        ensures within { IfOk result (λ n. n ≤ length buffer.new) }
        ensures bytes { ReadConsumes (told self.old).left (told self.new).left result buffer.new }
        ensures failed { CountsFailure (told self.old).failures (told self.new).failures result }
        ensures read { CountsRead (told self.old) (told self.new) result buffer.new }
        ensures given { CountsBytes (told self.old).given (told self.new).given result }
        ensures ended { TellsEnd (told self.old).ended (told self.new).ended result buffer.new };
}
