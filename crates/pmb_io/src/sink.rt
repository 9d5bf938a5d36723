//! What bytes are written to.
//!
//! Its rows: `tests_bytes`, `src/io/interrupted.rt`.

ghost use Rattle.std.specs.Prelude.{OnOk, OnErr};
ghost use Rattle.std.specs.Io.KnownBytes.{Appends};
ghost use Rattle.pmb_io.specs.Calls.{CountsFailure, AppendsFront};
ghost use Rattle.pmb_io.specs.Told.{WriterTold};

use crate::fault::IoFault;

/// What bytes are written to.
pub trait Sink {
    /// The bytes that it holds, and how many writes failed so far.
    ghost told: { Self → WriterTold };

    /// Writes all the bytes. After a fault a front of them went out, of unknown length.
    fn write_all(&mut self, bytes: &[u8]) -> Result<(), IoFault>
        ensures written { OnOk result (Appends (told self.old).held (told self.new).held bytes.now) }
        ensures front { OnErr result (AppendsFront (told self.old).held (told self.new).held bytes.now) }
        ensures failed { CountsFailure (told self.old).failures (told self.new).failures result };
}
