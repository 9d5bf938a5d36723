//! What opens files by their names.

ghost use Rattle.std.specs.Prelude.{ℕ, List, Option, Result, IfOk};
ghost use Rattle.pmb_files.specs.Known.{Looks, Opens};
ghost use Rattle.pmb_files.specs.declared.file_fault.FileFault.{FileFault};

use crate::file_fault::FileFault;
use std::io::{self, Read};

/// What opens files by their names. A name is looked at first, and the file opened when its turn has
/// come, so that few files are open at a time.
pub trait Opener {
    /// A file that is open. It is closed where it is dropped.
    type Opened: Read + Drop;

    /// The bytes of the file of a name, or why it can't be read, where that is known. What a file of
    /// the system holds is not known.
    ghost known: { Self → List ℕ → Option (Result (List ℕ) FileFault) };

    /// Whether a file can be read, as far as a look at it tells.
    fn look(&self, name: &str) -> Result<(), FileFault>
        ensures { Looks (known self.now name.now) result };

    /// Opens a file.
    fn open(&self, name: &str) -> io::Result<Self::Opened>
        ensures { IfOk result (λ file. Opens (known self.now name.now) (Self.Opened.remaining file)) };
}
