//! Why a file can't be read.

use std::io;

/// Why a file can't be read, as a look at it tells.
#[derive(Clone, Copy)]
pub enum FileFault {
    /// There is no file of this name.
    NoSuchFile,
    /// It is a directory.
    IsDirectory,
    /// It may not be read.
    PermissionDenied,
    /// Another fault, as the system names it.
    Other(io::Error),
}
