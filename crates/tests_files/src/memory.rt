//! Files in memory.

ghost use Rattle.std.specs.Prelude.{◌≡◌, Err, MatchOption, Some};
ghost use Rattle.pmb_files.specs.declared.file_fault.FileFault.TheVariants.{NoSuchFile};
ghost use Rattle.tests_files.specs.Memory.{content_of, known_in};

use pmb_files::{FileFault, Opener};
use std::io::{self, ErrorKind};

/// A name, and the bytes of its file, or why it can't be read.
#[derive(Clone, Copy)]
pub struct Entry<'a> {
    /// The name.
    pub name: &'a str,
    /// The bytes, or why they can't be read.
    pub content: Result<&'a [u8], FileFault>,
}

/// Files in memory. The first of a name counts.
#[derive(Clone, Copy, Drop)]
pub struct Memory<'a> {
    entries: &'a [Entry<'a>],
}

impl<'a> Memory<'a> {
    /// These files.
    pub fn new(entries: &'a [Entry<'a>]) -> Memory<'a> {
        Memory { entries }
    }
}

impl<'a> Opener for Memory<'a> {
    type Opened = &'a [u8];

    ghost use Rattle.tests_files.specs.Memory.{known_in};

    ghost known = { λ files name. known_in files.entries.now name };

    fn look(&self, name: &str) -> Result<(), FileFault> {
        match find(self.entries, name) {
            Some(Ok(_)) => Ok(()),
            Some(Err(fault)) => Err(fault),
            None => Err(FileFault::NoSuchFile),
        }
    }

    fn open(&self, name: &str) -> io::Result<&'a [u8]> {
        match find(self.entries, name) {
            Some(Ok(bytes)) => Ok(bytes),
            Some(Err(_)) | None => Err(io::Error::from(ErrorKind::NotFound)),
        }
    }
}

// What there is of a name.
fn find<'a>(entries: &[Entry<'a>], name: &str) -> Option<Result<&'a [u8], FileFault>>
    ensures { MatchOption result (known_in entries.now name.now ≡ Some (Err NoSuchFile)) (λ content. known_in entries.now name.now ≡ Some (content_of content)) }
{
    let mut left = entries;
    while let [entry, others @ ..] = left {
        if entry.name == name {
            return Some(entry.content);
        }
        left = others;
    }
    None
}
