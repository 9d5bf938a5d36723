//! A reader of files as one, after bytes that come first.
//!
//! One file is open at a time: the next one is opened when the one before has ended.
//!
//! Its rows: `tests/files/rows.txt`.

use crate::opener::Opener;
use std::io::{self, Read};

/// The end of a line.
const LINE_END: u8 = b'\n';

/// Why a file could not be read to its end.
#[derive(Clone, Copy)]
pub struct ReadFailure<'a> {
    /// The file's name.
    pub name: &'a str,
    /// What the system said.
    pub cause: io::Error,
}

/// A reader of bytes, and then of files one after the other. Before a file it gives an LF where the
/// bytes so far lack one at their end.
#[derive(Drop)]
pub struct Joined<'a, F, O> {
    files: &'a F,
    /// What is left of the bytes that come first.
    head: &'a [u8],
    /// The files that were not opened yet.
    names: &'a [&'a str],
    /// The file that is open.
    open: Option<O>,
    /// The name of the file that was opened last.
    name: &'a str,
    /// Whether a line starts after the bytes that were given.
    starts_line: bool,
    /// Why the last read failed.
    failure: Option<ReadFailure<'a>>,
}

impl<'a, F: Opener> Joined<'a, F, F::Opened> {
    ghost use Rattle.std.specs.Prelude.{◌≡◌, ◌<◌, ◌≤◌, [], ◌∷◌, true, false, Some, None, Ok, IfOk, IfErr, OnOk, OnErr, length, map, take};
    ghost use Rattle.std.specs.Io.KnownBytes.{Consumes, Keeps};
    ghost use Rattle.pmb_files.specs.Joined.{joined_left, left_of, starts_after};
    ghost use Rattle.pmb_files.specs.Known.{all_bytes};
    ghost use Rattle.pmb_files.specs.machine.Joined.{HasEnded};

    /// A reader of `head`, which ends in LF or is empty, and then of the files of these names.
    pub fn new(files: &'a F, head: &'a [u8], names: &'a [&'a str]) -> Joined<'a, F, F::Opened>
        ensures { joined_left F.known F.Opened.remaining result ≡ left_of true (Some head.now) (all_bytes (F.known files.now) (map (λ name. name.now) names.now)) }
    {
        Joined {
            files,
            head,
            names,
            open: None,
            name: "",
            starts_line: true,
            failure: None,
        }
    }

    /// Why the last read failed, if it did.
    pub fn failure(&self) -> Option<ReadFailure<'a>> {
        self.failure
    }

    // Reads of the bytes that come first, and then of the file that is open. It returns 0 where neither
    // has any left, and then no file is open.
    fn read_open(&mut self, buffer: &mut [u8]) -> io::Result<usize>
        requires room { 0 < length buffer.old }
        ensures within { IfOk result (λ n. n ≤ length buffer.new) }
        ensures room { length buffer.new ≡ length buffer.old }
        ensures read { IfOk result (λ n. Consumes (joined_left F.known F.Opened.remaining self.old) (joined_left F.known F.Opened.remaining self.new) (take n buffer.new)) }
        ensures failed { OnErr result (Keeps (joined_left F.known F.Opened.remaining self.old) (joined_left F.known F.Opened.remaining self.new)) }
        ensures ended { result ≡ Ok 0 → HasEnded self.new }
        ensures names { self.new.names ≡ self.old.names }
    {
        if !self.head.is_empty() {
            let count = self.head.read(buffer)?;
            self.note(&buffer[..count]);
            return Ok(count);
        }
        let Some(file) = &mut self.open else {
            return Ok(0);
        };
        match file.read(buffer) {
            Ok(0) => {
                self.open = None;
                Ok(0)
            }
            Ok(count) => {
                self.note(&buffer[..count]);
                Ok(count)
            }
            Err(cause) => {
                self.failure = Some(ReadFailure {
                    name: self.name,
                    cause,
                });
                Err(cause)
            }
        }
    }

    // Notes whether a line starts after some bytes.
    fn note(&mut self, bytes: &[u8])
        ensures { self.new ≡ record self.old { starts_line = starts_after self.old.starts_line bytes.now } }
    {
        if let [.., last] = bytes {
            self.starts_line = *last == LINE_END;
        }
    }

    // Opens the next file.
    fn open_next(&mut self) -> io::Result<()>
        requires ended { HasEnded self.old }
        requires starts { self.old.starts_line ≡ true }
        requires some { 0 < length self.old.names.now }
        ensures opened { OnOk result (Keeps (joined_left F.known F.Opened.remaining self.old) (joined_left F.known F.Opened.remaining self.new)) }
        ensures failed { OnErr result (Keeps (joined_left F.known F.Opened.remaining self.old) (joined_left F.known F.Opened.remaining self.new)) }
        ensures fewer { OnOk result (length self.new.names.now < length self.old.names.now) }
    {
        let [name, others @ ..] = self.names else {
            return Ok(());
        };
        match self.files.open(name) {
            Ok(file) => {
                self.open = Some(file);
                self.name = name;
                self.names = others;
                Ok(())
            }
            Err(cause) => {
                self.failure = Some(ReadFailure { name, cause });
                Err(cause)
            }
        }
    }
}

impl<F: Opener> Read for Joined<'_, F, F::Opened> {
    ghost use Rattle.pmb_files.specs.Joined.{joined_left};

    ghost remaining = { joined_left F.known F.Opened.remaining };

    fn read(&mut self, buffer: &mut [u8]) -> io::Result<usize> {
        if buffer.is_empty() {
            return Ok(0);
        }
        loop {
            let count = self.read_open(buffer)?;
            if count > 0 || self.names.is_empty() {
                return Ok(count);
            }
            if !self.starts_line {
                buffer[0] = LINE_END;
                self.starts_line = true;
                return Ok(1);
            }
            self.open_next()?;
        }
    }
}
