//! The files of the system, standard input, and a profile that is at hand.

ghost use Rattle.std.specs.Prelude.{None};
ghost use Rattle.std.specs.Io.{ReadsAtMost};

use crate::progress::Progress;
use pmb_files::{FileFault, Opener};
use std::fs;
use std::fs::File;
use std::io::{self, ErrorKind, IsTerminal, Read, Stdin, Write};

/// The name of standard input.
const INPUT: &str = "-";

/// What is said where standard input is a terminal.
const AT_TERMINAL: &[u8] =
    b"pmb: reading from the terminal until Ctrl-D; 'pmb COMMAND FILE' reads a file\n";

/// The name of the profile that is at hand. No file has it, and no word of a command.
pub(crate) const AT_HAND: &str = "--part\0";

/// The files of the system, standard input under the name `-`, and a profile that is at hand.
#[derive(Drop)]
pub(crate) struct Disk<'a> {
    rt: &'a HostRuntime,
    profile: &'a [u8],
    /// The line that is told what is read.
    progress: &'a Progress<'a>,
}

impl<'a> Disk<'a> {
    pub(crate) fn new(
        rt: &'a HostRuntime,
        profile: &'a [u8],
        progress: &'a Progress<'a>,
    ) -> Disk<'a> {
        Disk {
            rt,
            profile,
            progress,
        }
    }
}

/// What is open.
#[derive(Drop)]
pub(crate) enum Input<'a> {
    File(File, &'a Progress<'a>),
    Standard(Stdin, &'a Progress<'a>),
    AtHand(&'a [u8]),
}

impl Read for Input<'_> {
    fn read(&mut self, buffer: &mut [u8]) -> io::Result<usize> {
        match self {
            Input::File(file, progress) => read_told(file, buffer, progress),
            Input::Standard(stdin, progress) => read_told(stdin, buffer, progress),
            Input::AtHand(text) => text.read(buffer),
        }
    }
}

/// Reads, and tells the line of progress.
fn read_told<R: Read>(
    reader: &mut R,
    buffer: &mut [u8],
    progress: &Progress<'_>,
) -> io::Result<usize>
    ensures { ReadsAtMost result buffer.new }
{
    progress.begin();
    let count = reader.read(buffer)?;
    progress.take(&buffer[..count]);
    Ok(count)
}

impl<'a> Opener for Disk<'a> {
    type Opened = Input<'a>;

    // Contracts cannot see a file's bytes.
    ghost known = { λ _ _. None };

    /// A regular file is opened and closed. Of any other but a directory it is only seen that it is
    /// there: a FIFO that is opened and closed ends for who writes into it.
    fn look(&self, name: &str) -> Result<(), FileFault> {
        if name == AT_HAND {
            return Ok(());
        }
        if name == INPUT {
            self.progress.expect_input();
            return Ok(());
        }
        match fs::metadata(self.rt, name) {
            Ok(found) if found.is_dir() => Err(FileFault::IsDirectory),
            Ok(found) if found.is_file() => match File::open(self.rt, name) {
                Ok(_) => {
                    self.progress.expect(Some(found.len()));
                    Ok(())
                }
                Err(error) => Err(fault(error)),
            },
            Ok(_) => {
                self.progress.expect(None);
                Ok(())
            }
            Err(error) => Err(fault(error)),
        }
    }

    fn open(&self, name: &str) -> io::Result<Input<'a>> {
        if name == AT_HAND {
            return Ok(Input::AtHand(self.profile));
        }
        self.progress.begin_file();
        if name != INPUT {
            let file = File::open(self.rt, name)?;
            if self.progress.is_on() && file.is_terminal() {
                self.progress.turn_off();
            }
            return Ok(Input::File(file, self.progress));
        }
        let stdin = self.rt.stdin();
        if stdin.is_terminal() {
            self.progress.turn_off();
            let _ = self.rt.stderr().write_all(AT_TERMINAL);
        } else {
            self.progress.expect_input();
        }
        Ok(Input::Standard(stdin, self.progress))
    }
}

/// Why a file can't be read.
fn fault(error: io::Error) -> FileFault {
    match error.kind() {
        ErrorKind::NotFound => FileFault::NoSuchFile,
        ErrorKind::IsADirectory => FileFault::IsDirectory,
        ErrorKind::PermissionDenied => FileFault::PermissionDenied,
        _ => FileFault::Other(error),
    }
}
