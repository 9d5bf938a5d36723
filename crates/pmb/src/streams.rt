//! Standard output, and standard error, which says nothing of a write that failed where nobody reads standard
//! output any more. Before both write, the line of progress is wiped where it would meet them.

use crate::progress::Progress;
use std::cell::Cell;
use std::io::{self, ErrorKind, Write};

/// How a line ends that reports a write that failed. With several files it names one.
const WRITE_FAILED: &[u8] = b": write failed\n";

/// Standard output.
#[derive(Drop)]
pub(crate) struct Output<'a, W> {
    inner: W,
    progress: &'a Progress<'a>,
    /// Set where a write fails since nobody reads any more.
    is_closed: &'a Cell<bool>,
}

impl<'a, W> Output<'a, W> {
    pub(crate) fn new(
        inner: W,
        progress: &'a Progress<'a>,
        is_closed: &'a Cell<bool>,
    ) -> Output<'a, W> {
        Output {
            inner,
            progress,
            is_closed,
        }
    }
}

impl<W: Write> Write for Output<'_, W> {
    fn write(&mut self, bytes: &[u8]) -> io::Result<usize> {
        self.progress.make_room();
        match self.inner.write(bytes) {
            Ok(count) => Ok(count),
            Err(error) => {
                if error.kind() == ErrorKind::BrokenPipe {
                    self.is_closed.set(true);
                }
                Err(error)
            }
        }
    }

    fn flush(&mut self) -> io::Result<()> {
        self.inner.flush()
    }
}

/// Standard error.
#[derive(Drop)]
pub(crate) struct Faults<'a, W> {
    inner: W,
    progress: &'a Progress<'a>,
    /// Whether nobody reads standard output any more.
    is_closed: &'a Cell<bool>,
}

impl<'a, W> Faults<'a, W> {
    pub(crate) fn new(
        inner: W,
        progress: &'a Progress<'a>,
        is_closed: &'a Cell<bool>,
    ) -> Faults<'a, W> {
        Faults {
            inner,
            progress,
            is_closed,
        }
    }
}

impl<W: Write> Write for Faults<'_, W> {
    fn write(&mut self, bytes: &[u8]) -> io::Result<usize> {
        self.progress.wipe();
        if self.is_closed.get() && bytes.ends_with(WRITE_FAILED) {
            return Ok(bytes.len());
        }
        self.inner.write(bytes)
    }

    fn flush(&mut self) -> io::Result<()> {
        self.inner.flush()
    }
}
