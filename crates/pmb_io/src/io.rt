//! A reader or a writer of the standard library that tells what it did.
//!
//! Its rows: `tests_bytes`, `src/io/interrupted.rt`.

use crate::count::raised;
use crate::fault::IoFault;
use crate::sink::Sink;
use crate::source::Source;
use std::io::{ErrorKind, Read, Write};

/// A reader or a writer of the standard library as a [`Source`] or a [`Sink`].
#[derive(Clone, Copy, Debug, Drop)]
pub struct Io<T> {
    inner: T,
    /// How many calls failed; stays at the greatest `u64`, as the counts below do.
    failures: u64,
    /// How many reads neither failed nor were the end.
    reads: u64,
    /// How many bytes they gave.
    given: u64,
    /// Whether a read gave nothing into a buffer with room.
    ended: bool,
    /// How many writes of some bytes took none of them.
    idle: u64,
}

impl<T> Io<T> {
    ghost use Rattle.std.specs.Prelude.{◌≡◌, false, ◌==◌, ◌&&◌, ◌||◌, if◌then◌else◌};
    ghost use Rattle.pmb_io.specs.Count.{raised};
    ghost use Rattle.pmb_io.specs.Calls.{io_inner, io_failures, io_reads, io_given, io_ended, io_idle};

    /// None of its calls has failed yet, it has given nothing, and it has not ended.
    pub fn new(inner: T) -> Io<T>
        ensures inner { io_inner result ≡ inner }
        ensures failures { io_failures result ≡ 0 }
        ensures reads { io_reads result ≡ 0 }
        ensures given { io_given result ≡ 0 }
        ensures ended { io_ended result ≡ false }
        ensures idle { io_idle result ≡ 0 }
    {
        Io {
            inner,
            failures: 0,
            reads: 0,
            given: 0,
            ended: false,
            idle: 0,
        }
    }

    /// The reader or writer inside.
    pub fn into_inner(self) -> T
        ensures { result ≡ io_inner self }
    {
        let Io { inner, .. } = self;
        inner
    }

    /// Counts a read of so many bytes, into a buffer with room or into one without.
    fn count_read(&mut self, bytes: usize, has_room: bool)
        ensures inner { io_inner self.new ≡ io_inner self.old }
        ensures failures { io_failures self.new ≡ io_failures self.old }
        ensures reads { io_reads self.new ≡ (if bytes == 0 && (io_ended self.old || has_room) then io_reads self.old else raised (io_reads self.old) 1) }
        ensures given { io_given self.new ≡ raised (io_given self.old) bytes }
        ensures ended { io_ended self.new ≡ (io_ended self.old || (bytes == 0 && has_room)) }
        ensures idle { io_idle self.new ≡ io_idle self.old }
    {
        if bytes == 0 && (self.ended || has_room) {
            self.ended = true;
        } else {
            self.reads = raised(self.reads, 1);
            self.given = raised(self.given, bytes as u64);
        }
    }

    /// Counts a call that failed.
    fn fail(&mut self) -> IoFault
        ensures inner { io_inner self.new ≡ io_inner self.old }
        ensures failures { io_failures self.new ≡ raised (io_failures self.old) 1 }
        ensures reads { io_reads self.new ≡ io_reads self.old }
        ensures given { io_given self.new ≡ io_given self.old }
        ensures ended { io_ended self.new ≡ io_ended self.old }
        ensures idle { io_idle self.new ≡ io_idle self.old }
    {
        self.failures = raised(self.failures, 1);
        IoFault
    }
}

impl<T: Read> Source for Io<T> {
    ghost told = { λ io. record { left = T.remaining io.inner; given = io.given; reads = io.reads; failures = io.failures; ended = io.ended } };

    // A read that is interrupted is tried again.
    fn read(&mut self, buffer: &mut [u8]) -> Result<usize, IoFault> {
        for _ in 0..u64::MAX {
            match self.inner.read(buffer) {
                Ok(count) => {
                    self.count_read(count, !buffer.is_empty());
                    return Ok(count);
                }
                Err(error) if error.kind() == ErrorKind::Interrupted => {}
                Err(_) => return Err(self.fail()),
            }
        }
        Err(self.fail())
    }
}

/// What one write did.
enum Wrote {
    /// So many bytes were taken.
    Some(usize),
    /// None of the bytes was taken.
    Nothing,
    /// It was interrupted before any byte was taken, and can be tried again.
    Interrupted,
    Failed,
}

impl<T: Write> Io<T> {
    ghost use Rattle.std.specs.Prelude.{◌≡◌};
    ghost use Rattle.pmb_io.specs.Calls.{io_failures, io_idle, io_inner};
    ghost use Rattle.pmb_io.specs.machine.Writes.{idle_after, Took};

    /// Writes once.
    fn write_some(&mut self, bytes: &[u8]) -> Wrote
        ensures took { Took (T.contents (io_inner self.old)) (T.contents (io_inner self.new)) bytes.now result }
        ensures failures { io_failures self.new ≡ io_failures self.old }
        ensures idle { io_idle self.new ≡ idle_after result (io_idle self.old) }
    {
        match self.inner.write(bytes) {
            Ok(0) => {
                self.idle = raised(self.idle, 1);
                Wrote::Nothing
            }
            Ok(count) => Wrote::Some(count),
            Err(error) if error.kind() == ErrorKind::Interrupted => Wrote::Interrupted,
            Err(_) => Wrote::Failed,
        }
    }
}

impl<T: Write> Sink for Io<T> {
    ghost use Rattle.std.specs.Prelude.{OnOk, OnErr};
    ghost use Rattle.std.specs.Io.KnownBytes.{Appends};
    ghost use Rattle.pmb_io.specs.Calls.{AppendsFront, CountsFailure, IsIdleOnce, io_failures, io_idle, io_inner};

    ghost told = { λ io. record { held = T.contents io.inner; failures = io.failures } };

    // A write that is interrupted is tried again, and one that takes nothing is a failure.
    fn write_all(&mut self, bytes: &[u8]) -> Result<(), IoFault>
        ensures written { OnOk result (Appends (T.contents (io_inner self.old)) (T.contents (io_inner self.new)) bytes.now) }
        ensures front { OnErr result (AppendsFront (T.contents (io_inner self.old)) (T.contents (io_inner self.new)) bytes.now) }
        ensures failed { CountsFailure (io_failures self.old) (io_failures self.new) result }
        ensures idle { IsIdleOnce (io_idle self.old) (io_idle self.new) result }
    {
        let mut rest = bytes;
        for _ in 0..u64::MAX {
            if rest.is_empty() {
                return Ok(());
            }
            match self.write_some(rest) {
                Wrote::Some(count) => rest = &rest[count..],
                Wrote::Interrupted => {}
                Wrote::Nothing | Wrote::Failed => return Err(self.fail()),
            }
        }
        Err(self.fail())
    }
}
