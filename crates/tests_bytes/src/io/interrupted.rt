//! Readers and writers of the standard library that are interrupted, take nothing, or fail.

use crate::compare::same;
use pmb_io::{Io, IoFault, Sink, Source};
use std::io;
use std::io::{ErrorKind, Read, Write};

/// A reader or writer that is interrupted at first. It counts its calls.
#[derive(Drop)]
struct Interrupted<T> {
    inner: T,
    /// How many more calls are interrupted.
    left: u64,
    /// The most bytes that a call moves after that; `None` where it fails.
    most: Option<usize>,
    calls: u64,
}

impl<T> Interrupted<T> {
    fn new(inner: T, left: u64, most: Option<usize>) -> Interrupted<T> {
        Interrupted {
            inner,
            left,
            most,
            calls: 0,
        }
    }

    /// The most bytes that this call moves.
    fn call(&mut self) -> io::Result<usize> {
        self.calls = self.calls.saturating_add(1);
        if self.left > 0 {
            self.left -= 1;
            return Err(io::Error::from(ErrorKind::Interrupted));
        }
        match self.most {
            Some(most) => Ok(most),
            None => Err(io::Error::from(ErrorKind::WouldBlock)),
        }
    }
}

impl<T: Read> Read for Interrupted<T> {
    fn read(&mut self, buffer: &mut [u8]) -> io::Result<usize> {
        let count = self.call()?.min(buffer.len());
        self.inner.read(&mut buffer[..count])
    }
}

impl<T: Write> Write for Interrupted<T> {
    fn write(&mut self, bytes: &[u8]) -> io::Result<usize> {
        let count = self.call()?.min(bytes.len());
        self.inner.write(&bytes[..count])
    }

    fn flush(&mut self) -> io::Result<()> {
        Ok(())
    }
}

#[test]
fn a_read_that_is_interrupted_is_tried_again(rt: HostRuntime) {
    for times in [0, 1, 2, 7] {
        let mut reader = Io::new(Interrupted::new(&b"abcd"[..], times, Some(3)));
        let mut buffer = [0u8; 8];
        same(&rt, (times, "read"), reader.read(&mut buffer), Ok(3));
        same(&rt, (times, "bytes"), &buffer[..3], b"abc".as_slice());
        same(&rt, (times, "read"), reader.read(&mut buffer), Ok(1));
        same(&rt, (times, "read"), reader.read(&mut buffer), Ok(0));
        same(&rt, (times, "calls"), reader.into_inner().calls, times + 3);
    }
}

#[test]
fn a_read_that_fails_is_not(rt: HostRuntime) {
    for times in [0, 1, 2, 7] {
        let mut reader = Io::new(Interrupted::new(&b"abcd"[..], times, None));
        let mut buffer = [0u8; 8];
        same(&rt, (times, "read"), reader.read(&mut buffer), Err(IoFault));
        same(&rt, (times, "calls"), reader.into_inner().calls, times + 1);
    }
}

#[test]
fn a_write_that_is_interrupted_is_tried_again(rt: HostRuntime) {
    for times in [0, 1, 2, 7] {
        let held = Vec::new(rt.alloc());
        let mut writer = Io::new(Interrupted::new(held, times, Some(3)));
        same(&rt, (times, "write"), writer.write_all(b"abcdefgh"), Ok(()));
        let inside = writer.into_inner();
        same(
            &rt,
            (times, "written"),
            inside.inner.as_slice(),
            b"abcdefgh".as_slice(),
        );
        same(&rt, (times, "calls"), inside.calls, times + 3);
    }
}

#[test]
fn a_writer_that_takes_nothing_fails_at_once(rt: HostRuntime) {
    for times in [0, 1, 2, 7] {
        let held = Vec::new(rt.alloc());
        let mut writer = Io::new(Interrupted::new(held, times, Some(0)));
        same(&rt, (times, "write"), writer.write_all(b""), Ok(()));
        same(
            &rt,
            (times, "write"),
            writer.write_all(b"abc"),
            Err(IoFault),
        );
        let inside = writer.into_inner();
        same(&rt, (times, "written"), inside.inner.len(), 0);
        same(&rt, (times, "calls"), inside.calls, times + 1);
    }
}

#[test]
fn and_so_does_one_that_fails(rt: HostRuntime) {
    for times in [0, 1, 2, 7] {
        let held = Vec::new(rt.alloc());
        let mut writer = Io::new(Interrupted::new(held, times, None));
        same(
            &rt,
            (times, "write"),
            writer.write_all(b"abc"),
            Err(IoFault),
        );
        same(&rt, (times, "calls"), writer.into_inner().calls, times + 1);
    }
}
