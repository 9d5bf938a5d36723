//! Lines on their way to a writer, each in its colours.
ghost use Rattle.std.specs.Prelude.{◌≡◌, [], IfSome};

use crate::lines::Lines;
use crate::put::{MOST, put_front, put_line};
use arrayvec::ArrayVec;
use pmb_io::laws::texts_add_up;
use pmb_io::{IoFault, RunFault, Sink, Waiting, put, send};
use std::alloc::Global;

/// A line under way.
type Line = ArrayVec<u8, 3072>;

/// A writer, and the line under way to it. What has room for texts is on the heap, since a run stands on the
/// stack above this.
#[derive(Drop)]
pub(crate) struct Painter<W> {
    inner: W,
    /// The line under way, as far as it is held.
    line: Box<Line>,
    /// Whether the front of the line under way went out.
    is_rest: bool,
    /// What is to go out. Nothing is, between two calls.
    waiting: Box<Waiting>,
}

/// A line of which nothing is held. It is never inlined, so that what it is made of is off the stack when lines are
/// painted.
#[inline(never)]
fn none_held(alloc: Global) -> Option<Box<Line>>
    ensures { IfSome result (λ line. line.value.items ≡ []) }
{
    match Box::new(alloc, Line::new()) {
        Ok(line) => Some(line),
        Err(_) => None,
    }
}

/// Room in which no text waits, made in the same way.
#[inline(never)]
fn none_waiting(alloc: Global) -> Option<Box<Waiting>>
    ensures { IfSome result (λ waiting. waiting.value.items ≡ []) }
{
    match Box::new(alloc, Waiting::new()) {
        Ok(waiting) => Some(waiting),
        Err(_) => None,
    }
}

impl<W: Sink> Painter<W> {
    ghost use Rattle.std.specs.Prelude.{◌≡◌, ◌<◌, ◌||◌, ◌++◌, [], nat_lt, length, IfErr, IfOk, OnErr, OnOk};
    ghost use Rattle.std.specs.Io.KnownBytes.{Appends};
    ghost use Rattle.pmb_io.specs.Calls.{AppendsFront, CountsFailure, WriterTells};
    ghost use Rattle.pmb_io.specs.Outgoing.{PutsText};
    ghost use Rattle.pmb_colour.specs.Painting.{byte_pieces, held_after, held_with, nothing_held, passes, pieces_of};
    ghost use Rattle.pmb_colour.specs.Pieces.{shown};
    ghost use Rattle.pmb_colour.specs.machine.Painter.{held_by, inner_of, waiting_of};

    /// Nothing is on its way yet. Where there is no memory, the writer is given back.
    pub(crate) fn new(alloc: Global, inner: W) -> Result<Painter<W>, W>
        ensures inner { IfOk result (λ painter. inner_of painter ≡ inner) }
        ensures held { IfOk result (λ painter. held_by painter ≡ nothing_held) }
        ensures waiting { IfOk result (λ painter. waiting_of painter ≡ []) }
        ensures back { IfErr result (λ writer. writer ≡ inner) }
    {
        let Some(line) = none_held(alloc) else {
            return Err(inner);
        };
        let Some(waiting) = none_waiting(alloc) else {
            return Err(inner);
        };
        Ok(Painter {
            inner,
            line,
            is_rest: false,
            waiting,
        })
    }

    /// The writer.
    pub(crate) fn into_inner(self) -> W
        ensures { result ≡ inner_of self }
    {
        let Painter { inner, .. } = self;
        inner
    }

    /// Passes a text on as it is.
    ///
    /// # Errors
    ///
    /// The writer failed: a front of the text went on.
    pub(crate) fn pass(&mut self, bytes: &[u8]) -> Result<(), IoFault>
        ensures passed { OnOk result (Appends (W.told (inner_of self.old)).held (W.told (inner_of self.new)).held bytes.now) }
        ensures held { held_by self.new ≡ held_by self.old }
        ensures waiting { waiting_of self.new ≡ waiting_of self.old }
        ensures front { OnErr result (AppendsFront (W.told (inner_of self.old)).held (W.told (inner_of self.new)).held bytes.now) }
        ensures failed { CountsFailure (W.told (inner_of self.old)).failures (W.told (inner_of self.new)).failures result }
    {
        self.inner.write_all(bytes)
    }

    /// Passes on what is held of the line under way, as it is. What follows of the line then has no
    /// colour.
    ///
    /// # Errors
    ///
    /// The writer failed: a front of it went on, and the rest is dropped.
    pub(crate) fn flush(&mut self) -> Result<(), IoFault>
        ensures puts { OnOk result (PutsText (W.told (inner_of self.old)).held (waiting_of self.old) (W.told (inner_of self.new)).held (waiting_of self.new) (held_by self.old).line) }
        ensures sent { waiting_of self.new ≡ [] }
        ensures held { OnOk result (held_by self.new ≡ record { line = []; is_rest = (held_by self.old).is_rest || nat_lt 0 (length (held_by self.old).line) }) }
        ensures dropped { OnErr result (held_by self.new ≡ nothing_held) }
        ensures front { OnErr result (AppendsFront (W.told (inner_of self.old)).held (W.told (inner_of self.new)).held (waiting_of self.old ++ (held_by self.old).line)) }
        ensures failed { CountsFailure (W.told (inner_of self.old)).failures (W.told (inner_of self.new)).failures result }
    {
        match self.pass_held() {
            Ok(()) => Ok(()),
            Err(_) => Err(self.fail()),
        }
    }

    /// Takes a text, and sends what of it goes out.
    ///
    /// # Errors
    ///
    /// The writer failed: a front of what was to go out went on, and the rest is dropped.
    pub(crate) fn paint(&mut self, lines: Lines, bytes: &[u8]) -> Result<(), IoFault>
        ensures puts { OnOk result (PutsText (W.told (inner_of self.old)).held (waiting_of self.old) (W.told (inner_of self.new)).held (waiting_of self.new) (shown (pieces_of lines (held_by self.old) bytes.now))) }
        ensures sent { waiting_of self.new ≡ [] }
        ensures held { OnOk result (held_by self.new ≡ held_after (held_by self.old) bytes.now) }
        ensures dropped { OnErr result (held_by self.new ≡ nothing_held) }
        ensures front { OnErr result (AppendsFront (W.told (inner_of self.old)).held (W.told (inner_of self.new)).held (waiting_of self.old ++ shown (pieces_of lines (held_by self.old) bytes.now))) }
        ensures failed { CountsFailure (W.told (inner_of self.old)).failures (W.told (inner_of self.new)).failures result }
    {
        match self.paint_all(lines, bytes) {
            Ok(()) => Ok(()),
            Err(_) => Err(self.fail()),
        }
    }

    /// Drops what is on its way, since a front of it went on already.
    fn fail(&mut self) -> IoFault
        ensures inner { inner_of self.new ≡ inner_of self.old }
        ensures held { held_by self.new ≡ nothing_held }
        ensures waiting { waiting_of self.new ≡ [] }
    {
        self.line.clear();
        self.is_rest = false;
        self.waiting.clear();
        IoFault
    }

    /// Puts out what is held of the line under way.
    fn put_held(&mut self) -> Result<(), RunFault>
        ensures puts { OnOk result (PutsText (W.told (inner_of self.old)).held (waiting_of self.old) (W.told (inner_of self.new)).held (waiting_of self.new) (held_by self.old).line) }
        ensures held { held_by self.new ≡ held_by self.old }
        ensures front { OnErr result (AppendsFront (W.told (inner_of self.old)).held (W.told (inner_of self.new)).held (waiting_of self.old)) }
        ensures failed { WriterTells (W.told (inner_of self.old)) (W.told (inner_of self.new)) result }
    {
        put(&mut *self.waiting, self.line.as_slice(), &mut self.inner)
    }

    /// Sends what waits.
    fn send_all(&mut self) -> Result<(), RunFault>
        ensures puts { OnOk result (PutsText (W.told (inner_of self.old)).held (waiting_of self.old) (W.told (inner_of self.new)).held (waiting_of self.new) []) }
        ensures sent { OnOk result (waiting_of self.new ≡ []) }
        ensures held { held_by self.new ≡ held_by self.old }
        ensures front { OnErr result (AppendsFront (W.told (inner_of self.old)).held (W.told (inner_of self.new)).held (waiting_of self.old)) }
        ensures failed { WriterTells (W.told (inner_of self.old)) (W.told (inner_of self.new)) result }
    {
        send(&mut *self.waiting, &mut self.inner)
    }

    /// Passes on what is held of the line under way.
    fn pass_held(&mut self) -> Result<(), RunFault>
        ensures puts { OnOk result (PutsText (W.told (inner_of self.old)).held (waiting_of self.old) (W.told (inner_of self.new)).held (waiting_of self.new) (held_by self.old).line) }
        ensures sent { OnOk result (waiting_of self.new ≡ []) }
        ensures held { OnOk result (held_by self.new ≡ record { line = []; is_rest = (held_by self.old).is_rest || nat_lt 0 (length (held_by self.old).line) }) }
        ensures front { OnErr result (AppendsFront (W.told (inner_of self.old)).held (W.told (inner_of self.new)).held (waiting_of self.old ++ (held_by self.old).line)) }
        ensures failed { WriterTells (W.told (inner_of self.old)) (W.told (inner_of self.new)) result }
    {
        texts_add_up();
        self.put_held()?;
        self.send_all()?;
        self.is_rest = self.is_rest || !self.line.is_empty();
        self.line.clear();
        Ok(())
    }

    /// Whether a byte goes out as it is, and what is held before it.
    fn passes(&self, byte: u8) -> bool
        ensures { result ≡ passes (held_by self.now) byte }
    {
        self.is_rest || (byte != b'\n' && self.line.len() >= MOST)
    }

    /// Takes a byte.
    fn take(&mut self, lines: Lines, byte: u8) -> Result<(), RunFault>
        ensures puts { OnOk result (PutsText (W.told (inner_of self.old)).held (waiting_of self.old) (W.told (inner_of self.new)).held (waiting_of self.new) (shown (byte_pieces lines (held_by self.old) byte))) }
        ensures held { OnOk result (held_by self.new ≡ held_with (held_by self.old) byte) }
        ensures front { OnErr result (AppendsFront (W.told (inner_of self.old)).held (W.told (inner_of self.new)).held (waiting_of self.old)) }
        ensures failed { WriterTells (W.told (inner_of self.old)) (W.told (inner_of self.new)) result }
    {
        if self.passes(byte) {
            put_front(
                self.line.as_slice(),
                byte,
                &mut *self.waiting,
                &mut self.inner,
            )?;
            self.line.clear();
            self.is_rest = byte != b'\n';
            return Ok(());
        }
        if byte == b'\n' {
            put_line(
                lines,
                self.line.as_slice(),
                &mut *self.waiting,
                &mut self.inner,
            )?;
            self.line.clear();
            return Ok(());
        }
        self.line.push(byte);
        Ok(())
    }

    /// Takes a text, and sends what of it goes out.
    fn paint_all(&mut self, lines: Lines, bytes: &[u8]) -> Result<(), RunFault>
        ensures puts { OnOk result (PutsText (W.told (inner_of self.old)).held (waiting_of self.old) (W.told (inner_of self.new)).held (waiting_of self.new) (shown (pieces_of lines (held_by self.old) bytes.now))) }
        ensures sent { OnOk result (waiting_of self.new ≡ []) }
        ensures held { OnOk result (held_by self.new ≡ held_after (held_by self.old) bytes.now) }
        ensures front { OnErr result (AppendsFront (W.told (inner_of self.old)).held (W.told (inner_of self.new)).held (waiting_of self.old ++ shown (pieces_of lines (held_by self.old) bytes.now))) }
        ensures failed { WriterTells (W.told (inner_of self.old)) (W.told (inner_of self.new)) result }
    {
        texts_add_up();
        for byte in bytes {
            self.take(lines, *byte)?;
        }
        self.send_all()
    }
}
