//! A reader together with the ground that it borrows.
//!
//! Neither block moves while the struct does, so what the reader borrows stays where it is. The lifetime of
//! the borrow is the struct's own: `tie` makes it and `untie` ends it, and in between `act` lends the reader
//! for the time of a call.

ghost use Rattle.std.specs.Coded.{coded_option};
ghost use Rattle.std.specs.Prelude.{◌≡◌, IfOk, IfSome, Option, Some, []};
ghost use Rattle.pmb_capture_reader.specs.Work.{StandsFresh};
ghost use Rattle.pmb_capture_reader.specs.declared.reader.CaptureReader.{CaptureReader as ReaderData};
ghost use Rattle.pmb_capture_reader.specs.declared.reader_ground.ReaderGround.{ReaderGround as GroundData};
ghost use Rattle.pmb_capture_reader.specs.contracts.reader.CaptureReader.{the_row as reader_row};
ghost use Rattle.pmb_capture_reader.specs.contracts.reader_ground.ReaderGround.{the_row as ground_row};
ghost use Rattle.pmb_open_reader.specs.Acts.{ActsIn};
ghost use mir.Syntax.{static};

use crate::seat::Seat;
use pmb_capture_reader::{ReaderGround, Task, Work};
use pmb_handle::Parts;
use std::alloc::{AllocError, Global};
use std::marker::Model;

/// A reader and the ground that it borrows.
pub struct OpenReader {
    below: *mut ReaderGround,
    at: *mut Seat<'static>,
    home: Global,
    room: Global,
    pub ghost base: { GroundData } by { ground_row.coded },
    pub ghost is: { Option ReaderData } by { coded_option ((reader_row (record { mir = static; lft = [] })).coded) },
}

impl Model for OpenReader {
    ghost use Rattle.pmb_open_reader.specs.Owned.{reader_owns};

    ghost also_owns = { λ r. reader_owns r.home r.room r.below r.at r.base r.is };
}

impl OpenReader {
    /// A reader on this ground, to which nothing was given.
    ///
    /// # Errors
    ///
    /// There was no memory.
    pub fn new(alloc: Global, base: ReaderGround) -> Result<OpenReader, AllocError>
        ensures base { IfOk result (λ opened. opened.base ≡ base) }
        ensures fresh { IfOk result (λ opened. (reader : ReaderData) × (opened.is ≡ Some reader) × StandsFresh base reader) }
    {
        let below = Box::new(alloc, base)?;
        let seat = Box::new(alloc, Seat { inner: None })?;
        let mut open = OpenReader::tie(Parts::of(below), Parts::of(seat));
        let mut work = Work::new(Task::Look, b"", &mut []);
        open.act(&mut work);
        match work.answer {
            Some(_) => Ok(open),
            None => Err(AllocError),
        }
    }

    /// Has the reader do what is asked.
    pub fn act(&mut self, work: &mut Work<'_>)
        ensures rest { self.new ≡ record self.old { is = self.new.is } }
        ensures acts { ActsIn self.old.is self.new.is work.old work.new }
    {
        unsafe { (*self.at).act(work) }
    }

    /// Puts a reader on the ground into the seat, if there is memory for one.
    fn tie(below: Parts<ReaderGround>, seat: Parts<Seat<'static>>) -> OpenReader
        ensures base { result.base ≡ below.value }
        ensures fresh { IfSome result.is (λ reader. StandsFresh below.value reader) }
    {
        let Parts { ptr, alloc } = below;
        let Parts {
            ptr: at,
            alloc: room,
        } = seat;
        let seated = Seat::over(unsafe { &*ptr });
        unsafe {
            at.write(seated);
        }
        OpenReader {
            below: ptr,
            at,
            home: alloc,
            room,
        }
    }

    /// Drops the reader, and gives the ground back.
    fn untie(self) -> Parts<ReaderGround>
        ensures { result.value ≡ self.base }
    {
        let OpenReader {
            below,
            at,
            home,
            room,
        } = self;
        Seat::free(Parts {
            ptr: at,
            alloc: room,
        });
        Parts {
            ptr: below,
            alloc: home,
        }
    }
}

unsafe impl Send for OpenReader {}

impl Drop for OpenReader {
    fn drop(self) {
        drop(self.untie().into_box());
    }
}
