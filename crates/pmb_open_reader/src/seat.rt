//! Room for a reader.

ghost use Rattle.std.specs.Prelude.{IfSome};
ghost use Rattle.pmb_capture_reader.specs.Work.{StandsFresh};
ghost use Rattle.pmb_open_reader.specs.Acts.{ActsIn};

use pmb_capture_reader::{CaptureReader, ReaderGround, Work};
use pmb_handle::Parts;

/// Room for a reader. It is empty where there was no memory for one.
#[derive(Drop)]
pub struct Seat<'p> {
    pub inner: Option<CaptureReader<'p>>,
}

impl<'p> Seat<'p> {
    /// One with a reader on this ground, to which nothing was given.
    pub fn over(base: &'p ReaderGround) -> Seat<'p>
        ensures { IfSome result.inner (λ reader. StandsFresh base.now reader) }
    {
        Seat {
            inner: CaptureReader::over(base).ok(),
        }
    }

    /// Has its reader do what is asked.
    pub fn act(&mut self, work: &mut Work<'_>)
        ensures { ActsIn self.old.inner self.new.inner work.old work.new }
    {
        match &mut self.inner {
            Some(reader) => reader.act(work),
            None => work.answer = None,
        }
    }

    /// Frees the block of a seat, and drops what is in it.
    pub fn free(seat: Parts<Seat<'p>>) {
        drop(seat.into_box());
    }
}
