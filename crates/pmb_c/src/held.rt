//! What a handle of C's holds.

ghost use Rattle.std.specs.Prelude.{◌≡◌};
ghost use Rattle.pmb_c.specs.Asked.{ActsAs, is_asked, telling_of};
ghost use Rattle.pmb_fact_stream.specs.Telling.{Fits};

use pmb_capture_reader::{Answer, Work};
use pmb_fact_stream::Telling;
use pmb_open_bus::OpenBus;
use pmb_open_reader::OpenReader;
use pmb_table::BusProfile;
use std::alloc::Global;
use std::sync::Arc;

/// What a handle holds.
#[derive(Drop)]
pub enum Held {
    /// A profile, which other handles may share.
    Profile(Arc<BusProfile, Global>),
    /// A reader of a capture.
    Reader(HeldReader),
    /// A bus of simulated devices.
    Bus(OpenBus),
}

/// What a reader tells, by which it is taken from.
#[derive(Clone, Copy)]
pub enum ReaderKind {
    /// Objects, lines of JSON.
    Objects,
    /// Items, as their records.
    Items,
}

impl ReaderKind {
    /// How it tells facts.
    pub(crate) fn telling(self) -> Telling
        ensures told { result ≡ telling_of self }
        ensures fits { Fits result }
    {
        match self {
            ReaderKind::Objects => Telling::Objects,
            ReaderKind::Items => Telling::Items,
        }
    }

    /// Whether such a reader is asked for: any is, where no kind is named.
    fn is_asked(self, asked: Option<ReaderKind>) -> bool
        ensures { result ≡ is_asked asked self }
    {
        match (asked, self) {
            (None, _) => true,
            (Some(ReaderKind::Objects), ReaderKind::Objects) => true,
            (Some(ReaderKind::Items), ReaderKind::Items) => true,
            (Some(ReaderKind::Objects), ReaderKind::Items) => false,
            (Some(ReaderKind::Items), ReaderKind::Objects) => false,
        }
    }
}

/// A reader of a capture, and what it tells.
#[derive(Drop)]
pub struct HeldReader {
    pub kind: ReaderKind,
    pub reader: OpenReader,
}

impl HeldReader {
    /// Has it do the work, where it is of the kind that is asked for. `None` where it isn't, or where it has
    /// no answer.
    pub(crate) fn act(&mut self, asked: Option<ReaderKind>, work: &mut Work<'_>) -> Option<Answer>
        ensures { ActsAs (is_asked asked self.old.kind) self.old self.new work.old work.new result }
    {
        if !self.kind.is_asked(asked) {
            return None;
        }
        self.reader.act(work);
        work.answer
    }
}
