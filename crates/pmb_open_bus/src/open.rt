//! A session together with the ground that it borrows.
//!
//! Neither block moves while the struct does, so what the session borrows stays where it is. The struct's own
//! lifetime is made by `tie` and ended by `untie`; in between, `act` lends the session for the time of a call.

ghost use Rattle.std.specs.Option.{MatchOption};
ghost use Rattle.std.specs.Prelude.{◌≡◌, IfOk, Some, []};
ghost use Rattle.pmb_bus_session.specs.Session.{StandsFresh};
ghost use Rattle.pmb_bus_session.specs.Work.{Acts};
ghost use Rattle.pmb_bus_session.specs.declared.session.BusGround.{BusGround as GroundData};
ghost use Rattle.pmb_bus_session.specs.declared.session.BusSession.{BusSession as SessionData};
ghost use Rattle.pmb_bus_session.specs.contracts.session.BusGround.{the_row as ground_row};
ghost use Rattle.pmb_bus_session.specs.contracts.session.BusSession.{the_row as session_row};
ghost use mir.Syntax.{static};

use crate::seat::Seat;
use pmb_bus_session::{BusGround, BusWork};
use pmb_handle::Maybe;
use std::alloc::{AllocError, Global};
use std::marker::Model;

/// A session of a bus, and the ground that it borrows.
pub struct OpenBus {
    below: *mut BusGround,
    at: *mut Seat<'static>,
    home: Global,
    room: Global,
    pub ghost base: { GroundData } by { ground_row.coded },
    pub ghost is: { SessionData } by { (session_row (record { mir = static; lft = [] })).coded },
}

impl Model for OpenBus {
    ghost use Rattle.pmb_open_bus.specs.Owned.{bus_owns};

    ghost also_owns = { λ b. bus_owns b.home b.room b.below b.at b.base b.is };
}

impl OpenBus {
    /// A session on this ground, to which nothing was given.
    pub fn new(alloc: Global, base: BusGround) -> Result<OpenBus, AllocError>
        ensures { IfOk result (λ bus. (bus.base ≡ base) × StandsFresh base bus.is) }
    {
        let below = Box::new(alloc, base)?;
        let at = Box::new(alloc, Seat { inner: None })?;
        Ok(OpenBus::tie(Maybe::of(below), Maybe::of(at)))
    }

    /// Has the session do what is asked.
    pub fn act(&mut self, work: &mut BusWork<'_>)
        ensures base { self.new.base ≡ self.old.base }
        ensures acts { Acts self.old.is self.new.is work.old work.new }
    {
        unsafe { (*self.at).act(work) }
    }

    /// Puts a session on the ground into the seat.
    fn tie(below: Maybe<BusGround>, seat: Maybe<Seat<'static>>) -> OpenBus
        requires below { MatchOption below.held ⊥ (λ base. Unit {0}) }
        requires seat { MatchOption seat.held ⊥ (λ empty. Unit {0}) }
        ensures base { below.held ≡ Some result.base }
        ensures fresh { StandsFresh result.base result.is }
    {
        let Maybe { at: ptr, alloc } = below;
        let Maybe { at, alloc: room } = seat;
        let session = Seat::over(unsafe { &*ptr });
        unsafe {
            at.write(session);
        }
        OpenBus {
            below: ptr,
            at,
            home: alloc,
            room,
        }
    }

    /// Drops the session, and gives the ground back.
    fn untie(self) -> Maybe<BusGround>
        ensures { result.held ≡ Some self.base }
    {
        let OpenBus {
            below,
            at,
            home,
            room,
        } = self;
        Seat::free(Maybe { at, alloc: room });
        Maybe {
            at: below,
            alloc: home,
        }
    }
}

unsafe impl Send for OpenBus {}

impl Drop for OpenBus {
    fn drop(self) {
        drop(self.untie().into_box());
    }
}
