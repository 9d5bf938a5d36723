//! Room for a session.

ghost use Rattle.std.specs.Option.{MatchOption};
ghost use Rattle.std.specs.Prelude.{◌≡◌};
ghost use Rattle.std.specs.declared.option.Option.TheVariants.{Some};
ghost use Rattle.pmb_bus_session.specs.Session.{StandsFresh};
ghost use Rattle.pmb_bus_session.specs.Work.{Acts};
ghost use Rattle.pmb_bus_session.specs.declared.session.BusSession.{BusSession as SessionData};

use pmb_bus_session::{BusGround, BusSession, BusWork};
use pmb_handle::Maybe;

/// Room for a session. It is empty only while an open bus is being made.
#[derive(Drop)]
pub struct Seat<'p> {
    pub inner: Option<BusSession<'p>>,
}

impl<'p> Seat<'p> {
    /// One with a session to which nothing was given.
    pub fn over(base: &'p BusGround) -> Seat<'p>
        ensures { MatchOption result.inner ⊥ (λ session. StandsFresh base.now session) }
    {
        Seat {
            inner: Some(BusSession::on(base)),
        }
    }

    /// Has its session do what is asked.
    pub fn act(&mut self, work: &mut BusWork<'_>)
        ghost session: { SessionData }
        requires { self.old.inner ≡ Some session }
        ensures { MatchOption self.new.inner ⊥ (λ new. Acts session new work.old work.new) }
    {
        match &mut self.inner {
            Some(session) => session.act(work),
            None => {}
        }
    }

    /// Frees the block of a seat, and drops what is in it.
    pub fn free(seat: Maybe<Seat<'p>>) {
        drop(seat.into_box());
    }
}
