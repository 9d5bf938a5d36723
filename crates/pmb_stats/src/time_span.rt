//! When a capture begins and ends.
//!
//! Its rows: `tests/rows/stats.txt`, times.

ghost use Rattle.std.specs.Prelude.{◌≡◌, ◌≤◌, ◌++◌, ◌∷◌, [], List, Some, length, option_map};
ghost use Rattle.std.specs.Option.{ForSome};
ghost use Rattle.pmb_facts.specs.Fact.{FactData};
ghost use Rattle.pmb_observed.specs.Observing.{first_time, last_time};
ghost use Rattle.pmb_stats.specs.machine.TimeSpan.{SpanStandsAt, first_after};

use pmb_stats_bits::KeptTime;

/// The first and the last of the times that facts have.
#[derive(Drop)]
pub(crate) struct TimeSpan {
    first: KeptTime,
    last: KeptTime,
}

impl TimeSpan {
    /// No fact came.
    pub(crate) fn new() -> TimeSpan
        ensures { SpanStandsAt result [] }
    {
        TimeSpan {
            first: KeptTime::new(),
            last: KeptTime::new(),
        }
    }

    /// Takes the time of the next fact, of at most 40 bytes, if it has one.
    pub(crate) fn see(&mut self, time: Option<&[u8]>)
        requires { ForSome time (λ time. length time.now ≤ 40) }
        ensures { (facts : List FactData) (fact : FactData) → SpanStandsAt self.old facts
            → option_map (λ time. time.now) time.entry ≡ fact.head.time → SpanStandsAt self.new (facts ++ fact ∷ []) }
    {
        if let Some(time) = time {
            self.see_time(time);
        }
    }

    /// Takes the time of the next fact that has one.
    fn see_time(&mut self, time: &[u8])
        requires { length time.now ≤ 40 }
        ensures first { self.new.first ≡ first_after self.old.first time.now }
        ensures last { self.new.last ≡ Some time.now }
    {
        if self.first.time().is_none() {
            self.first.keep(Some(time));
        }
        self.last.keep(Some(time));
    }

    /// The first time.
    pub(crate) fn first(&self) -> Option<&[u8]>
        ensures time { (facts : List FactData) → SpanStandsAt self.now facts → option_map (λ time. time.now) result ≡ first_time facts }
        ensures short { ForSome result (λ time. length time.now ≤ 40) }
    {
        self.first.time()
    }

    /// The last time.
    pub(crate) fn last(&self) -> Option<&[u8]>
        ensures time { (facts : List FactData) → SpanStandsAt self.now facts → option_map (λ time. time.now) result ≡ last_time facts }
        ensures short { ForSome result (λ time. length time.now ≤ 40) }
    {
        self.last.time()
    }
}
