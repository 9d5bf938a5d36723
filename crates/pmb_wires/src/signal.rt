//! What a change of the wires says on the bus.

ghost use Rattle.std.specs.Prelude.{◌≡◌};
ghost use Rattle.pmb_wires.specs.Kinds.{kind as kind_by_levels, kind_at_high, pair_of, seen};
ghost use Rattle.pmb_wires.specs.Signals.{known_in, place_by, signal_of};
ghost use Rattle.pmb_wires.specs.machine.Tracker.{take as take_step, unknown_yet};

use crate::filter::{changed_by, levels_after};
use crate::level::{Level, Levels};
use crate::moment::{Edge, Moment};

/// A wire.
#[derive(Clone, Copy, Debug, PartialEq, Eq)]
pub enum Wire {
    /// The clock.
    Scl,
    /// The data.
    Sda,
}

/// Where something happened: the line of the recording, and the time in femtoseconds.
#[derive(Clone, Copy, Debug, PartialEq, Eq)]
pub struct Place {
    /// The number of the line.
    pub line: u64,
    /// The time.
    pub time: u128,
}

/// SCL rises.
#[derive(Clone, Copy, Debug, PartialEq, Eq)]
pub struct Rise {
    /// Where.
    pub place: Place,
    /// Whether SDA is 1 there: the bit, if SCL falls next.
    pub is_one: bool,
    /// Whether SDA rises at the same time.
    pub with_sda: bool,
}

/// What a change of the wires says.
#[derive(Clone, Copy, Debug, PartialEq, Eq)]
pub enum Signal {
    /// SDA falls while SCL is 1: START.
    Start(Place),
    /// SDA rises while SCL is 1: STOP.
    Stop(Place),
    /// SCL is 1 from here on.
    Rise(Rise),
    /// SCL is 0 from here on.
    Fall(Place),
    /// What SCL is isn't known any more, or what SDA is while SCL is 1.
    Unknown(Wire, Place),
}

/// The levels of both wires, x where a wire was not written.
#[derive(Clone, Copy)]
pub(crate) struct Pair {
    pub(crate) scl: Level,
    pub(crate) sda: Level,
}

/// What a pair of levels and the next one are.
#[derive(Clone, Copy)]
pub(crate) enum Kind {
    Start,
    Stop,
    Rise,
    Fall,
    SclUnknown,
    SdaUnknown,
    Nothing,
}

/// Tells of each change what it says.
#[derive(Clone, Copy, Drop, Debug)]
pub struct Tracker {
    /// The levels so far.
    pub levels: Levels,
    /// Whether both wires were 0 or 1 at once so far.
    pub is_known: bool,
}

impl Tracker {
    /// No wire was written yet.
    pub fn new() -> Tracker
        ensures { result ≡ unknown_yet }
    {
        Tracker {
            levels: Levels {
                scl: None,
                sda: None,
            },
            is_known: false,
        }
    }

    /// Takes the next change, and returns what it says, if that is anything.
    pub fn take(&mut self, moment: &Moment) -> Option<Signal>
        ensures now { self.new ≡ (take_step self.old moment.now).now }
        ensures told { result ≡ (take_step self.old moment.now).told }
    {
        let before = self.levels;
        let news = changed_by(&before, moment);
        let after = levels_after(&before, &news);
        let was_known = self.is_known;
        self.levels = after;
        self.is_known = was_known || are_known(&after);
        signal_between(was_known, &before, &after, &news)
    }
}

fn level_seen(level: Option<Level>) -> Level
    ensures { result ≡ seen level }
{
    match level {
        Some(level) => level,
        None => Level::Unknown,
    }
}

fn levels_seen(levels: &Levels) -> Pair
    ensures { result ≡ pair_of levels.now }
{
    Pair {
        scl: level_seen(levels.scl),
        sda: level_seen(levels.sda),
    }
}

/// Whether both levels are 0 or 1.
fn are_known(levels: &Levels) -> bool
    ensures { result ≡ known_in levels.now }
{
    let both = levels_seen(levels);
    both.scl != Level::Unknown && both.sda != Level::Unknown
}

fn kind_between(before: &Pair, after: &Pair) -> Kind
    ensures { result ≡ kind_by_levels before.now after.now }
{
    match after.scl {
        Level::Unknown if before.scl == Level::Unknown => Kind::Nothing,
        Level::Unknown => Kind::SclUnknown,
        Level::Low if before.scl == Level::Low => Kind::Nothing,
        Level::Low => Kind::Fall,
        Level::High if before.scl == Level::High => at_high(before.sda, after.sda),
        Level::High if after.sda == Level::Unknown => Kind::SdaUnknown,
        Level::High => Kind::Rise,
    }
}

/// A change of SDA while SCL is 1.
fn at_high(before: Level, after: Level) -> Kind
    ensures { result ≡ kind_at_high before after }
{
    match (before, after) {
        (Level::High, Level::Low) => Kind::Start,
        (Level::Low, Level::High) => Kind::Stop,
        (Level::High, Level::Unknown) => Kind::SdaUnknown,
        (Level::Low, Level::Unknown) => Kind::SdaUnknown,
        (Level::Low, Level::Low) => Kind::Nothing,
        (Level::High, Level::High) => Kind::Nothing,
        (Level::Unknown, _) => Kind::Nothing,
    }
}

/// Where a wire changes; if it doesn't, where the other one does.
fn place_of(time: u128, edge: Option<Edge>, other: Option<Edge>) -> Place
    ensures { result ≡ place_by time edge other }
{
    let line = match (edge, other) {
        (Some(edge), _) => edge.line,
        (None, Some(other)) => other.line,
        (None, None) => 0,
    };
    Place { line, time }
}

/// What a change says.
fn signal_between(was_known: bool, before: &Levels, after: &Levels, news: &Moment) -> Option<Signal>
    ensures { result ≡ signal_of was_known before.now after.now news.now }
{
    let old = levels_seen(before);
    let new = levels_seen(after);
    let scl = place_of(news.time, news.scl, news.sda);
    let sda = place_of(news.time, news.sda, news.scl);
    match kind_between(&old, &new) {
        Kind::Start => Some(Signal::Start(sda)),
        Kind::Stop => Some(Signal::Stop(sda)),
        Kind::Rise => Some(Signal::Rise(Rise {
            place: scl,
            is_one: new.sda == Level::High,
            with_sda: old.scl == Level::Low && old.sda == Level::Low && new.sda == Level::High,
        })),
        Kind::Fall => Some(Signal::Fall(scl)),
        Kind::SclUnknown if was_known => Some(Signal::Unknown(Wire::Scl, scl)),
        Kind::SdaUnknown if was_known => Some(Signal::Unknown(Wire::Sda, sda)),
        Kind::SclUnknown | Kind::SdaUnknown | Kind::Nothing => None,
    }
}
