//! Runs of one level that are too short are spikes: they are dropped as the recording comes.
//!
//! Whether an edge stays is known once the run that it begins is long enough, or the wire changes
//! again. So an edge waits, at most one of each wire, and goes out when it is known to stay.

ghost use Rattle.std.specs.Prelude.{◌≡◌, ◌≤◌};
ghost use Rattle.pmb_wires.specs.Changes.{after, change, changed, level_after};
ghost use Rattle.pmb_wires.specs.machine.Waiting.{alone, ordered, scl_at, sda_at};
ghost use Rattle.pmb_wires.specs.machine.Waiting.{due, end as end_step, fresh, later, left, take as take_step, waiting, written};

use crate::level::{Level, Levels, has};
use crate::moment::{Edge, Moment, Moments};

/// An edge with its time: a run of one level begins there.
#[derive(Clone, Copy, Debug)]
pub struct Run {
    /// When it begins, in femtoseconds.
    pub time: u128,
    /// The edge that begins it.
    pub edge: Edge,
}

/// Drops runs that are shorter than a time, but for the first and the last one.
#[derive(Clone, Copy, Drop, Debug)]
pub struct Filter {
    /// How long a run is at least, in femtoseconds.
    pub glitch: u128,
    /// The levels as they were given so far.
    pub given: Levels,
    /// The edge of SCL that waits.
    pub scl: Option<Run>,
    /// The edge of SDA that waits.
    pub sda: Option<Run>,
}

impl Filter {
    /// Nothing came yet. Runs shorter than `glitch` femtoseconds are dropped.
    pub fn new(glitch: u128) -> Filter
        ensures { result ≡ fresh glitch }
    {
        Filter {
            glitch,
            given: Levels {
                scl: None,
                sda: None,
            },
            scl: None,
            sda: None,
        }
    }

    /// Takes the next moment, and returns the moments that are known to stay now.
    pub fn take(&mut self, moment: &Moment) -> Moments
        ensures now { self.new ≡ (take_step self.old moment.now).now }
        ensures given { result ≡ (take_step self.old moment.now).given }
    {
        let news = changed_by(&self.given, moment);
        let is_first = self.given.scl.is_none() && self.given.sda.is_none();
        self.given = levels_after(&self.given, moment);
        if is_first {
            return if_changed(&news);
        }
        let scl = due_at(self.scl, self.glitch, moment.time);
        let sda = due_at(self.sda, self.glitch, moment.time);
        self.scl = written_to(
            left_at(self.scl, self.glitch, moment.time),
            news.time,
            news.scl,
        );
        self.sda = written_to(
            left_at(self.sda, self.glitch, moment.time),
            news.time,
            news.sda,
        );
        in_order(scl, sda)
    }

    /// Ends what is read: the last run of each wire stays. Returns what waited.
    pub fn end(&mut self) -> Moments
        ensures now { self.new ≡ (end_step self.old).now }
        ensures given { result ≡ (end_step self.old).given }
    {
        let scl = self.scl;
        let sda = self.sda;
        self.scl = None;
        self.sda = None;
        self.given = Levels {
            scl: None,
            sda: None,
        };
        in_order(scl, sda)
    }
}

/// An edge, if it changes a level.
fn change_of(now: Option<Level>, edge: Option<Edge>) -> Option<Edge>
    ensures { result ≡ change now edge }
{
    match edge {
        Some(edge) if has(now, edge.level) => None,
        edge => edge,
    }
}

/// What changes at a moment, of what is given there.
pub fn changed_by(now: &Levels, moment: &Moment) -> Moment
    ensures { result ≡ changed now.now moment.now }
{
    Moment {
        time: moment.time,
        scl: change_of(now.scl, moment.scl),
        sda: change_of(now.sda, moment.sda),
    }
}

fn level_behind(now: Option<Level>, edge: Option<Edge>) -> Option<Level>
    ensures { result ≡ level_after now edge }
{
    match edge {
        Some(edge) => Some(edge.level),
        None => now,
    }
}

/// The levels behind a moment.
pub fn levels_after(now: &Levels, moment: &Moment) -> Levels
    ensures { result ≡ after now.now moment.now }
{
    Levels {
        scl: level_behind(now.scl, moment.scl),
        sda: level_behind(now.sda, moment.sda),
    }
}

/// A moment, if anything changes there.
pub fn if_changed(moment: &Moment) -> Moments
    ensures { result ≡ later moment.now }
{
    let is_blank = moment.scl.is_none() && moment.sda.is_none();
    Moments {
        first: if is_blank { None } else { Some(*moment) },
        second: None,
    }
}

/// An edge that waits, if its run is long enough at a time.
fn due_at(run: Option<Run>, glitch: u128, time: u128) -> Option<Run>
    ensures { result ≡ due glitch time run }
{
    match run {
        Some(run) if time.saturating_sub(run.time) >= glitch => Some(run),
        _ => None,
    }
}

/// An edge that waits, if its run is not long enough at a time.
fn left_at(run: Option<Run>, glitch: u128, time: u128) -> Option<Run>
    ensures { result ≡ left glitch time run }
{
    match run {
        Some(run) if time.saturating_sub(run.time) >= glitch => None,
        run => run,
    }
}

/// The edge that waits behind a moment: a new one takes the place of the one before, which began a
/// spike.
fn written_to(run: Option<Run>, time: u128, edge: Option<Edge>) -> Option<Run>
    ensures { result ≡ written time edge run }
{
    match edge {
        Some(edge) => Some(Run { time, edge }),
        None => run,
    }
}

/// Edges of both wires as moments, the earlier one first.
fn in_order(scl: Option<Run>, sda: Option<Run>) -> Moments
    ensures { result ≡ waiting scl sda }
{
    match (scl, sda) {
        (Some(scl), Some(sda)) => both_in_order(&scl, &sda),
        (Some(scl), None) => one(of_scl(&scl)),
        (None, Some(sda)) => one(of_sda(&sda)),
        (None, None) => Moments {
            first: None,
            second: None,
        },
    }
}

fn of_scl(run: &Run) -> Moment
    ensures { result ≡ scl_at run.now }
{
    Moment {
        time: run.time,
        scl: Some(run.edge),
        sda: None,
    }
}

fn of_sda(run: &Run) -> Moment
    ensures { result ≡ sda_at run.now }
{
    Moment {
        time: run.time,
        scl: None,
        sda: Some(run.edge),
    }
}

fn one(moment: Moment) -> Moments
    ensures { result ≡ alone moment }
{
    Moments {
        first: Some(moment),
        second: None,
    }
}

fn both_in_order(scl: &Run, sda: &Run) -> Moments
    ensures { result ≡ ordered scl.now sda.now }
{
    if scl.time < sda.time {
        Moments {
            first: Some(of_scl(scl)),
            second: Some(of_sda(sda)),
        }
    } else if sda.time < scl.time {
        Moments {
            first: Some(of_sda(sda)),
            second: Some(of_scl(scl)),
        }
    } else {
        one(Moment {
            time: scl.time,
            scl: Some(scl.edge),
            sda: Some(sda.edge),
        })
    }
}
