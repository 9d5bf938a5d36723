//! The time of what is under way.
//!
//! A packet's time is that of its first event, and its objects may come much later: an `OpenTime`
//! keeps it. So it does for events that are passed over after a refusal. STOP ends both.
//!
//! Its rows: `tests/rows/json_objects.txt`, times.

ghost use Rattle.std.specs.Prelude.{◌≡◌, ◌≤◌, ◌++◌, ◌∷◌, [], ℕ, List, length, option_map};
ghost use Rattle.std.specs.Option.{ForSome};
ghost use Rattle.pmb_bus.specs.declared.event.Event.{Event as BusEvent};
ghost use Rattle.pmb_bus.specs.declared.event.Event.TheVariants.{Stop};
ghost use Rattle.pmb_bus.specs.Text.{Spells};
ghost use Rattle.pmb_times.specs.Times.{TimesStandAt};
ghost use Rattle.pmb_fact_stream.specs.machine.OpenTime.{HasTime, KeepsTime, kept_time};

use arrayvec::ArrayVec;
use pmb_bus::Event;
use pmb_times::laws::the_last_word_has_its_time;
use pmb_times::{TIME, Times};

/// The time of what is under way.
#[derive(Drop)]
pub(crate) struct OpenTime {
    /// Whether an event came since the last STOP.
    is_open: bool,
    /// What was told for the first of them.
    time: Option<ArrayVec<u8, TIME>>,
}

impl OpenTime {
    /// Nothing is under way.
    pub(crate) fn new() -> OpenTime
        ensures { (text : List ℕ) → KeepsTime result text [] }
    {
        OpenTime {
            is_open: false,
            time: None,
        }
    }

    /// The time, of at most 40 bytes.
    pub(crate) fn time(&self) -> Option<&[u8]>
        ensures time { option_map (λ time. time.now) result ≡ kept_time self.now }
        ensures short { ForSome result (λ time. length time.now ≤ 40) }
    {
        match &self.time {
            Some(time) => Some(time.as_slice()),
            None => None,
        }
    }

    /// Takes the time of the next event, whose word came last, if it is the first one.
    #[inline]
    pub(crate) fn begin(&mut self, times: &Times)
        ensures { (text : List ℕ) (events : List BusEvent) (event : BusEvent) → KeepsTime self.old text events → TimesStandAt times.now text
            → Spells text (events ++ event ∷ []) → HasTime self.new text events }
    {
        the_last_word_has_its_time();
        if !self.is_open {
            self.is_open = true;
            self.time = copied(times.of_last_word());
        }
    }

    /// Takes an event of which the time was taken: STOP ends what is under way.
    #[inline]
    pub(crate) fn take(&mut self, event: Event)
        ensures { (text : List ℕ) (events : List BusEvent) → HasTime self.old text events → KeepsTime self.new text (events ++ event ∷ []) }
    {
        if let Event::Stop = event {
            self.end();
        }
    }

    /// Takes STOP.
    #[inline]
    pub(crate) fn end(&mut self)
        ensures { (text : List ℕ) (events : List BusEvent) → KeepsTime self.new text (events ++ Stop ∷ []) }
    {
        self.is_open = false;
        self.time = None;
    }
}

/// A time to keep.
fn copied(time: Option<&[u8]>) -> Option<ArrayVec<u8, TIME>>
    requires { ForSome time (λ time. length time.now ≤ 40) }
    ensures { option_map (λ time. time.items) result ≡ option_map (λ time. time.now) time.entry }
{
    match time {
        Some(time) => {
            let mut kept = ArrayVec::new();
            let _ = kept.try_extend_from_slice(time);
            Some(kept)
        }
        None => None,
    }
}
