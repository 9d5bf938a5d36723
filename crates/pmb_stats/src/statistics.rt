//! What is kept of a capture, fact by fact.
//!
//! Its rows: `tests/rows/stats.txt`.

ghost use Rattle.std.specs.Prelude.{◌≡◌, ◌<◌, ◌≤◌, ◌++◌, [], true, false, IfOk, List, MatchOption, length, option_map};
ghost use Rattle.std.specs.Option.{ForSome};
ghost use Rattle.pmb_command.specs.Parts.{DeviceParts};
ghost use Rattle.pmb_facts.specs.Fact.{FactData};
ghost use Rattle.pmb_keeper.specs.Setting.{Setting};
ghost use Rattle.pmb_mean.specs.machine.History.{HistoryStandsAt};
ghost use Rattle.pmb_observed.specs.Observed.{Observation, numbers_at, reads_at};
ghost use Rattle.pmb_observed.specs.Observing.{first_time, last_time, observations};
ghost use Rattle.pmb_observed.specs.Spot.{has_numbers, has_register};
ghost use Rattle.pmb_stats.specs.Standing.{StatsStand};
ghost use Rattle.pmb_stats.specs.machine.Observed.{told};
ghost use Rattle.pmb_stats_bits.specs.Standing.{RegisterStandsAt};
ghost use Rattle.pmb_stats_counts.specs.Counts.{of_device};
ghost use Rattle.pmb_stats_counts.specs.Standing.{HasCounted, SignsStandAt, TotalsStandAt};
ghost use Rattle.pmb_stats_room.specs.Standing.{RoomStandsAt};

use crate::device_counts::DeviceCounts;
use crate::observed::{Observed, observe};
use crate::time_span::TimeSpan;
use pmb_facts::Fact;
use pmb_json_objects::Seen;
use pmb_keeper::Keeper;
use pmb_mean::NumberHistory;
use pmb_observed::Spot;
use pmb_stats_bits::BitHistory;
use pmb_stats_counts::{Signs, SortCounts, Totals};
use pmb_stats_room::Room;
use pmb_table::Profile;
use std::alloc::{AllocError, Global};

/// What is kept of a capture: what is counted of the whole and of each device, the first and the last
/// time, what may make the status 1, and what was observed of each command on each page, in each
/// phase. It stands at the facts that it was given since it was made.
#[derive(Drop)]
pub struct Statistics<'p> {
    profile: &'p Profile,
    totals: Totals,
    devices: DeviceCounts,
    signs: Signs,
    span: TimeSpan,
    room: Room,
}

impl<'p> Statistics<'p> {
    /// No fact came. All memory is taken here, at once; an `Err` says that it was refused.
    pub fn new(alloc: Global, profile: &'p Profile) -> Result<Self, AllocError>
        ensures { IfOk result (λ stats. (setting : Setting) → setting.profile ≡ profile.now → StatsStand stats setting []) }
    {
        let devices = DeviceCounts::new(alloc)?;
        let room = Room::new(alloc, profile)?;
        Ok(Statistics {
            profile,
            totals: Totals::new(),
            devices,
            signs: Signs::new(),
            span: TimeSpan::new(),
            room,
        })
    }

    /// The devices.
    pub fn profile(&self) -> &'p Profile
        ensures { (setting : Setting) (facts : List FactData) → StatsStand self.now setting facts → result.now ≡ setting.profile }
    {
        self.profile
    }

    /// What is counted of the whole.
    pub fn totals(&self) -> &Totals
        ensures { (setting : Setting) (facts : List FactData) → StatsStand self.now setting facts → TotalsStandAt result.now facts }
    {
        &self.totals
    }

    /// What may make the status 1.
    pub fn signs(&self) -> &Signs
        ensures { (setting : Setting) (facts : List FactData) → StatsStand self.now setting facts → SignsStandAt result.now setting.profile facts }
    {
        &self.signs
    }

    /// What is counted of the device with an address of seven bits.
    pub fn counts(&self, addr: u8) -> &SortCounts
        requires { addr < 128 }
        ensures { (setting : Setting) (facts : List FactData) → StatsStand self.now setting facts → HasCounted result.now (of_device addr facts) }
    {
        self.devices.of(addr)
    }

    /// The first time that a fact has.
    pub fn first(&self) -> Option<&[u8]>
        ensures time { (setting : Setting) (facts : List FactData) → StatsStand self.now setting facts
            → option_map (λ time. time.now) result ≡ first_time facts }
        ensures short { ForSome result (λ time. length time.now ≤ 40) }
    {
        self.span.first()
    }

    /// The last time that a fact has.
    pub fn last(&self) -> Option<&[u8]>
        ensures time { (setting : Setting) (facts : List FactData) → StatsStand self.now setting facts
            → option_map (λ time. time.now) result ≡ last_time facts }
        ensures short { ForSome result (λ time. length time.now ≤ 40) }
    {
        self.span.last()
    }

    /// The histories of the 16 bits of the status register at a spot, that of bit 0 first: `None` if the
    /// profile has no register there.
    pub fn register(&self, spot: Spot) -> Option<&[BitHistory]>
        ensures { (setting : Setting) (facts : List FactData) → StatsStand self.now setting facts
            → MatchOption result (has_register setting.profile spot ≡ false)
            (λ bits. (has_register setting.profile spot ≡ true) × RegisterStandsAt bits.now (reads_at spot (observations setting facts)) × (length bits.now ≡ 16)) }
    {
        self.room.register(spot)
    }

    /// The history of the numbers of the command at a spot: `None` if the profile has no command with
    /// numbers there.
    pub fn numbers(&self, spot: Spot) -> Option<&NumberHistory>
        ensures { (setting : Setting) (facts : List FactData) → StatsStand self.now setting facts
            → MatchOption result (has_numbers setting.profile spot ≡ false)
            (λ history. (has_numbers setting.profile spot ≡ true) × HistoryStandsAt history.now (numbers_at spot (observations setting facts))) }
    {
        self.room.numbers(spot)
    }
}

/// Takes what a fact tells, with the time of its packet, of at most 40 bytes, if one is known.
fn see_observed(room: &mut Room, observed: Observed, time: Option<&[u8]>)
    requires { ForSome time (λ time. length time.now ≤ 40) }
    ensures { (profile : List DeviceParts) (observations : List Observation) → RoomStandsAt room.old profile observations
        → RoomStandsAt room.new profile (observations ++ told (option_map (λ time. time.now) time.entry) observed) }
{
    match observed {
        Observed::Nothing => {}
        Observed::Read { spot, word } => room.see_read(spot, word, time),
        Observed::Number { spot, number } => room.see_number(spot, &number),
    }
}

impl Keeper for Statistics<'_> {
    ghost use Rattle.pmb_stats.specs.Standing.{StatsStand};

    ghost Keeps = { StatsStand };

    fn keep(&mut self, seen: &Seen<'_>, fact: Fact<'_>) {
        let what = fact.what;
        let time = fact.head.time;
        self.totals.count(what);
        self.devices.count(what);
        self.signs.see(self.profile, what);
        self.span.see(time);
        see_observed(&mut self.room, observe(seen, what), time);
    }
}
