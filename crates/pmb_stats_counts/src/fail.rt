//! What makes the status 1.
//!
//! Its rows: `tests/rows/stats.txt`.

ghost use Rattle.std.specs.Prelude.{◌≡◌, ◌++◌, ◌∷◌, [], List, option_map};
ghost use Rattle.pmb_command.specs.Parts.{DeviceParts};
ghost use Rattle.pmb_facts.specs.Fact.{FactData, WhatData};
ghost use Rattle.pmb_facts.specs.Stands.{Stands};
ghost use Rattle.pmb_stats_counts.specs.Fails.{fails, holds, is_alert, is_refusal, is_refused};
ghost use Rattle.pmb_stats_counts.specs.Standing.{SignsStandAt};
ghost use Rattle.pmb_stats_counts.specs.machine.Standing.{is_given, sign};

use crate::faults::reads_fault;
use crate::totals::{ends_packet, is_bad_token};
use pmb_facts::What;
use pmb_table::Profile;

/// What may make the status 1.
#[derive(Clone, Copy)]
pub enum Fail {
    /// There was an event that no packet can have there, or an end inside a packet.
    Refusals,
    /// There was a word that is no token.
    BadTokens,
    /// A packet was refused.
    Nacks,
    /// A device answered an alert.
    Alerts,
    /// A status bit was read set that tells of a fault.
    Faults,
    /// There was no packet.
    NoneRead,
}

/// What came among the facts, as far as it may make the status 1.
#[derive(Drop)]
pub struct Signs {
    refusals: bool,
    bad_tokens: bool,
    nacks: bool,
    alerts: bool,
    faults: bool,
    packets: bool,
}

impl Signs {
    /// No fact came.
    pub fn new() -> Signs
        ensures { (profile : List DeviceParts) → SignsStandAt result profile [] }
    {
        Signs {
            refusals: false,
            bad_tokens: false,
            nacks: false,
            alerts: false,
            faults: false,
            packets: false,
        }
    }

    /// Takes a fact.
    pub fn see(&mut self, profile: &Profile, what: What<'_>)
        ensures { (facts : List FactData) (fact : FactData) → SignsStandAt self.old profile.now facts → Stands what.entry fact.what
            → SignsStandAt self.new profile.now (facts ++ fact ∷ []) }
    {
        self.refusals = self.refusals || is_refusal(what);
        self.bad_tokens = self.bad_tokens || is_bad_token(what);
        self.nacks = self.nacks || is_refused(what);
        self.alerts = self.alerts || is_alert(what);
        self.faults = self.faults || reads_fault(profile, what);
        self.packets = self.packets || ends_packet(what);
    }

    /// Whether something holds that may make the status 1.
    pub fn holds(&self, fail: Fail) -> bool
        ensures value { (profile : List DeviceParts) (facts : List FactData) → SignsStandAt self.now profile facts
            → result ≡ holds profile facts fail }
        ensures sign { result ≡ sign self.now fail }
    {
        match fail {
            Fail::Refusals => self.refusals,
            Fail::BadTokens => self.bad_tokens,
            Fail::Nacks => self.nacks,
            Fail::Alerts => self.alerts,
            Fail::Faults => self.faults,
            Fail::NoneRead => !self.packets,
        }
    }

    /// Whether the status is 1: if one of these holds, and without any, if there was a refusal or a bad
    /// token.
    pub fn fails(&self, fail_on: Option<&[Fail]>) -> bool
        ensures { (profile : List DeviceParts) (facts : List FactData) → SignsStandAt self.now profile facts
            → result ≡ fails profile (option_map (λ words. words.now) fail_on.entry) facts }
    {
        match fail_on {
            Some(words) => self.any_holds(words),
            None => self.refusals || self.bad_tokens,
        }
    }

    /// Whether one of these holds.
    fn any_holds(&self, words: &[Fail]) -> bool
        ensures { result ≡ is_given self.now words.now }
    {
        words.iter().any(|fail| self.holds(*fail))
    }
}

/// Whether a fact is an event that no packet can have there.
fn is_refusal(what: What<'_>) -> bool
    ensures { (known : WhatData) → Stands what.entry known → result ≡ is_refusal known }
{
    match what {
        What::Refusal { .. } => true,
        What::Write { .. }
        | What::Read { .. }
        | What::Call { .. }
        | What::Refused { .. }
        | What::Alert { .. }
        | What::NoAlert
        | What::Other { .. }
        | What::BadToken { .. } => false,
    }
}

/// Whether a fact is a leg that was refused.
fn is_refused(what: What<'_>) -> bool
    ensures { (known : WhatData) → Stands what.entry known → result ≡ is_refused known }
{
    match what {
        What::Refused { .. } => true,
        What::Write { .. }
        | What::Read { .. }
        | What::Call { .. }
        | What::Alert { .. }
        | What::NoAlert
        | What::Other { .. }
        | What::Refusal { .. }
        | What::BadToken { .. } => false,
    }
}

/// Whether a fact is an alert that a device answered.
fn is_alert(what: What<'_>) -> bool
    ensures { (known : WhatData) → Stands what.entry known → result ≡ is_alert known }
{
    match what {
        What::Alert { .. } => true,
        What::Write { .. }
        | What::Read { .. }
        | What::Call { .. }
        | What::Refused { .. }
        | What::NoAlert
        | What::Other { .. }
        | What::Refusal { .. }
        | What::BadToken { .. } => false,
    }
}
