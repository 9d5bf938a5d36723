//! What is counted of a whole capture.
//!
//! Its rows: `tests/rows/stats.txt`.

ghost use Rattle.std.specs.Prelude.{◌≡◌, ◌++◌, ◌∷◌, [], List};
ghost use Rattle.pmb_facts.specs.Fact.{FactData, WhatData};
ghost use Rattle.pmb_facts.specs.Stands.{Stands};
ghost use Rattle.pmb_io.specs.Count.{capped};
ghost use Rattle.pmb_stats_counts.specs.Counts.{bad_tokens, count_in_all, ends_packet, is_bad_token, packets};
ghost use Rattle.pmb_stats_counts.specs.Standing.{TotalsStandAt};
ghost use Rattle.pmb_stats_counts.specs.machine.Standing.{count_if};

use crate::counts::SortCounts;
use crate::sort::Sort;
use pmb_facts::What;

/// How many facts of each sort came, how many packets, and how many words that are no token. Each count
/// stays at the greatest `u64`.
#[derive(Drop)]
pub struct Totals {
    sorts: SortCounts,
    packets: u64,
    bad_tokens: u64,
}

impl Totals {
    /// No fact came.
    pub fn new() -> Totals
        ensures { TotalsStandAt result [] }
    {
        Totals {
            sorts: SortCounts::new(),
            packets: 0,
            bad_tokens: 0,
        }
    }

    /// Counts a fact.
    pub fn count(&mut self, what: What<'_>)
        ensures { (facts : List FactData) (fact : FactData) → TotalsStandAt self.old facts → Stands what.entry fact.what
            → TotalsStandAt self.new (facts ++ fact ∷ []) }
    {
        self.sorts.count(what);
        self.packets = count_if(self.packets, ends_packet(what));
        self.bad_tokens = count_if(self.bad_tokens, is_bad_token(what));
    }

    /// How many facts of a sort came.
    pub fn of(&self, sort: Sort) -> u64
        ensures { (facts : List FactData) → TotalsStandAt self.now facts → result ≡ capped (count_in_all sort facts) }
    {
        self.sorts.of(sort)
    }

    /// How many packets came, refused ones and alerts too. Packets to other devices are none.
    pub fn packets(&self) -> u64
        ensures { (facts : List FactData) → TotalsStandAt self.now facts → result ≡ capped (packets facts) }
    {
        self.packets
    }

    /// How many words came that are no token.
    pub fn bad_tokens(&self) -> u64
        ensures { (facts : List FactData) → TotalsStandAt self.now facts → result ≡ capped (bad_tokens facts) }
    {
        self.bad_tokens
    }
}

/// One more, if something holds.
fn count_if(count: u64, holds: bool) -> u64
    ensures { result ≡ count_if count holds }
{
    if holds {
        count.saturating_add(1)
    } else {
        count
    }
}

/// Whether a fact is the last one of a whole packet.
pub(crate) fn ends_packet(what: What<'_>) -> bool
    ensures { (known : WhatData) → Stands what.entry known → result ≡ ends_packet known }
{
    match what {
        What::Write { part, parts, .. } => part == parts,
        What::Read { .. }
        | What::Call { .. }
        | What::Refused { .. }
        | What::Alert { .. }
        | What::NoAlert => true,
        What::Other { .. } | What::Refusal { .. } | What::BadToken { .. } => false,
    }
}

/// Whether a fact is a word that is no token.
pub(crate) fn is_bad_token(what: What<'_>) -> bool
    ensures { (known : WhatData) → Stands what.entry known → result ≡ is_bad_token known }
{
    match what {
        What::BadToken { .. } => true,
        What::Write { .. }
        | What::Read { .. }
        | What::Call { .. }
        | What::Refused { .. }
        | What::Alert { .. }
        | What::NoAlert
        | What::Other { .. }
        | What::Refusal { .. } => false,
    }
}
