//! What facts are counted as.
//!
//! Its rows: `tests/rows/stats.txt`.

ghost use Rattle.std.specs.Prelude.{◌≡◌, ◌<◌};
ghost use Rattle.pmb_facts.specs.Fact.{WhatData};
ghost use Rattle.pmb_facts.specs.Stands.{Stands};
ghost use Rattle.pmb_stats_counts.specs.Sort.{nack_index, nack_place, place, reason_index, sort_of};

use pmb_facts::What;
use pmb_transaction::Reason;

/// Where a device refused a leg.
#[derive(Clone, Copy)]
pub enum NackPlace {
    /// At its address.
    Address,
    /// At the command code.
    Code,
    /// At a byte after that.
    Byte,
    /// At the address by which it is read, after a repeated START.
    ReadAddress,
}

/// What a fact is counted as.
#[derive(Clone, Copy)]
pub enum Sort {
    /// Parts of writes, those before a refused leg too.
    Writes,
    Reads,
    Calls,
    /// Alerts that a device answered.
    Alerts,
    /// Legs that were refused, each the last of its packet.
    Nacks(NackPlace),
    /// Events that no packet can have there, and ends inside a packet.
    Refusals(Reason),
    /// Packets to addresses that speak no PMBus.
    Others,
}

impl NackPlace {
    /// Its place among the four.
    fn index(self) -> usize
        ensures value { result ≡ nack_index self }
        ensures within { result < 4 }
    {
        match self {
            NackPlace::Address => 0,
            NackPlace::Code => 1,
            NackPlace::Byte => 2,
            NackPlace::ReadAddress => 3,
        }
    }
}

impl Sort {
    /// Its place among the 18, in the order in which they are put out.
    pub(crate) fn place(self) -> usize
        ensures value { result ≡ place self }
        ensures within { result < 18 }
    {
        match self {
            Sort::Writes => 0,
            Sort::Reads => 1,
            Sort::Calls => 2,
            Sort::Alerts => 3,
            Sort::Nacks(place) => 4 + place.index(),
            Sort::Refusals(reason) => 8 + reason_index(reason),
            Sort::Others => 17,
        }
    }
}

/// The place of a reason among the nine.
fn reason_index(reason: Reason) -> usize
    ensures value { result ≡ reason_index reason }
    ensures within { result < 9 }
{
    match reason {
        Reason::ReadFirst => 0,
        Reason::BadRestart => 1,
        Reason::BadPec => 2,
        Reason::UnknownDevice => 3,
        Reason::UnknownCommand => 4,
        Reason::TooLong => 5,
        Reason::TooShort => 6,
        Reason::WrongEvent => 7,
        Reason::Truncated => 8,
    }
}

/// What a fact is counted as: nothing, if it is an alert that no device answered or a bad token.
pub fn sort_of(what: What<'_>) -> Option<Sort>
    ensures { (known : WhatData) → Stands what.entry known → result ≡ sort_of known }
{
    match what {
        What::Write { .. } => Some(Sort::Writes),
        What::Read { .. } => Some(Sort::Reads),
        What::Call { .. } => Some(Sort::Calls),
        What::Alert { .. } => Some(Sort::Alerts),
        What::Refused { sent, at_read, .. } => Some(Sort::Nacks(nack_place(sent, at_read))),
        What::Refusal { reason, .. } => Some(Sort::Refusals(reason)),
        What::Other { .. } => Some(Sort::Others),
        What::NoAlert | What::BadToken { .. } => None,
    }
}

/// Where a leg was refused, by what was sent after its address, and by whether the device refused to
/// be read.
fn nack_place(sent: &[u8], at_read: bool) -> NackPlace
    ensures { result ≡ nack_place sent.now at_read }
{
    if at_read {
        return NackPlace::ReadAddress;
    }
    match sent {
        [] => NackPlace::Address,
        [_] => NackPlace::Code,
        _ => NackPlace::Byte,
    }
}
