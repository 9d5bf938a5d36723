//! What may be done under a profile.

use crate::fact_arguments::FactArguments;
use crate::stats_arguments::StatsArguments;

/// What is done under a profile, mostly with what comes after it.
#[derive(Drop)]
pub enum Subcommand {
    /// A capture is shown.
    Show,
    /// What is wrong in a capture is reported, and how much of it.
    Check,
    /// What a capture says is written in JSON.
    Json(FactArguments),
    /// What a capture says is written as lines for people.
    Log(FactArguments),
    /// What a capture comes to is written: counts, status bits, numbers.
    Stats(StatsArguments),
    /// Packets are built from lines.
    Build,
    /// Requests are run against simulated devices.
    Run,
    /// The devices that the profile makes are listed, with their commands.
    Profile,
}
