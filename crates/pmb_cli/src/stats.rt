//! `pmb stats`: what a capture comes to, as the arguments choose it.
//!
//! Its rows: `tests/rows/stats.txt`.

ghost use Rattle.std.specs.Prelude.{◌≡◌, option_map};
ghost use Rattle.pmb_args.specs.Stats.{stats_wanted_of};
ghost use Rattle.pmb_cli.specs.Stats.{stats_of};
ghost use Rattle.pmb_io.specs.Runs.{AsTool, Ran};
ghost use Rattle.pmb_run.specs.Lines.{OrNoMemory};

use pmb_args::{FailList, StatsArguments, StatsForm};
use pmb_io::{Sink, Source, Tally, ToolFault};
use pmb_stats::Statistics;
use pmb_stats_counts::Fail;
use pmb_summary::{SumsChoice, write_objects, write_table};
use pmb_table::BusProfile;
use std::alloc::Global;

/// Writes the sums of the capture whose text is `first` and what the reader gives, under a profile, as
/// the arguments choose it.
///
/// # Errors
///
/// `Memory` where there was none for the sums of the profile's devices: nothing was read or written. Else
/// those of [`write_table`].
#[inline(never)]
pub(crate) fn write_stats<R: Source, W: Sink>(
    chosen: &StatsArguments,
    alloc: Global,
    bus: &BusProfile,
    first: &[u8],
    reader: &mut R,
    out: &mut W,
) -> Result<Tally, ToolFault>
    ensures { OrNoMemory ((reader.new ≡ reader.old) × (out.new ≡ out.old))
        (AsTool (Ran R.told W.told (stats_of (stats_wanted_of chosen.now) bus.now) first.now (reader.old, out.old) (reader.new, out.new))) result }
{
    let profile = bus.profile();
    let Ok(statistics) = Statistics::new(alloc, profile) else {
        return Err(ToolFault::Memory);
    };
    let choice = SumsChoice {
        digits: chosen.facts.digits,
        start: chosen.facts.start,
        devices: chosen.facts.devices.as_slice(),
        ignored: bus.ignored(),
        after_bad_token: chosen.facts.after_bad_token,
        fail_on: words(&chosen.fail_on),
    };
    match chosen.form {
        StatsForm::Table => write_table(statistics, profile, choice, first, reader, out),
        StatsForm::Objects => write_objects(statistics, profile, choice, first, reader, out),
    }
}

/// What makes the status 1, if something was said of it.
fn words(fail_on: &Option<FailList>) -> Option<&[Fail]>
    ensures { option_map (λ words. words.now) result ≡ fail_on.now }
{
    match fail_on {
        Some(list) => Some(list.as_slice()),
        None => None,
    }
}
