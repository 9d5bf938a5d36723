//! From a capture to its sums.
//!
//! Its rows: `tests/rows/stats.txt`, `sessions.txt`.

ghost use Rattle.std.specs.Prelude.{◌≡◌, [], List, OnOk, option_map};
ghost use Rattle.std.specs.Io.KnownBytes.{Appends};
ghost use Rattle.pmb_facts.specs.Fact.{FactData};
ghost use Rattle.pmb_io.specs.Calls.{WriterTells};
ghost use Rattle.pmb_io.specs.Runs.{AsTool, Ran};
ghost use Rattle.pmb_io.specs.Tally.{IsTallyOf};
ghost use Rattle.pmb_keeper.specs.Setting.{Setting};
ghost use Rattle.pmb_stats.specs.Standing.{StatsStand};
ghost use Rattle.pmb_stats_counts.specs.Counts.{packets};
ghost use Rattle.pmb_stats_counts.specs.Fails.{fails};
ghost use Rattle.pmb_stats_objects.specs.Objects.{objects_text};
ghost use Rattle.pmb_stats_table.specs.Table.{table_text};
ghost use Rattle.pmb_summary.specs.Choice.{choice_of, setting_of, sums_data};
ghost use Rattle.pmb_summary.specs.Summing.{objects_of, one_if, summing, table_of};
ghost use Rattle.pmb_telling.specs.Kept.{keeping_job};

use crate::choice::SumsChoice;
use pmb_decimal::Digits;
use pmb_fact_stream::{Choice, Telling};
use pmb_io::laws::texts_add_up;
use pmb_io::{RunFault, Sink, Source, Tally, ToolFault, Waiting, send};
use pmb_stats::Statistics;
use pmb_stats_counts::Fail;
use pmb_stats_objects::put_objects;
use pmb_stats_table::put_table;
use pmb_stats_texts::laws::{one_objects, one_table};
use pmb_table::Profile;
use pmb_telling::tell_kept;

/// Writes the sums of the capture whose text is `first` and what the reader gives, under a profile, as a
/// table. The statistics were made for that profile, and were given nothing so far.
///
/// Nothing is written before the capture has ended, with the reader or, where it is so chosen, at a
/// word that is no token. The tally has one refusal where something holds that makes the status 1, and
/// none else.
///
/// # Errors
///
/// `Read` where the reader failed, and `TooManyReads` where 2^32 reads gave bytes and the reader had not
/// ended: nothing was written. `Write` where the writer failed.
pub fn write_table<'p, R: Source, W: Sink>(
    statistics: Statistics<'p>,
    profile: &'p Profile,
    choice: SumsChoice<'p>,
    first: &[u8],
    reader: &mut R,
    writer: &mut W,
) -> Result<Tally, ToolFault>
    requires begins { StatsStand statistics (setting_of (sums_data choice) profile.now) [] }
    ensures { AsTool (Ran R.told W.told (summing (table_of (sums_data choice.entry) profile.now) (sums_data choice.entry) profile.now) first.now (reader.old, writer.old) (reader.new, writer.new)) result }
{
    // Taken apart and made again: no struct that borrows is handed on as it came.
    let SumsChoice {
        digits,
        start,
        devices,
        ignored,
        after_bad_token,
        fail_on,
    } = choice;
    let chosen = SumsChoice {
        digits,
        start,
        devices,
        ignored,
        after_bad_token,
        fail_on,
    };
    let (statistics, told) = keep_all(statistics, profile, chosen, first, reader, writer);
    one_table();
    match told {
        Ok(_) => match write_whole_table(&statistics, digits, devices, writer) {
            Ok(()) => Ok(judged(&statistics, fail_on)),
            Err(fault) => Err(ToolFault::from(fault)),
        },
        Err(fault) => Err(fault),
    }
}

/// Writes the sums of the capture as [`write_table`] does, as objects of JSON, each on a line.
///
/// # Errors
///
/// Those of [`write_table`].
pub fn write_objects<'p, R: Source, W: Sink>(
    statistics: Statistics<'p>,
    profile: &'p Profile,
    choice: SumsChoice<'p>,
    first: &[u8],
    reader: &mut R,
    writer: &mut W,
) -> Result<Tally, ToolFault>
    requires begins { StatsStand statistics (setting_of (sums_data choice) profile.now) [] }
    ensures { AsTool (Ran R.told W.told (summing (objects_of (sums_data choice.entry) profile.now) (sums_data choice.entry) profile.now) first.now (reader.old, writer.old) (reader.new, writer.new)) result }
{
    // Taken apart and made again: no struct that borrows is handed on as it came.
    let SumsChoice {
        digits,
        start,
        devices,
        ignored,
        after_bad_token,
        fail_on,
    } = choice;
    let chosen = SumsChoice {
        digits,
        start,
        devices,
        ignored,
        after_bad_token,
        fail_on,
    };
    let (statistics, told) = keep_all(statistics, profile, chosen, first, reader, writer);
    one_objects();
    match told {
        Ok(_) => match write_all_objects(&statistics, digits, devices, writer) {
            Ok(()) => Ok(judged(&statistics, fail_on)),
            Err(fault) => Err(ToolFault::from(fault)),
        },
        Err(fault) => Err(fault),
    }
}

/// Hands all facts of the capture to the statistics, which are returned. Nothing is written.
fn keep_all<'p, R: Source, W: Sink>(
    statistics: Statistics<'p>,
    profile: &'p Profile,
    choice: SumsChoice<'p>,
    first: &[u8],
    reader: &mut R,
    writer: &mut W,
) -> (Statistics<'p>, Result<Tally, ToolFault>)
    requires begins { StatsStand statistics (setting_of (sums_data choice) profile.now) [] }
    ensures { AsTool (Ran R.told W.told (keeping_job (StatsStand result.0 (setting_of (sums_data choice.entry) profile.now)) (choice_of (sums_data choice.entry)) profile.now choice.entry.after_bad_token) first.now (reader.old, writer.old) (reader.new, writer.new)) result.1 }
{
    let SumsChoice {
        digits,
        start,
        ignored,
        after_bad_token,
        ..
    } = choice;
    let telling = Choice {
        digits,
        start,
        devices: &[],
        ignored,
        telling: Telling::Nothing,
    };
    tell_kept(
        profile,
        telling,
        after_bad_token,
        statistics,
        first,
        reader,
        writer,
    )
}

/// Writes the table of what was kept.
fn write_whole_table<W: Sink>(
    statistics: &Statistics<'_>,
    digits: Digits,
    devices: &[u8],
    writer: &mut W,
) -> Result<(), RunFault>
    ensures written { (setting : Setting) (facts : List FactData) → StatsStand statistics.now setting facts
        → OnOk result (Appends (W.told writer.old).held (W.told writer.new).held (table_text digits devices.now setting facts)) }
    ensures failed { WriterTells (W.told writer.old) (W.told writer.new) result }
{
    texts_add_up();
    let mut waiting = Waiting::new();
    put_table(statistics, digits, devices, &mut waiting, writer)?;
    send(&mut waiting, writer)
}

/// Writes the objects of what was kept.
fn write_all_objects<W: Sink>(
    statistics: &Statistics<'_>,
    digits: Digits,
    devices: &[u8],
    writer: &mut W,
) -> Result<(), RunFault>
    ensures written { (setting : Setting) (facts : List FactData) → StatsStand statistics.now setting facts
        → OnOk result (Appends (W.told writer.old).held (W.told writer.new).held (objects_text digits setting facts devices.now)) }
    ensures failed { WriterTells (W.told writer.old) (W.told writer.new) result }
{
    texts_add_up();
    let mut waiting = Waiting::new();
    put_objects(statistics, digits, devices, &mut waiting, writer)?;
    send(&mut waiting, writer)
}

/// How many packets came, and one refusal where something of the list makes the status 1.
fn judged(statistics: &Statistics<'_>, fail_on: Option<&[Fail]>) -> Tally
    ensures { (setting : Setting) (facts : List FactData) → StatsStand statistics.now setting facts
        → IsTallyOf (packets facts) (one_if (fails setting.profile (option_map (λ words. words.now) fail_on.entry) facts)) result }
{
    Tally {
        packets: statistics.totals().packets(),
        refusals: u64::from(statistics.signs().fails(fail_on)),
    }
}
