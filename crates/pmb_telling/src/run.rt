//! One run over a capture.
//!
//! Its rows: `tests_tasks`, `src/captures.rt`; `tests/rows/json_objects.txt`, `log.txt` and `sessions.txt`.

ghost use Rattle.std.specs.Prelude.{[]};
ghost use Rattle.pmb_io.specs.Runs.{AsTool, Ran};
ghost use Rattle.pmb_fact_stream.specs.Choice.{choice_data};
ghost use Rattle.pmb_fact_stream.specs.Keeping.{setting_under};
ghost use Rattle.pmb_telling.specs.Kept.{keeping_job};
ghost use Rattle.pmb_telling.specs.Tell.{telling_job};

use crate::engine::{Teller, fronts_are_written};
use pmb_fact_stream::Choice;
use pmb_io::{Sink, Source, Tally, ToolFault, each_piece};
use pmb_keeper::{Keeper, Nothing};
use pmb_scan::AfterBadToken;
use pmb_table::Profile;
use pmb_table::laws::accepted_bus;

/// Writes the lines of the facts of the capture whose text is `first` and what the reader gives, under a
/// profile: each as the choice tells it.
///
/// The lines of a piece are written before the next is read. It ends with the reader, or where it is so
/// chosen at a word that is no token. In the tally such a word counts as a refusal.
///
/// # Errors
///
/// `Read` where the reader failed: the lines of what was read before are written. `Write` where the
/// writer failed. `TooManyReads` where 2^32 reads gave bytes and the reader had not ended.
pub fn tell<'p, R: Source, W: Sink>(
    profile: &'p Profile,
    choice: Choice<'p>,
    bad_words: AfterBadToken,
    first: &[u8],
    reader: &mut R,
    writer: &mut W,
) -> Result<Tally, ToolFault>
    // It is a run over the reader and the writer, and what it writes is the job of telling.
    ensures { AsTool (Ran R.told W.told (telling_job (choice_data choice.entry) profile.now bad_words) first.now (reader.old, writer.old) (reader.new, writer.new)) result }
{
    let Choice {
        digits,
        start,
        devices,
        ignored,
        telling,
    } = choice;
    let chosen = Choice {
        digits,
        start,
        devices,
        ignored,
        telling,
    };
    let (_, told) = tell_kept(profile, chosen, bad_words, Nothing, first, reader, writer);
    told
}

/// Writes as [`tell`] does, and hands each fact to a keeper, wanted or not. It returns the keeper beside
/// what `tell` returns.
///
/// The keeper was given nothing yet. Where it ends well, the keeper was given the facts of the capture,
/// in their order.
pub fn tell_kept<'p, R: Source, W: Sink, K: Keeper>(
    profile: &'p Profile,
    choice: Choice<'p>,
    bad_words: AfterBadToken,
    keeper: K,
    first: &[u8],
    reader: &mut R,
    writer: &mut W,
) -> (K, Result<Tally, ToolFault>)
    requires begins { K.Keeps keeper (setting_under (choice_data choice) profile.now) [] }
    // As that of `tell`, with what the keeper keeps at the end.
    ensures { AsTool (Ran R.told W.told (keeping_job (K.Keeps result.0 (setting_under (choice_data choice.entry) profile.now)) (choice_data choice.entry) profile.now bad_words) first.now (reader.old, writer.old) (reader.new, writer.new)) result.1 }
{
    // Taken apart and made again: no struct that borrows is handed on as it came.
    let Choice {
        digits,
        start,
        devices,
        ignored,
        telling,
    } = choice;
    let chosen = Choice {
        digits,
        start,
        devices,
        ignored,
        telling,
    };
    accepted_bus(profile);
    let mut engine = Teller::new(profile, chosen, bad_words, keeper);
    match each_piece(&mut engine, first, reader, writer) {
        Ok(()) => {
            let tally = engine.tally();
            (engine.into_keeper(), Ok(tally))
        }
        Err(fault) => {
            fronts_are_written::<K>();
            (engine.into_keeper(), Err(ToolFault::from(fault)))
        }
    }
}
