//! `pmb json` and `pmb log`: what a capture says, as objects or as lines for people, as the arguments
//! choose it.
//!
//! Its rows: `tests_tasks`, `src/captures.rt`; `tests/rows/json_objects.txt`, `log.txt`.

ghost use Rattle.std.specs.Prelude.{◌≡◌};
ghost use Rattle.pmb_args.specs.Facts.{facts_wanted_of};
ghost use Rattle.pmb_cli.specs.Facts.{json_of, log_of, told_as};
ghost use Rattle.pmb_fact_stream.specs.Telling.{Fits};
ghost use Rattle.pmb_io.specs.Runs.{AsTool, Ran};

use pmb_args::FactArguments;
use pmb_fact_stream::{Choice, Telling};
use pmb_io::{Sink, Source, Tally, ToolFault};
use pmb_log_lines::Layout;
use pmb_table::BusProfile;
use pmb_telling::tell;

/// Writes what the capture says whose text is `first` and what the reader gives, as objects of JSON.
///
/// # Errors
///
/// Those of [`write_facts`].
#[inline(never)]
pub(crate) fn write_json<R: Source, W: Sink>(
    chosen: &FactArguments,
    bus: &BusProfile,
    first: &[u8],
    reader: &mut R,
    out: &mut W,
) -> Result<Tally, ToolFault>
    ensures { AsTool (Ran R.told W.told (json_of (facts_wanted_of chosen.now) bus.now) first.now (reader.old, out.old) (reader.new, out.new)) result }
{
    write_facts(Telling::Objects, chosen, bus, first, reader, out)
}

/// Writes what the capture says whose text is `first` and what the reader gives, as lines for people,
/// whose columns are as wide as the profile has them.
///
/// # Errors
///
/// Those of [`write_facts`].
#[inline(never)]
pub(crate) fn write_log<R: Source, W: Sink>(
    chosen: &FactArguments,
    bus: &BusProfile,
    first: &[u8],
    reader: &mut R,
    out: &mut W,
) -> Result<Tally, ToolFault>
    ensures { AsTool (Ran R.told W.told (log_of (facts_wanted_of chosen.now) bus.now) first.now (reader.old, out.old) (reader.new, out.new)) result }
{
    let telling = Telling::Lines(Layout::of(bus.profile()));
    write_facts(telling, chosen, bus, first, reader, out)
}

/// Writes what the capture says whose text is `first` and what the reader gives, under a profile, as
/// the arguments choose it. Packets of the addresses that the profile ignores are told as others.
///
/// # Errors
///
/// `Read` where the reader failed, `Write` where the writer did. `TooManyReads` where 2^32 reads gave
/// bytes and the reader had not ended.
fn write_facts<R: Source, W: Sink>(
    telling: Telling,
    chosen: &FactArguments,
    bus: &BusProfile,
    first: &[u8],
    reader: &mut R,
    out: &mut W,
) -> Result<Tally, ToolFault>
    requires { Fits telling }
    ensures { AsTool (Ran R.told W.told (told_as telling (facts_wanted_of chosen.now) bus.now) first.now (reader.old, out.old) (reader.new, out.new)) result }
{
    let choice = Choice {
        digits: chosen.digits,
        start: chosen.start,
        devices: chosen.devices.as_slice(),
        ignored: bus.ignored(),
        telling,
    };
    tell(
        bus.profile(),
        choice,
        chosen.after_bad_token,
        first,
        reader,
        out,
    )
}
