//! `pmb profile`: the bus that a profile makes.
//!
//! Its rows: `tests/rows/profile_text.txt`.

ghost use Rattle.std.specs.Prelude.{◌≡◌, ℕ, List};
ghost use Rattle.pmb_cli.specs.Works.{describing};
ghost use Rattle.pmb_io.specs.Runs.{AsTool, Ran};

use pmb_io::{Sink, Source, Tally, ToolFault};
use pmb_profile_text::describe;
use pmb_table::BusProfile;

/// Writes the bus that a profile makes, and reads nothing.
///
/// # Errors
///
/// `Write` where the writer failed.
#[inline(never)]
pub(crate) fn describe_bus<R: Source, W: Sink>(
    bus: &BusProfile,
    _first: &[u8],
    _reader: &mut R,
    out: &mut W,
) -> Result<Tally, ToolFault>
    ensures { AsTool (Ran R.told W.told (describing bus.now) _first.now (_reader.old, out.old) (_reader.new, out.new)) result }
{
    match describe(bus, out) {
        Ok(()) => Ok(Tally::new()),
        Err(_) => Err(ToolFault::Write),
    }
}
