//! What is wrong in a capture.
//!
//! Its rows: `tests/rows/captures.txt`; `tests_tasks`, `src/captures.rt`.

ghost use Rattle.pmb_io.specs.Runs.{AsTool, Ran};
ghost use Rattle.pmb_capture.specs.Check.{checking};

use crate::commands::written::write_capture;
use crate::tally_alone::TallyAlone;
use pmb_io::{Sink, Source, Tally, ToolFault};
use pmb_table::Profile;

/// Writes a line for each refusal of the capture whose text is `first` and what the reader gives,
/// under a profile, and last a line with the numbers of packets and refusals.
///
/// The lines of a piece are written before the next is read. It ends with the reader, or at a word
/// that is no token, whose line is that of a refusal.
///
/// # Errors
///
/// `Read` where the reader failed: the lines of what was read before are written. `Write` where the
/// writer failed. `TooManyReads` where 2^32 reads gave bytes and the reader had not ended.
pub fn check_capture<R: Source, W: Sink>(
    profile: &Profile,
    first: &[u8],
    reader: &mut R,
    writer: &mut W,
) -> Result<Tally, ToolFault>
    // It is a run over the reader and the writer, and what it writes is the job of `check`.
    ensures { AsTool (Ran R.told W.told (checking profile.now) first.now (reader.old, writer.old) (reader.new, writer.new)) result }
{
    write_capture(profile, TallyAlone, first, reader, writer)
}
