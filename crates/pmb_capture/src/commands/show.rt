//! What is shown of a capture.
//!
//! Its rows: `tests/rows/captures.txt`; `tests_tasks`, `src/captures.rt`.

ghost use Rattle.pmb_io.specs.Runs.{AsTool, Ran};
ghost use Rattle.pmb_capture.specs.Show.{showing};

use crate::commands::written::write_capture;
use crate::packet_lines::PacketLines;
use pmb_io::{Sink, Source, Tally, ToolFault};
use pmb_table::Profile;

/// Writes a line for each packet and each refusal of the capture whose text is `first` and what the
/// reader gives, under a profile. A packet's line is that of its transaction, and as a comment what
/// it says, by the PAGE and VOUT_MODE that the packets before it told.
///
/// The lines of a piece are written before the next is read. It ends with the reader, or at a word
/// that is no token, whose line comes last.
///
/// # Errors
///
/// `Read` where the reader failed: the lines of what was read before are written. `Write` where the
/// writer failed. `TooManyReads` where 2^32 reads gave bytes and the reader had not ended.
pub fn show<R: Source, W: Sink>(
    profile: &Profile,
    first: &[u8],
    reader: &mut R,
    writer: &mut W,
) -> Result<Tally, ToolFault>
    // It is a run over the reader and the writer, and what it writes is the job of `show`.
    ensures { AsTool (Ran R.told W.told (showing profile.now) first.now (reader.old, writer.old) (reader.new, writer.new)) result }
{
    write_capture(profile, PacketLines::new(profile), first, reader, writer)
}
