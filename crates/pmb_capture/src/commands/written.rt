//! One run over a capture, whatever is written of it.
//!
//! Its rows: `tests/rows/captures.txt` and `failures.txt`.

ghost use Rattle.std.specs.Prelude.{[]};
ghost use Rattle.pmb_io.specs.Runs.{AsTool, Ran};
ghost use Rattle.pmb_capture.specs.Written.{writing};

use crate::capture::{Capture, fronts_are_written};
use crate::output::Output;
use pmb_io::{Sink, Source, Tally, ToolFault, each_piece};
use pmb_table::Profile;

/// Writes what an output has for the capture whose text is `first` and what the reader gives, under a
/// profile.
///
/// # Errors
///
/// `Read` where the reader failed: what is written for what was read before is. `Write` where the
/// writer failed. `TooManyReads` where 2^32 reads gave bytes and the reader had not ended.
pub(crate) fn write_capture<O: Output + Drop, R: Source, W: Sink>(
    profile: &Profile,
    output: O,
    first: &[u8],
    reader: &mut R,
    writer: &mut W,
) -> Result<Tally, ToolFault>
    requires { O.Stands output [] }
    ensures { AsTool (Ran R.told W.told (writing (O.text output) profile.now) first.now (reader.old, writer.old) (reader.new, writer.new)) result }
{
    let mut capture = Capture::new(profile, output);
    match each_piece(&mut capture, first, reader, writer) {
        Ok(()) => Ok(capture.tally()),
        Err(fault) => {
            fronts_are_written::<O>();
            Err(ToolFault::from(fault))
        }
    }
}
