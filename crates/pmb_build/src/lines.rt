//! Lines in, packets out.
//!
//! Its rows: `tests/rows/lines.txt`; `tests_tasks`, `src/lines.rt`.

ghost use Rattle.std.specs.Prelude.{◌≡◌, [], IfSome};
ghost use Rattle.pmb_io.specs.Runs.{AsTool, Ran};
ghost use Rattle.pmb_build.specs.Lines.{building};
ghost use Rattle.pmb_build.specs.machine.Building.{BuilderStands};
ghost use Rattle.pmb_whole_input.specs.Whole.{WritesOrNoMemory};

use crate::builder::{Builder, MOST_BYTES};
use pmb_io::{Sink, Source, Tally, ToolFault, each_line};
use pmb_table::Profile;
use pmb_whole_input::whole_lines;
use std::alloc::Global;

/// Writes the packet of each transaction line of the text that is `first` and what the reader gives,
/// as canonical capture text: its events (SMBus 3.0 section 6.5), each followed by a space, STOP by
/// an LF.
///
/// A line goes up to an LF, and what follows the last LF is one where it is not empty; a CR at a
/// line's end is no part of it. For a line that spells no transaction of the profile with a packet,
/// `# line N: ` and its first fault are written, where N counts all lines from 1 and stays at the
/// greatest `u64`; for one of more than 32,768 bytes the fault is `TooLong at 32768`. For a line
/// without words nothing is written.
///
/// What is written for the lines of a piece is written before the next is read. The tally counts
/// packets, and faults as refusals.
///
/// # Errors
///
/// `Read` where the reader failed: what there is to write for the lines that had ended is written.
/// `Write` where the writer failed. `TooManyReads` where 2^32 reads gave bytes and the reader had not ended.
pub fn build<R: Source, W: Sink>(
    profile: &Profile,
    first: &[u8],
    reader: &mut R,
    writer: &mut W,
) -> Result<Tally, ToolFault>
    // It is a run over the reader and the writer, and what it writes is the job of `build`.
    ensures { AsTool (Ran R.told W.told (building profile.now) first.now (reader.old, writer.old) (reader.new, writer.new)) result }
{
    each_line::<Builder, R, W, MOST_BYTES>(Builder::new(profile), first, reader, writer)
}

/// Writes what [`build`] writes of lines that are at hand as a whole. Nothing large stays on the stack.
///
/// # Errors
///
/// `Memory` where there was none: nothing was written. `Write` where the writer failed.
pub fn build_whole<W: Sink>(
    alloc: Global,
    profile: &Profile,
    lines: &[u8],
    writer: &mut W,
) -> Result<Tally, ToolFault>
    ensures { WritesOrNoMemory W.told (building profile.now) lines.now writer.old writer.new result }
{
    let Some(mut kept) = boxed(alloc, profile) else {
        return Err(ToolFault::Memory);
    };
    let builder = &mut *kept;
    whole_lines::<Builder, W, MOST_BYTES>(alloc, builder, lines, writer)
}

/// A builder that took no line yet, on the heap. It is never inlined, so that what it is made of is off
/// the stack when it is used.
#[inline(never)]
fn boxed<'a>(alloc: Global, profile: &'a Profile) -> Option<Box<Builder<'a>>>
    ensures profile { IfSome result (λ builder. builder.value.profile.now ≡ profile.entry.now) }
    ensures begins { IfSome result (λ builder. BuilderStands builder.value builder.value [] []) }
{
    match Box::new(alloc, Builder::new(profile)) {
        Ok(builder) => Some(builder),
        Err(_) => None,
    }
}
