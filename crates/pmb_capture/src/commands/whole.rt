//! What is written of a capture that is at hand as a whole.
//!
//! Its rows: `tests_tasks`, `src/whole.rt`; `tests/rows/captures.txt`.

ghost use Rattle.std.specs.Prelude.{◌≡◌, [], IfSome};
ghost use Rattle.pmb_capture.specs.Check.{checking};
ghost use Rattle.pmb_capture.specs.Show.{showing};
ghost use Rattle.pmb_capture.specs.Written.{writing};
ghost use Rattle.pmb_capture.specs.machine.Capture.{HasWritten};
ghost use Rattle.pmb_whole_input.specs.Whole.{WritesOrNoMemory};

use crate::capture::Capture;
use crate::output::Output;
use crate::packet_lines::PacketLines;
use crate::tally_alone::TallyAlone;
use pmb_io::{Sink, Tally, ToolFault};
use pmb_table::Profile;
use pmb_whole_input::whole_input;
use std::alloc::Global;

/// Writes what [`show`](crate::show) writes of a capture, under a profile. Nothing large is on the stack.
///
/// # Errors
///
/// `Memory` where there was none: nothing was written. `Write` where the writer failed.
// It is never inlined, so that no other task has its output, of 6 KB, on the stack.
#[inline(never)]
pub fn show_whole<W: Sink>(
    alloc: Global,
    profile: &Profile,
    capture: &[u8],
    writer: &mut W,
) -> Result<Tally, ToolFault>
    ensures { WritesOrNoMemory W.told (showing profile.now) capture.now writer.old writer.new result }
{
    write_whole(alloc, profile, PacketLines::new(profile), capture, writer)
}

/// Writes what [`check_capture`](crate::check_capture) writes of a capture, under a profile. Nothing large
/// is on the stack.
///
/// # Errors
///
/// `Memory` where there was none: nothing was written. `Write` where the writer failed.
pub fn check_whole<W: Sink>(
    alloc: Global,
    profile: &Profile,
    capture: &[u8],
    writer: &mut W,
) -> Result<Tally, ToolFault>
    ensures { WritesOrNoMemory W.told (checking profile.now) capture.now writer.old writer.new result }
{
    write_whole(alloc, profile, TallyAlone, capture, writer)
}

/// Writes what an output has for a capture, under a profile.
fn write_whole<O: Output + Drop, W: Sink>(
    alloc: Global,
    profile: &Profile,
    output: O,
    capture: &[u8],
    writer: &mut W,
) -> Result<Tally, ToolFault>
    requires { O.Stands output [] }
    ensures { WritesOrNoMemory W.told (writing (O.text output) profile.now) capture.now writer.old writer.new result }
{
    let Some(mut kept) = boxed(alloc, profile, output) else {
        return Err(ToolFault::Memory);
    };
    let engine = &mut *kept;
    match whole_input(alloc, engine, capture, writer) {
        Ok(()) => Ok(engine.tally()),
        Err(fault) => Err(fault),
    }
}

/// A capture of which nothing was given yet, on the heap. It is never inlined, so that what it is made of
/// is off the stack when it is used.
#[inline(never)]
fn boxed<'p, O: Output + Drop>(
    alloc: Global,
    profile: &'p Profile,
    output: O,
) -> Option<Box<Capture<'p, O>>>
    requires { O.Stands output [] }
    ensures profile { IfSome result (λ engine. engine.value.profile.now ≡ profile.entry.now) }
    ensures output { IfSome result (λ engine. engine.value.account.output ≡ output) }
    ensures begins { IfSome result (λ engine. HasWritten O.text O.Stands engine.value engine.value [] []) }
{
    match Box::new(alloc, Capture::new(profile, output)) {
        Ok(engine) => Some(engine),
        Err(_) => None,
    }
}
