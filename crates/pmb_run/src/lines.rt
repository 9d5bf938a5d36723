//! Requests in; packets and results out.
//!
//! Its rows: `tests_tasks`, `src/lines.rt`; `tests/rows/requests.txt`, `tests/rows/sessions.txt`.

ghost use Rattle.std.specs.Prelude.{◌≡◌, [], IfSome};
ghost use Rattle.pmb_devices.specs.Runs.{first_members};
ghost use Rattle.pmb_devices.specs.Signal.{BusStandsAt};
ghost use Rattle.pmb_io.specs.Runs.{AsTool, Ran};
ghost use Rattle.pmb_run.specs.Lines.{OrNoMemory, running};
ghost use Rattle.pmb_run.specs.machine.Running.{RunnerStands};
ghost use Rattle.pmb_whole_input.specs.Whole.{WritesOrNoMemory};

use crate::bench::Bench;
use crate::runner::{MOST_BYTES, Runner};
use pmb_devices::Bus;
use pmb_io::{Sink, Source, Tally, ToolFault, each_line};
use pmb_table::Profile;
use pmb_whole_input::whole_lines;
use std::alloc::Global;

/// Runs the request lines of the text that is `first` and what the reader gives, one after the other,
/// against simulated devices: those of the profile, each as it is first made.
///
/// What is recorded of a request is written as canonical capture text (SMBus 3.0 section 6.5), and
/// after it a line with the result: `# done`, the bytes or the value that were read (`# raw` for a word
/// without a value), or at which byte the packet was refused. For a line that spells no request, or one
/// for which there is no host, `# line N: ` and its first fault are written, where N counts all lines
/// from 1 and stays at the greatest `u64`; for a line of more than 32,768 bytes the fault is
/// `TooLong at 32768`. For a line without words nothing is written.
///
/// A `set` and a `get` take the VOUT_MODE that the packets before them told. What is written for the
/// lines of a piece is written before the next is read. The tally counts requests that were done as
/// packets, and others as refusals. Memory is taken for the devices alone, before anything is read or
/// written.
///
/// # Errors
///
/// `Memory` where there was none for the devices: nothing was read or written. `Read` where the reader
/// failed: what there is to write for the lines that had ended is written. `Write` where the writer failed.
/// `TooManyReads` where 2^32 reads gave bytes and the reader had not ended.
pub fn run<R: Source, W: Sink>(
    alloc: Global,
    profile: &Profile,
    first: &[u8],
    reader: &mut R,
    writer: &mut W,
) -> Result<Tally, ToolFault>
    // It is a run over the reader and the writer, and what it writes is the job of `run`; or there was no memory.
    ensures { OrNoMemory ((reader.new ≡ reader.old) × (writer.new ≡ writer.old))
        (AsTool (Ran R.told W.told (running profile.now) first.now (reader.old, writer.old) (reader.new, writer.new))) result }
{
    let Ok(bus) = Bus::new(alloc, profile) else {
        return Err(ToolFault::Memory);
    };
    let runner = Runner::new(Bench::new(profile, bus));
    each_line::<Runner, R, W, MOST_BYTES>(runner, first, reader, writer)
}

/// Writes what [`run`] writes of requests that are at hand as a whole. Nothing large stays on the stack.
///
/// # Errors
///
/// `Memory` where there was none: nothing was written. `Write` where the writer failed.
pub fn run_whole<W: Sink>(
    alloc: Global,
    profile: &Profile,
    requests: &[u8],
    writer: &mut W,
) -> Result<Tally, ToolFault>
    ensures { WritesOrNoMemory W.told (running profile.now) requests.now writer.old writer.new result }
{
    let Ok(bus) = Bus::new(alloc, profile) else {
        return Err(ToolFault::Memory);
    };
    let Some(mut kept) = boxed(alloc, profile, bus) else {
        return Err(ToolFault::Memory);
    };
    let runner = &mut *kept;
    whole_lines::<Runner, W, MOST_BYTES>(alloc, runner, requests, writer)
}

/// A runner that took no line yet, on the heap. It is never inlined, so that what it is made of is off
/// the stack when it is used.
#[inline(never)]
fn boxed<'p>(alloc: Global, profile: &'p Profile, bus: Bus<'p>) -> Option<Box<Runner<'p>>>
    requires { BusStandsAt bus (record { past = []; members = first_members profile.now; history = [] }) }
    ensures profile { IfSome result (λ runner. runner.value.bench.profile.now ≡ profile.entry.now) }
    ensures begins { IfSome result (λ runner. RunnerStands runner.value runner.value [] []) }
{
    match Box::new(alloc, Runner::new(Bench::new(profile, bus))) {
        Ok(runner) => Some(runner),
        Err(_) => None,
    }
}
