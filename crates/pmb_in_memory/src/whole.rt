//! A whole input worked on, under a profile's text.
//!
//! Its rows: `tests_tasks`, `src/whole.rt`.

ghost use Rattle.std.specs.Prelude.{◌≡◌, IfOk};
ghost use Rattle.pmb_command.specs.Bus.{IsBus};
ghost use Rattle.pmb_in_memory.specs.Fault.{read_of, whole_of};
ghost use Rattle.pmb_in_memory.specs.Json.{telling};
ghost use Rattle.pmb_in_memory.specs.Profile.{IsProfile};
ghost use Rattle.pmb_in_memory.specs.Whole.{WorksIf, WorksOn, WorksUnder};
ghost use Rattle.pmb_in_memory.specs.MemoryTask.{working};

use crate::fault::WholeFault;
use crate::json_choice::JsonChoice;
use crate::memory_task::MemoryTask;
use pmb_build::build_whole;
use pmb_capture::{check_whole, show_whole};
use pmb_fact_stream::{Choice, Telling};
use pmb_io::{Sink, Tally, ToolFault};
use pmb_run::run_whole;
use pmb_table::laws::accepted_bus;
use pmb_table::{BusProfile, ProfileFault};
use pmb_telling::tell_whole;
use std::alloc::Global;

/// Writes what the work's subcommand writes of an input under a profile, and answers its tally.
///
/// # Errors
///
/// `Profile` where the profile's text has a fault. `Memory` where there was none. `Write` where the
/// writer failed.
pub fn write_whole<W: Sink>(
    work: MemoryTask,
    alloc: Global,
    profile: &[u8],
    input: &[u8],
    out: &mut W,
) -> Result<Tally, WholeFault>
    ensures { WorksOn W.told (working work) profile.now input.now out.old out.new result }
{
    let read = read_profile(alloc, profile);
    work_if(work, alloc, &read, input, out)
}

/// Writes the objects of a capture under a profile, each as a line of JSON, and answers the tally.
/// Those of devices at these addresses are wanted, of seven bits each, and of all devices where there
/// is none.
///
/// # Errors
///
/// `Profile` where the profile's text has a fault. `Memory` where there was none. `Write` where the
/// writer failed.
pub fn write_json<W: Sink>(
    choice: JsonChoice,
    devices: &[u8],
    alloc: Global,
    profile: &[u8],
    capture: &[u8],
    out: &mut W,
) -> Result<Tally, WholeFault>
    ensures { WorksOn W.told (telling choice devices.now) profile.now capture.now out.old out.new result }
{
    let read = read_profile(alloc, profile);
    json_if(choice, devices, alloc, &read, capture, out)
}

/// The profile of a text.
///
/// # Errors
///
/// `Profile` where the text has a fault. `Memory` where there was none.
pub fn read_profile(alloc: Global, text: &[u8]) -> Result<BusProfile, WholeFault>
    ensures { IsProfile text.now result }
{
    handed_on(BusProfile::from_toml(alloc, text))
}

/// Hands on what reading a profile came to: each fault with its device and its command.
fn handed_on(read: Result<BusProfile, ProfileFault>) -> Result<BusProfile, WholeFault>
    ensures told { result ≡ read_of read }
    ensures accepted { IfOk result (λ bus. IsBus bus.devices) }
{
    match read {
        Ok(bus) => {
            accepted_bus(bus.profile());
            Ok(bus)
        }
        Err(fault) => Err(WholeFault::of_profile(fault)),
    }
}

/// Does a work on an input under a profile, or answers why that was not read.
fn work_if<W: Sink>(
    work: MemoryTask,
    alloc: Global,
    read: &Result<BusProfile, WholeFault>,
    input: &[u8],
    out: &mut W,
) -> Result<Tally, WholeFault>
    ensures { WorksIf W.told (working work) read.now input.now out.old out.new result }
{
    match read {
        Ok(bus) => ended(work_under(work, alloc, bus, input, out)),
        Err(fault) => Err(*fault),
    }
}

/// Writes the objects of a capture under a profile, or answers why that was not read.
fn json_if<W: Sink>(
    choice: JsonChoice,
    devices: &[u8],
    alloc: Global,
    read: &Result<BusProfile, WholeFault>,
    capture: &[u8],
    out: &mut W,
) -> Result<Tally, WholeFault>
    ensures { WorksIf W.told (telling choice devices.now) read.now capture.now out.old out.new result }
{
    match read {
        Ok(bus) => ended(json_under(choice, devices, alloc, bus, capture, out)),
        Err(fault) => Err(*fault),
    }
}

/// Does a work on an input, under a profile.
pub(crate) fn work_under<W: Sink>(
    work: MemoryTask,
    alloc: Global,
    bus: &BusProfile,
    input: &[u8],
    out: &mut W,
) -> Result<Tally, ToolFault>
    ensures { WorksUnder W.told (working work bus.now) input.now out.old out.new (whole_of result) }
{
    let profile = bus.profile();
    match work {
        MemoryTask::Show => show_whole(alloc, profile, input, out),
        MemoryTask::Check => check_whole(alloc, profile, input, out),
        MemoryTask::Build => build_whole(alloc, profile, input, out),
        MemoryTask::Run => run_whole(alloc, profile, input, out),
    }
}

/// Writes the objects of a capture, under a profile and the addresses that it ignores.
pub(crate) fn json_under<W: Sink>(
    choice: JsonChoice,
    devices: &[u8],
    alloc: Global,
    bus: &BusProfile,
    capture: &[u8],
    out: &mut W,
) -> Result<Tally, ToolFault>
    ensures { WorksUnder W.told (telling choice devices.now bus.now) capture.now out.old out.new (whole_of result) }
{
    let chosen = Choice {
        digits: choice.digits,
        start: choice.start,
        devices,
        ignored: bus.ignored(),
        telling: Telling::Objects,
    };
    tell_whole(alloc, bus.profile(), chosen, choice.bad_words, capture, out)
}

/// How a run over bytes at hand ended.
pub(crate) fn ended(outcome: Result<Tally, ToolFault>) -> Result<Tally, WholeFault>
    ensures { result ≡ whole_of outcome }
{
    match outcome {
        Ok(tally) => Ok(tally),
        Err(fault) => Err(WholeFault::of_tool(fault)),
    }
}
