//! What is done under a profile: `pmb show`, `pmb check`, `pmb json`, `pmb log`, `pmb stats`,
//! `pmb build`, `pmb run` and `pmb profile`, under the sample profile or under the one that comes first
//! in the input.
//!
//! Its rows: `tests/rows/preambles.txt`, `captures.txt`, `lines.txt`, `requests.txt`.

ghost use Rattle.std.specs.Prelude.{◌≡◌, true};
ghost use Rattle.pmb_cli.specs.ProfileFault.{IsReported};
ghost use Rattle.pmb_build.specs.Lines.{building};
ghost use Rattle.pmb_capture.specs.Check.{checking};
ghost use Rattle.pmb_capture.specs.Show.{showing};
ghost use Rattle.pmb_io.specs.Runs.{AsTool, Ran};
ghost use Rattle.pmb_cli.specs.Tasks.{DidTask};
ghost use Rattle.pmb_cli.specs.Works.{takes_memory, working};
ghost use Rattle.pmb_run.specs.Lines.{OrNoMemory, running};
ghost use Rattle.pmb_args.specs.Asked.{UnderProfile, wanted_of};
ghost use Rattle.pmb_args.specs.declared.profile_place.ProfilePlace.TheVariants.{Front, Sample};

use crate::bus::describe_bus;
use crate::facts::{write_json, write_log};
use crate::profile_fault::{explain_profile, report_profile};
use crate::stats::write_stats;
use pmb_args::{ExitStatus, Subcommand, ended, report};
use pmb_build::build;
use pmb_capture::{check_capture, show};
use pmb_io::{Empty, Sink, Source, Tally, ToolFault};
use pmb_preamble::laws::one_front;
use pmb_preamble::{front, sample_profile};
use pmb_run::run;
use pmb_table::{BusProfile, Profile, ProfileFault, SAMPLE};
use std::alloc::Global;

/// Does a work on what the reader gives under the sample profile, and returns the exit status.
pub(crate) fn run_under_sample<R: Source, W: Sink, E: Sink>(
    work: &Subcommand,
    alloc: Global,
    reader: &mut R,
    out: &mut W,
    err: &mut E,
) -> ExitStatus
    ensures { DidTask R.told W.told E.told SAMPLE.now (UnderProfile Sample (wanted_of work.now)) (reader.old, out.old, err.old) (reader.new, out.new, err.new) result }
{
    match sample_profile(alloc) {
        Ok(bus) => ended(do_work(work, alloc, &bus, &[], reader, out), err),
        Err(fault) => report(fault, err),
    }
}

/// Does a work on what follows the profile that the reader gives first, and returns the exit status.
/// Where the reader ends without a line `%%`, nothing follows, and it is not read again.
pub(crate) fn run_under_front<R: Source, W: Sink, E: Sink>(
    work: &Subcommand,
    alloc: Global,
    reader: &mut R,
    out: &mut W,
    err: &mut E,
) -> ExitStatus
    ensures { DidTask R.told W.told E.told SAMPLE.now (UnderProfile Front (wanted_of work.now)) (reader.old, out.old, err.old) (reader.new, out.new, err.new) result }
{
    // With more after it a text keeps its first line `%%`.
    one_front();
    let front = match front(alloc, reader) {
        Ok(front) => front,
        Err(fault) => return report(fault, err),
    };
    match BusProfile::from_toml(alloc, front.profile()) {
        Ok(bus) if front.has_capture() => {
            ended(do_work(work, alloc, &bus, front.rest(), reader, out), err)
        }
        Ok(bus) => ended(do_work(work, alloc, &bus, &[], &mut Empty, out), err),
        Err(fault) => report_fault(work, alloc, front.profile(), fault, err),
    }
}

/// Does a work on `first` and what the reader gives, under a profile.
///
/// # Errors
///
/// `Read` where the reader failed, `Write` where the writer did. `TooManyReads` where 2^32 reads gave
/// bytes and the reader had not ended. `Memory` where there was none for the devices of `run` or the
/// sums of `stats`.
//
// Each work has a frame of its own on the stack, and so has this function, which is called for two sorts
// of readers. In one function the compiler would add up what they take.
#[inline(never)]
fn do_work<R: Source, W: Sink>(
    work: &Subcommand,
    alloc: Global,
    bus: &BusProfile,
    first: &[u8],
    reader: &mut R,
    out: &mut W,
) -> Result<Tally, ToolFault>
    // `run` and `stats` alone take memory, before they read or write.
    ensures { OrNoMemory ((takes_memory (wanted_of work.now) ≡ true) × (reader.new ≡ reader.old) × (out.new ≡ out.old))
        (AsTool (Ran R.told W.told (working (wanted_of work.now) bus.now) first.now (reader.old, out.old) (reader.new, out.new))) result }
{
    let profile = bus.profile();
    match work {
        Subcommand::Show => show_apart(profile, first, reader, out),
        Subcommand::Check => check_apart(profile, first, reader, out),
        Subcommand::Json(chosen) => write_json(chosen, bus, first, reader, out),
        Subcommand::Log(chosen) => write_log(chosen, bus, first, reader, out),
        Subcommand::Stats(chosen) => write_stats(chosen, alloc, bus, first, reader, out),
        Subcommand::Build => build_apart(profile, first, reader, out),
        Subcommand::Run => run_apart(alloc, profile, first, reader, out),
        Subcommand::Profile => describe_bus(bus, first, reader, out),
    }
}

#[inline(never)]
fn show_apart<R: Source, W: Sink>(
    profile: &Profile,
    first: &[u8],
    reader: &mut R,
    out: &mut W,
) -> Result<Tally, ToolFault>
    ensures { AsTool (Ran R.told W.told (showing profile.now) first.now (reader.old, out.old) (reader.new, out.new)) result }
{
    show(profile, first, reader, out)
}

#[inline(never)]
fn check_apart<R: Source, W: Sink>(
    profile: &Profile,
    first: &[u8],
    reader: &mut R,
    out: &mut W,
) -> Result<Tally, ToolFault>
    ensures { AsTool (Ran R.told W.told (checking profile.now) first.now (reader.old, out.old) (reader.new, out.new)) result }
{
    check_capture(profile, first, reader, out)
}

#[inline(never)]
fn build_apart<R: Source, W: Sink>(
    profile: &Profile,
    first: &[u8],
    reader: &mut R,
    out: &mut W,
) -> Result<Tally, ToolFault>
    ensures { AsTool (Ran R.told W.told (building profile.now) first.now (reader.old, out.old) (reader.new, out.new)) result }
{
    build(profile, first, reader, out)
}

#[inline(never)]
fn run_apart<R: Source, W: Sink>(
    alloc: Global,
    profile: &Profile,
    first: &[u8],
    reader: &mut R,
    out: &mut W,
) -> Result<Tally, ToolFault>
    ensures { OrNoMemory ((reader.new ≡ reader.old) × (out.new ≡ out.old))
        (AsTool (Ran R.told W.told (running profile.now) first.now (reader.old, out.old) (reader.new, out.new))) result }
{
    run(alloc, profile, first, reader, out)
}

/// Reports a fault of a profile, with hints if `profile` was asked for, and returns the exit
/// status.
fn report_fault<E: Sink>(
    work: &Subcommand,
    alloc: Global,
    text: &[u8],
    fault: ProfileFault,
    err: &mut E,
) -> ExitStatus
    ensures { IsReported fault.what result (E.told err.old) (E.told err.new) }
{
    match work {
        Subcommand::Show
        | Subcommand::Check
        | Subcommand::Json(_)
        | Subcommand::Log(_)
        | Subcommand::Stats(_)
        | Subcommand::Build
        | Subcommand::Run => { report_profile(fault, err) }
        Subcommand::Profile => explain_profile(alloc, text, fault, err),
    }
}
