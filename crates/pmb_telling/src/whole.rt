//! A capture that is at hand as a whole, told with its engine on the heap.
//!
//! Its scan and its stream go there one after the other, each made by a function that is not inlined:
//! what they are made of is off the stack before the next.
//!
//! Its rows: `tests_tasks`, `src/whole.rt`; `tests/rows/json_objects.txt`.

ghost use Rattle.std.specs.Prelude.{◌≡◌, [], IfSome};
ghost use Rattle.pmb_fact_stream.specs.Before.{at_first};
ghost use Rattle.pmb_fact_stream.specs.Choice.{choice_data};
ghost use Rattle.pmb_fact_stream.specs.Stream.{StreamBegins, stream_choice, stream_profile};
ghost use Rattle.pmb_scan.specs.Reached.{at_start};
ghost use Rattle.pmb_scan.specs.Scan.{ScanStandsAt};
ghost use Rattle.pmb_telling.specs.Tell.{telling_job};
ghost use Rattle.pmb_telling.specs.machine.Standing.{HasPutOut, teller_bad_words, teller_choice, teller_profile};
ghost use Rattle.pmb_whole_input.specs.Whole.{WritesOrNoMemory};

use crate::engine::Teller;
use pmb_fact_stream::{Choice, Stream};
use pmb_io::{Sink, Tally, ToolFault};
use pmb_keeper::{Keeper, Nothing};
use pmb_scan::{AfterBadToken, Scan};
use pmb_table::Profile;
use pmb_whole_input::whole_input;
use std::alloc::Global;

/// Writes what [`tell`](crate::tell) writes of a capture, under a profile. Nothing large stays on the
/// stack.
///
/// # Errors
///
/// `Memory` where there was none: nothing was written. `Write` where the writer failed.
pub fn tell_whole<'p, W: Sink>(
    alloc: Global,
    profile: &'p Profile,
    choice: Choice<'p>,
    bad_words: AfterBadToken,
    capture: &[u8],
    writer: &mut W,
) -> Result<Tally, ToolFault>
    ensures { WritesOrNoMemory W.told (telling_job (choice_data choice.entry) profile.now bad_words) capture.now writer.old writer.new result }
{
    let Choice {
        digits,
        start,
        devices,
        ignored,
        telling,
    } = choice;
    let chosen = Choice {
        digits,
        start,
        devices,
        ignored,
        telling,
    };
    let Some(mut kept) = boxed_teller(alloc, profile, chosen, bad_words, Nothing) else {
        return Err(ToolFault::Memory);
    };
    let teller = &mut *kept;
    match whole_input(alloc, teller, capture, writer) {
        Ok(()) => Ok(teller.tally()),
        Err(fault) => Err(fault),
    }
}

/// A teller to which nothing was given yet.
pub(crate) fn boxed_teller<'p, K: Keeper + Drop>(
    alloc: Global,
    profile: &'p Profile,
    choice: Choice<'p>,
    bad_words: AfterBadToken,
    keeper: K,
) -> Option<Box<Teller<'p, K>>>
    ensures profile { IfSome result (λ teller. teller_profile teller.value ≡ profile.now) }
    ensures choice { IfSome result (λ teller. teller_choice teller.value ≡ choice_data choice.entry) }
    ensures bad_words { IfSome result (λ teller. teller_bad_words teller.value ≡ bad_words) }
    ensures begins { IfSome result (λ teller. HasPutOut K.Keeps teller.value teller.value [] []) }
{
    let Choice {
        digits,
        start,
        devices,
        ignored,
        telling,
    } = choice;
    let chosen = Choice {
        digits,
        start,
        devices,
        ignored,
        telling,
    };
    let Some(scan) = boxed_scan(alloc, profile) else {
        return None;
    };
    let Some(stream) = boxed_stream(alloc, profile, chosen) else {
        return None;
    };
    joined(alloc, profile, bad_words, scan, stream, keeper)
}

/// A scan at the start of a text.
#[inline(never)]
fn boxed_scan<'p>(alloc: Global, profile: &'p Profile) -> Option<Box<Scan<'p>>>
    ensures { IfSome result (λ scan. ScanStandsAt scan.value (at_start profile.now)) }
{
    match Box::new(alloc, Scan::new(profile)) {
        Ok(scan) => Some(scan),
        Err(_) => None,
    }
}

/// A stream that was told nothing yet.
#[inline(never)]
fn boxed_stream<'p>(
    alloc: Global,
    profile: &'p Profile,
    choice: Choice<'p>,
) -> Option<Box<Stream<'p>>>
    ensures profile { IfSome result (λ stream. stream_profile stream.value ≡ profile.now) }
    ensures choice { IfSome result (λ stream. stream_choice stream.value ≡ choice_data choice.entry) }
    ensures begins { IfSome result (λ stream. StreamBegins at_first stream.value) }
{
    let Choice {
        digits,
        start,
        devices,
        ignored,
        telling,
    } = choice;
    let chosen = Choice {
        digits,
        start,
        devices,
        ignored,
        telling,
    };
    match Box::new(alloc, Stream::new(profile, chosen)) {
        Ok(stream) => Some(stream),
        Err(_) => None,
    }
}

/// A teller of a scan and a stream to which nothing was given yet.
#[inline(never)]
fn joined<'p, K: Keeper + Drop>(
    alloc: Global,
    profile: &'p Profile,
    bad_words: AfterBadToken,
    scan: Box<Scan<'p>>,
    stream: Box<Stream<'p>>,
    keeper: K,
) -> Option<Box<Teller<'p, K>>>
    requires scan { ScanStandsAt scan.value (at_start profile.now) }
    requires stream { StreamBegins at_first stream.value }
    requires same { stream_profile stream.value ≡ profile.now }
    ensures profile { IfSome result (λ teller. teller_profile teller.value ≡ profile.now) }
    ensures choice { IfSome result (λ teller. teller_choice teller.value ≡ stream_choice stream.entry.value) }
    ensures bad_words { IfSome result (λ teller. teller_bad_words teller.value ≡ bad_words) }
    ensures begins { IfSome result (λ teller. HasPutOut K.Keeps teller.value teller.value [] []) }
{
    let scan = Box::into_inner(scan);
    let stream = Box::into_inner(stream);
    match Box::new(alloc, Teller::of(profile, bad_words, scan, stream, keeper)) {
        Ok(teller) => Some(teller),
        Err(_) => None,
    }
}
