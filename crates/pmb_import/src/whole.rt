//! A recording that is at hand as a whole.
//!
//! What is kept of a recording has up to 213 KB, so it is on the heap. It is made there by functions
//! that are not inlined, of no bus, since a recording that follows one is put together on the stack.
//!
//! Its rows: `tests/rows/recordings.txt`.

ghost use Rattle.std.specs.Prelude.{◌≡◌, IfSome, None, option_copied};
ghost use Rattle.pmb_import.specs.Importing.{importing_of};
ghost use Rattle.pmb_recorder.specs.Recorded.{OfBeagle, OfKernel, OfSaleae, OfSigrok, OfSmbus, recorded_of};
ghost use Rattle.pmb_beagle.specs.Packets as beagle;
ghost use Rattle.pmb_kernel.specs.Transfers as kernel;
ghost use Rattle.pmb_saleae.specs.Packets as saleae;
ghost use Rattle.pmb_sigrok.specs.Packets as sigrok;
ghost use Rattle.pmb_smbus.specs.Transfers as smbus;
ghost use Rattle.pmb_whole_input.specs.Whole.{WritesOrNoMemory};

use crate::follow::{follow, follow_smbus};
use pmb_beagle::Beagle;
use pmb_io::{Sink, Tally, ToolFault};
use pmb_kernel::Kernel;
use pmb_recorder::{AddressForm, Rate, Recorder};
use pmb_recording::MOST_LINE;
use pmb_saleae::Saleae;
use pmb_sigrok::Sigrok;
use pmb_smbus::Smbus;
use pmb_whole_input::whole_lines;
use std::alloc::Global;

/// Writes what [`import`](crate::import) writes of a recording. Nothing large stays on the stack.
///
/// # Errors
///
/// `Memory` where there was none: nothing was written. `Write` where the writer failed.
pub fn import_whole<W: Sink>(
    alloc: Global,
    recorder: Recorder<'_>,
    recording: &[u8],
    writer: &mut W,
) -> Result<Tally, ToolFault>
    ensures { WritesOrNoMemory W.told (importing_of (recorded_of recorder.entry)) recording.now writer.old writer.new result }
{
    match recorder {
        Recorder::Sigrok(bus, rate, form) => {
            import_sigrok(alloc, bus, rate, form, recording, writer)
        }
        Recorder::Saleae(bus) => import_saleae(alloc, bus, recording, writer),
        Recorder::Beagle => import_beagle(alloc, recording, writer),
        Recorder::Kernel(bus) => import_kernel(alloc, bus, recording, writer),
        Recorder::Smbus(bus) => import_smbus(alloc, bus, recording, writer),
    }
}

/// Writes the capture of a recording of sigrok.
fn import_sigrok<W: Sink>(
    alloc: Global,
    bus: Option<&[u8]>,
    rate: Option<Rate>,
    form: AddressForm,
    recording: &[u8],
    writer: &mut W,
) -> Result<Tally, ToolFault>
    ensures { WritesOrNoMemory W.told (importing_of (OfSigrok (option_copied bus.entry) rate form)) recording.now writer.old writer.new result }
{
    let Some(mut source) = boxed_sigrok(alloc, rate, form) else {
        return Err(ToolFault::Memory);
    };
    let machine = &mut *source;
    follow(&mut machine.recording, bus);
    whole_lines::<Sigrok, W, MOST_LINE>(alloc, machine, recording, writer)
}

/// Nothing came of it yet.
#[inline(never)]
fn boxed_sigrok(alloc: Global, rate: Option<Rate>, form: AddressForm) -> Option<Box<Sigrok>>
    ensures { IfSome result (λ source. source.value ≡ sigrok.start None rate form) }
{
    match Box::new(alloc, Sigrok::new(None, rate, form)) {
        Ok(source) => Some(source),
        Err(_) => None,
    }
}

/// Writes the capture of a recording of Logic 2.
fn import_saleae<W: Sink>(
    alloc: Global,
    bus: Option<&[u8]>,
    recording: &[u8],
    writer: &mut W,
) -> Result<Tally, ToolFault>
    ensures { WritesOrNoMemory W.told (importing_of (OfSaleae (option_copied bus.entry))) recording.now writer.old writer.new result }
{
    let Some(mut source) = boxed_saleae(alloc) else {
        return Err(ToolFault::Memory);
    };
    let machine = &mut *source;
    follow(&mut machine.recording, bus);
    whole_lines::<Saleae, W, MOST_LINE>(alloc, machine, recording, writer)
}

/// Nothing came of it yet.
#[inline(never)]
fn boxed_saleae(alloc: Global) -> Option<Box<Saleae>>
    ensures { IfSome result (λ source. source.value ≡ saleae.start None) }
{
    match Box::new(alloc, Saleae::new(None)) {
        Ok(source) => Some(source),
        Err(_) => None,
    }
}

/// Writes the capture of a recording of Data Center.
fn import_beagle<W: Sink>(
    alloc: Global,
    recording: &[u8],
    writer: &mut W,
) -> Result<Tally, ToolFault>
    ensures { WritesOrNoMemory W.told (importing_of OfBeagle) recording.now writer.old writer.new result }
{
    let Some(mut source) = boxed_beagle(alloc) else {
        return Err(ToolFault::Memory);
    };
    let machine = &mut *source;
    whole_lines::<Beagle, W, MOST_LINE>(alloc, machine, recording, writer)
}

/// Nothing came of it yet.
#[inline(never)]
fn boxed_beagle(alloc: Global) -> Option<Box<Beagle>>
    ensures { IfSome result (λ source. source.value ≡ beagle.start) }
{
    match Box::new(alloc, Beagle::new()) {
        Ok(source) => Some(source),
        Err(_) => None,
    }
}

/// Writes the capture of a recording of the kernel's events of `i2c`.
fn import_kernel<W: Sink>(
    alloc: Global,
    bus: Option<&[u8]>,
    recording: &[u8],
    writer: &mut W,
) -> Result<Tally, ToolFault>
    ensures { WritesOrNoMemory W.told (importing_of (OfKernel (option_copied bus.entry))) recording.now writer.old writer.new result }
{
    let Some(mut source) = boxed_kernel(alloc) else {
        return Err(ToolFault::Memory);
    };
    let machine = &mut *source;
    follow(&mut machine.transfers.recording, bus);
    whole_lines::<Kernel, W, MOST_LINE>(alloc, machine, recording, writer)
}

/// Nothing came of it yet.
#[inline(never)]
fn boxed_kernel(alloc: Global) -> Option<Box<Kernel>>
    ensures { IfSome result (λ source. source.value.transfers ≡ kernel.start None) }
{
    match Box::new(alloc, Kernel::new(None)) {
        Ok(source) => Some(source),
        Err(_) => None,
    }
}

/// Writes the capture of a recording of the kernel's events of `smbus`.
fn import_smbus<W: Sink>(
    alloc: Global,
    bus: Option<&[u8]>,
    recording: &[u8],
    writer: &mut W,
) -> Result<Tally, ToolFault>
    ensures { WritesOrNoMemory W.told (importing_of (OfSmbus (option_copied bus.entry))) recording.now writer.old writer.new result }
{
    let Some(mut source) = boxed_smbus(alloc) else {
        return Err(ToolFault::Memory);
    };
    let machine = &mut *source;
    follow_smbus(machine, bus);
    whole_lines::<Smbus, W, MOST_LINE>(alloc, machine, recording, writer)
}

/// Nothing came of it yet.
#[inline(never)]
fn boxed_smbus(alloc: Global) -> Option<Box<Smbus>>
    ensures { IfSome result (λ source. source.value ≡ smbus.start None) }
{
    match Box::new(alloc, Smbus::new(None)) {
        Ok(source) => Some(source),
        Err(_) => None,
    }
}
