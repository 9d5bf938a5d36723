//! A recording in, its capture out.
//!
//! Its rows: `tests/rows/recordings.txt`.

ghost use Rattle.std.specs.Prelude.{option_copied};
ghost use Rattle.pmb_import.specs.Importing.{importing_of};
ghost use Rattle.pmb_io.specs.Runs.{AsTool, Ran};
ghost use Rattle.pmb_recorder.specs.Recorded.{OfBeagle, OfKernel, OfSaleae, OfSigrok, OfSmbus, recorded_of};

use crate::follow::{follow, follow_smbus};
use crate::lent::Lent;
use pmb_beagle::Beagle;
use pmb_io::{Sink, Source, Tally, ToolFault, each_line};
use pmb_kernel::Kernel;
use pmb_recorder::{AddressForm, Rate, Recorder};
use pmb_recording::MOST_LINE;
use pmb_saleae::Saleae;
use pmb_sigrok::Sigrok;
use pmb_smbus::Smbus;

/// Writes the capture of the recording whose text is `first` and what the reader gives: each packet
/// that is whole, after a line with its time, and in the order of the recording a line that begins
/// with `#` for what is missing.
///
/// A packet is written before the next read of the input. The tally counts packets, and as refusals
/// the lines that tell that something is missing: without refusals the recording is there as a whole.
///
/// # Errors
///
/// `Read` where the reader failed: what there is to write for the lines that had ended is written.
/// `Write` where the writer failed. `TooManyReads` where 2^32 reads gave bytes and the reader had not
/// ended.
pub fn import<R: Source, W: Sink>(
    recorder: Recorder<'_>,
    first: &[u8],
    reader: &mut R,
    writer: &mut W,
) -> Result<Tally, ToolFault>
    // It is a run over the reader and the writer, and what it writes is the job of what wrote the recording.
    ensures { AsTool (Ran R.told W.told (importing_of (recorded_of recorder.entry)) first.now (reader.old, writer.old) (reader.new, writer.new)) result }
{
    match recorder {
        Recorder::Sigrok(bus, rate, form) => import_sigrok(bus, rate, form, first, reader, writer),
        Recorder::Saleae(bus) => import_saleae(bus, first, reader, writer),
        Recorder::Beagle => import_beagle(first, reader, writer),
        Recorder::Kernel(bus) => import_kernel(bus, first, reader, writer),
        Recorder::Smbus(bus) => import_smbus(bus, first, reader, writer),
    }
}

/// Writes the capture of a recording of sigrok. Apart from the others, so that the stack holds one
/// machine.
#[inline(never)]
fn import_sigrok<R: Source, W: Sink>(
    bus: Option<&[u8]>,
    rate: Option<Rate>,
    form: AddressForm,
    first: &[u8],
    reader: &mut R,
    writer: &mut W,
) -> Result<Tally, ToolFault>
    ensures { AsTool (Ran R.told W.told (importing_of (OfSigrok (option_copied bus.entry) rate form)) first.now (reader.old, writer.old) (reader.new, writer.new)) result }
{
    let mut machine = Sigrok::new(None, rate, form);
    follow(&mut machine.recording, bus);
    let lent = Lent {
        machine: &mut machine,
    };
    each_line::<Lent<'_, Sigrok>, R, W, MOST_LINE>(lent, first, reader, writer)
}

/// Writes the capture of a recording of Logic 2. Apart from the others, so that the stack holds one
/// machine.
#[inline(never)]
fn import_saleae<R: Source, W: Sink>(
    bus: Option<&[u8]>,
    first: &[u8],
    reader: &mut R,
    writer: &mut W,
) -> Result<Tally, ToolFault>
    ensures { AsTool (Ran R.told W.told (importing_of (OfSaleae (option_copied bus.entry))) first.now (reader.old, writer.old) (reader.new, writer.new)) result }
{
    let mut machine = Saleae::new(None);
    follow(&mut machine.recording, bus);
    let lent = Lent {
        machine: &mut machine,
    };
    each_line::<Lent<'_, Saleae>, R, W, MOST_LINE>(lent, first, reader, writer)
}

/// Writes the capture of a recording of Data Center. Apart from the others, so that the stack holds one
/// machine.
#[inline(never)]
fn import_beagle<R: Source, W: Sink>(
    first: &[u8],
    reader: &mut R,
    writer: &mut W,
) -> Result<Tally, ToolFault>
    ensures { AsTool (Ran R.told W.told (importing_of OfBeagle) first.now (reader.old, writer.old) (reader.new, writer.new)) result }
{
    let mut machine = Beagle::new();
    let lent = Lent {
        machine: &mut machine,
    };
    each_line::<Lent<'_, Beagle>, R, W, MOST_LINE>(lent, first, reader, writer)
}

/// Writes the capture of a recording of the kernel's events of `i2c`. Apart from the others, so that the stack holds one
/// machine.
#[inline(never)]
fn import_kernel<R: Source, W: Sink>(
    bus: Option<&[u8]>,
    first: &[u8],
    reader: &mut R,
    writer: &mut W,
) -> Result<Tally, ToolFault>
    ensures { AsTool (Ran R.told W.told (importing_of (OfKernel (option_copied bus.entry))) first.now (reader.old, writer.old) (reader.new, writer.new)) result }
{
    let mut machine = Kernel::new(None);
    follow(&mut machine.transfers.recording, bus);
    let lent = Lent {
        machine: &mut machine,
    };
    each_line::<Lent<'_, Kernel>, R, W, MOST_LINE>(lent, first, reader, writer)
}

/// Writes the capture of a recording of the kernel's events of `smbus`. Apart from the others, so that the stack holds one
/// machine.
#[inline(never)]
fn import_smbus<R: Source, W: Sink>(
    bus: Option<&[u8]>,
    first: &[u8],
    reader: &mut R,
    writer: &mut W,
) -> Result<Tally, ToolFault>
    ensures { AsTool (Ran R.told W.told (importing_of (OfSmbus (option_copied bus.entry))) first.now (reader.old, writer.old) (reader.new, writer.new)) result }
{
    let mut machine = Smbus::new(None);
    follow_smbus(&mut machine, bus);
    let lent = Lent {
        machine: &mut machine,
    };
    each_line::<Lent<'_, Smbus>, R, W, MOST_LINE>(lent, first, reader, writer)
}
