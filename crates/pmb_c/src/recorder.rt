//! What C says of a recording.
//!
//! Its rows: `tests/rows/recordings.txt`.

ghost use Rattle.std.specs.Prelude.{◌≡◌, option_copied, option_map};
ghost use Rattle.pmb_c.specs.Recorder.{bus_of, form_of, hertz_of, source_of, status_of};

use pmb_firmware::CallStatus;
use pmb_import::{AddressForm, Recorder, RecorderFault, RecordingSource};

/// What wrote a recording, and how it is read.
#[repr(C)]
#[derive(Clone, Copy)]
pub struct PmbRecorder {
    /// Of sigrok: how many samples a second has, and 0 where that is not known.
    pub rate: u64,
    /// What wrote it: 0 sigrok, 1 Logic 2, 2 Data Center, 3 and 4 the kernel's events of `i2c` and of
    /// `smbus`.
    pub source: u8,
    /// Whether the bus is named that is read: 1, or else 0.
    pub names_bus: u8,
    /// Of sigrok: whether addresses are whole bytes: 1, or else 0.
    pub unshifted: u8,
}

impl PmbRecorder {
    ghost use Rattle.std.specs.Prelude.{MatchResult};
    ghost use Rattle.pmb_c.specs.Recorder.{Names, Refused};
    ghost use Rattle.pmb_recorder.specs.Recorded.{recorded_of};

    /// What it names, with a bus.
    ///
    /// # Errors
    ///
    /// The first of these: `BadSource` where no recorder has the number, `BadChoice` where
    /// `unshifted` or `names_bus` is neither 0 nor 1, and then as [`Recorder::new`] has them
    /// `BadRate`, `SigrokOnly` and `NoBus`.
    pub(crate) fn recorder<'a>(&self, bus: &'a [u8]) -> Result<Recorder<'a>, CallStatus>
        ensures { MatchResult result (λ recorder. Names self.now bus.now (recorded_of recorder)) (λ why. Refused self.now bus.now why) }
    {
        let Some(source) = source(self.source) else {
            return Err(CallStatus::BadSource);
        };
        let Some(form) = form(self.unshifted) else {
            return Err(CallStatus::BadChoice);
        };
        let Some(bus) = named_bus(self.names_bus, bus) else {
            return Err(CallStatus::BadChoice);
        };
        match Recorder::new(source, bus, hertz(self.rate), form) {
            Ok(recorder) => Ok(recorder),
            Err(fault) => Err(status_of(fault)),
        }
    }
}

/// The status of a fault of what the numbers say together.
fn status_of(fault: RecorderFault) -> CallStatus
    ensures { result ≡ status_of fault }
{
    match fault {
        RecorderFault::BadRate => CallStatus::BadRate,
        RecorderFault::SigrokOnly => CallStatus::SigrokOnly,
        RecorderFault::NoBus => CallStatus::NoBus,
    }
}

/// The source of a number.
fn source(number: u8) -> Option<RecordingSource>
    ensures { result ≡ source_of number }
{
    match number {
        0 => Some(RecordingSource::Sigrok),
        1 => Some(RecordingSource::Saleae),
        2 => Some(RecordingSource::Beagle),
        3 => Some(RecordingSource::Kernel),
        4 => Some(RecordingSource::Smbus),
        _ => None,
    }
}

/// How addresses are written.
fn form(number: u8) -> Option<AddressForm>
    ensures { result ≡ form_of number }
{
    match number {
        0 => Some(AddressForm::Shifted),
        1 => Some(AddressForm::Unshifted),
        _ => None,
    }
}

/// The bus that is read, if it is named; `None` where the number says neither.
fn named_bus(number: u8, name: &[u8]) -> Option<Option<&[u8]>>
    ensures { option_map option_copied result ≡ bus_of number name.now }
{
    match number {
        0 => Some(None),
        1 => Some(Some(name)),
        _ => None,
    }
}

/// How many samples a second has, where that is known.
fn hertz(rate: u64) -> Option<u64>
    ensures { result ≡ hertz_of rate }
{
    if rate == 0 { None } else { Some(rate) }
}
