//! What wrote a recording, with all that its reader is told.

ghost use Rattle.std.specs.Prelude.{◌≡◌, MatchResult, Some, option_copied};
ghost use Rattle.pmb_recorder.specs.Recorded.{Makes, fault_of, recorded_of};

use crate::fault::RecorderFault;
use crate::source::Source;
use pmb_sigrok_line::{AddressForm, Rate};

/// What wrote a recording, with all that its reader is told. A bus is named as the recording names it;
/// without it, that of the first line that names one is read.
#[derive(Clone, Copy, Drop, Debug)]
pub enum Recorder<'a> {
    /// sigrok's I2C decoder: the bus, how many samples a second has, without which packets get no
    /// times, and how addresses are written.
    Sigrok(Option<&'a [u8]>, Option<Rate>, AddressForm),
    /// Logic 2: the analyzer's name.
    Saleae(Option<&'a [u8]>),
    /// Data Center.
    Beagle,
    /// The kernel's events of `i2c`: the bus.
    Kernel(Option<&'a [u8]>),
    /// The kernel's events of `smbus`: the bus.
    Smbus(Option<&'a [u8]>),
}

impl<'a> Recorder<'a> {
    /// What wrote a recording, by its parts. `hertz` is how many samples a second has.
    ///
    /// # Errors
    ///
    /// The first of these: `BadRate` for a rate out of range, `SigrokOnly` for a rate or
    /// [`AddressForm::Unshifted`] where the source isn't sigrok, `NoBus` for a bus of a Beagle.
    pub fn new(
        source: Source,
        bus: Option<&'a [u8]>,
        hertz: Option<u64>,
        form: AddressForm,
    ) -> Result<Recorder<'a>, RecorderFault>
        ensures { MatchResult result (λ recorder. Makes source (option_copied bus.entry) hertz form (recorded_of recorder)) (λ fault. fault_of source (option_copied bus.entry) hertz form ≡ Some fault) }
    {
        let rate = match hertz {
            Some(hertz) => match Rate::new(hertz) {
                Some(rate) => Some(rate),
                None => return Err(RecorderFault::BadRate),
            },
            None => None,
        };
        if source == Source::Sigrok {
            return Ok(Recorder::Sigrok(bus, rate, form));
        }
        if rate.is_some() || form == AddressForm::Unshifted {
            return Err(RecorderFault::SigrokOnly);
        }
        match source {
            Source::Sigrok => Ok(Recorder::Sigrok(bus, rate, form)),
            Source::Saleae => Ok(Recorder::Saleae(bus)),
            Source::Beagle if bus.is_some() => Err(RecorderFault::NoBus),
            Source::Beagle => Ok(Recorder::Beagle),
            Source::Kernel => Ok(Recorder::Kernel(bus)),
            Source::Smbus => Ok(Recorder::Smbus(bus)),
        }
    }
}
