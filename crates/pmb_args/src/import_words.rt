//! The words of `import`, and what they say of a recording.
//!
//! Its rows: `tests/rows/arguments.txt`.

ghost use Rattle.std.specs.Prelude.{◌≡◌, MatchResult, Some, option_copied};
ghost use Rattle.clap.specs.Words.{found_of, rows_of};
ghost use Rattle.pmb_recorder.specs.Recorded.{recorded_of};
ghost use Rattle.pmb_args.specs.Import.{ImportAsks, bus_in, form_in, hertz_in, import_fault_in, source_of};

use crate::flags::has_flag;
use crate::import_fault::ImportFault;
use clap::ArgMatches;
use pmb_recorder::{AddressForm, Recorder, Source};
use pmb_words::decimal;

/// What wrote the recording, by the matches of `import`.
///
/// # Errors
///
/// The first of these: `BadSource` for SOURCE that is none of the five, `BadRate` for HZ that is no
/// rate, `SigrokOnly` for `--rate` or `--unshifted` with another source than sigrok, `NoBus` for
/// `--bus` with a Beagle.
pub(crate) fn read_import<'a>(arguments: &ArgMatches<'a>) -> Result<Recorder<'a>, ImportFault>
    ensures { MatchResult result (λ recorder. ImportAsks (rows_of (found_of arguments.now)) (recorded_of recorder)) (λ fault. import_fault_in (rows_of (found_of arguments.now)) ≡ Some fault) }
{
    let Some(source) = source(arguments.get_str("SOURCE").unwrap_or("")) else {
        return Err(ImportFault::BadSource);
    };
    let bus = bus(arguments);
    let hertz = hertz(arguments);
    match Recorder::new(source, bus, hertz, address_form(arguments)) {
        Ok(recorder) => Ok(recorder),
        Err(fault) => Err(ImportFault::Recorder(fault)),
    }
}

// The source that SOURCE names.
fn source(word: &str) -> Option<Source>
    ensures { result ≡ source_of word.now }
{
    if word == "sigrok" {
        Some(Source::Sigrok)
    } else if word == "saleae" {
        Some(Source::Saleae)
    } else if word == "beagle" {
        Some(Source::Beagle)
    } else if word == "kernel" {
        Some(Source::Kernel)
    } else if word == "smbus" {
        Some(Source::Smbus)
    } else {
        None
    }
}

// NAME of `--bus`.
fn bus<'a>(arguments: &ArgMatches<'a>) -> Option<&'a [u8]>
    ensures { option_copied result ≡ bus_in (rows_of (found_of arguments.now)) }
{
    match arguments.get_str("bus") {
        Some(name) => Some(name.as_bytes()),
        None => None,
    }
}

// HZ of `--rate`: 0, which is no rate, where it is no number.
fn hertz(arguments: &ArgMatches<'_>) -> Option<u64>
    ensures { result ≡ hertz_in (rows_of (found_of arguments.now)) }
{
    match arguments.get_str("rate") {
        Some(word) => Some(decimal(word.as_bytes()).unwrap_or(0)),
        None => None,
    }
}

// How addresses are written, by `--unshifted`.
fn address_form(arguments: &ArgMatches<'_>) -> AddressForm
    ensures { result ≡ form_in (rows_of (found_of arguments.now)) }
{
    if has_flag(arguments, "unshifted") {
        AddressForm::Unshifted
    } else {
        AddressForm::Shifted
    }
}
