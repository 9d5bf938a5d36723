//! How the levels of a column are written, and which they are.

ghost use Rattle.std.specs.Prelude.{◌≡◌, option_copied};
ghost use Rattle.pmb_samples.specs.Levels.{form_for, level_of, level_or_unknown, volts_or_usual};

use pmb_sample_fields::{Volts, digital_level, volts_level};
use pmb_wires::Level;

/// How the levels of a column are written.
#[derive(Clone, Copy, Debug, PartialEq, Eq)]
pub enum Form {
    /// As `0` and `1`.
    Digits,
    /// As volts.
    Volts,
}

/// How those of both wires are.
#[derive(Clone, Copy, Debug)]
pub struct Forms {
    /// Those of SCL.
    pub scl: Form,
    /// Those of SDA.
    pub sda: Form,
}

/// How the levels of a column are written: as in the first row, where they are not given as volts.
pub(crate) fn form_by(known: Option<Form>, volts: Option<Volts>, text: Option<&[u8]>) -> Form
    ensures { result ≡ form_for known volts (option_copied text.entry) }
{
    match (known, volts, text) {
        (Some(form), _, _) => form,
        (None, Some(_), _) => Form::Volts,
        (None, None, Some(b"0" | b"1")) => Form::Digits,
        (None, None, _) => Form::Volts,
    }
}

/// The level that a column has, by that before.
pub(crate) fn level_by(
    form: Form,
    volts: Option<Volts>,
    before: Option<Level>,
    text: Option<&[u8]>,
) -> Option<Level>
    ensures { result ≡ level_of form volts before (option_copied text.entry) }
{
    let Some(text) = text else {
        return None;
    };
    match form {
        Form::Digits => digital_level(text),
        Form::Volts => volts_level(&thresholds(volts), or_unknown(before), text),
    }
}

/// The volts that are given, or the usual ones.
fn thresholds(volts: Option<Volts>) -> Volts
    ensures { result ≡ volts_or_usual volts }
{
    match volts {
        Some(volts) => volts,
        None => Volts::usual(),
    }
}

/// A level, or x.
fn or_unknown(before: Option<Level>) -> Level
    ensures { result ≡ level_or_unknown before }
{
    match before {
        Some(level) => level,
        None => Level::Unknown,
    }
}
