//! The number format of a command.
//!
//! Its rows: `tests_host`, `src/host/faults.rt`, `src/host/ends.rt`.

ghost use Rattle.std.specs.Prelude.{◌≡◌, ℕ, MatchResult};
ghost use Rattle.pmb_format.specs.Coding.{IsInRange, IsNearest};
ghost use Rattle.pmb_value.specs.NumberFormat.{number_coding};
ghost use Rattle.pmb_host.specs.Number.{number_of, vout_number};
ghost use Rattle.pmb_host.specs.Rules.{IsOutside};

use crate::step::HostFault;
use pmb_command::Kind;
use pmb_value::{Direct, Format, NumberFormat, Quantity, RangeFault, Sign, Steps, vout_format};

/// Only one code of a format is nearest to a quantity. It does nothing.
fn one_word(format: NumberFormat, value: &Quantity)
    ensures { (a b : ℕ) → IsNearest (number_coding format) value.now a → IsNearest (number_coding format) value.now b → a ≡ b }
{
    format.obeys_laws();
    let _ = value.den();
}

/// The word that is written for a quantity: that of the code nearest to it.
pub(crate) fn word_of(format: NumberFormat, value: &Quantity) -> Result<u16, HostFault>
    ensures word { MatchResult result (λ word. IsInRange (number_coding format) value.now × IsNearest (number_coding format) value.now word) (IsOutside format value.now) }
    ensures only { (a b : ℕ) → IsNearest (number_coding format) value.now a → IsNearest (number_coding format) value.now b → a ≡ b }
{
    one_word(format, value);
    match format.encode(value, &mut Steps::new()) {
        Ok(word) => Ok(word),
        Err(RangeFault::Below) => Err(HostFault::Range(RangeFault::Below)),
        Err(RangeFault::Above) => Err(HostFault::Range(RangeFault::Above)),
    }
}

/// The format that VOUT_MODE names, where that is known.
fn vout_number(
    sign: Sign,
    coefficients: Option<Direct>,
    mode: Option<u8>,
) -> Result<NumberFormat, HostFault>
    ensures { result ≡ vout_number sign coefficients mode }
{
    let Some(mode) = mode else {
        return Err(HostFault::ModeUnknown);
    };
    match vout_format(mode, sign == Sign::Signed, coefficients) {
        Ok(format) => Ok(NumberFormat::Word(format)),
        Err(fault) => Err(HostFault::Mode(fault)),
    }
}

/// The format of a kind of command, by the coefficients and the VOUT_MODE of its device.
pub(crate) fn number_of(
    coefficients: Option<Direct>,
    mode: Option<u8>,
    kind: Kind,
) -> Result<NumberFormat, HostFault>
    ensures { result ≡ number_of coefficients mode kind }
{
    match kind {
        Kind::Raw | Kind::Status | Kind::Text => Err(HostFault::NotAQuantity),
        Kind::Number(format) => Ok(format),
        Kind::Vout => vout_number(Sign::Unsigned, coefficients, mode),
        Kind::VoutSigned => vout_number(Sign::Signed, coefficients, mode),
    }
}
