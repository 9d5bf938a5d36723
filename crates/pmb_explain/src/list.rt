//! The list of all faults that have a name.
//!
//! Its rows: `tests/rows/explanations.txt`.

ghost use Rattle.std.specs.Prelude.{◌≡◌};
ghost use Rattle.std.specs.Str.{str_eq_ignore_ascii_case};
ghost use Rattle.pmb_explain.specs.Names.{all_faults, is_explained, is_of_name};

use crate::fault::{ArgumentFault, Fault};
use pmb_convert::{ConvertFault, FormatFault};
use pmb_host::HostFault;
use pmb_keys::FaultKind;
use pmb_line::LineFault;
use pmb_quantity::QuantityFault;
use pmb_transaction::Reason;
use pmb_value::{ModeFault, RangeFault};
use pmb_writer::Invalid;

/// A byte that was refused, wherever it was.
const REFUSED: HostFault = HostFault::Refused {
    leg: 1,
    byte: 0,
    at_read: false,
};

/// The faults, in the order in which they are listed.
#[rattlefmt::skip]
const ALL: &[Fault] = &[
    // The protocol errors of a capture.
    Fault::Reason(Reason::ReadFirst),
    Fault::Reason(Reason::BadRestart),
    Fault::Reason(Reason::BadPec),
    Fault::Reason(Reason::UnknownDevice),
    Fault::Reason(Reason::UnknownCommand),
    Fault::Reason(Reason::TooLong),
    Fault::Reason(Reason::TooShort),
    Fault::Reason(Reason::WrongEvent),
    Fault::Reason(Reason::Truncated),
    Fault::BadToken,
    // The mistakes of a profile.
    Fault::Profile(FaultKind::NotToml),
    Fault::Profile(FaultKind::UnknownKey),
    Fault::Profile(FaultKind::MissingKey),
    Fault::Profile(FaultKind::WrongType),
    Fault::Profile(FaultKind::TooManyDevices),
    Fault::Profile(FaultKind::BadAddress),
    Fault::Profile(FaultKind::AddressTwice),
    Fault::Profile(FaultKind::BadValue),
    Fault::Profile(FaultKind::BadPages),
    Fault::Profile(FaultKind::UnknownName),
    Fault::Profile(FaultKind::BadName),
    Fault::Profile(FaultKind::BadForm),
    Fault::Profile(FaultKind::BadCoefficients),
    Fault::Profile(FaultKind::CodeTwice),
    Fault::Profile(FaultKind::BadInitial),
    Fault::Profile(FaultKind::OutOfMemory),
    // The faults of lines of `build` and `run`.
    Fault::Line(LineFault::Blank),
    Fault::Line(LineFault::BadWord(0)),
    Fault::Line(LineFault::TooLong(0)),
    Fault::Line(LineFault::Invalid(Invalid::NoParts)),
    Fault::Line(LineFault::Invalid(Invalid::UnknownDevice)),
    Fault::Line(LineFault::Invalid(Invalid::AddressTwice)),
    Fault::Line(LineFault::Invalid(Invalid::UnknownCommand)),
    Fault::Line(LineFault::Invalid(Invalid::NotAllowed)),
    Fault::Line(LineFault::Invalid(Invalid::WrongLength)),
    Fault::Line(LineFault::Invalid(Invalid::PecMode)),
    // The faults of requests of `run`, and the results of those that failed.
    Fault::Quantity(QuantityFault::Empty),
    Fault::Quantity(QuantityFault::BadDigit),
    Fault::Quantity(QuantityFault::ZeroDenominator),
    Fault::Quantity(QuantityFault::TooLarge),
    Fault::Host(HostFault::NotAQuantity),
    Fault::Host(HostFault::ModeUnknown),
    Fault::Host(HostFault::Mode(ModeFault::Relative)),
    Fault::Host(HostFault::Mode(ModeFault::Vid)),
    Fault::Host(HostFault::Mode(ModeFault::Ieee)),
    Fault::Host(HostFault::Mode(ModeFault::NoCoefficients)),
    Fault::Host(HostFault::Range(RangeFault::Below)),
    Fault::Host(HostFault::Range(RangeFault::Above)),
    Fault::Host(REFUSED),
    Fault::Host(HostFault::NoByte),
    Fault::Host(HostFault::BadPec),
    // The faults of lines of `encode` and `decode`.
    Fault::Number(ConvertFault::TooLong),
    Fault::Number(ConvertFault::Empty),
    Fault::Number(ConvertFault::BadDigit),
    Fault::Number(ConvertFault::ZeroDenominator),
    Fault::Number(ConvertFault::TooLarge),
    Fault::Number(ConvertFault::Below),
    Fault::Number(ConvertFault::Above),
    Fault::Number(ConvertFault::BadCode),
    Fault::Number(ConvertFault::NotANumber),
    Fault::Number(ConvertFault::NoCode),
    Fault::Number(ConvertFault::Off),
    // The faults of FORMAT.
    Fault::Format(FormatFault::BadFormat),
    Fault::Format(FormatFault::BadExponent),
    Fault::Format(FormatFault::ZeroSlope),
    Fault::Format(FormatFault::BadScale),
    Fault::Format(FormatFault::Relative),
    Fault::Format(FormatFault::Vid),
    Fault::Format(FormatFault::Ieee),
    Fault::Format(FormatFault::NoCoefficients),
    // The faults of flags and words.
    Fault::Argument(ArgumentFault::NeedsLate),
    Fault::Argument(ArgumentFault::BadDigits),
    Fault::Argument(ArgumentFault::BadAddress),
    Fault::Argument(ArgumentFault::BadFailOn),
    Fault::Argument(ArgumentFault::BadColor),
    Fault::Argument(ArgumentFault::BadSource),
    Fault::Argument(ArgumentFault::BadRate),
    Fault::Argument(ArgumentFault::SigrokOnly),
    Fault::Argument(ArgumentFault::NoBus),
    Fault::Argument(ArgumentFault::TwoProfiles),
    Fault::Argument(ArgumentFault::TwoInputs),
];

/// All faults that are explained. Of those that differ in their place alone there is one.
pub fn all_faults() -> &'static [Fault]
    ensures { result.now ≡ all_faults }
{
    ALL
}

/// Whether a fault has this name, whose letters may have either case.
pub fn is_of_name(fault: Fault, name: &str) -> bool
    ensures { result ≡ is_of_name name.now fault }
{
    is_same_word(fault.name(), name)
}

/// Whether two words are the same but for the case of their letters.
fn is_same_word(one: &str, other: &str) -> bool
    ensures { result ≡ str_eq_ignore_ascii_case one.now other.now }
{
    one.eq_ignore_ascii_case(other)
}

/// Whether a name is explained.
pub fn is_explained(name: &str) -> bool
    ensures { result ≡ is_explained name.now }
{
    all_faults().iter().any(|fault| is_of_name(*fault, name))
}
