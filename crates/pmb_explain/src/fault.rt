//! Every fault that has a name, by where it is printed, and its name.
//!
//! A fault that an enum of a lower crate gets has no arm here, so this crate is refused until it has one:
//! no fault can be forgotten.
//!
//! Its rows: `tests/rows/explanations.txt`.

ghost use Rattle.std.specs.Prelude.{◌≡◌};
ghost use Rattle.pmb_explain.specs.Names.{argument_name, fault_name, format_name, host_name, line_name};
ghost use Rattle.pmb_transaction.specs.Names.{reason_name};
ghost use Rattle.pmb_hints.specs.Fault.{fault_name as profile_name};
ghost use Rattle.pmb_convert.specs.Answer.{fault_name as number_name};
ghost use Rattle.pmb_request.specs.RequestFault.{quantity_fault_name};
ghost use Rattle.pmb_line.specs.LineFault.{invalid_name};
ghost use Rattle.pmb_run.specs.Answer.{mode_fault_name, range_fault_name};

use pmb_convert::{ConvertFault, FormatFault};
use pmb_host::HostFault;
use pmb_keys::FaultKind;
use pmb_line::LineFault;
use pmb_quantity::QuantityFault;
use pmb_transaction::Reason;
use pmb_value::{ModeFault, RangeFault};
use pmb_writer::Invalid;

/// Why the flags and words of a subcommand ask for nothing.
#[derive(Clone, Copy)]
pub enum ArgumentFault {
    /// `--fixed-vout-mode` without `--late`.
    NeedsLate,
    /// N of `--digits` is no number from 0 to 12.
    BadDigits,
    /// HH of `--device` is no address of seven bits.
    BadAddress,
    /// WHAT of `--fail-on` has a word that it doesn't know.
    BadFailOn,
    /// WORD of `--color` is none of the three.
    BadColor,
    /// SOURCE of `import` is none of the five.
    BadSource,
    /// HZ of `--rate` is no number of samples a second.
    BadRate,
    /// `--rate` or `--unshifted` with another source than sigrok.
    SigrokOnly,
    /// `--bus` with a Beagle.
    NoBus,
    /// Two of `-p` and `--sample`.
    TwoProfiles,
    /// `-` twice or as PROFILE, or several FILEs where one is read.
    TwoInputs,
}

/// A fault that has a name, by where it is printed.
#[derive(Clone, Copy)]
pub enum Fault {
    /// A protocol error of a capture: `# refusal at 12: BadPec, expected Byte`.
    Reason(Reason),
    /// A word of a capture that is no token: `# bad token at byte 5`.
    BadToken,
    /// A mistake in a profile: `pmb: profile: BadAddress in device 0`.
    Profile(FaultKind),
    /// A line of `build`, `run`: `# line 1: BadWord at 9`.
    Line(LineFault),
    /// A request of `run`, as a fault of its line or as its result: `# line 1: NotAQuantity`, `# NoByte`.
    Host(HostFault),
    /// The quantity of a request `set`: `# line 1: BadDigit`.
    Quantity(QuantityFault),
    /// A line of `encode`, `decode`: `! BadCode`.
    Number(ConvertFault),
    /// FORMAT: `pmb: format: BadFormat`.
    Format(FormatFault),
    /// Flags and words: `pmb: log: BadDigits`.
    Argument(ArgumentFault),
}

impl Fault {
    /// The name, as it is printed, without a place.
    pub fn name(self) -> &'static str
        ensures { result.now ≡ fault_name self }
    {
        match self {
            Fault::Reason(reason) => name_of_reason(reason),
            Fault::BadToken => "BadToken",
            Fault::Profile(what) => name_of_profile(what),
            Fault::Line(fault) => name_of_line(fault),
            Fault::Host(fault) => name_of_host(fault),
            Fault::Quantity(fault) => name_of_quantity(fault),
            Fault::Number(fault) => name_of_number(fault),
            Fault::Format(fault) => name_of_format(fault),
            Fault::Argument(fault) => name_of_argument(fault),
        }
    }
}

fn name_of_reason(reason: Reason) -> &'static str
    ensures { result.now ≡ reason_name reason }
{
    match reason {
        Reason::ReadFirst => "ReadFirst",
        Reason::BadRestart => "BadRestart",
        Reason::BadPec => "BadPec",
        Reason::UnknownDevice => "UnknownDevice",
        Reason::UnknownCommand => "UnknownCommand",
        Reason::TooLong => "TooLong",
        Reason::TooShort => "TooShort",
        Reason::WrongEvent => "WrongEvent",
        Reason::Truncated => "Truncated",
    }
}

fn name_of_profile(what: FaultKind) -> &'static str
    ensures { result.now ≡ profile_name what }
{
    match what {
        FaultKind::NotToml => "NotToml",
        FaultKind::UnknownKey => "UnknownKey",
        FaultKind::MissingKey => "MissingKey",
        FaultKind::WrongType => "WrongType",
        FaultKind::TooManyDevices => "TooManyDevices",
        FaultKind::BadAddress => "BadAddress",
        FaultKind::AddressTwice => "AddressTwice",
        FaultKind::BadValue => "BadValue",
        FaultKind::BadPages => "BadPages",
        FaultKind::UnknownName => "UnknownName",
        FaultKind::BadName => "BadName",
        FaultKind::BadForm => "BadForm",
        FaultKind::BadCoefficients => "BadCoefficients",
        FaultKind::CodeTwice => "CodeTwice",
        FaultKind::BadInitial => "BadInitial",
        FaultKind::OutOfMemory => "OutOfMemory",
    }
}

fn name_of_line(fault: LineFault) -> &'static str
    ensures { result.now ≡ line_name fault }
{
    match fault {
        LineFault::Blank => "Blank",
        LineFault::BadWord(_) => "BadWord",
        LineFault::TooLong(_) => "TooLong",
        LineFault::Invalid(invalid) => name_of_invalid(invalid),
    }
}

fn name_of_invalid(invalid: Invalid) -> &'static str
    ensures { result.now ≡ invalid_name invalid }
{
    match invalid {
        Invalid::NoParts => "NoParts",
        Invalid::UnknownDevice => "UnknownDevice",
        Invalid::AddressTwice => "AddressTwice",
        Invalid::UnknownCommand => "UnknownCommand",
        Invalid::NotAllowed => "NotAllowed",
        Invalid::WrongLength => "WrongLength",
        Invalid::PecMode => "PecMode",
    }
}

fn name_of_host(fault: HostFault) -> &'static str
    ensures { result.now ≡ host_name fault }
{
    match fault {
        HostFault::Invalid(invalid) => name_of_invalid(invalid),
        HostFault::NotAQuantity => "NotAQuantity",
        HostFault::ModeUnknown => "ModeUnknown",
        HostFault::Mode(fault) => name_of_mode(fault),
        HostFault::Range(fault) => name_of_range(fault),
        HostFault::Refused { .. } => "refused",
        HostFault::NoByte => "NoByte",
        HostFault::BadPec => "BadPec",
    }
}

fn name_of_mode(fault: ModeFault) -> &'static str
    ensures { result.now ≡ mode_fault_name fault }
{
    match fault {
        ModeFault::Relative => "Relative",
        ModeFault::Vid => "Vid",
        ModeFault::Ieee => "Ieee",
        ModeFault::NoCoefficients => "NoCoefficients",
    }
}

fn name_of_range(fault: RangeFault) -> &'static str
    ensures { result.now ≡ range_fault_name fault }
{
    match fault {
        RangeFault::Below => "Below",
        RangeFault::Above => "Above",
    }
}

fn name_of_quantity(fault: QuantityFault) -> &'static str
    ensures { result.now ≡ quantity_fault_name fault }
{
    match fault {
        QuantityFault::Empty => "Empty",
        QuantityFault::BadDigit => "BadDigit",
        QuantityFault::ZeroDenominator => "ZeroDenominator",
        QuantityFault::TooLarge => "TooLarge",
    }
}

fn name_of_number(fault: ConvertFault) -> &'static str
    ensures { result.now ≡ number_name fault }
{
    match fault {
        ConvertFault::TooLong => "TooLong",
        ConvertFault::Empty => "Empty",
        ConvertFault::BadDigit => "BadDigit",
        ConvertFault::ZeroDenominator => "ZeroDenominator",
        ConvertFault::TooLarge => "TooLarge",
        ConvertFault::Below => "Below",
        ConvertFault::Above => "Above",
        ConvertFault::BadCode => "BadCode",
        ConvertFault::NotANumber => "NotANumber",
        ConvertFault::NoCode => "NoCode",
        ConvertFault::Off => "Off",
    }
}

fn name_of_format(fault: FormatFault) -> &'static str
    ensures { result.now ≡ format_name fault }
{
    match fault {
        FormatFault::BadFormat => "BadFormat",
        FormatFault::BadExponent => "BadExponent",
        FormatFault::ZeroSlope => "ZeroSlope",
        FormatFault::BadScale => "BadScale",
        FormatFault::Relative => "Relative",
        FormatFault::Vid => "Vid",
        FormatFault::Ieee => "Ieee",
        FormatFault::NoCoefficients => "NoCoefficients",
    }
}

fn name_of_argument(fault: ArgumentFault) -> &'static str
    ensures { result.now ≡ argument_name fault }
{
    match fault {
        ArgumentFault::NeedsLate => "NeedsLate",
        ArgumentFault::BadDigits => "BadDigits",
        ArgumentFault::BadAddress => "BadAddress",
        ArgumentFault::BadFailOn => "BadFailOn",
        ArgumentFault::BadColor => "BadColor",
        ArgumentFault::BadSource => "BadSource",
        ArgumentFault::BadRate => "BadRate",
        ArgumentFault::SigrokOnly => "SigrokOnly",
        ArgumentFault::NoBus => "NoBus",
        ArgumentFault::TwoProfiles => "TwoProfiles",
        ArgumentFault::TwoInputs => "TwoInputs",
    }
}
