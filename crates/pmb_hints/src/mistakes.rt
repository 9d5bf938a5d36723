//! The mistakes that the keys of a profile can have, as one table, and what is written of each.
//!
//! A fault says what is wrong and in which table of the profile. Its rows are tried in their order,
//! and the first mistake that the keys have is written. So a new rule of `pmb_keys` is a row here.
//!
//! Its rows: `tests/rows/hints.txt`.

use crate::bits::{bits_hint, bits_type, names_hint, unit_hint};
use crate::coded::{address_twice, code_twice, name_hint};
use crate::draft::Draft;
use crate::forms::{form_hint, is_of_kind};
use crate::initial::initial_hint;
use crate::keyed::Keyed;
use crate::keys::{missing_code, missing_key, no_array, unknown_key, wrong_type};
use crate::lists::{address_ignored, also_hint, ignored_hint, modes_hint, one_mode_hint};
use crate::numbers::{address_hint, many_hint, out_of_range, unknown_word};
use crate::vid::{kind_of_table, vid_hint, vid_type};
use crate::words::{
    BEFORE_BITS, BEFORE_DIRECT, CALL, COEFFICIENTS, COMMAND, DEVICE, DIRECT, KIND, NUMBERS, PEC,
    READ, TOP, WRITE, Words,
};
use pmb_table::FaultKind;

/// A mistake, with the rule that is written after the key and its value.
#[derive(Clone, Copy)]
enum Mistake {
    /// The table has a key that is none of these.
    UnknownKey(Words),
    /// One of these keys is not there.
    MissingKey(Words),
    /// One of these keys is not there, and the kind is this one.
    MissingOfKind(&'static str, Words),
    /// The value of one of these keys has another type than it needs.
    WrongType(Words),
    /// The number of a key is not from one to the other.
    OutOfRange(&'static str, i64, i64),
    /// The word of a key is none of these.
    UnknownWord(&'static str, Words),
    /// A key has this number.
    Number(&'static str, i64, &'static str),
    /// A key has this word, in either case.
    Word(&'static str, &'static str, &'static str),
    /// A key is there.
    Key(&'static str, &'static str),
    /// A key is there, and the kind is none of these.
    KeyOfKinds(&'static str, Words, &'static str),
    /// Neither `code` nor `name` is there.
    NoCode,
    /// There are too many devices.
    TooManyDevices,
    /// An address is none of seven bits, or reserved.
    Address,
    /// A device before this one has its address.
    AddressTwice,
    /// A command before this one has its code.
    CodeTwice,
    /// No standard command has the name.
    UnknownName,
    /// The forms don't go together.
    Forms,
    /// The bytes at first are not those of the form, or not given for each page.
    Initial,
    /// A key is there and has no array, with the line that is written of it.
    NoArray(&'static str, &'static str),
    /// An ignored address is none of seven bits.
    Ignored,
    /// The address of a device is ignored.
    AddressIgnored,
    /// One of the other addresses of a device is none of seven bits, or no device has it.
    Also,
    /// A list of VOUT_MODE has not one for each page.
    Modes,
    /// A list of VOUT_MODE has different ones where there is one for all pages.
    OneMode,
    /// `kind` names a VID table without `vid:`.
    KindOfTable,
    /// `vid`, or what is in it, has another type than it needs.
    VidType,
    /// A VID table is unknown, a list has not one for each page, or a key is no type.
    Vid,
    /// The unit of a command is none.
    Unit,
    /// The name of a bit has another type than it needs.
    BitsType,
    /// A key of `bits` is no bit.
    Bits,
    /// A name of a command or of one of its bits is none, or two bits have one.
    Names,
    /// Whatever the keys are, this line is written.
    Always(&'static str),
}

/// How each device begins.
pub(crate) const EACH_DEVICE: &str = "  device: each device begins with a line [[device]]\n";

/// How each command begins.
pub(crate) const EACH_COMMAND: &str =
    "  command: each command begins with a line [[device.command]]\n";

/// What is wrong outside of all devices.
const NO_DEVICE: &[Mistake] = &[Mistake::Always(
    "  device is missing: each device begins with a line [[device]], and a profile without any is \
     device = []\n",
)];

const UNKNOWN_AT_TOP: &[Mistake] = &[Mistake::UnknownKey(TOP)];

const TYPES_AT_TOP: &[Mistake] = &[
    Mistake::NoArray("device", EACH_DEVICE),
    Mistake::WrongType(&["ignore"]),
];

const VALUES_AT_TOP: &[Mistake] = &[Mistake::Ignored];

const TOO_MANY_DEVICES: &[Mistake] = &[Mistake::TooManyDevices];

/// What is wrong with the keys of a device.
const UNKNOWN_OF_DEVICE: &[Mistake] = &[Mistake::UnknownKey(DEVICE)];

const MISSING_OF_DEVICE: &[Mistake] = &[Mistake::MissingKey(&["address", "pec"])];

const TYPES_OF_DEVICE: &[Mistake] = &[Mistake::WrongType(BEFORE_DIRECT)];

const VALUES_OF_DEVICE: &[Mistake] = &[
    Mistake::AddressIgnored,
    Mistake::UnknownWord("pec", PEC),
    Mistake::OutOfRange("vout_mode", 0, 255),
    Mistake::Modes,
    Mistake::Vid,
    Mistake::OutOfRange("phases", 1, 255),
    Mistake::Also,
    Mistake::OneMode,
    Mistake::Key("protect", WITH_PROTECT),
];

/// What a device that keeps to WRITE_PROTECT has to have.
const WITH_PROTECT: &str =
    "this needs a command 10h that is written and read as \"one\", not paged, and not of kind \"status\"";

/// With which bytes WRITE_PROTECT may begin in such a device.
const PROTECT_INITIAL: &[Mistake] = &[Mistake::Key(
    "protect",
    "with this the initial of command 10h is \"80\", \"40\", \"20\" or \"00\"",
)];

/// What is wrong with the types of the keys after `vout_direct`.
const TYPES_AFTER_DIRECT: &[Mistake] = &[
    Mistake::NoArray("command", EACH_COMMAND),
    Mistake::WrongType(&["name"]),
    Mistake::VidType,
    Mistake::WrongType(&["phases"]),
    Mistake::WrongType(&["protect"]),
    Mistake::WrongType(&["also"]),
];

const NAME_OF_DEVICE: &[Mistake] = &[Mistake::Key(
    "name",
    "a name of a device is 1 to 32 characters of ASCII, from the blank to ~",
)];

const ADDRESS: &[Mistake] = &[Mistake::Address];

const ADDRESS_TWICE: &[Mistake] = &[Mistake::AddressTwice];

const PAGES: &[Mistake] = &[Mistake::OutOfRange("pages", 1, 32)];

/// What is wrong with the keys of `vout_direct`, which are checked after those of their device.
const UNKNOWN_OF_DIRECT: &[Mistake] = &[Mistake::UnknownKey(DIRECT)];

const TYPES_OF_DIRECT: &[Mistake] = &[Mistake::WrongType(DIRECT)];

const MISSING_OF_DIRECT: &[Mistake] = &[Mistake::MissingKey(COEFFICIENTS)];

/// What is wrong with coefficients that have no sound values, in either place.
const BAD_COEFFICIENTS: &[Mistake] = &[
    Mistake::Number(
        "m",
        0,
        "a number from -32768 to 32767 other than 0 is needed",
    ),
    Mistake::OutOfRange("m", -32768, 32767),
    Mistake::OutOfRange("b", -32768, 32767),
    Mistake::OutOfRange("r", -9, 9),
];

/// What is wrong with the keys of a command.
const UNKNOWN_OF_COMMAND: &[Mistake] = &[
    Mistake::UnknownKey(COMMAND),
    Mistake::KeyOfKinds("m", &["direct"], WITH_DIRECT),
    Mistake::KeyOfKinds("b", &["direct"], WITH_DIRECT),
    Mistake::KeyOfKinds("r", &["direct"], WITH_DIRECT),
    Mistake::KeyOfKinds(
        "exponent",
        &["linear11", "ulinear16", "slinear16"],
        WITH_LINEAR,
    ),
    Mistake::KeyOfKinds("unsigned", &["direct"], WITH_DIRECT),
    Mistake::KeyOfKinds("unit", NUMBERS, WITH_NUMBERS),
    Mistake::KeyOfKinds("bits", &["status"], WITH_STATUS),
];

const WITH_DIRECT: &str = "this key goes with kind = \"direct\" alone";

const WITH_LINEAR: &str =
    "this key goes with kind = \"linear11\", \"ulinear16\" or \"slinear16\" alone, from the key or \
     the standard";

const WITH_NUMBERS: &str =
    "this key goes with numbers alone, so not with kind = \"raw\", \"status\" or \"text\", from the key \
     or the standard";

const WITH_STATUS: &str =
    "this key goes with kind = \"status\" alone, from the key or the standard";

const MISSING_OF_COMMAND: &[Mistake] = &[
    Mistake::NoCode,
    Mistake::MissingOfKind("direct", COEFFICIENTS),
    Mistake::MissingOfKind("ulinear16", &["exponent"]),
    Mistake::MissingOfKind("slinear16", &["exponent"]),
];

const TYPES_OF_COMMAND: &[Mistake] = &[
    Mistake::WrongType(BEFORE_BITS),
    Mistake::BitsType,
    Mistake::WrongType(&["phased"]),
];

const VALUES_OF_COMMAND: &[Mistake] = &[
    Mistake::OutOfRange("code", 0, 255),
    Mistake::Word(
        "kind",
        "linear16",
        "it is kind = \"vout\", and vout_mode has the exponent",
    ),
    Mistake::Word("kind", "ieee754", "it is kind = \"half\""),
    Mistake::Word(
        "kind",
        "udirect",
        "it is kind = \"direct\" with unsigned = true",
    ),
    Mistake::KindOfTable,
    Mistake::UnknownWord("kind", KIND),
    Mistake::OutOfRange("exponent", -16, 15),
    Mistake::Unit,
    Mistake::Bits,
];

const UNKNOWN_NAME: &[Mistake] = &[Mistake::UnknownName];

const BAD_NAME: &[Mistake] = &[Mistake::Names];

const BAD_FORM: &[Mistake] = &[
    Mistake::UnknownWord("write", WRITE),
    Mistake::UnknownWord("read", READ),
    Mistake::UnknownWord("call", CALL),
    Mistake::Forms,
];

const CODE_TWICE: &[Mistake] = &[Mistake::CodeTwice];

const BAD_INITIAL: &[Mistake] = &[Mistake::Initial];

/// The rows of a fault outside of all devices.
fn rows_of_top(what: FaultKind) -> &'static [Mistake] {
    match what {
        FaultKind::UnknownKey => UNKNOWN_AT_TOP,
        FaultKind::MissingKey => NO_DEVICE,
        FaultKind::WrongType => TYPES_AT_TOP,
        FaultKind::BadValue => VALUES_AT_TOP,
        FaultKind::TooManyDevices => TOO_MANY_DEVICES,
        _ => &[],
    }
}

/// The rows of a fault of a device's own keys.
fn rows_of_device(what: FaultKind) -> &'static [Mistake] {
    match what {
        FaultKind::UnknownKey => UNKNOWN_OF_DEVICE,
        FaultKind::MissingKey => MISSING_OF_DEVICE,
        FaultKind::WrongType => TYPES_OF_DEVICE,
        FaultKind::BadValue => VALUES_OF_DEVICE,
        FaultKind::BadAddress => ADDRESS,
        FaultKind::AddressTwice => ADDRESS_TWICE,
        FaultKind::BadPages => PAGES,
        FaultKind::BadName => NAME_OF_DEVICE,
        FaultKind::BadInitial => PROTECT_INITIAL,
        _ => &[],
    }
}

/// The rows of a fault of the keys of `vout_direct`.
fn rows_of_direct(what: FaultKind) -> &'static [Mistake] {
    match what {
        FaultKind::UnknownKey => UNKNOWN_OF_DIRECT,
        FaultKind::MissingKey => MISSING_OF_DIRECT,
        FaultKind::WrongType => TYPES_OF_DIRECT,
        FaultKind::BadCoefficients => BAD_COEFFICIENTS,
        _ => &[],
    }
}

/// The rows of a fault of a command.
fn rows_of_command(what: FaultKind) -> &'static [Mistake] {
    match what {
        FaultKind::UnknownKey => UNKNOWN_OF_COMMAND,
        FaultKind::MissingKey => MISSING_OF_COMMAND,
        FaultKind::WrongType => TYPES_OF_COMMAND,
        FaultKind::BadValue => VALUES_OF_COMMAND,
        FaultKind::UnknownName => UNKNOWN_NAME,
        FaultKind::BadName => BAD_NAME,
        FaultKind::BadForm => BAD_FORM,
        FaultKind::BadCoefficients => BAD_COEFFICIENTS,
        FaultKind::CodeTwice => CODE_TWICE,
        FaultKind::BadInitial => BAD_INITIAL,
        _ => &[],
    }
}

impl Mistake {
    /// Writes the mistake if the keys have it, and returns whether they do.
    fn is_written(self, keyed: Keyed<'_>, lines: &mut Draft) -> bool {
        match self {
            Mistake::UnknownKey(keys) => unknown_key(keyed, keys, lines),
            Mistake::MissingKey(keys) => missing_key(keyed, keys, lines),
            Mistake::WrongType(keys) => wrong_type(keyed, keys, lines),
            Mistake::OutOfRange(key, least, most) => out_of_range(keyed, key, least, most, lines),
            Mistake::UnknownWord(key, words) => unknown_word(keyed, key, words, lines),
            Mistake::Number(key, number, rule) => {
                keyed.number(key) == Some(number) && keyed.rule(key, rule, lines)
            }
            Mistake::Word(key, word, rule) => {
                keyed.has_word(key, word) && keyed.rule(key, rule, lines)
            }
            Mistake::Key(key, rule) => keyed.rule(key, rule, lines),
            Mistake::MissingOfKind(kind, keys) => {
                is_of_kind(keyed, &[kind]) && missing_key(keyed, keys, lines)
            }
            Mistake::KeyOfKinds(key, kinds, rule) => {
                !is_of_kind(keyed, kinds) && keyed.rule(key, rule, lines)
            }
            _ => self.is_found(keyed, lines),
        }
    }

    /// The same for the mistakes that have a function of their own.
    fn is_found(self, keyed: Keyed<'_>, lines: &mut Draft) -> bool {
        match self {
            Mistake::NoCode => missing_code(keyed, lines),
            Mistake::TooManyDevices => many_hint(keyed, lines),
            Mistake::Address => address_hint(keyed, lines),
            Mistake::AddressTwice => address_twice(keyed, lines),
            Mistake::CodeTwice => code_twice(keyed, lines),
            Mistake::UnknownName => name_hint(keyed, lines),
            Mistake::Forms => form_hint(keyed, lines),
            Mistake::Initial => initial_hint(keyed, lines),
            Mistake::NoArray(key, line) => no_array(keyed, key, line, lines),
            Mistake::Ignored => ignored_hint(keyed, lines),
            Mistake::AddressIgnored => address_ignored(keyed, lines),
            Mistake::Also => also_hint(keyed, lines),
            Mistake::Modes => modes_hint(keyed, lines),
            Mistake::OneMode => one_mode_hint(keyed, lines),
            Mistake::KindOfTable => kind_of_table(keyed, lines),
            Mistake::VidType => vid_type(keyed, lines),
            Mistake::Vid => vid_hint(keyed, lines),
            Mistake::Unit => unit_hint(keyed, lines),
            Mistake::BitsType => bits_type(keyed, lines),
            Mistake::Bits => bits_hint(keyed, lines),
            Mistake::Names => names_hint(keyed, lines),
            Mistake::Always(line) => lines.text.try_push_str(line).is_ok(),
            _ => false,
        }
    }
}

/// Writes the first of some mistakes that the keys have, and returns whether there is one.
fn first_of(rows: &[Mistake], keyed: Keyed<'_>, lines: &mut Draft) -> bool {
    for mistake in rows {
        if mistake.is_written(keyed, lines) {
            keyed.stand(lines);
            return true;
        }
    }
    false
}

/// Hints for a fault outside of all devices.
pub(crate) fn top_hint(keyed: Keyed<'_>, what: FaultKind, lines: &mut Draft) {
    let _ = first_of(rows_of_top(what), keyed, lines);
}

/// Hints for a fault of a device, outside of its commands.
pub(crate) fn device_hint(keyed: Keyed<'_>, what: FaultKind, lines: &mut Draft) {
    if first_of(rows_of_device(what), keyed, lines) {
        return;
    }
    if let Some(direct) = keyed.direct() {
        if first_of(rows_of_direct(what), direct, lines) {
            return;
        }
    }
    if what == FaultKind::WrongType {
        let _ = first_of(TYPES_AFTER_DIRECT, keyed, lines);
    }
}

/// Hints for a fault of a command.
pub(crate) fn command_hint(keyed: Keyed<'_>, what: FaultKind, lines: &mut Draft) {
    let _ = first_of(rows_of_command(what), keyed, lines);
}
