//! A profile's fault as a text.
//!
//! Its rows: `tests/rows/hints.txt`.

ghost use Rattle.std.specs.Prelude.{◌≡◌, ◌≢◌, ◌+◌, ◌≤◌, ◌++◌, [], length};
ghost use Rattle.pmb_hints.specs.Fault.{fault_line, fault_name, numbered};
ghost use Rattle.pmb_hints.specs.Hints.{Explains};

use crate::lines::hints;
use arrayvec::ArrayString;
use itoa::Buffer;
use pmb_places::Place;
use pmb_table::{FaultKind, ProfileFault};
use std::alloc::Global;

/// The text of a fault.
pub type FaultText = ArrayString<96>;

/// A fault with its hints, and where it is.
#[derive(Drop)]
pub struct FaultReport {
    /// The line of the fault, and the lines that help.
    pub text: ArrayString<2048>,
    /// The place that the hints tell, if they tell one.
    pub place: Option<Place>,
}

/// A fault as one line: its name, and its device and its command where it has them.
pub fn fault_text(fault: ProfileFault) -> FaultText
    ensures { result.bytes ≡ fault_line fault }
{
    let mut text = FaultText::new();
    append(&mut text, "profile: ");
    append(&mut text, name_of(fault.what));
    append_numbered(&mut text, " in device ", as_u16(fault.device));
    append_numbered(&mut text, " command ", fault.command);
    append(&mut text, "\n");
    text
}

/// What `pmb profile` reports of a fault of the profile in `text`: the fault, and the lines that help.
pub fn explanation(alloc: Global, text: &[u8], fault: ProfileFault) -> FaultReport
    // Some text is there for each fault.
    ensures some { result.text.bytes ≢ [] }
    ensures explains { Explains text.now fault result.text.bytes result.place }
{
    let hints = hints(alloc, text, fault);
    let mut lines = ArrayString::new();
    let _ = lines.try_push_str("pmb: ");
    let _ = lines.try_push_str(fault_text(fault).as_str());
    let _ = lines.try_push_str(hints.lines.as_str());
    FaultReport {
        text: lines,
        place: hints.place,
    }
}

/// The name of what is wrong.
fn name_of(what: FaultKind) -> &'static str
    ensures name { result.now ≡ fault_name what }
    ensures short { length result.now ≤ 15 }
{
    match what {
        FaultKind::NotToml => "NotToml",
        FaultKind::UnknownKey => "UnknownKey",
        FaultKind::MissingKey => "MissingKey",
        FaultKind::WrongType => "WrongType",
        FaultKind::TooManyDevices => "TooManyDevices",
        FaultKind::BadAddress => "BadAddress",
        FaultKind::AddressTwice => "AddressTwice",
        FaultKind::BadValue => "BadValue",
        FaultKind::BadPages => "BadPages",
        FaultKind::UnknownName => "UnknownName",
        FaultKind::BadName => "BadName",
        FaultKind::BadForm => "BadForm",
        FaultKind::BadCoefficients => "BadCoefficients",
        FaultKind::CodeTwice => "CodeTwice",
        FaultKind::BadInitial => "BadInitial",
        FaultKind::OutOfMemory => "OutOfMemory",
    }
}

/// The number of a device, if there is one, in the type of a command's.
fn as_u16(device: Option<u8>) -> Option<u16>
    ensures { result ≡ device }
{
    match device {
        Some(device) => Some(u16::from(device)),
        None => None,
    }
}

/// Adds a number after a word, where there is one.
fn append_numbered(text: &mut FaultText, word: &str, number: Option<u16>)
    requires { length text.old.bytes + length word.now ≤ 91 }
    ensures written { text.new.bytes ≡ text.old.bytes ++ numbered word.now number }
    ensures short { length (numbered word.now number) ≤ length word.now + 5 }
{
    if let Some(number) = number {
        append(text, word);
        append(text, Buffer::new().format(number));
    }
}

/// Adds a text, which fits.
pub(crate) fn append(line: &mut FaultText, text: &str)
    requires { length line.old.bytes + length text.now ≤ 96 }
    ensures { line.new.bytes ≡ line.old.bytes ++ text.now }
{
    let _ = line.try_push_str(text);
}
