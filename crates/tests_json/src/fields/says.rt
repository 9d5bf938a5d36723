//! What is said of data, and what should be.

use arrayvec::ArrayVec;
use pmb_command::{Entry, Kind, Name, Shape};
use pmb_decimal::Digits;
use pmb_json_fields::{Access, Basis, data_members};
use pmb_keys::{Command, VidTables};
use pmb_unknown_start::KnownMode;
use pmb_value::Direct;
use pmb_voltage::Voltages;

/// The members of an object, as text.
pub(crate) type Text = ArrayVec<u8, 4096>;

/// What hangs on more than the command: digits, access, what the format of an output voltage depends on
/// but for VID tables, and what the device's VOUT_MODE rests on.
#[derive(Clone, Copy)]
pub(crate) struct Case {
    pub digits: u8,
    pub access: Access,
    pub mode: KnownMode,
    pub page: Option<u8>,
    pub coefficients: Option<Direct>,
    pub basis: Basis,
}

/// A case in which VOUT_MODE is of no matter.
pub(crate) fn plain(digits: u8, access: Access) -> Case {
    Case {
        digits,
        access,
        mode: KnownMode::NoPage,
        page: Some(0),
        coefficients: None,
        basis: Basis::Told,
    }
}

/// A reading with six digits under a VOUT_MODE, where PAGE is 0.
pub(crate) fn under(mode: KnownMode, coefficients: Option<Direct>) -> Case {
    Case {
        digits: 6,
        access: Access::Read,
        mode,
        page: Some(0),
        coefficients,
        basis: Basis::Told,
    }
}

/// A command of which no more is told than its code and its kind: it has no name, no forms, no unit and
/// no names of bits.
fn bare(code: u8, kind: Kind) -> Command {
    let shape = Shape {
        write: None,
        read: None,
        call: None,
    };
    Command {
        entry: Entry {
            code,
            name: Name::new(),
            shape,
            kind,
            paged: true,
        },
        initial: None,
        unit: None,
        bits: None,
        phased: false,
    }
}

/// What is said of data of a bare command of a device without VID tables, after a `:`; `?` where there are
/// no such digits.
pub(crate) fn said(case: &Case, code: u8, kind: Kind, bytes: &[u8]) -> Text {
    said_by(case, None, code, kind, bytes)
}

/// .. of a device that may have VID tables.
pub(crate) fn said_by(
    case: &Case,
    vid: Option<&VidTables>,
    code: u8,
    kind: Kind,
    bytes: &[u8],
) -> Text {
    said_of(case, vid, &bare(code, kind), bytes)
}

/// .. of any command; `?` also where there are more bytes than a packet has.
pub(crate) fn said_of(
    case: &Case,
    vid: Option<&VidTables>,
    command: &Command,
    bytes: &[u8],
) -> Text {
    let mut text = Text::new();
    let Some(digits) = Digits::new(case.digits) else {
        let _ = text.try_push(b'?');
        return text;
    };
    if bytes.len() > 255 {
        let _ = text.try_push(b'?');
        return text;
    }
    text.push(b':');
    let voltages = Voltages {
        mode: case.mode,
        page: case.page,
        coefficients: case.coefficients,
        vid,
    };
    data_members(
        &mut text,
        digits,
        case.access,
        &voltages,
        case.basis,
        command,
        bytes,
    );
    text
}

/// Adds a text, as far as there is room.
pub(crate) fn push(text: &mut Text, part: &str) {
    let _ = text.try_extend_from_slice(part.as_bytes());
}

/// Texts one after the other, after a `:`.
pub(crate) fn joined(texts: &[&str]) -> Text {
    let mut text = Text::new();
    push(&mut text, ":");
    for part in texts {
        push(&mut text, part);
    }
    text
}

/// The members of a value and the nearest number.
pub(crate) fn value(exact: &str, nearest: &str) -> Text {
    joined(&[",\"value\":\"", exact, "\",\"number\":", nearest])
}

/// .. of one whose VOUT_MODE is assumed.
pub(crate) fn assumed(exact: &str, nearest: &str) -> Text {
    let mut text = value(exact, nearest);
    push(&mut text, ",\"mode\":\"assumed\"");
    text
}

/// The member of a factor of VOUT_COMMAND.
pub(crate) fn ratio(exact: &str) -> Text {
    joined(&[",\"ratio\":\"", exact, "\""])
}

/// The member of a value that can't be read.
pub(crate) fn raw(why: &str) -> Text {
    joined(&[",\"raw\":\"", why, "\""])
}
