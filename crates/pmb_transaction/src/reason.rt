//! Reasons, and their names.
//!
//! Its rows: `tests_lines`, `src/names/names.rt`; `tests_reader`, `src/reader/rows.rt`;
//! `tests/rows/captures.txt`.

ghost use Rattle.std.specs.Prelude.{◌≡◌, ◌≤◌, length};
ghost use Rattle.pmb_transaction.specs.Names.{reason_name};

/// Why no packet can have an event at its place, or that the events ended inside one.
#[derive(Clone, Copy, Debug, PartialEq, Eq)]
pub enum Reason {
    /// The first byte of a packet addresses a device for reading, where nothing was written to it.
    ReadFirst,
    /// The first byte after a repeated START addresses no device that may come there.
    BadRestart,
    /// The packet error code is wrong.
    BadPec,
    /// An address was acknowledged that no device has.
    UnknownDevice,
    /// A command code was acknowledged that begins no body allowed there.
    UnknownCommand,
    /// A reply continues after its last byte.
    TooLong,
    /// A reply ends before its last byte.
    TooShort,
    /// Another event, out of its place.
    WrongEvent,
    /// The events ended inside a packet.
    Truncated,
}

impl Reason {
    /// The name, as it is printed.
    pub fn name(self) -> &'static [u8]
        ensures name { result.now ≡ reason_name self }
        ensures short { length result.now ≤ 14 }
    {
        match self {
            Reason::ReadFirst => b"ReadFirst",
            Reason::BadRestart => b"BadRestart",
            Reason::BadPec => b"BadPec",
            Reason::UnknownDevice => b"UnknownDevice",
            Reason::UnknownCommand => b"UnknownCommand",
            Reason::TooLong => b"TooLong",
            Reason::TooShort => b"TooShort",
            Reason::WrongEvent => b"WrongEvent",
            Reason::Truncated => b"Truncated",
        }
    }
}
