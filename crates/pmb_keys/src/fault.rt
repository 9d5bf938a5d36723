//! Why a text is no profile.
//!
//! Its rows: `tests/rows/profiles.txt`.

/// What is wrong with a profile. Where several things are, the first one is told, in the order in
/// which `docs/profiles.md` gives the rules.
#[derive(Clone, Copy, Debug, PartialEq, Eq)]
pub enum FaultKind {
    /// The text is no TOML document.
    NotToml,
    /// A table has a key that it may not have.
    UnknownKey,
    /// A key that a table must have is not there.
    MissingKey,
    /// A value has another type than its key asks for.
    WrongType,
    /// There are more than 64 devices.
    TooManyDevices,
    /// An address is reserved or none of 7 bits: outside 08h to 77h, or 0ch.
    BadAddress,
    /// An earlier device has the address.
    AddressTwice,
    /// A code or VOUT_MODE outside 0 to 255, an exponent outside -16 to 15, a word that its key does
    /// not know, not one VOUT_MODE for each page, an address that is ignored and outside 0 to 127, or
    /// that a device has nonetheless.
    BadValue,
    /// A number of pages outside 1 to 32.
    BadPages,
    /// A name that no standard command has.
    UnknownName,
    /// A name of a command that is not 1 to 32 of A to Z, 0 to 9 and `_`, or of a device that is not
    /// 1 to 32 characters from 20h to 7eh.
    BadName,
    /// A form that its key does not know, or forms that do not go together.
    BadForm,
    /// Coefficients of DIRECT outside their ranges.
    BadCoefficients,
    /// An earlier command of the device has the code.
    CodeTwice,
    /// Initial bytes of a command that has none, that are not of its form, or that are not given for
    /// each page.
    BadInitial,
    /// There was no memory.
    OutOfMemory,
}
