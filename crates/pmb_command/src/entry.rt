//! A command of a device.
//!
//! Its rows: `tests_commands`, `src/parts.rt`, `src/meanings.rt`.

use crate::form::Shape;
use arrayvec::ArrayString;
use pmb_value::NumberFormat;

/// What the data of a command stand for.
#[derive(Clone, Copy, Debug, PartialEq, Eq)]
pub enum Kind {
    /// Bytes, with no number in them.
    Raw,
    /// A number in this format.
    Number(NumberFormat),
    /// An output voltage: unsigned in the linear format of VOUT_MODE, and in DIRECT where the device's
    /// coefficients are unsigned.
    Vout,
    /// A correction of the output voltage: signed in the linear format of VOUT_MODE, and in DIRECT.
    VoutSigned,
    /// Status bits.
    Status,
    /// Bytes that are the characters of a text.
    Text,
}

/// A command of a device: its code, its name, its forms, what its data stand for, and whether it
/// has a value for each page.
#[derive(Clone, Copy, Debug)]
pub struct Entry {
    pub code: u8,
    pub name: ArrayString<32>,
    pub shape: Shape,
    pub kind: Kind,
    pub paged: bool,
}
