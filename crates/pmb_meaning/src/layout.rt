//! What a table says of the fields of a command's data.

use crate::field::Value;

/// A number that a field may have, and what it says.
#[derive(Clone, Copy)]
pub(crate) struct Named(pub(crate) u8, pub(crate) Value<'static>);

/// What the bits of a field say, as a number.
#[derive(Clone, Copy)]
pub(crate) enum Sense {
    /// Yes if it is 1.
    Flag,
    /// A number in two's complement.
    Signed,
    /// The number, but some are named.
    NumberOr(&'static [Named]),
    /// Some are named, and others are reserved.
    Choice(&'static [Named]),
    /// The code of a command.
    Code,
    /// A status register in the low byte, and some of its bits in the high byte.
    Mask,
}

/// When there is a field.
#[derive(Clone, Copy)]
pub(crate) enum Condition {
    /// Always.
    Always,
    /// If other bits, by the lowest of them and how many they are, are one of these numbers.
    Among(u8, u8, &'static [u8]),
}

/// A field: its name, its lowest bit, how many bits it has, what they say, and when there is the
/// field. The bits of the first byte are 0 to 7, those of the second 8 to 15, and so on.
#[derive(Clone, Copy)]
pub(crate) struct Row(
    pub(crate) &'static str,
    pub(crate) u8,
    pub(crate) u8,
    pub(crate) Sense,
    pub(crate) Condition,
);

/// How data go, with how many bytes.
#[derive(Clone, Copy)]
pub(crate) enum Way {
    /// Written or read.
    Register(u8),
    /// Only written.
    Written(u8),
    /// Only read.
    Read(u8),
    /// Sent in a process call.
    Sent(u8),
    /// Sent and replied in a process call.
    Called(u8, u8),
}

/// A command's code, how its data go, and their fields.
#[derive(Clone, Copy)]
pub(crate) struct Layout(pub(crate) u8, pub(crate) Way, pub(crate) &'static [Row]);
