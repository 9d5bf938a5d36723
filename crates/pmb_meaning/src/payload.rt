//! The data of a command, and how they go.

/// The data of a command, and how they go. Blocks are without their counts, and nothing has a
/// packet error code.
#[derive(Clone, Copy, Debug)]
pub enum Payload<'a> {
    /// They are written.
    Written(&'a [u8]),
    /// They are read.
    Read(&'a [u8]),
    /// They are sent in a process call, whose reply isn't known.
    Sent(&'a [u8]),
    /// A process call.
    Called {
        /// What is sent.
        sent: &'a [u8],
        /// What is replied.
        reply: &'a [u8],
    },
}
