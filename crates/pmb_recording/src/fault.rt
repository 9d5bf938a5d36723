/// Why a line is a fault.
#[derive(Clone, Copy, Debug, PartialEq, Eq)]
pub enum Fault<'a> {
    /// It can't be read, contradicts itself, is out of range, too long or without its LF.
    MakesNoSense,
    /// It contradicts lines before it.
    DoesNotFollow,
    /// It shows so many bytes, and fewer than this number, as the recording writes it.
    Shows(u64, &'a [u8]),
    /// Its flags, as the recording writes them, change what is on the wire.
    ChangesTheWire(&'a [u8]),
    /// Rows are missing in front of it.
    RowsAreMissing,
    /// The analyser marks it as an error.
    IsMarked,
}
