/// A byte on the wire, with what stands around it.
#[derive(Clone, Copy, Debug, PartialEq, Eq, Default)]
pub struct WireByte {
    /// START, or a repeated START, stands in front: the byte is an address with its direction.
    pub follows_start: bool,
    /// The byte.
    pub byte: u8,
    /// It was acknowledged.
    pub is_acknowledged: bool,
}
