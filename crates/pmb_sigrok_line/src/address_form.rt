/// How sigrok's decoder writes addresses.
#[derive(Clone, Copy, Debug, PartialEq, Eq)]
pub enum AddressForm {
    /// Seven bits.
    Shifted,
    /// Eight bits, the lowest of which is the direction.
    Unshifted,
}
