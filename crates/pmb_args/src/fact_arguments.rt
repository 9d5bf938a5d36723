//! What the arguments of `pmb json` and `pmb log` choose, and most of `pmb stats`.

use arrayvec::ArrayVec;
use pmb_decimal::Digits;
use pmb_scan::AfterBadToken;
use pmb_unknown_start::Start;

/// What the flags choose that `pmb json`, `pmb log` and `pmb stats` have.
#[derive(Drop)]
pub struct FactArguments {
    /// What is known of PAGE and VOUT_MODE where the capture begins.
    pub start: Start,
    /// What is done after a word that is no token.
    pub after_bad_token: AfterBadToken,
    /// The most digits after the point of a number.
    pub digits: Digits,
    /// The addresses of the devices that are wanted, of seven bits, each once, in the order in which
    /// they were first named; all devices where there is none.
    pub devices: ArrayVec<u8, 128>,
}
