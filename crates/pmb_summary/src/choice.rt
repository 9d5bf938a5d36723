//! What a user may choose of the sums of a capture.
//!
//! Its rows: `tests/rows/stats.txt`, flags.

use pmb_decimal::Digits;
use pmb_scan::AfterBadToken;
use pmb_stats_counts::Fail;
use pmb_table::Addresses;
use pmb_unknown_start::Start;

/// How the sums of a capture are wanted.
#[derive(Clone, Copy)]
pub struct SumsChoice<'c> {
    /// The most digits after the point of a number.
    pub digits: Digits,
    /// What is known of PAGE and VOUT_MODE where the capture begins, and after a line that was dropped.
    pub start: Start,
    /// The addresses of the devices whose sums are wanted, of seven bits; all where there is none. The
    /// sums of the whole, and what makes the status 1, are of all devices.
    pub devices: &'c [u8],
    /// The addresses that speak no PMBus, where the profile says which these are.
    pub ignored: Option<&'c Addresses>,
    /// Whether reading ends at a word that is no token, or continues with the next line.
    pub after_bad_token: AfterBadToken,
    /// What makes the status 1; refusals and bad tokens, if nothing is said of it.
    pub fail_on: Option<&'c [Fail]>,
}
