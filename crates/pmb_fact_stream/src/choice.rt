//! What a user may choose of what is told of a capture.
//!
//! Its rows: `tests/rows/json_objects.txt`, flags.

ghost use Rattle.pmb_fact_stream.specs.Telling.{Fits, fits_once};

use crate::telling::Telling;
use pmb_decimal::Digits;
use pmb_table::Addresses;
use pmb_unknown_start::Start;

/// Which facts of a capture are wanted, and how they are told.
#[derive(Clone, Copy)]
pub struct Choice<'c> {
    /// The most digits after the point of a number.
    pub digits: Digits,
    /// What is known of PAGE and VOUT_MODE where the capture begins, and after a line that was dropped.
    pub start: Start,
    /// The addresses of the devices whose facts are wanted, of seven bits; all where there is none.
    /// Facts that name no device are always wanted.
    pub devices: &'c [u8],
    /// The addresses that speak no PMBus, where the profile says which these are. A packet to one of
    /// them is an other: one fact, and no packet or refusal.
    pub ignored: Option<&'c Addresses>,
    /// How facts are told.
    pub telling: Telling,
    pub ghost fits: { Fits telling } by { fits_once telling },
}
