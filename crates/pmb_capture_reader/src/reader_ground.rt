//! What a reader borrows.
//!
//! Its rows: `tests_tasks`, `src/capture_reader.rt`.

ghost use Rattle.pmb_fact_stream.specs.Telling.{Fits, fits_once};

use pmb_decimal::Digits;
use pmb_fact_stream::Telling;
use pmb_table::BusProfile;
use pmb_telling::AfterBadToken;
use pmb_unknown_start::Start;
use std::alloc::Global;
use std::sync::Arc;

/// All that a reader borrows, and where it takes memory from.
#[derive(Drop)]
pub struct ReaderGround {
    /// The devices of the bus, and the addresses that it ignores.
    pub bus: Arc<BusProfile, Global>,
    /// The addresses of the devices whose facts are wanted, of seven bits; all where there is none.
    pub devices: Vec<u8>,
    /// The most digits after the point of a number.
    pub digits: Digits,
    /// What is known of PAGE and VOUT_MODE where the capture begins, and after a line that was dropped.
    pub start: Start,
    /// Whether reading ends at a word that is no token, or continues with the next line.
    pub bad_words: AfterBadToken,
    /// How facts are told.
    pub telling: Telling,
    pub alloc: Global,
    pub ghost fits: { Fits telling } by { fits_once telling },
}
