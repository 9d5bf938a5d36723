//! What C chooses of JSON.
//!
//! Its rows: `tests/rows/json_objects.txt`.

ghost use Rattle.std.specs.List.{list_all};
ghost use Rattle.std.specs.Prelude.{◌≡◌, option_map};
ghost use Rattle.pmb_c.specs.Choice.{bad_words_of, chosen, is_address, start_of};

use pmb_decimal::Digits;
use pmb_firmware::CallStatus;
use pmb_in_memory::JsonChoice;
use pmb_telling::AfterBadToken;
use pmb_unknown_start::Start;

/// How the objects of a capture are wanted.
#[repr(C)]
#[derive(Clone, Copy)]
pub struct PmbChoice {
    /// The most digits after the point of a number, from 0 to 12.
    pub digits: u8,
    /// What is known of PAGE and VOUT_MODE where the capture begins: 0 for both, 1 for VOUT_MODE
    /// alone, 2 for neither.
    pub start: u8,
    /// What is done after a word that is no token: 0 to end there, 1 to continue with the next
    /// line.
    pub bad_words: u8,
}

impl PmbChoice {
    /// What it chooses, of devices at these addresses.
    ///
    /// # Errors
    ///
    /// The first of these: `BadChoice` where `start` or `bad_words` is none of its numbers, `BadDigits`
    /// for more than 12 digits, `BadDevice` for an address of more than seven bits.
    pub(crate) fn chosen(&self, devices: &[u8]) -> Result<JsonChoice, CallStatus>
        ensures { result ≡ chosen self.now devices.now }
    {
        let Some(start) = start(self.start) else {
            return Err(CallStatus::BadChoice);
        };
        let Some(bad_words) = bad_words(self.bad_words) else {
            return Err(CallStatus::BadChoice);
        };
        let Some(digits) = Digits::new(self.digits) else {
            return Err(CallStatus::BadDigits);
        };
        if !are_addresses(devices) {
            return Err(CallStatus::BadDevice);
        }
        Ok(JsonChoice {
            digits,
            start,
            bad_words,
        })
    }
}

/// Whether each has seven bits, as the address of a device has.
fn are_addresses(devices: &[u8]) -> bool
    ensures { result ≡ list_all is_address devices.now }
{
    devices.iter().all(|device| *device < 0x80)
}

/// What is known where the capture begins.
fn start(number: u8) -> Option<Start>
    ensures { result ≡ start_of number }
{
    match number {
        0 => Some(Start::AllKnown),
        1 => Some(Start::LateFixedMode),
        2 => Some(Start::Late),
        _ => None,
    }
}

/// What is done after a word that is no token.
fn bad_words(number: u8) -> Option<AfterBadToken>
    ensures { result ≡ bad_words_of number }
{
    match number {
        0 => Some(AfterBadToken::End),
        1 => Some(AfterBadToken::Continue),
        _ => None,
    }
}
