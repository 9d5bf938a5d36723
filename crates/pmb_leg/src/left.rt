//! What is left of data in a form.
//!
//! One small state for the body of a write, for the body of a call, and for an answer. `Data`
//! counts down; the form is not needed again after the first byte, nor are the bytes that were
//! taken.
//!
//! Its rows: `tests_packets`, `src/legs/written.rt` and `answers.rt`.

ghost use Rattle.std.specs.Prelude.{◌≡◌, ◌||◌, ℕ, List};
ghost use Rattle.pmb_command.specs.Wire.{wire};
ghost use Rattle.pmb_transaction.specs.Body.{checked};
ghost use Rattle.pmb_leg.specs.machine.DataLeft.{after, ends_data, goes_on, has_code, is_whole, start, takes};

use pmb_command::{Form, PecMode};

/// What is left, where some bytes of data in a form were taken.
#[derive(Clone, Copy, Debug, PartialEq, Eq)]
pub(crate) enum DataLeft {
    /// The count of a block, and the block.
    Count,
    /// So many bytes of data, at least one.
    Data(u8),
    /// The packet error code, which has to come or may.
    Code,
    /// Nothing.
    Nothing,
    /// The bytes are the beginning of no such data.
    Closed,
}

/// What is left after the last byte of data.
fn behind_data(mode: PecMode) -> DataLeft
    ensures { result ≡ ends_data mode }
{
    if mode.may_carry() {
        DataLeft::Code
    } else {
        DataLeft::Nothing
    }
}

impl DataLeft {
    /// What is left of data in the form, of which nothing was taken.
    pub fn start(form: Option<Form>, mode: PecMode) -> DataLeft
        ensures { result ≡ start form mode }
    {
        let Some(form) = form else {
            return DataLeft::Closed;
        };
        match form.length() {
            None => DataLeft::Count,
            Some(0) => behind_data(mode),
            Some(length) => DataLeft::Data(length as u8),
        }
    }

    /// Whether the byte may come next, where `crc` is the packet error code so far.
    #[inline(always)]
    pub fn takes(self, crc: u8, byte: u8) -> bool
        ensures { result ≡ takes self crc byte }
    {
        match self {
            DataLeft::Count | DataLeft::Data(_) => true,
            DataLeft::Code => byte == crc,
            DataLeft::Nothing | DataLeft::Closed => false,
        }
    }

    /// What is left after one byte more.
    #[inline(always)]
    pub fn after(self, mode: PecMode, crc: u8, byte: u8) -> DataLeft
        ensures { result ≡ after self mode crc byte }
    {
        match self {
            DataLeft::Count => {
                if byte == 0 {
                    behind_data(mode)
                } else {
                    DataLeft::Data(byte)
                }
            }
            DataLeft::Data(count) => {
                if count > 1 {
                    DataLeft::Data(count - 1)
                } else {
                    behind_data(mode)
                }
            }
            DataLeft::Code => {
                if byte == crc {
                    DataLeft::Nothing
                } else {
                    DataLeft::Closed
                }
            }
            DataLeft::Nothing | DataLeft::Closed => DataLeft::Closed,
        }
    }

    /// Whether some byte may come next.
    #[inline(always)]
    pub fn goes_on(self) -> bool
        ensures { result ≡ goes_on self }
    {
        match self {
            DataLeft::Count | DataLeft::Data(_) | DataLeft::Code => true,
            DataLeft::Nothing | DataLeft::Closed => false,
        }
    }

    /// Whether nothing more has to come.
    #[inline]
    pub fn is_whole(self, mode: PecMode) -> bool
        ensures { result ≡ is_whole self mode }
    {
        match self {
            DataLeft::Count | DataLeft::Data(_) | DataLeft::Closed => false,
            DataLeft::Code => match mode {
                PecMode::Off | PecMode::On => false,
                PecMode::Optional => true,
            },
            DataLeft::Nothing => true,
        }
    }

    /// Whether a packet error code was taken, where nothing more has to come.
    pub fn has_code(self, mode: PecMode) -> bool
        ensures { result ≡ has_code self mode }
    {
        match self {
            DataLeft::Count | DataLeft::Data(_) | DataLeft::Code | DataLeft::Closed => false,
            DataLeft::Nothing => mode.may_carry(),
        }
    }
}

/// Whether some byte may come next in one of two.
#[inline(always)]
pub(crate) fn one_goes_on(write: DataLeft, call: DataLeft) -> bool
    ensures { result ≡ goes_on write || goes_on call }
{
    write.goes_on() || call.goes_on()
}

/// Whether the byte may come next in one of two, where `crc` is the packet error code so far.
#[inline(always)]
pub(crate) fn one_takes(write: DataLeft, call: DataLeft, crc: u8, byte: u8) -> bool
    ensures { result ≡ takes write crc byte || takes call crc byte }
{
    write.takes(crc, byte) || call.takes(crc, byte)
}

/// The data within their bytes on the bus, which a packet error code may follow.
pub(crate) fn data_within(form: Form, pec: bool, bytes: &[u8]) -> &[u8]
    requires { (before : List ℕ) × (whole : List ℕ) × (bytes.now ≡ checked pec before (wire form whole)) }
    ensures { (before : List ℕ) (whole : List ℕ) → bytes.now ≡ checked pec before (wire form whole) → result.now ≡ whole }
{
    let without_code = if pec {
        &bytes[..bytes.len() - 1]
    } else {
        bytes
    };
    form.data_within(without_code)
}
