//! The words that data are: of a status register, or of a number.
//!
//! Its rows: `tests/rows/stats.txt`, numbers.

ghost use Rattle.std.specs.Prelude.{◌≡◌, option_map, Option, List, ℕ};
ghost use Rattle.pmb_voltage.specs.Voltage.{voltage_format, voltages_data};
ghost use Rattle.pmb_observed.specs.Observing.{is_assumed, number_of, register_of, voltage_in, word_number};
ghost use Rattle.pmb_stats.specs.machine.Observed.{read_at_time};

use pmb_command::Kind;
use pmb_json_fields::Basis;
use pmb_mean::Number;
use pmb_value::Sign;
use pmb_voltage::Voltages;

/// The number that data of the command with a code are: two bytes, the low one first. `voltages` is what
/// the format of an output voltage depends on, and `basis` says whether its VOUT_MODE is assumed.
pub(crate) fn number_of(
    voltages: &Voltages<'_>,
    basis: Basis,
    code: u8,
    kind: Kind,
    bytes: &[u8],
) -> Option<Number>
    ensures { result ≡ number_of (voltages_data voltages.now) basis code kind bytes.now }
{
    match bytes {
        [low, high] => word_number(
            voltages,
            basis,
            code,
            kind,
            u16::from_le_bytes([*low, *high]),
        ),
        _ => None,
    }
}

/// The number that a word is, by the command's kind.
fn word_number(
    voltages: &Voltages<'_>,
    basis: Basis,
    code: u8,
    kind: Kind,
    word: u16,
) -> Option<Number>
    ensures { result ≡ word_number (voltages_data voltages.now) basis code kind word }
{
    match kind {
        Kind::Raw | Kind::Status | Kind::Text => None,
        Kind::Number(format) => Number::of_word(&format, word, false),
        Kind::Vout => voltage(voltages, basis, code, Sign::Unsigned, word),
        Kind::VoutSigned => voltage(voltages, basis, code, Sign::Signed, word),
    }
}

/// An output voltage, where it has a format, and is no factor of VOUT_COMMAND.
fn voltage(voltages: &Voltages<'_>, basis: Basis, code: u8, sign: Sign, word: u16) -> Option<Number>
    ensures { result ≡ voltage_in (voltage_format (voltages_data voltages.now) code sign) basis word }
{
    match voltages.format(code, sign) {
        Ok(format) if !format.is_ratio => {
            Number::of_word(&format.number, word, is_assumed(basis))
        }
        _ => None,
    }
}

fn is_assumed(basis: Basis) -> bool
    ensures { result ≡ is_assumed basis }
{
    match basis {
        Basis::Told => false,
        Basis::Assumed => true,
    }
}

/// The word that a status register holds: one byte, or two, the low one first.
pub(crate) fn register_of(bytes: &[u8]) -> Option<u16>
    ensures { (time : Option (List ℕ)) → option_map (read_at_time time) result ≡ register_of bytes.now time }
{
    match bytes {
        [byte] => Some(u16::from(*byte)),
        [low, high] => Some(u16::from_le_bytes([*low, *high])),
        _ => None,
    }
}
