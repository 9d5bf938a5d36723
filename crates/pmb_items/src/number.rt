//! The number that data are, or why they are none.

ghost use Rattle.std.specs.Prelude.{◌≡◌};
ghost use Rattle.pmb_json_objects.specs.Seen.{SeenData, basis_at};
ghost use Rattle.pmb_json_objects.specs.Sees.{Sees};
ghost use Rattle.pmb_keys.specs.CommandView.{command_parts};
ghost use Rattle.pmb_voltage.specs.Voltage.{voltage_format, voltages_data};
ghost use Rattle.pmb_value.specs.WordFault.{value_in};
ghost use Rattle.pmb_items.specs.Command.{at_command};
ghost use Rattle.pmb_items.specs.Number.{is_assumed, no_number, no_value, no_voltage_kind, number_of, number_seen, value_kind, value_number, voltage_number, word_fault_kind, word_number};

use crate::bytes::flag;
use crate::item::ItemNumber;
use pmb_command::Kind;
use pmb_json_fields::Basis;
use pmb_json_objects::Seen;
use pmb_keys::Command;
use pmb_table::DeviceProfile;
use pmb_value::{NumberFormat, Sign, WordFault};
use pmb_voltage::{NoVoltage, Voltages};

/// The number that data are which a device is sent or replies, of the command with a code.
pub(crate) fn number_at(seen: &Seen<'_>, addr: u8, code: u8, bytes: &[u8]) -> ItemNumber
    ensures { (known : SeenData) → Sees seen.now known → result ≡ at_command known addr code no_number (number_seen known addr bytes.now) }
{
    let Some(device) = seen.profile.device(addr) else {
        return no_number();
    };
    let Some(command) = device.command(code) else {
        return no_number();
    };
    number_seen(seen, addr, bytes, device, command)
}

/// The number that data are of a command of a device.
fn number_seen(
    seen: &Seen<'_>,
    addr: u8,
    bytes: &[u8],
    device: &DeviceProfile,
    command: &Command,
) -> ItemNumber
    ensures { (known : SeenData) → Sees seen.now known → result ≡ number_seen known addr bytes.now device.now (command_parts command.now) }
{
    let voltages = Voltages {
        mode: seen.late.mode(addr),
        page: seen.late.page(addr),
        coefficients: device.vout_direct(),
        vid: device.vid(),
    };
    let assumed = assumed_at(seen, addr);
    number_of(
        &voltages,
        assumed,
        command.entry.code,
        command.entry.kind,
        bytes,
    )
}

/// Whether the format of a device's output voltages is assumed.
fn assumed_at(seen: &Seen<'_>, addr: u8) -> bool
    ensures { (known : SeenData) → Sees seen.now known → result ≡ is_assumed (basis_at known addr) }
{
    is_assumed(seen.basis(addr))
}

fn is_assumed(basis: Basis) -> bool
    ensures { result ≡ is_assumed basis }
{
    match basis {
        Basis::Told => false,
        Basis::Assumed => true,
    }
}

/// The number that bytes are.
fn number_of(
    voltages: &Voltages<'_>,
    assumed: bool,
    code: u8,
    kind: Kind,
    bytes: &[u8],
) -> ItemNumber
    ensures { result ≡ number_of (voltages_data voltages.now) assumed code kind bytes.now }
{
    match bytes {
        [low, high] => word_number(
            voltages,
            assumed,
            code,
            kind,
            u16::from_le_bytes([*low, *high]),
        ),
        _ => no_number(),
    }
}

/// The number that a word is, by the command's kind.
fn word_number(
    voltages: &Voltages<'_>,
    assumed: bool,
    code: u8,
    kind: Kind,
    word: u16,
) -> ItemNumber
    ensures { result ≡ word_number (voltages_data voltages.now) assumed code kind word }
{
    match kind {
        Kind::Raw | Kind::Status | Kind::Text => no_number(),
        Kind::Number(format) => value_number(false, false, &format, word),
        Kind::Vout => voltage_number(voltages, assumed, code, Sign::Unsigned, word),
        Kind::VoutSigned => voltage_number(voltages, assumed, code, Sign::Signed, word),
    }
}

/// A word of an output voltage.
fn voltage_number(
    voltages: &Voltages<'_>,
    assumed: bool,
    code: u8,
    sign: Sign,
    word: u16,
) -> ItemNumber
    ensures { result ≡ voltage_number assumed (voltage_format (voltages_data voltages.now) code sign) word }
{
    match voltages.format(code, sign) {
        Ok(format) => value_number(format.is_ratio, assumed, &format.number, word),
        Err(why) => no_value(no_voltage_kind(why)),
    }
}

/// A word in a format.
fn value_number(is_ratio: bool, assumed: bool, format: &NumberFormat, word: u16) -> ItemNumber
    ensures { result ≡ value_number is_ratio assumed (value_in format.now word) }
{
    match format.value(word) {
        Ok(quantity) => ItemNumber {
            numerator: quantity.num(),
            denominator: quantity.den(),
            kind: value_kind(is_ratio),
            assumed: flag(assumed),
        },
        Err(fault) => no_value(word_fault_kind(fault)),
    }
}

/// Data that are no number.
pub(crate) fn no_number() -> ItemNumber
    ensures { result ≡ no_number }
{
    no_value(0)
}

/// No value, by why there is none.
fn no_value(kind: u8) -> ItemNumber
    ensures { result ≡ no_value kind }
{
    ItemNumber {
        numerator: 0,
        denominator: 0,
        kind,
        assumed: 0,
    }
}

fn value_kind(is_ratio: bool) -> u8
    ensures { result ≡ value_kind is_ratio }
{
    if is_ratio { 2 } else { 1 }
}

fn no_voltage_kind(why: NoVoltage) -> u8
    ensures { result ≡ no_voltage_kind why }
{
    match why {
        NoVoltage::Unknown => 3,
        NoVoltage::Page => 4,
        NoVoltage::Vid => 5,
        NoVoltage::Relative => 6,
        NoVoltage::Coefficients => 7,
    }
}

fn word_fault_kind(fault: WordFault) -> u8
    ensures { result ≡ word_fault_kind fault }
{
    match fault {
        WordFault::NotANumber => 8,
        WordFault::NoCode => 9,
        WordFault::Off => 10,
    }
}
