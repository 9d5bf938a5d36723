//! Numbers with their units, and output voltages, which VOUT_MODE says how to read.
//!
//! Its rows: `tests/rows/log.txt`; `tests_json`, `src/log_lines/`.

ghost use Rattle.std.specs.Prelude.{◌≡◌, ◌+◌, ◌≤◌, ◌++◌, IfSome, length, option_map};
ghost use Rattle.pmb_value.specs.WordFault.{value_in};
ghost use Rattle.pmb_voltage.specs.Voltage.{format_under, voltages_data};
ghost use Rattle.pmb_log_data.specs.Data.{basis_says, by_mode_says, factor_says, marked_says, mode_says, no_format_says, no_page_says, number_says, of_word, quantity_says, unit_says, vout_says, word_fault_says};
ghost use Rattle.pmb_log_data.specs.Appends.{Appends};
ghost use Rattle.pmb_log_data.specs.Text.{bytes_says};

use crate::text::{append, append_byte, append_bytes};
use arrayvec::ArrayVec;
use pmb_decimal::{Digits, append_decimal};
use pmb_json_fields::Basis;
use pmb_unknown_start::KnownMode;
use pmb_value::{NumberFormat, Quantity, Sign, WordFault};
use pmb_voltage::{NoVoltage, VoltageFormat, Voltages};

/// Appends a unit after a blank, where there is one.
fn append_unit<const N: usize>(out: &mut ArrayVec<u8, N>, unit: Option<&str>)
    requires short { IfSome unit (λ u. length u.now ≤ 16) }
    requires room { length out.old.items + 17 ≤ N }
    ensures { Appends (unit_says (option_map (λ u. u.now) unit.entry)) 17 out.old.items out.new.items }
{
    if let Some(unit) = unit {
        append(out, b" ");
        append(out, unit.as_bytes());
    }
}

/// Appends a number and its unit.
fn append_value<const N: usize>(
    out: &mut ArrayVec<u8, N>,
    digits: Digits,
    unit: Option<&str>,
    quantity: &Quantity,
)
    requires short { IfSome unit (λ u. length u.now ≤ 16) }
    requires room { length out.old.items + 50 ≤ N }
    ensures { Appends (quantity_says digits (option_map (λ u. u.now) unit.entry) quantity.now) 50 out.old.items out.new.items }
{
    append_decimal(quantity, digits, out);
    append_unit(out, unit);
}

/// Why a word has no value.
fn word_fault_text(fault: WordFault) -> &'static [u8]
    ensures text { result.now ≡ word_fault_says fault }
    ensures short { length result.now ≤ 15 }
{
    match fault {
        WordFault::NotANumber => b" (not a number)",
        WordFault::NoCode => b" (no VID code)",
        WordFault::Off => b" (off)",
    }
}

/// Appends the bytes of a word, and why it has no value.
fn append_word_fault<const N: usize>(out: &mut ArrayVec<u8, N>, bytes: &[u8], fault: WordFault)
    requires few { length bytes.now ≤ 2 }
    requires room { length out.old.items + 39 ≤ N }
    ensures { Appends (bytes_says bytes.now ++ word_fault_says fault) 39 out.old.items out.new.items }
{
    append_bytes(out, bytes);
    append(out, word_fault_text(fault));
}

/// Appends the number that a word is in a format, and its unit; its bytes where it has no value.
fn append_decoded<const N: usize>(
    out: &mut ArrayVec<u8, N>,
    digits: Digits,
    unit: Option<&str>,
    bytes: &[u8],
    format: NumberFormat,
    word: u16,
)
    requires short { IfSome unit (λ u. length u.now ≤ 16) }
    requires few { length bytes.now ≤ 2 }
    requires room { length out.old.items + 50 ≤ N }
    ensures { Appends (number_says digits (option_map (λ u. u.now) unit.entry) bytes.now format word) 50 out.old.items out.new.items }
{
    match format.value(word) {
        Ok(quantity) => append_value(out, digits, unit, &quantity),
        Err(fault) => append_word_fault(out, bytes, fault),
    }
}

/// Appends the number that two bytes are in a format; another number of bytes as they are.
pub(crate) fn append_quantity<const N: usize>(
    out: &mut ArrayVec<u8, N>,
    digits: Digits,
    unit: Option<&str>,
    format: NumberFormat,
    bytes: &[u8],
)
    requires short { IfSome unit (λ u. length u.now ≤ 16) }
    requires few { length bytes.now ≤ 255 }
    requires room { length out.old.items + 773 ≤ N }
    ensures { Appends (of_word (number_says digits (option_map (λ u. u.now) unit.entry) bytes.now format) bytes.now) 773 out.old.items out.new.items }
{
    match bytes {
        [low, high] => append_decoded(
            out,
            digits,
            unit,
            bytes,
            format,
            u16::from_le_bytes([*low, *high]),
        ),
        _ => append_bytes(out, bytes),
    }
}

/// By what an output voltage is read.
#[derive(Clone, Copy)]
pub(crate) struct Reading<'a> {
    /// The digits after the point, at most.
    pub(crate) digits: Digits,
    pub(crate) code: u8,
    pub(crate) sign: Sign,
    pub(crate) voltages: Voltages<'a>,
    pub(crate) basis: Basis,
}

/// Appends what two bytes of an output voltage say; another number of bytes as they are.
pub(crate) fn append_voltage<const N: usize>(
    out: &mut ArrayVec<u8, N>,
    reading: &Reading<'_>,
    unit: Option<&str>,
    bytes: &[u8],
)
    requires short { IfSome unit (λ u. length u.now ≤ 16) }
    requires few { length bytes.now ≤ 255 }
    requires room { length out.old.items + 773 ≤ N }
    ensures { Appends (of_word (vout_says reading.now.digits (option_map (λ u. u.now) unit.entry) bytes.now (voltages_data reading.now.voltages) reading.now.basis reading.now.code reading.now.sign) bytes.now) 773 out.old.items out.new.items }
{
    match bytes {
        [low, high] => append_word(out, reading, unit, bytes, u16::from_le_bytes([*low, *high])),
        _ => append_bytes(out, bytes),
    }
}

/// Appends what a word of an output voltage says, and its bytes where that is no number.
fn append_word<const N: usize>(
    out: &mut ArrayVec<u8, N>,
    reading: &Reading<'_>,
    unit: Option<&str>,
    bytes: &[u8],
    word: u16,
)
    requires short { IfSome unit (λ u. length u.now ≤ 16) }
    requires few { length bytes.now ≤ 2 }
    requires room { length out.old.items + 75 ≤ N }
    ensures { Appends (vout_says reading.now.digits (option_map (λ u. u.now) unit.entry) bytes.now (voltages_data reading.now.voltages) reading.now.basis reading.now.code reading.now.sign word) 75 out.old.items out.new.items }
{
    match reading.voltages.mode {
        KnownMode::Known(mode) => append_by_mode(out, reading, unit, bytes, mode, word),
        KnownMode::Unknown => {
            append_bytes(out, bytes);
            append(out, b" (VOUT_MODE unknown)");
        }
        KnownMode::NoPage => {
            append_bytes(out, bytes);
            append_no_page(out, reading.voltages.page);
        }
    }
}

/// Appends why no format is that of the selected page.
fn append_no_page<const N: usize>(out: &mut ArrayVec<u8, N>, page: Option<u8>)
    requires { length out.old.items + 15 ≤ N }
    ensures { Appends (no_page_says page) 15 out.old.items out.new.items }
{
    match page {
        Some(0xff) => append(out, b" (pages differ)"),
        _ => append(out, b" (no such page)"),
    }
}

/// Appends what a word of an output voltage says under a VOUT_MODE.
fn append_by_mode<const N: usize>(
    out: &mut ArrayVec<u8, N>,
    reading: &Reading<'_>,
    unit: Option<&str>,
    bytes: &[u8],
    mode: u8,
    word: u16,
)
    requires short { IfSome unit (λ u. length u.now ≤ 16) }
    requires few { length bytes.now ≤ 2 }
    requires room { length out.old.items + 75 ≤ N }
    ensures { Appends (by_mode_says reading.now.digits (option_map (λ u. u.now) unit.entry) bytes.now reading.now.voltages.page mode reading.now.basis (format_under (voltages_data reading.now.voltages) mode reading.now.code reading.now.sign) word) 75 out.old.items out.new.items }
{
    match reading
        .voltages
        .format_under(mode, reading.code, reading.sign)
    {
        Ok(format) => append_in_format(out, reading, unit, bytes, mode, format, word),
        Err(why) => {
            append_bytes(out, bytes);
            append_no_format(out, reading.voltages.page, mode, why);
        }
    }
}

/// Appends what a word of an output voltage says in its format.
fn append_in_format<const N: usize>(
    out: &mut ArrayVec<u8, N>,
    reading: &Reading<'_>,
    unit: Option<&str>,
    bytes: &[u8],
    mode: u8,
    format: VoltageFormat,
    word: u16,
)
    requires short { IfSome unit (λ u. length u.now ≤ 16) }
    requires few { length bytes.now ≤ 2 }
    requires room { length out.old.items + 75 ≤ N }
    ensures { Appends (marked_says reading.now.digits (option_map (λ u. u.now) unit.entry) bytes.now mode reading.now.basis format.is_ratio (value_in format.number word)) 75 out.old.items out.new.items }
{
    match format.number.value(word) {
        Ok(quantity) => {
            append_factor(out, reading.digits, unit, format.is_ratio, &quantity);
            append_basis(out, mode, reading.basis);
        }
        Err(fault) => append_word_fault(out, bytes, fault),
    }
}

/// Appends a factor of VOUT_COMMAND, or a voltage.
fn append_factor<const N: usize>(
    out: &mut ArrayVec<u8, N>,
    digits: Digits,
    unit: Option<&str>,
    is_ratio: bool,
    quantity: &Quantity,
)
    requires short { IfSome unit (λ u. length u.now ≤ 16) }
    requires room { length out.old.items + 50 ≤ N }
    ensures { Appends (factor_says digits (option_map (λ u. u.now) unit.entry) is_ratio quantity.now) 50 out.old.items out.new.items }
{
    if is_ratio {
        append_decimal(quantity, digits, out);
        append(out, b" of VOUT_COMMAND");
    } else {
        append_value(out, digits, unit, quantity);
    }
}

/// Appends that the VOUT_MODE of a value is assumed, where it is.
fn append_basis<const N: usize>(out: &mut ArrayVec<u8, N>, mode: u8, basis: Basis)
    requires { length out.old.items + 23 ≤ N }
    ensures { Appends (basis_says mode basis) 23 out.old.items out.new.items }
{
    match basis {
        Basis::Told => {}
        Basis::Assumed => {
            append(out, b" (VOUT_MODE ");
            append_byte(out, mode);
            append(out, b" assumed)");
        }
    }
}

/// Appends why a VOUT_MODE gives a word no value.
fn append_mode<const N: usize>(out: &mut ArrayVec<u8, N>, mode: u8, why: &'static [u8])
    requires short { length why.now ≤ 23 }
    requires room { length out.old.items + 39 ≤ N }
    ensures { Appends (mode_says mode why.entry.now) 39 out.old.items out.new.items }
{
    append(out, b" (VOUT_MODE ");
    append_byte(out, mode);
    append(out, b" ");
    append(out, why);
    append(out, b")");
}

/// Appends why a voltage has no format, under a VOUT_MODE.
fn append_no_format<const N: usize>(
    out: &mut ArrayVec<u8, N>,
    page: Option<u8>,
    mode: u8,
    why: NoVoltage,
)
    requires { length out.old.items + 39 ≤ N }
    ensures { Appends (no_format_says page mode why) 39 out.old.items out.new.items }
{
    match why {
        NoVoltage::Unknown => append(out, b" (PAGE unknown)"),
        NoVoltage::Page => append_no_page(out, page),
        NoVoltage::Vid => append_mode(out, mode, b"VID"),
        NoVoltage::Relative => append_mode(out, mode, b"relative"),
        NoVoltage::Coefficients => append_mode(out, mode, b"DIRECT, no coefficients"),
    }
}
