//! The words of a table: modes, forms, kinds, coefficients, the format of output voltages.
//!
//! Its rows: `tests/rows/profile_text.txt`.

ghost use Rattle.std.specs.Prelude.{◌≡◌, ◌+◌, ◌≤◌, ◌++◌, Err, codes, false, length};
ghost use Rattle.std.specs.Fmt.{signed_decimal};
ghost use Rattle.pmb_profile_text.specs.Words.{direct_name, direct_word, form_word, format_words, kind_word, limit_words, mode_words, number_word, paged_word, pec_word, vid_words, vout_direct_word, vout_word};
ghost use Rattle.pmb_value.specs.Vout.{format_of};
ghost use Rattle.pmb_vid.specs.Names.{table_name};

use crate::row::{Row, append, append_number};
use arrayvec::ArrayVec;
use pmb_coefficients::Direct;
use pmb_command::{Form, Kind, PecMode};
use pmb_table::DeviceProfile;
use pmb_value::{ModeFault, NumberFormat, VidTable, VoutFormat, vout_format};

/// A word with numbers in it.
pub(crate) type Word = ArrayVec<u8, 32>;

/// Whether packets carry a packet error code.
pub(crate) fn pec_word(pec: PecMode) -> &'static [u8]
    ensures word { result.now ≡ pec_word pec }
    ensures short { length result.now ≤ 8 }
{
    match pec {
        PecMode::Off => b"off",
        PecMode::On => b"on",
        PecMode::Optional => b"optional",
    }
}

/// A form, or a hyphen for none.
pub(crate) fn form_word(form: Option<Form>) -> &'static [u8]
    ensures word { result.now ≡ form_word form }
    ensures short { length result.now ≤ 5 }
{
    match form {
        None => b"-",
        Some(Form::Zero) => b"zero",
        Some(Form::One) => b"one",
        Some(Form::Two) => b"two",
        Some(Form::Four) => b"four",
        Some(Form::Eight) => b"eight",
        Some(Form::Block) => b"block",
    }
}

/// Whether there is a value for each page.
pub(crate) fn paged_word(paged: bool) -> &'static [u8]
    ensures word { result.now ≡ paged_word paged }
    ensures short { length result.now ≤ 3 }
{
    if paged { b"yes" } else { b"no" }
}

/// A kind. A number is written as its FORMAT.
pub(crate) fn kind_word(kind: &Kind) -> Word
    ensures word { result.items ≡ kind_word kind.now }
    ensures short { length result.items ≤ 26 }
{
    match kind {
        Kind::Raw => word_of(b"raw"),
        Kind::Number(format) => number_word(format),
        Kind::Vout => word_of(b"vout"),
        Kind::VoutSigned => word_of(b"vout_signed"),
        Kind::Status => word_of(b"status"),
        Kind::Text => word_of(b"text"),
    }
}

/// The coefficients of output voltages, or that there are none.
pub(crate) fn vout_direct_word(coefficients: Option<Direct>) -> Word
    ensures word { result.items ≡ vout_direct_word coefficients }
    ensures short { length result.items ≤ 26 }
{
    match coefficients {
        None => word_of(b"none"),
        Some(direct) => direct_word(&direct),
    }
}

/// A number format, with its numbers or its table.
fn number_word(format: &NumberFormat) -> Word
    ensures word { result.items ≡ number_word format.now }
    ensures short { length result.items ≤ 26 }
{
    match format {
        NumberFormat::Linear11 => word_of(b"linear11"),
        NumberFormat::Linear11Fixed(format) => with_exponent(b"linear11:", format.exponent()),
        NumberFormat::Word(format) => vout_word(format),
        NumberFormat::Half => word_of(b"half"),
        NumberFormat::Vid(table) => vid_word(*table),
    }
}

/// A format that VOUT_MODE can name, with its numbers.
fn vout_word(format: &VoutFormat) -> Word
    ensures word { result.items ≡ vout_word format.now }
    ensures short { length result.items ≤ 26 }
{
    match format {
        VoutFormat::Unsigned(format) => with_exponent(b"ulinear16:", format.exponent()),
        VoutFormat::Signed(format) => with_exponent(b"slinear16:", format.exponent()),
        VoutFormat::Direct(direct) => direct_word(direct),
    }
}

/// A text of at most 11 bytes, which may have numbers after it.
fn word_of(text: &[u8]) -> Word
    requires { length text.now ≤ 11 }
    ensures word { result.items ≡ text.now }
    ensures short { length result.items ≤ 11 }
{
    let mut word = Word::new();
    append(&mut word, text);
    word
}

/// The name of a format, and its exponent.
fn with_exponent(name: &[u8], exponent: i8) -> Word
    requires { length name.now ≤ 10 }
    ensures word { result.items ≡ name.now ++ signed_decimal exponent }
    ensures short { length result.items ≤ 26 }
{
    let mut word = word_of(name);
    append_number(&mut word, exponent);
    word
}

/// DIRECT with its coefficients.
fn direct_word(direct: &Direct) -> Word
    ensures word { result.items ≡ direct_word direct.now }
    ensures short { length result.items ≤ 26 }
{
    let mut word = word_of(direct_name(direct));
    append_number(&mut word, direct.m());
    append(&mut word, b",");
    append_number(&mut word, direct.b());
    append(&mut word, b",");
    append_number(&mut word, direct.r());
    word
}

/// The name of DIRECT, for words with a sign or without.
fn direct_name(direct: &Direct) -> &'static [u8]
    ensures name { result.now ≡ direct_name direct.now.unsigned }
    ensures short { length result.now ≤ 8 }
{
    if direct.is_unsigned() {
        b"udirect:"
    } else {
        b"direct:"
    }
}

/// A VID table.
fn vid_word(table: VidTable) -> Word
    ensures word { result.items ≡ codes "vid:" ++ table_name table }
    ensures short { length result.items ≤ 26 }
{
    let mut word = word_of(b"vid:");
    append(&mut word, table.name().as_bytes());
    word
}

/// Appends what a VOUT_MODE says of a device's output voltages: at most 100 bytes.
pub(crate) fn append_mode(row: &mut Row, device: &DeviceProfile, mode: u8)
    requires { length row.old.items + 100 ≤ 2048 }
    ensures text { row.new.items ≡ row.old.items ++ mode_words device.now mode }
    ensures short { length row.new.items ≤ length row.old.items + 100 }
{
    append(row, limit_words(mode));
    append_format(row, device, mode % 128);
}

/// What bit 7 of a VOUT_MODE says of limits.
fn limit_words(mode: u8) -> &'static [u8]
    ensures words { result.now ≡ limit_words mode }
    ensures short { length result.now ≤ 40 }
{
    if mode >> 7 == 1 {
        b"limits are factors of VOUT_COMMAND, "
    } else {
        b""
    }
}

/// Appends which format a device's output voltages have under a VOUT_MODE: at most 60 bytes.
fn append_format(row: &mut Row, device: &DeviceProfile, mode: u8)
    requires { length row.old.items + 60 ≤ 2048 }
    ensures text { row.new.items ≡ row.old.items ++ format_words device.now.vid (format_of mode false device.now.vout_direct) }
    ensures short { length row.new.items ≤ length row.old.items + 60 }
{
    match &vout_format(mode, false, device.vout_direct()) {
        Ok(VoutFormat::Unsigned(format)) => append_linear(row, format.exponent()),
        Ok(VoutFormat::Signed(format)) => append_linear(row, format.exponent()),
        Ok(VoutFormat::Direct(_)) => append(row, b"DIRECT, with the coefficients of vout_direct"),
        Err(fault) => append(row, fault_words(device, *fault)),
    }
}

/// Appends the linear format of an exponent.
fn append_linear(row: &mut Row, exponent: i8)
    requires { length row.old.items + 60 ≤ 2048 }
    ensures text { row.new.items ≡ row.old.items ++ (codes "linear, in steps of 2^" ++ signed_decimal exponent) }
    ensures short { length row.new.items ≤ length row.old.items + 60 }
{
    append(row, b"linear, in steps of 2^");
    append_number(row, exponent);
}

/// What is said where VOUT_MODE names no format of words by itself.
fn fault_words(device: &DeviceProfile, fault: ModeFault) -> &'static [u8]
    ensures words { result.now ≡ format_words device.now.vid (Err fault) }
    ensures short { length result.now ≤ 60 }
{
    match fault {
        ModeFault::Relative => b"",
        ModeFault::Vid => vid_words(device),
        ModeFault::Ieee => b"IEEE half precision",
        ModeFault::NoCoefficients => b"DIRECT, but without vout_direct: voltages are raw",
    }
}

/// VID codes, and whether the profile tells their tables.
fn vid_words(device: &DeviceProfile) -> &'static [u8]
    ensures words { result.now ≡ vid_words device.now.vid }
    ensures short { length result.now ≤ 60 }
{
    match device.vid() {
        None => b"VID codes: voltages are raw",
        Some(_) => b"VID codes, by vid",
    }
}
