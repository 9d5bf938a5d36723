//! Whether the parts of a command go together.
//!
//! Its rows: `tests/rows/forms.txt`.

ghost use Rattle.std.specs.Prelude.{◌≡◌, ◌≤◌, option_map, IsTrue};
ghost use Rattle.pmb_command.specs.Bus.{IsFitting, KeepsRanges};
ghost use Rattle.pmb_command.specs.Entry.{entry_parts};
ghost use Rattle.pmb_command.specs.Fitting.{has_form, ways_agree, reads_data, calls_fit, is_fixed, is_kept, are_kept, is_always_raw, is_raw, is_number, value_form, is_form, kind_fits, bit_count, is_fitting, register_form, is_length};

use crate::commands::standard;
use crate::entry::{Entry, Kind};
use crate::form::{Form, Shape};

/// Whether a command can be written, read or called.
fn has_form(shape: Shape) -> bool
    ensures { result ≡ has_form shape }
{
    shape.write.is_some() || shape.read.is_some() || shape.call.is_some()
}

/// Whether a command is read in the form in which it is written, if it is written with data.
fn ways_agree(write: Option<Form>, read: Option<Form>) -> bool
    ensures { result ≡ ways_agree write read }
{
    match (write, read) {
        (None, _) => true,
        (Some(_), None) => true,
        (Some(write), Some(read)) => write == Form::Zero || write == read,
    }
}

/// Whether what is read has data.
fn reads_data(read: Option<Form>) -> bool
    ensures { result ≡ reads_data read }
{
    match read {
        None => true,
        Some(read) => read != Form::Zero,
    }
}

/// Whether a call sends two bytes or a block, and is answered so.
const fn calls_fit(call: Option<Form>) -> bool
    ensures { result ≡ calls_fit call }
{
    matches!(call, None | Some(Form::Two | Form::Block))
}

/// Whether a profile may only drop the command's forms: PAGE, CLEAR_FAULTS, VOUT_MODE, COEFFICIENTS
/// and STATUS_CML.
const fn is_fixed(code: u8) -> bool
    ensures { result ≡ is_fixed code }
{
    matches!(code, 0x00 | 0x03 | 0x20 | 0x30 | 0x7e)
}

/// Whether there is no form, or the standard's.
fn is_kept(form: Option<Form>, standard: Option<Form>) -> bool
    ensures { result ≡ is_kept form standard }
{
    match (form, standard) {
        (None, _) => true,
        (Some(_), None) => false,
        (Some(form), Some(standard)) => form == standard,
    }
}

/// Whether each form is the one of the standard command or dropped.
fn are_kept(shape: Shape, standard: Option<Entry>) -> bool
    ensures { result ≡ are_kept shape (option_map entry_parts standard) }
{
    match standard {
        None => false,
        Some(entry) => {
            is_kept(shape.write, entry.shape.write)
                && is_kept(shape.read, entry.shape.read)
                && is_kept(shape.call, entry.shape.call)
        }
    }
}

/// Whether the command is no number, no status bits and no text: PAGE, CLEAR_FAULTS, VOUT_MODE and
/// COEFFICIENTS.
const fn is_always_raw(code: u8) -> bool
    ensures { result ≡ is_always_raw code }
{
    matches!(code, 0x00 | 0x03 | 0x20 | 0x30)
}

/// Whether the data are bytes of which nothing more is known.
const fn is_raw(kind: Kind) -> bool
    ensures { result ≡ is_raw kind }
{
    matches!(kind, Kind::Raw)
}

/// Whether the data are numbers.
pub const fn is_number(kind: Kind) -> bool
    ensures { result ≡ is_number kind }
{
    matches!(kind, Kind::Number(_) | Kind::Vout | Kind::VoutSigned)
}

/// The form of a command's value: in which it is read, or else written.
fn value_form(shape: Shape) -> Option<Form>
    ensures { result ≡ value_form shape }
{
    if shape.read.is_some() {
        shape.read
    } else {
        shape.write
    }
}

/// Whether there is a form, and it is this one.
fn is_form(form: Form, other: Option<Form>) -> bool
    ensures { result ≡ is_form form other }
{
    match other {
        None => false,
        Some(other) => form == other,
    }
}

/// Whether a number has two bytes, and status bits have one or two.
fn kind_fits(kind: Kind, form: Option<Form>) -> bool
    ensures { result ≡ kind_fits kind form }
{
    match kind {
        Kind::Raw | Kind::Text => true,
        Kind::Number(_) | Kind::Vout | Kind::VoutSigned => is_form(Form::Two, form),
        Kind::Status => is_form(Form::One, form) || is_form(Form::Two, form),
    }
}

/// How many bits the status register of a command has: 8 where its value has one byte, else 16.
pub fn bit_count(shape: Shape) -> usize
    ensures value { result ≡ bit_count (value_form shape) }
    ensures few { result ≤ 16 }
{
    if is_form(Form::One, value_form(shape)) {
        8
    } else {
        16
    }
}

/// The exponent or the coefficients of a kind's number format are in their ranges. It does nothing.
fn keeps_ranges(kind: &Kind)
    ensures { KeepsRanges kind.now }
{
    match kind {
        Kind::Number(format) => format.keeps_ranges(),
        Kind::Raw | Kind::Vout | Kind::VoutSigned | Kind::Status | Kind::Text => {}
    }
}

/// Whether the forms, the kind and the pages of a command go together.
pub fn is_fitting(entry: &Entry) -> bool
    ensures value { result ≡ is_fitting (entry_parts entry.now) }
    ensures parts { IsTrue result → IsFitting (entry_parts entry.now) }
{
    keeps_ranges(&entry.kind);
    has_form(entry.shape)
        && ways_agree(entry.shape.write, entry.shape.read)
        && reads_data(entry.shape.read)
        && calls_fit(entry.shape.call)
        && (!is_fixed(entry.code) || are_kept(entry.shape, standard(entry.code)))
        && (!is_always_raw(entry.code) || is_raw(entry.kind))
        && !(entry.code == 0x00 && entry.paged)
        && kind_fits(entry.kind, value_form(entry.shape))
}

/// The form of a command's register, which is read, or written with data.
pub fn register_form(shape: Shape) -> Option<Form>
    ensures { result ≡ register_form shape }
{
    let form = value_form(shape);
    if is_form(Form::Zero, form) {
        None
    } else {
        form
    }
}

/// Whether a register of this form has this many bytes.
pub const fn is_length(form: Option<Form>, length: usize) -> bool
    ensures { result ≡ is_length form length }
{
    match form {
        None | Some(Form::Zero) => false,
        Some(form) => form.takes(length),
    }
}
