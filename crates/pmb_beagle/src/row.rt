//! A row of an export.

ghost use Rattle.std.specs.Prelude.{◌≡◌, false, is_some, option_copied};
ghost use Rattle.pmb_beagle.specs.Export.{ends_with, ends_with_if, is_capture, is_count, without_unit};
ghost use Rattle.pmb_csv.specs.Columns.{has_quote, value};
ghost use Rattle.pmb_csv.specs.Fields.{record_of};
ghost use Rattle.pmb_csv.specs.Left.{text_of};
ghost use Rattle.pmb_words.specs.Numbers.{decimal_of};
ghost use Rattle.pmb_words.specs.Parts.{after};

use crate::columns::Columns;
use crate::time::{Time, time_of};
use crate::transaction::{Marks, Transaction, count_bytes, read_byte, read_marks};
use pmb_csv::{Field, count_fields, field_at, value_at};
use pmb_recording::WireByte;
use pmb_words::{behind, decimal};

/// What a row says.
#[derive(Clone, Copy, Drop, Debug)]
pub(crate) enum Says<'a> {
    OfTransaction(Transaction<'a>),
    /// The beginning or the end of a capture.
    OfCapture,
    /// Something that is not known.
    OfOther,
}

/// A row: a line under the columns of a heading.
#[derive(Clone, Copy, Drop, Debug)]
pub(crate) struct Row<'a> {
    pub(crate) columns: Columns,
    pub(crate) line: &'a [u8],
}

impl<'a> Row<'a> {
    ghost use Rattle.std.specs.Prelude.{◌≡◌, IfSome, option_map};
    ghost use Rattle.pmb_beagle.specs.Bytes.{byte_in};
    ghost use Rattle.pmb_beagle.specs.Export.{ends_packet, field_if, has_length, index_of, is_marked, is_row, marks_of, says_of, start_time, transaction_of};
    ghost use Rattle.pmb_beagle.specs.Views.{IsCounted, SaysCounted, says_from, transaction_from};
    ghost use Rattle.pmb_csv.specs.Columns.{value};
    ghost use Rattle.pmb_csv.specs.Fields.{record_of};

    /// Whether it has all columns, and no more.
    fn is_whole(&self) -> bool
        ensures { result ≡ is_row self.now.columns (record_of self.now.line.now) }
    {
        match count_fields(self.line) {
            Some(count) => count == self.columns.count,
            None => false,
        }
    }

    /// Whether it ends a packet, whatever else it has: its marks end in `P`.
    pub(crate) fn ends_packet(&self) -> bool
        ensures { result ≡ ends_packet self.now.columns (record_of self.now.line.now) }
    {
        self.is_whole() && ends_in_stop(value_at(self.line, self.columns.marks))
    }

    /// Its number, where it has all columns.
    pub(crate) fn index(&self) -> Option<u64>
        ensures { result ≡ index_of self.now.columns (record_of self.now.line.now) }
    {
        if self.is_whole() {
            number_at(self.line, self.columns.index)
        } else {
            None
        }
    }

    /// What it says; `None` where it is of a transaction, and has not its form.
    pub(crate) fn says(&self) -> Option<Says<'a>>
        ensures says { option_map says_from result ≡ says_of self.now.columns (record_of self.now.line.now) }
        ensures counted { IfSome result SaysCounted }
    {
        let Some(name) = field_at(self.line, self.columns.sort) else {
            return Some(Says::OfOther);
        };
        if name.is(b"Write Transaction") {
            Some(Says::OfTransaction(self.transaction(false)?))
        } else if name.is(b"Read Transaction") {
            Some(Says::OfTransaction(self.transaction(true)?))
        } else if names_capture(&name) {
            Some(Says::OfCapture)
        } else {
            Some(Says::OfOther)
        }
    }

    /// The transaction that it tells.
    fn transaction(&self, reads: bool) -> Option<Transaction<'a>>
        ensures is { option_map transaction_from result ≡ transaction_of reads self.now.columns (record_of self.now.line.now) }
        ensures counted { IfSome result IsCounted }
    {
        let marks = self.marks()?;
        let address = self.address()?;
        let bytes = value_at(self.line, self.columns.bytes)?;
        let length = count_bytes(bytes)?;
        Some(Transaction {
            reads,
            marks,
            address,
            bytes,
            length,
        })
    }

    fn marks(&self) -> Option<Marks>
        ensures { result ≡ marks_of (value self.now.columns.marks (record_of self.now.line.now)) }
    {
        match field_at(self.line, self.columns.marks) {
            Some(field) => read_marks(&field),
            None => Some(Marks {
                has_start: false,
                has_stop: false,
            }),
        }
    }

    fn address(&self) -> Option<WireByte>
        ensures { result ≡ byte_in (value self.now.columns.address (record_of self.now.line.now)) }
    {
        match value_at(self.line, self.columns.address) {
            Some(text) => read_byte(text),
            None => None,
        }
    }

    /// Whether it is marked as an error.
    pub(crate) fn is_marked(&self) -> bool
        ensures { result ≡ is_marked (field_if self.now.columns.error (record_of self.now.line.now)) }
    {
        let Some(place) = self.columns.error else {
            return false;
        };
        match field_at(self.line, place) {
            Some(field) => !field.is(b""),
            None => false,
        }
    }

    /// Whether its column of lengths, where there is one, has this number of bytes.
    pub(crate) fn has_length(&self, count: usize) -> bool
        ensures { result ≡ has_length (field_if self.now.columns.length (record_of self.now.line.now)) count }
    {
        let Some(place) = self.columns.length else {
            return true;
        };
        match field_at(self.line, place) {
            Some(field) => is_length(&field, count),
            None => true,
        }
    }

    /// Its time, as it is told: empty where none is.
    pub(crate) fn time(&self) -> Time
        ensures { result.items ≡ start_time self.now.columns (record_of self.now.line.now) }
    {
        let Some(place) = self.columns.time else {
            return Time::new();
        };
        match value_at(self.line, place) {
            Some(text) => time_of(text),
            None => Time::new(),
        }
    }
}

fn number_at(line: &[u8], place: usize) -> Option<u64>
    ensures { result ≡ decimal_of (value place (record_of line.now)) }
{
    match value_at(line, place) {
        Some(text) => decimal(text),
        None => None,
    }
}

/// Whether marks end in `P`.
fn ends_in_stop(marks: Option<&[u8]>) -> bool
    ensures { result ≡ ends_with_if 80 (option_copied marks.entry) }
{
    match marks {
        Some(text) => last_is(b'P', text),
        None => false,
    }
}

/// Whether a text ends with a byte.
fn last_is(last: u8, text: &[u8]) -> bool
    ensures { result ≡ ends_with last text.now }
{
    let mut is_last = false;
    let mut left = text;
    while let [byte, rest @ ..] = left {
        is_last = *byte == last;
        left = rest;
    }
    is_last
}

/// `Capture started`, `Capture stopped`, whatever follows.
fn names_capture(field: &Field<'_>) -> bool
    ensures { result ≡ is_capture (text_of field.now) }
{
    begins_with(b"Capture started", field) || begins_with(b"Capture stopped", field)
}

/// Whether a field begins with a text, which has no quote.
fn begins_with(front: &[u8], field: &Field<'_>) -> bool
    requires { has_quote front.now ≡ false }
    ensures { result ≡ is_some (after front.now (text_of field.now)) }
{
    behind(front, field.raw).is_some()
}

/// Whether a field has this number of bytes, `4 B`.
fn is_length(field: &Field<'_>, count: usize) -> bool
    ensures { result ≡ is_count (decimal_of (without_unit (text_of field.now))) count }
{
    let Some(text) = field.plain() else {
        return false;
    };
    match decimal(digits_of(text)) {
        Some(number) => number == count as u64,
        None => false,
    }
}

/// `4` of `4 B` and `4B`.
fn digits_of(text: &[u8]) -> &[u8]
    ensures { result.now ≡ without_unit text.now }
{
    if let Some(digits) = text.strip_suffix(b" B") {
        return digits;
    }
    match text.strip_suffix(b"B") {
        Some(digits) => digits,
        None => text,
    }
}
