//! A row of a table.

ghost use Rattle.std.specs.Prelude.{◌≡◌};
ghost use Rattle.pmb_csv.specs.Columns.{value};
ghost use Rattle.pmb_csv.specs.Fields.{record_of};
ghost use Rattle.pmb_csv.specs.Left.{text_of};
ghost use Rattle.pmb_saleae.specs.Number.{number_of};
ghost use Rattle.pmb_saleae.specs.Row.{kind_of, truth};

use crate::columns::Columns;
use crate::number::{Number, read_number};
use pmb_csv::{Field, count_fields, field_at, value_at};

/// What a row is of.
#[derive(Clone, Copy, Debug, PartialEq, Eq)]
pub(crate) enum Kind {
    Start,
    Stop,
    Address,
    Data,
    Other,
}

/// A row: a line under the columns of a heading.
#[derive(Clone, Copy, Drop, Debug)]
pub(crate) struct Row<'a> {
    pub(crate) columns: Columns,
    pub(crate) line: &'a [u8],
}

impl<'a> Row<'a> {
    ghost use Rattle.std.specs.Prelude.{◌≡◌, option_copied};
    ghost use Rattle.pmb_csv.specs.Columns.{plain_of, value};
    ghost use Rattle.pmb_csv.specs.Fields.{record_of};
    ghost use Rattle.pmb_csv.specs.Left.{text_of};
    ghost use Rattle.pmb_saleae.specs.Row.{is_row, kind_in, name_of, number_in, truth, value_if};

    /// The analyzer's name.
    pub(crate) fn name(&self) -> Field<'a>
        ensures { text_of result ≡ name_of self.now.columns (record_of self.now.line.now) }
    {
        match field_at(self.line, self.columns.name) {
            Some(field) => field,
            None => Field {
                raw: b"",
                is_quoted: false,
            },
        }
    }

    /// Whether it has all columns, and no more.
    pub(crate) fn is_whole(&self) -> bool
        ensures { result ≡ is_row self.now.columns (record_of self.now.line.now) }
    {
        match count_fields(self.line) {
            Some(count) => count == self.columns.count,
            None => false,
        }
    }

    /// What it is of.
    pub(crate) fn kind(&self) -> Kind
        ensures { result ≡ kind_in self.now.columns (record_of self.now.line.now) }
    {
        match field_at(self.line, self.columns.kind) {
            Some(field) => kind_by(&field),
            None => Kind::Other,
        }
    }

    /// When it began; `None` where this is no time, as it has a quote.
    pub(crate) fn start_time(&self) -> Option<&'a [u8]>
        ensures { option_copied result ≡ plain_of (value_if self.now.columns.start_time (record_of self.now.line.now)) }
    {
        match self.columns.start_time {
            Some(place) => value_at(self.line, place),
            None => Some(b""),
        }
    }

    /// Its number, where it has one.
    pub(crate) fn number(&self) -> Option<Number>
        ensures { result ≡ number_in self.now.columns (record_of self.now.line.now) }
    {
        match self.kind() {
            Kind::Address => number_at(self.line, self.columns.address),
            Kind::Data => number_at(self.line, self.columns.byte),
            Kind::Start => None,
            Kind::Stop => None,
            Kind::Other => None,
        }
    }

    /// Whether its byte was acknowledged.
    pub(crate) fn ack(&self) -> Option<bool>
        ensures { result ≡ truth (value self.now.columns.ack (record_of self.now.line.now)) }
    {
        truth_at(self.line, self.columns.ack)
    }

    /// Whether its address reads.
    pub(crate) fn read(&self) -> Option<bool>
        ensures { result ≡ truth (value self.now.columns.read (record_of self.now.line.now)) }
    {
        truth_at(self.line, self.columns.read)
    }
}

fn kind_by(field: &Field<'_>) -> Kind
    ensures { result ≡ kind_of (text_of field.now) }
{
    if field.is(b"start") {
        Kind::Start
    } else if field.is(b"stop") {
        Kind::Stop
    } else if field.is(b"address") {
        Kind::Address
    } else if field.is(b"data") {
        Kind::Data
    } else {
        Kind::Other
    }
}

fn number_at(line: &[u8], place: usize) -> Option<Number>
    ensures { result ≡ number_of (value place (record_of line.now)) }
{
    match value_at(line, place) {
        Some(text) => read_number(text),
        None => None,
    }
}

fn truth_at(line: &[u8], place: usize) -> Option<bool>
    ensures { result ≡ truth (value place (record_of line.now)) }
{
    match field_at(line, place) {
        Some(field) => truth_by(&field),
        None => None,
    }
}

fn truth_by(field: &Field<'_>) -> Option<bool>
    ensures { result ≡ truth (text_of field.now) }
{
    if field.is(b"true") {
        Some(true)
    } else if field.is(b"false") {
        Some(false)
    } else {
        None
    }
}
