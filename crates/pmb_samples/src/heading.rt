//! The heading of samples: which columns are SCL and SDA, and which has times, by their names.

ghost use Rattle.std.specs.Prelude.{◌≡◌, ◌≤◌, length, option_copied};
ghost use Rattle.pmb_samples.specs.Heading.{emptied, emptied_wire, fits as fits_name, found_of, found_with, is_lacking as lacks, listing as listing_of, name_or as name_or_number, number_if as number_of_name, numbered_by, time_by};

use crate::name::{FieldName, column_number, column_of, field_name, id_of};
use pmb_sample_fields::{Field, Fields, Mark, Next};
use pmb_wire_names::{NamedSignal, Names, OfWire, Reason, Wires, append_names};

/// The names of SCL's and SDA's columns where their numbers are given: no field has them.
const SCL_NUMBERED: &[u8] = b"\n";

const SDA_NUMBERED: &[u8] = b"\n\n";

/// The names of the columns of a line.
#[derive(Drop)]
pub struct Headings {
    /// The column of SCL, if its number is given.
    pub scl: Option<usize>,
    /// That of SDA.
    pub sda: Option<usize>,
    /// The columns of the last line, for SCL and SDA.
    pub names: Names,
    /// The same for times, by the name that is given for these.
    pub times: Names,
}

/// What a line says of the columns of SCL and SDA.
#[derive(Drop)]
pub(crate) enum Found {
    /// It has not both.
    Nothing,
    /// Why it's not known which they are.
    Unclear(Reason),
    /// The columns of SCL and SDA.
    Wires(usize, usize),
}

impl Headings {
    ghost use Rattle.std.specs.Prelude.{◌≡◌, option_copied};
    ghost use Rattle.pmb_sample_fields.specs.Fields.{mark_byte, record_of};
    ghost use Rattle.pmb_sample_fields.specs.machine.Left.{text_of};
    ghost use Rattle.pmb_samples.specs.Heading.{begun, named_times, offered as offered_step, offered_all, read as read_step, start};

    /// No line came yet. The wires and the times have these names, or the usual ones.
    pub fn new(scl: Option<&[u8]>, sda: Option<&[u8]>, time: Option<&[u8]>) -> Headings
        ensures { result ≡ start (option_copied scl.entry) (option_copied sda.entry) (option_copied time.entry) }
    {
        let scl_number = number_if(scl);
        let sda_number = number_if(sda);
        Headings {
            scl: scl_number,
            sda: sda_number,
            names: Names::new(
                name_or(scl_number, SCL_NUMBERED, scl),
                name_or(sda_number, SDA_NUMBERED, sda),
            ),
            times: Names::new(time, None),
        }
    }

    /// Reads a line as a heading whose columns stand between commas, or between another mark.
    pub(crate) fn read(&mut self, mark: Mark, line: &[u8]) -> Found
        ensures now { self.new ≡ (read_step self.old (mark_byte mark) line.now).now }
        ensures found { result ≡ (read_step self.old (mark_byte mark) line.now).found }
    {
        self.begin();
        let is_whole = self.offer_fields(mark, line);
        if is_whole {
            found_in(&self.names)
        } else {
            Found::Nothing
        }
    }

    /// Forgets the columns of the last line, but those of given numbers.
    fn begin(&mut self)
        ensures { self.new ≡ begun self.old }
    {
        empty(&mut self.names);
        empty(&mut self.times);
        number(&mut self.names, self.scl, SCL_NUMBERED);
        number(&mut self.names, self.sda, SDA_NUMBERED);
    }

    /// Takes the fields of a line. Returns whether all can be read.
    fn offer_fields(&mut self, mark: Mark, line: &[u8]) -> bool
        ensures now { self.new ≡ offered_all self.old (record_of (mark_byte mark) line.now).fields }
        ensures whole { result ≡ (record_of (mark_byte mark) line.now).is_whole }
    {
        let mut fields = Fields::of(mark, line);
        let mut place: usize = 0;
        loop {
            match fields.next_field() {
                Next::Field(field) => {
                    self.offer(place, &field);
                    place += 1;
                }
                Next::End => return true,
                Next::Broken => return false,
            }
        }
    }

    /// Takes the name of a column, if it has one.
    fn offer(&mut self, place: usize, field: &Field<'_>)
        ensures { self.new ≡ offered_step self.old place (text_of field.now) }
    {
        let name = field_name(field);
        if fits(place, &name) {
            let id = id_of(place);
            self.names.take(&id, name.as_slice());
            self.times.take(&id, name.as_slice());
        }
    }

    /// The column of times, by the name that is given for it.
    pub(crate) fn time_column(&self) -> Result<usize, Reason>
        ensures { result ≡ named_times self.now.times }
    {
        time_of(self.times.all.as_slice(), self.times.scl.first.as_slice())
    }
}

/// The column that a name of digits is.
fn number_if(name: Option<&[u8]>) -> Option<usize>
    ensures { result ≡ number_of_name (option_copied name.entry) }
{
    match name {
        Some(name) => column_number(name),
        None => None,
    }
}

/// The name by which a wire is looked for.
fn name_or<'a>(
    number: Option<usize>,
    numbered: &'a [u8],
    name: Option<&'a [u8]>,
) -> Option<&'a [u8]>
    ensures { option_copied result ≡ name_or_number number numbered.now (option_copied name.entry) }
{
    match number {
        Some(_) => Some(numbered),
        None => name,
    }
}

/// Forgets the signals that came.
fn empty(names: &mut Names)
    ensures { names.new ≡ emptied names.old }
{
    names.all.clear();
    empty_wire(&mut names.scl);
    empty_wire(&mut names.sda);
}

fn empty_wire(wire: &mut OfWire)
    ensures { wire.new ≡ emptied_wire wire.old }
{
    wire.first.clear();
    wire.second.clear();
}

/// Takes a column whose number is given.
fn number(names: &mut Names, column: Option<usize>, name: &[u8])
    requires { length name.now ≤ 255 }
    ensures { names.new ≡ numbered_by names.old column name.now }
{
    if let Some(column) = column {
        names.take(&id_of(column), name);
    }
}

/// Whether a column has a name that may be told.
fn fits(place: usize, name: &FieldName) -> bool
    ensures { result ≡ fits_name place name.now.items }
{
    place < 65536 && name.len() > 0 && name.len() <= 255
}

/// What the columns of a line say.
fn found_in(names: &Names) -> Found
    ensures { result ≡ found_of names.now }
{
    if is_lacking(&names.scl) || is_lacking(&names.sda) {
        return Found::Nothing;
    }
    chosen(names.choose())
}

/// Whether a wire is none of the columns.
fn is_lacking(wire: &OfWire) -> bool
    ensures { result ≡ lacks wire.now }
{
    wire.first.is_empty() && wire.second.is_empty()
}

fn chosen(choice: Result<Wires, Reason>) -> Found
    ensures { result ≡ found_with choice }
{
    match choice {
        Ok(wires) => Found::Wires(
            column_of(wires.scl.as_slice()),
            column_of(wires.sda.as_slice()),
        ),
        Err(why) => Found::Unclear(why),
    }
}

/// The column of times, by all columns and those of the name.
fn time_of(all: &[NamedSignal], found: &[NamedSignal]) -> Result<usize, Reason>
    ensures { result ≡ time_by all.now found.now }
{
    match found {
        [] => Err(listing(b"the time is none of ", all)),
        [column] => Ok(column_of(column.id.as_slice())),
        [_, _, ..] => Err(listing(b"the time may be ", found)),
    }
}

/// Some words and names.
fn listing(words: &[u8], columns: &[NamedSignal]) -> Reason
    requires { length words.now ≤ 100 }
    ensures { result ≡ listing_of words.now columns.now }
{
    let mut text = Reason::new();
    let _ = text.try_extend_from_slice(words);
    append_names(&mut text, columns);
    text
}
