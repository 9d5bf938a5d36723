//! What the lines of samples give: what both wires have at a time, and faults.

ghost use Rattle.std.specs.Prelude.{◌≡◌, ◌≤◌, length, option_copied, option_map, take};
ghost use Rattle.pmb_sample_fields.specs.machine.Columns.{row_in};
ghost use Rattle.pmb_samples.specs.Source.{columns_in, columns_of, in_unit, is_blank_text, is_sigrok_head, name_for_times, name_text, no_rows_yet, no_unit, says_nothing as nothing_said, time_wanted, times_by, told_name, unit_or_seconds, vec_of};

use crate::heading::{Found, Headings};
use crate::name::column_number;
use crate::row::{Heard, Rows, Times, Why};
use pmb_sample_fields::{Columns, Mark, Row, Unit, Volts, read_row, unit_said};
use pmb_sigrok_line::Rate;
use pmb_wire_names::Reason;
use pmb_wires::Levels;
use pmb_words::behind;

/// Where a line stands.
#[derive(Clone, Copy, Debug, PartialEq, Eq)]
pub enum Place {
    /// In front of the rows, and of the heading if there is one.
    Head,
    /// Behind it.
    Rows,
    /// Where nothing more is read.
    Over,
}

/// Which column has the times.
#[derive(Clone, Copy, Drop, Debug)]
pub enum Time<'a> {
    /// The first, if it is no wire.
    First,
    /// None: rows are counted.
    Rows,
    /// That of this name or number.
    Column(&'a [u8]),
}

/// The same, with a number read.
#[derive(Clone, Copy, Debug, PartialEq, Eq)]
pub enum TimeWanted {
    /// The first, if it is no wire.
    First,
    /// None: rows are counted.
    Rows,
    /// That of a number, counted from 0.
    Number(usize),
    /// That of a name.
    Named,
}

/// Where times are.
#[derive(Clone, Copy, Debug)]
pub(crate) enum TimesAt {
    /// Rows are counted.
    Rows(Rate),
    /// In a column.
    Column(usize),
}

/// How samples are to be read.
#[derive(Clone, Copy, Drop, Debug)]
pub struct Options<'a> {
    /// The name or number of SCL's column.
    pub scl: Option<&'a [u8]>,
    /// That of SDA's.
    pub sda: Option<&'a [u8]>,
    /// Which column has the times.
    pub time: Time<'a>,
    /// Samples in a second, if times are whole numbers of samples.
    pub rate: Option<Rate>,
    /// The volts of the levels, if they are not `0` and `1`.
    pub volts: Option<Volts>,
}

/// The lines of samples, one after the other.
#[derive(Drop)]
pub struct SampleLines {
    /// How many came.
    pub line: u64,
    /// Where the last one stands.
    pub place: Place,
    /// libsigrok wrote them.
    pub is_sigrok: bool,
    /// The names of columns.
    pub headings: Headings,
    /// Which column has the times.
    pub time: TimeWanted,
    /// Samples in a second.
    pub rate: Option<Rate>,
    /// The rows: of no columns until both wires are known.
    pub rows: Rows,
}

impl SampleLines {
    ghost use Rattle.std.specs.Prelude.{◌≡◌, option_map};
    ghost use Rattle.pmb_sample_fields.specs.Fields.{mark_byte};
    ghost use Rattle.pmb_samples.specs.Heading.{read as read_heading};
    ghost use Rattle.pmb_samples.specs.Rows.{failed, hear as hear_row_step};
    ghost use Rattle.pmb_samples.specs.Source.{begun, begun_at, begun_by_numbers, begun_plain, begun_rows, fresh, head_line, is_wires, items_of, next_line, no_heading as no_heading_step, no_unit, noticed, over, times_at, times_for, with_headings, with_rows, without_heading};

    /// Nothing came yet.
    pub fn new(options: &Options<'_>) -> SampleLines
        ensures { result ≡ begun_by_numbers (fresh options.now) }
    {
        let mut lines = SampleLines::of(options);
        lines.begin_by_numbers();
        lines
    }

    /// Nothing came yet, and no column is known.
    fn of(options: &Options<'_>) -> SampleLines
        ensures { result ≡ fresh options.now }
    {
        SampleLines {
            line: 0,
            place: Place::Head,
            is_sigrok: false,
            headings: Headings::new(options.scl, options.sda, time_name(options.time)),
            time: wanted(options.time),
            rate: options.rate,
            rows: no_rows(options.volts),
        }
    }

    /// Begins the rows where both wires are columns by their numbers.
    fn begin_by_numbers(&mut self)
        ensures { self.new ≡ begun_by_numbers self.old }
    {
        if let (Some(scl), Some(sda)) = (self.headings.scl, self.headings.sda) {
            self.begin_without_heading(scl, sda);
        }
    }

    /// Begins the rows without a heading, if there are two wires and times.
    fn begin_without_heading(&mut self, scl: usize, sda: usize)
        ensures { self.new ≡ without_heading self.old scl sda }
    {
        if scl == sda {
            return;
        }
        if let Some(at) = self.times_at(scl, sda) {
            self.begin_plain(scl, sda, at);
        }
    }

    /// Begins them.
    fn begin_plain(&mut self, scl: usize, sda: usize, at: TimesAt)
        ensures { self.new ≡ begun_plain self.old scl sda at }
    {
        let columns = columns_at(scl, sda, at);
        let times = times_of(at, self.rate, Unit::Seconds);
        self.begin_rows(columns, times, None);
    }

    /// Counts a line.
    pub(crate) fn count(&mut self)
        ensures { self.new ≡ next_line self.old }
    {
        self.line = self.line.saturating_add(1);
    }

    /// Notices that libsigrok wrote the lines.
    pub(crate) fn notice(&mut self, text: &[u8])
        ensures { self.new ≡ noticed self.old text.now }
    {
        self.is_sigrok = self.is_sigrok || is_sigrok(text);
    }

    /// Takes a line in front of the rows. Returns a fault in words.
    pub(crate) fn hear_head(&mut self, text: &[u8]) -> Option<Reason>
        ensures now { self.new ≡ (head_line self.old text.now).now }
        ensures why { option_map items_of result ≡ (head_line self.old text.now).fault }
    {
        match self.headings.read(Mark::Comma, text) {
            Found::Wires(scl, sda) => self.begin(scl, sda, text),
            Found::Unclear(why) => self.hear_other(Some(why), text),
            Found::Nothing => self.hear_other(None, text),
        }
    }

    /// Takes a line that is no heading, or none that is clear.
    fn hear_other(&mut self, unclear: Option<Reason>, text: &[u8]) -> Option<Reason>
        ensures now { self.new ≡ (no_heading_step self.old (option_map items_of unclear) text.now).now }
        ensures why { option_map items_of result ≡ (no_heading_step self.old (option_map items_of unclear) text.now).fault }
    {
        if self.would_be(Mark::Semicolon, text) {
            return Some(reason(b"has ; between its columns"));
        }
        if self.would_be(Mark::Tab, text) {
            return Some(reason(b"has TAB between its columns"));
        }
        if unclear.is_some() {
            self.place = Place::Over;
        }
        unclear
    }

    /// Whether a line would be a heading with another mark between its columns.
    fn would_be(&mut self, mark: Mark, text: &[u8]) -> bool
        ensures now { self.new ≡ with_headings self.old (read_heading self.old.headings (mark_byte mark) text.now).now }
        ensures is { result ≡ is_wires (read_heading self.old.headings (mark_byte mark) text.now).found }
    {
        match self.headings.read(mark, text) {
            Found::Wires(_, _) => true,
            Found::Unclear(_) => false,
            Found::Nothing => false,
        }
    }

    /// Begins what stands behind the heading, if there are times.
    fn begin(&mut self, scl: usize, sda: usize, text: &[u8]) -> Option<Reason>
        ensures now { self.new ≡ (begun self.old scl sda text.now).now }
        ensures why { option_map items_of result ≡ (begun self.old scl sda text.now).fault }
    {
        match self.times_for(scl, sda) {
            Ok(at) => self.begin_at(scl, sda, at, text),
            Err(why) => {
                self.place = Place::Over;
                Some(why)
            }
        }
    }

    /// The same, where times are there.
    fn begin_at(&mut self, scl: usize, sda: usize, at: TimesAt, text: &[u8]) -> Option<Reason>
        ensures now { self.new ≡ (begun_at self.old scl sda at text.now).now }
        ensures why { option_map items_of result ≡ (begun_at self.old scl sda at text.now).fault }
    {
        let columns = columns_at(scl, sda, at);
        let row = read_row(&columns, text);
        let name = name_of(&row);
        let said = unit_said(name);
        if needs_unit(at, self.rate) && self.is_sigrok && said.is_none() {
            return self.give_up(name);
        }
        let times = times_of(at, self.rate, unit_or(said));
        self.begin_rows(columns, times, count_of(&row));
        None
    }

    /// Reads nothing more: times have no unit.
    fn give_up(&mut self, name: &[u8]) -> Option<Reason>
        ensures now { self.new ≡ (over self.old (no_unit name.now)).now }
        ensures why { option_map items_of result ≡ (over self.old (no_unit name.now)).fault }
    {
        self.place = Place::Over;
        Some(unitless(name))
    }

    /// Begins the rows.
    fn begin_rows(&mut self, columns: Columns, times: Times, most: Option<usize>)
        ensures { self.new ≡ begun_rows self.old columns times most }
    {
        self.rows.columns = columns;
        self.rows.times = times;
        self.rows.most = most;
        self.place = Place::Rows;
    }

    /// Where times are, or why there are none.
    fn times_for(&self, scl: usize, sda: usize) -> Result<TimesAt, Reason>
        ensures { result ≡ times_for self.now scl sda }
    {
        match self.time {
            TimeWanted::Named => match self.headings.time_column() {
                Ok(column) => Ok(TimesAt::Column(column)),
                Err(why) => Err(why),
            },
            _ => match self.times_at(scl, sda) {
                Some(at) => Ok(at),
                None => Err(reason(b"there are no times without --rate")),
            },
        }
    }

    /// Where times are, if that is not a name's column.
    fn times_at(&self, scl: usize, sda: usize) -> Option<TimesAt>
        ensures { result ≡ times_at self.now.time self.now.rate scl sda }
    {
        match self.time {
            TimeWanted::First if scl != 0 && sda != 0 => Some(TimesAt::Column(0)),
            TimeWanted::First | TimeWanted::Rows => match self.rate {
                Some(rate) => Some(TimesAt::Rows(rate)),
                None => None,
            },
            TimeWanted::Number(column) => Some(TimesAt::Column(column)),
            TimeWanted::Named => None,
        }
    }

    /// Takes a row.
    pub(crate) fn hear_row(&mut self, text: &[u8]) -> Heard
        ensures now { self.new ≡ with_rows self.old (hear_row_step self.old.rows self.old.line text.now).now }
        ensures heard { result ≡ (hear_row_step self.old.rows self.old.line text.now).heard }
    {
        self.rows.hear(self.line, text)
    }

    /// A line behind the heading can't be read.
    pub(crate) fn fail_row(&mut self, why: Why) -> Heard
        ensures now { self.new ≡ with_rows self.old (failed self.old.rows why).now }
        ensures heard { result ≡ (failed self.old.rows why).heard }
    {
        self.rows.fail(why)
    }
}

/// Whether a line says nothing: a remark, or blanks.
pub(crate) fn says_nothing(text: &[u8]) -> bool
    ensures { result ≡ nothing_said text.now }
{
    match text {
        [b';' | b'#', ..] => true,
        _ => is_blank(text),
    }
}

/// Whether a text has blanks alone.
fn is_blank(text: &[u8]) -> bool
    ensures { result ≡ is_blank_text text.now }
{
    let mut left = text;
    while let [byte, rest @ ..] = left {
        if *byte != b' ' && *byte != b'\t' {
            return false;
        }
        left = rest;
    }
    true
}

/// Whether a line is the first one that libsigrok writes.
fn is_sigrok(text: &[u8]) -> bool
    ensures { result ≡ is_sigrok_head text.now }
{
    behind(b"; CSV generated by libsigrok", text).is_some()
}

/// The name that is given for the times.
fn time_name(time: Time<'_>) -> Option<&[u8]>
    ensures { option_copied result ≡ name_for_times time.entry }
{
    match time {
        Time::Column(name) => Some(name),
        Time::First | Time::Rows => None,
    }
}

/// Which column has the times.
fn wanted(time: Time<'_>) -> TimeWanted
    ensures { result ≡ time_wanted time.entry }
{
    match time {
        Time::First => TimeWanted::First,
        Time::Rows => TimeWanted::Rows,
        Time::Column(name) => match column_number(name) {
            Some(column) => TimeWanted::Number(column),
            None => TimeWanted::Named,
        },
    }
}

/// No rows yet, and no columns.
fn no_rows(volts: Option<Volts>) -> Rows
    ensures { result ≡ no_rows_yet volts }
{
    Rows {
        columns: Columns {
            scl: 0,
            sda: 0,
            time: 0,
        },
        most: None,
        times: Times::In(Unit::Seconds),
        volts,
        count: 0,
        last: None,
        forms: None,
        levels: Levels {
            scl: None,
            sda: None,
        },
    }
}

/// The columns of the wires and the times.
fn columns_at(scl: usize, sda: usize, at: TimesAt) -> Columns
    ensures { result ≡ columns_of scl sda at }
{
    match at {
        TimesAt::Rows(_) => Columns { scl, sda, time: 0 },
        TimesAt::Column(time) => Columns { scl, sda, time },
    }
}

/// What the times are: at a rate, or in a unit.
fn times_of(at: TimesAt, rate: Option<Rate>, unit: Unit) -> Times
    ensures { result ≡ times_by at rate unit }
{
    match (at, rate) {
        (TimesAt::Rows(rate), _) => Times::Rows(rate),
        (TimesAt::Column(_), Some(rate)) => Times::Samples(rate),
        (TimesAt::Column(_), None) => Times::In(unit),
    }
}

/// Whether times are in a unit.
fn needs_unit(at: TimesAt, rate: Option<Rate>) -> bool
    ensures { result ≡ in_unit at rate }
{
    match (at, rate) {
        (TimesAt::Column(_), None) => true,
        (TimesAt::Column(_), Some(_)) => false,
        (TimesAt::Rows(_), _) => false,
    }
}

fn unit_or(said: Option<Unit>) -> Unit
    ensures { result ≡ unit_or_seconds said }
{
    match said {
        Some(unit) => unit,
        None => Unit::Seconds,
    }
}

/// The name of the column of times.
fn name_of<'a>(row: &Option<Row<'a>>) -> &'a [u8]
    ensures { result.now ≡ name_text (option_map row_in row.now) }
{
    match row {
        Some(row) => match row.time {
            Some(name) => name,
            None => b"",
        },
        None => b"",
    }
}

/// How many columns a heading has.
fn count_of(row: &Option<Row<'_>>) -> Option<usize>
    ensures { result ≡ option_map columns_in (option_map row_in row.now) }
{
    match row {
        Some(row) => Some(row.count),
        None => None,
    }
}

fn reason(text: &[u8]) -> Reason
    requires { length text.now ≤ 100 }
    ensures { result ≡ vec_of text.now }
{
    let mut reason = Reason::new();
    let _ = reason.try_extend_from_slice(text);
    reason
}

/// Times of a name, of which at most 255 bytes are told, have no unit.
fn unitless(name: &[u8]) -> Reason
    ensures { result.items ≡ no_unit name.now }
{
    let mut reason = Reason::new();
    let _ = reason.try_extend_from_slice(told(name));
    let _ = reason.try_extend_from_slice(b" has no unit");
    reason
}

/// At most 255 bytes of a name.
fn told(name: &[u8]) -> &[u8]
    ensures value { result.now ≡ told_name name.now }
    ensures short { length result.now ≤ 255 }
{
    front(name, 255)
}

/// At most so many bytes of a text.
#[tactic(auto, using(std::proofs::lemmas::List::take_all))]
fn front(text: &[u8], most: usize) -> &[u8]
    ensures value { result.now ≡ take most text.now }
    ensures short { length result.now ≤ most }
{
    if text.len() <= most {
        return text;
    }
    let (front, _) = text.split_at(most);
    front
}
