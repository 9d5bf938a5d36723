//! Rows of samples: what the wires have at a time, and faults.

ghost use Rattle.std.specs.Prelude.{◌≡◌, ◌≤◌, ℕ, length, option_copied, option_map};
ghost use Rattle.pmb_sample_fields.specs.machine.Columns.{row_in};
ghost use Rattle.pmb_samples.specs.Rows.{begins_number as begins_number_text, begins_row, failed, form_of_scl, form_of_sda, hear as hear_step, is_behind, judged, moment_of, read as read_sample, sample_by, take as take_step, time_of, too_many};

use crate::levels::{Form, Forms, form_by, level_by};
use pmb_sample_fields::{Columns, Row, Unit, Volts, read_row, time_at, time_in, time_of_row};
use pmb_sigrok_line::Rate;
use pmb_wires::{Edge, Level, Levels, Moment};

/// What the times of rows are.
#[derive(Clone, Copy, Debug)]
pub enum Times {
    /// Rows are counted, at a rate.
    Rows(Rate),
    /// Samples, at a rate.
    Samples(Rate),
    /// Times in a unit.
    In(Unit),
}

/// Why a line is a fault.
#[derive(Clone, Copy, Debug, PartialEq, Eq)]
pub enum Why {
    /// It is no line that may stand there.
    MakesNoSense,
    /// It contradicts lines before it.
    DoesNotFollow,
    /// It has this many fields, and not that many.
    HasColumns(usize, usize),
}

/// What a row gives.
#[derive(Clone, Copy, Debug)]
pub enum Heard {
    /// Nothing: it says nothing.
    Nothing,
    /// What the wires have at a time.
    Moment(Moment),
    /// A fault.
    Fault(Why),
}

/// What a row has: a time, levels, and how these are written.
#[derive(Clone, Copy, Debug)]
pub(crate) struct Sample {
    /// The time, in femtoseconds.
    pub time: u128,
    /// The level of SCL.
    pub scl: Level,
    /// The level of SDA.
    pub sda: Level,
    /// How they are written.
    pub forms: Forms,
}

/// The rows of a recording, one after the other.
#[derive(Clone, Copy, Debug)]
pub struct Rows {
    /// The columns.
    pub columns: Columns,
    /// How many columns the heading has, if there is one.
    pub most: Option<usize>,
    /// What the times are.
    pub times: Times,
    /// The volts that are given.
    pub volts: Option<Volts>,
    /// How many rows came.
    pub count: u64,
    /// The time of the last one that has one.
    pub last: Option<u128>,
    /// How the levels are written, if a row has said so.
    pub forms: Option<Forms>,
    /// The levels behind the last row: none behind a fault.
    pub levels: Levels,
}

impl Rows {
    /// Takes a line.
    pub(crate) fn hear(&mut self, line: u64, text: &[u8]) -> Heard
        ensures now { self.new ≡ (hear_step self.old line text.now).now }
        ensures heard { result ≡ (hear_step self.old line text.now).heard }
    {
        let row = read_row(&self.columns, text);
        let sample = self.sample_of(&row);
        if sample.is_none() && !self.is_row(text) {
            return Heard::Nothing;
        }
        self.count = self.count.saturating_add(1);
        self.judge(line, &row, sample)
    }

    /// A line can't be read.
    pub(crate) fn fail(&mut self, why: Why) -> Heard
        ensures now { self.new ≡ (failed self.old why).now }
        ensures heard { result ≡ (failed self.old why).heard }
    {
        self.levels = Levels {
            scl: None,
            sda: None,
        };
        Heard::Fault(why)
    }

    /// Whether a line of another form is a row: each behind the first row, and in front of it one
    /// behind a heading that begins as a number does.
    fn is_row(&self, text: &[u8]) -> bool
        ensures { result ≡ begins_row self.now text.now }
    {
        self.count > 0 || (self.most.is_some() && begins_number(text))
    }

    /// Takes a row that has a sample or none.
    fn judge(&mut self, line: u64, row: &Option<Row<'_>>, sample: Option<Sample>) -> Heard
        ensures now { self.new ≡ (judged self.old line (option_map row_in row.now) sample).now }
        ensures heard { result ≡ (judged self.old line (option_map row_in row.now) sample).heard }
    {
        if let Some(why) = self.more_columns(row) {
            return self.fail(why);
        }
        match sample {
            Some(sample) => self.take(line, &sample),
            None => self.fail(Why::MakesNoSense),
        }
    }

    /// Whether a row has more fields than the heading.
    fn more_columns(&self, row: &Option<Row<'_>>) -> Option<Why>
        ensures { result ≡ too_many self.now.most (option_map row_in row.now) }
    {
        match (row, self.most) {
            (Some(row), Some(most)) if row.count > most => {
                Some(Why::HasColumns(row.count, most))
            }
            _ => None,
        }
    }

    /// Takes what a row has.
    fn take(&mut self, line: u64, sample: &Sample) -> Heard
        ensures now { self.new ≡ (take_step self.old line sample.now).now }
        ensures heard { result ≡ (take_step self.old line sample.now).heard }
    {
        let follows = self.follows(sample.time);
        self.last = Some(sample.time);
        self.forms = Some(sample.forms);
        if !follows {
            return self.fail(Why::DoesNotFollow);
        }
        self.levels = Levels {
            scl: Some(sample.scl),
            sda: Some(sample.sda),
        };
        Heard::Moment(moment_at(line, sample))
    }

    /// Whether a time is behind the last one.
    fn follows(&self, time: u128) -> bool
        ensures { result ≡ is_behind self.now.last time }
    {
        match self.last {
            Some(last) => time > last,
            None => true,
        }
    }

    /// What a row has, if it is one.
    fn sample_of(&self, row: &Option<Row<'_>>) -> Option<Sample>
        ensures { result ≡ sample_by self.now (option_map row_in row.now) }
    {
        match row {
            Some(row) => self.read(row),
            None => None,
        }
    }

    fn read(&self, row: &Row<'_>) -> Option<Sample>
        ensures { result ≡ read_sample self.now (row_in row.now) }
    {
        let forms = Forms {
            scl: form_by(self.form_of_scl(), self.volts, row.scl),
            sda: form_by(self.form_of_sda(), self.volts, row.sda),
        };
        let time = self.time_of(row.time)?;
        let scl = level_by(forms.scl, self.volts, self.levels.scl, row.scl)?;
        let sda = level_by(forms.sda, self.volts, self.levels.sda, row.sda)?;
        Some(Sample {
            time,
            scl,
            sda,
            forms,
        })
    }

    fn form_of_scl(&self) -> Option<Form>
        ensures { result ≡ form_of_scl self.now.forms }
    {
        match self.forms {
            Some(forms) => Some(forms.scl),
            None => None,
        }
    }

    fn form_of_sda(&self) -> Option<Form>
        ensures { result ≡ form_of_sda self.now.forms }
    {
        match self.forms {
            Some(forms) => Some(forms.sda),
            None => None,
        }
    }

    /// The time of a row.
    fn time_of(&self, text: Option<&[u8]>) -> Option<u128>
        ensures { result ≡ time_of self.now.times self.now.count (option_copied text.entry) }
    {
        match (self.times, text) {
            (Times::Rows(rate), _) => Some(time_of_row(rate, self.count)),
            (Times::Samples(rate), Some(text)) => time_at(rate, text),
            (Times::In(unit), Some(text)) => time_in(unit, text),
            (Times::Samples(_), None) => None,
            (Times::In(_), None) => None,
        }
    }
}

/// What both wires have at the time of a row.
fn moment_at(line: u64, sample: &Sample) -> Moment
    ensures { result ≡ moment_of line sample.now }
{
    Moment {
        time: sample.time,
        scl: Some(Edge {
            line,
            level: sample.scl,
        }),
        sda: Some(Edge {
            line,
            level: sample.sda,
        }),
    }
}

/// Whether a text begins with a digit, a sign or a point.
fn begins_number(text: &[u8]) -> bool
    ensures { result ≡ begins_number_text text.now }
{
    match text {
        [b'0'..=b'9' | b'-' | b'+' | b'.', ..] => true,
        _ => false,
    }
}
