//! How many packets of a command have each form, and so which forms it has.
//!
//! Its rows: `tests/rows/scan.txt`.

ghost use Rattle.std.specs.Prelude.{◌<◌};

use crate::leg::Leg;
use pmb_command::{Form, PecMode, Shape, standard};

/// The forms that data may have, in their order.
const DATA: [Form; 5] = [Form::One, Form::Two, Form::Four, Form::Eight, Form::Block];

/// The forms of a call.
const CALLED: [Form; 2] = [Form::Two, Form::Block];

/// How many packets have a form without a packet error code, and with one.
#[derive(Clone, Copy, Debug, PartialEq, Eq)]
struct Fits {
    plain: u32,
    checked: u32,
}

impl Fits {
    const NONE: Fits = Fits {
        plain: 0,
        checked: 0,
    };

    fn add(&mut self, plain: bool, checked: bool) {
        self.plain = self.plain.saturating_add(u32::from(plain));
        self.checked = self.checked.saturating_add(u32::from(checked));
    }

    /// How many packets that a mode allows have it.
    fn under(self, mode: PecMode) -> u64 {
        match mode {
            PecMode::Off => self.plain as u64,
            PecMode::On => self.checked as u64,
            PecMode::Optional => self.plain as u64 + self.checked as u64,
        }
    }
}

/// The place of a form among six.
fn place(form: Form) -> usize
    ensures { result < 6 }
{
    match form {
        Form::Zero => 0,
        Form::One => 1,
        Form::Two => 2,
        Form::Four => 3,
        Form::Eight => 4,
        Form::Block => 5,
    }
}

/// The packets of a command.
#[derive(Clone, Copy, Debug)]
pub(crate) struct CommandTally {
    legs: u32,
    write: [Fits; 6],
    read: [Fits; 6],
    call: [Fits; 6],
}

/// The forms of a command of the standard; none of another.
pub(crate) fn standard_shape(code: u8) -> Shape {
    match standard(code) {
        Some(entry) => entry.shape,
        None => Shape {
            write: None,
            read: None,
            call: None,
        },
    }
}

/// The form of its data: that in which it is read, or else written with data.
pub(crate) fn data_form(shape: Shape) -> Option<Form> {
    match (shape.read, shape.write) {
        (Some(form), _) => Some(form),
        (None, Some(Form::Zero)) => None,
        (None, write) => write,
    }
}

/// Whether each profile keeps to the standard's forms of a command.
fn is_fixed(code: u8) -> bool {
    matches!(code, 0x00 | 0x03 | 0x20 | 0x30 | 0x7e)
}

impl CommandTally {
    /// No packet came.
    pub(crate) const NONE: CommandTally = CommandTally {
        legs: 0,
        write: [Fits::NONE; 6],
        read: [Fits::NONE; 6],
        call: [Fits::NONE; 6],
    };

    /// Counts a leg with its code.
    pub(crate) fn take(&mut self, leg: &Leg) {
        self.legs = self.legs.saturating_add(1);
        self.write[0].add(leg.writes(Form::Zero, false), leg.writes(Form::Zero, true));
        for form in DATA {
            let at = place(form);
            self.write[at].add(leg.writes(form, false), leg.writes(form, true));
            self.read[at].add(leg.reads(form, false), leg.reads(form, true));
            self.call[at].add(leg.calls(form, false), leg.calls(form, true));
        }
    }

    /// How many legs came.
    pub(crate) fn legs(&self) -> u32 {
        self.legs
    }

    fn writes(&self, form: Option<Form>, mode: PecMode) -> u64 {
        match form {
            Some(form) => self.write[place(form)].under(mode),
            None => 0,
        }
    }

    fn reads(&self, form: Option<Form>, mode: PecMode) -> u64 {
        match form {
            Some(form) => self.read[place(form)].under(mode),
            None => 0,
        }
    }

    fn calls(&self, form: Option<Form>, mode: PecMode) -> u64 {
        match form {
            Some(form) => self.call[place(form)].under(mode),
            None => 0,
        }
    }

    /// How many packets have the forms of a shape.
    pub(crate) fn fitting(&self, shape: Shape, mode: PecMode) -> u64 {
        self.writes(shape.write, mode)
            .saturating_add(self.reads(shape.read, mode))
            .saturating_add(self.calls(shape.call, mode))
    }

    /// How many packets tell of packet error codes: those in the standard's forms, of a command that the
    /// standard has, or else those in the forms that most have.
    pub(crate) fn telling(&self, code: u8, mode: PecMode) -> u64 {
        match standard(code) {
            Some(entry) => self.fitting(entry.shape, mode),
            None => self.fitting(self.shape(code, mode), mode),
        }
    }

    /// The form of its data that most packets have, the standard's if several have as many.
    fn most_data(&self, first: Option<Form>, mode: PecMode) -> Option<Form> {
        let mut best = None;
        let mut most = 0;
        for form in DATA {
            let count = self
                .writes(Some(form), mode)
                .saturating_add(self.reads(Some(form), mode));
            if count > most || (count == most && most > 0 && first == Some(form)) {
                best = Some(form);
                most = count;
            }
        }
        best
    }

    /// The form in which most packets call it.
    fn most_called(&self, first: Option<Form>, mode: PecMode) -> Option<Form> {
        let mut best = None;
        let mut most = 0;
        for form in CALLED {
            let count = self.calls(Some(form), mode);
            if count > most || (count == most && most > 0 && first == Some(form)) {
                best = Some(form);
                most = count;
            }
        }
        best
    }

    /// The forms of the command: those of the standard, and those that most packets have.
    pub(crate) fn shape(&self, code: u8, mode: PecMode) -> Shape {
        let standard = standard_shape(code);
        if is_fixed(code) {
            return standard;
        }
        let data = self
            .most_data(data_form(standard), mode)
            .or(data_form(standard));
        Shape {
            write: self.write_form(standard, data, mode),
            read: self.read_form(standard, data, mode),
            call: self.most_called(standard.call, mode).or(standard.call),
        }
    }

    /// How it is written, where this is the form of its data.
    fn write_form(&self, standard: Shape, data: Option<Form>, mode: PecMode) -> Option<Form> {
        let written = self.writes(data, mode);
        if self.writes(Some(Form::Zero), mode) > written {
            return Some(Form::Zero);
        }
        if data.is_some() && (written > 0 || standard.write == data) {
            return data;
        }
        match standard.write {
            Some(Form::Zero) => Some(Form::Zero),
            _ => None,
        }
    }

    /// How it is read, where this is the form of its data.
    fn read_form(&self, standard: Shape, data: Option<Form>, mode: PecMode) -> Option<Form> {
        if self.reads(data, mode) > 0 || standard.read == data {
            return data;
        }
        None
    }
}
