//! The words of a head, one after the other.
//!
//! A section begins at a word with `$`, and ends at `$end`. What its words say is kept as they come:
//! the time unit, the name of a scope, or the ID and the name of a signal.

ghost use Rattle.std.specs.Prelude.{◌≡◌};
ghost use Rattle.pmb_vcd_head.specs.Head.{ended as ended_step, fresh, hear as hear_step, is_whole as is_whole_signal, keep as keep_step, keep_signal as keep_signal_step, named, opened, part_of};
ghost use Rattle.pmb_vcd_head.specs.Head.{joined, other_of, with_id, with_scope, with_unit};

use crate::scopes::{MOST_NAME, Name, Scopes};
use arrayvec::ArrayVec;
use pmb_vcd::{Id, MOST_ID, timescale};

/// The most bytes of a time unit.
pub const MOST_UNIT: usize = 16;

/// What a section is.
#[derive(Clone, Copy, Debug, PartialEq, Eq)]
pub enum Part {
    /// `$timescale`: the time unit.
    Timescale,
    /// `$scope`: a scope is opened.
    Scope,
    /// `$upscope`: a scope is closed.
    Upscope,
    /// `$var`: a signal.
    Var,
    /// `$enddefinitions`: the last one of the head.
    Last,
    /// Any other, which says nothing.
    Other,
}

/// What a word told.
#[derive(Clone, Copy, Debug, PartialEq, Eq)]
pub enum Told {
    /// Nothing yet.
    Nothing,
    /// There is a signal of one bit: `id` and `full` have its ID and its name.
    Signal,
    /// The head has ended.
    End,
}

/// The words of a head so far.
#[derive(Drop)]
pub struct Head {
    /// Femtoseconds of a time unit, if that is known.
    pub scale: Option<u64>,
    /// The scopes that are open.
    pub scopes: Scopes,
    /// The section that is open.
    pub part: Option<Part>,
    /// How many words stand in that section so far.
    pub count: u64,
    /// What these words say has room.
    pub fits: bool,
    /// The time unit, without blanks.
    pub unit: ArrayVec<u8, MOST_UNIT>,
    /// The signal has one bit.
    pub is_bit: bool,
    /// The ID of the signal.
    pub id: Id,
    /// The name of the signal behind its scopes, or that of a scope.
    pub name: Name,
    /// The name of the last signal, with its scopes.
    pub full: Name,
}

impl Head {
    /// No word came yet.
    pub fn new() -> Head
        ensures { result ≡ fresh }
    {
        Head {
            scale: None,
            scopes: Scopes::new(),
            part: None,
            count: 0,
            fits: true,
            unit: ArrayVec::new(),
            is_bit: false,
            id: Id::new(),
            name: Name::new(),
            full: Name::new(),
        }
    }

    /// Takes the next word.
    pub fn hear(&mut self, word: &[u8]) -> Told
        ensures now { self.new ≡ (hear_step self.old word.now).now }
        ensures told { result ≡ (hear_step self.old word.now).told }
    {
        let Some(part) = self.part else {
            self.open(named_part(word));
            return Told::Nothing;
        };
        if word == b"$end".as_slice() {
            return self.end(part);
        }
        self.keep(part, word);
        self.count = self.count.saturating_add(1);
        Told::Nothing
    }

    /// Opens a section, if a word opens one.
    fn open(&mut self, part: Option<Part>)
        ensures { self.new ≡ opened self.old part }
    {
        if part.is_none() {
            return;
        }
        self.part = part;
        self.count = 0;
        self.fits = true;
        self.unit.clear();
        self.is_bit = false;
        self.id.clear();
        self.name.clear();
    }

    /// Keeps what a word within a section says.
    fn keep(&mut self, part: Part, word: &[u8])
        ensures { self.new ≡ keep_step self.old part word.now }
    {
        match part {
            Part::Timescale => self.keep_unit(word),
            Part::Scope => {
                if self.count == 1 {
                    self.join(word);
                }
            }
            Part::Var => self.keep_signal(word),
            Part::Upscope | Part::Last | Part::Other => {}
        }
    }

    /// Keeps a word of a time unit.
    fn keep_unit(&mut self, word: &[u8])
        ensures { self.new ≡ with_unit self.old word.now }
    {
        if self.unit.len() + word.len() > MOST_UNIT {
            self.fits = false;
            return;
        }
        let _ = self.unit.try_extend_from_slice(word);
    }

    /// Keeps a word of a signal: its type, its width, its ID and its name.
    fn keep_signal(&mut self, word: &[u8])
        ensures { self.new ≡ keep_signal_step self.old word.now }
    {
        match self.count {
            0 => {}
            1 => self.is_bit = word == b"1".as_slice(),
            2 => self.keep_id(word),
            _ => self.join(word),
        }
    }

    /// Keeps the ID of a signal.
    fn keep_id(&mut self, word: &[u8])
        ensures { self.new ≡ with_id self.old word.now }
    {
        if self.id.len() + word.len() > MOST_ID {
            self.fits = false;
            return;
        }
        let _ = self.id.try_extend_from_slice(word);
    }

    /// Keeps a word of a name.
    fn join(&mut self, word: &[u8])
        ensures { self.new ≡ joined self.old word.now }
    {
        if self.name.len() + word.len() > MOST_NAME {
            self.fits = false;
            return;
        }
        let _ = self.name.try_extend_from_slice(word);
    }

    /// Ends a section.
    fn end(&mut self, part: Part) -> Told
        ensures now { self.new ≡ (ended_step self.old part).now }
        ensures told { result ≡ (ended_step self.old part).told }
    {
        self.part = None;
        match part {
            Part::Timescale => {
                self.scale = if self.fits {
                    timescale(self.unit.as_slice())
                } else {
                    None
                };
                Told::Nothing
            }
            Part::Scope => {
                self.open_scope();
                Told::Nothing
            }
            Part::Upscope => {
                self.scopes.close();
                Told::Nothing
            }
            Part::Var => self.end_signal(),
            Part::Last => Told::End,
            Part::Other => Told::Nothing,
        }
    }

    /// Opens the scope that the section names.
    fn open_scope(&mut self)
        ensures { self.new ≡ with_scope self.old }
    {
        if self.fits {
            self.scopes.open(self.name.as_slice());
        } else {
            self.scopes.lose();
        }
    }

    /// Ends a signal: its name gets the scopes in front.
    fn end_signal(&mut self) -> Told
        ensures now { self.new ≡ (named self.old).now }
        ensures told { result ≡ (named self.old).told }
    {
        if !self.is_whole() {
            return Told::Nothing;
        }
        if self.scopes.text.len() + self.name.len() > MOST_NAME {
            return Told::Nothing;
        }
        self.full.clear();
        let _ = self.full.try_extend_from_slice(self.scopes.text.as_slice());
        let _ = self.full.try_extend_from_slice(self.name.as_slice());
        Told::Signal
    }

    /// Whether the section tells a signal of one bit, and all its words have room.
    fn is_whole(&self) -> bool
        ensures { result ≡ is_whole_signal self.now }
    {
        self.count > 3 && self.is_bit && self.fits && self.scopes.lost == 0
    }
}

/// The section that a word opens.
fn named_part(word: &[u8]) -> Option<Part>
    ensures { result ≡ part_of word.now }
{
    if word == b"$timescale".as_slice() {
        return Some(Part::Timescale);
    }
    if word == b"$scope".as_slice() {
        return Some(Part::Scope);
    }
    if word == b"$upscope".as_slice() {
        return Some(Part::Upscope);
    }
    if word == b"$var".as_slice() {
        return Some(Part::Var);
    }
    if word == b"$enddefinitions".as_slice() {
        return Some(Part::Last);
    }
    other_part(word)
}

/// Whether a word opens any section: it begins with `$`, and is not `$end`.
fn other_part(word: &[u8]) -> Option<Part>
    ensures { result ≡ other_of word.now }
{
    if word == b"$end".as_slice() {
        return None;
    }
    match word {
        [b'$', ..] => Some(Part::Other),
        _ => None,
    }
}
