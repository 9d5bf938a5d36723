//! What stands behind the head of a VCD: times and levels.

ghost use Rattle.std.specs.Prelude.{◌≡◌};
ghost use Rattle.pmb_vcd.specs.Body.{at_time as at_time_step, end as end_step, fails as fails_step, give as give_step, has_level, is_dump as is_dump_section, hear as hear_step, hear_by, pass as pass_step, repeats};
ghost use Rattle.pmb_vcd.specs.Body.{set as set_step, set_by_id as set_by_id_step, start, take as take_step, wire_of};
ghost use Rattle.pmb_vcd.specs.Tokens.{word_of};

use crate::token::{Section, Token, Value, read_token};
use arrayvec::ArrayVec;
use pmb_wires::{Edge, Level, Levels, Moment, Wire, has};

/// The most bytes of an ID that is followed.
pub const MOST_ID: usize = 64;

/// The ID of a signal.
pub type Id = ArrayVec<u8, MOST_ID>;

/// Why a word is a fault.
#[derive(Clone, Copy, Debug, PartialEq, Eq)]
pub enum Why {
    /// It is no word that may stand there.
    MakesNoSense,
    /// It contradicts words before it.
    DoesNotFollow,
}

/// What a word gives: what the wires were given at the last time, if that is over, and then a fault.
#[derive(Clone, Copy, Debug)]
pub struct Heard {
    /// What the wires were given.
    pub moment: Option<Moment>,
    /// Why the word is a fault.
    pub fault: Option<Why>,
}

/// The words behind the head, one after the other.
#[derive(Drop)]
pub struct Body {
    /// The ID of SCL.
    pub scl_id: Id,
    /// The ID of SDA.
    pub sda_id: Id,
    /// Femtoseconds of a time unit.
    pub scale: u64,
    /// Levels that a wire has already may be written again.
    pub is_simulated: bool,
    /// The time, in time units.
    pub number: u64,
    /// What SCL gets at this time.
    pub scl: Option<Edge>,
    /// What SDA gets at this time.
    pub sda: Option<Edge>,
    /// The levels that were written last.
    pub levels: Levels,
    /// The section that is open.
    pub section: Option<Section>,
    /// A value whose signal is the next word.
    pub value: Option<Value>,
}

impl Body {
    /// Nothing came yet: the time is 0.
    pub fn new(scl_id: Id, sda_id: Id, scale: u64, is_simulated: bool) -> Body
        ensures { result ≡ start scl_id sda_id scale is_simulated }
    {
        Body {
            scl_id,
            sda_id,
            scale,
            is_simulated,
            number: 0,
            scl: None,
            sda: None,
            levels: Levels {
                scl: None,
                sda: None,
            },
            section: None,
            value: None,
        }
    }

    /// Takes the next word, of a line.
    pub fn hear(&mut self, line: u64, word: &[u8]) -> Heard
        ensures now { self.new ≡ (hear_step self.old line word.now).now }
        ensures heard { result ≡ (hear_step self.old line word.now).heard }
    {
        match self.section {
            Some(Section::Other) => self.pass(word),
            Some(Section::Dump) | None => self.hear_value(line, word),
        }
    }

    /// Takes a word that is not passed over.
    fn hear_value(&mut self, line: u64, word: &[u8]) -> Heard
        ensures now { self.new ≡ (hear_by self.old self.old.value line word.now).now }
        ensures heard { result ≡ (hear_by self.old self.old.value line word.now).heard }
    {
        match self.value {
            Some(value) => self.give(value, line, word),
            None => self.take(read_token(word), line),
        }
    }

    /// Ends what is read: returns what the wires were given at the last time.
    pub fn end(&mut self) -> Option<Moment>
        ensures now { self.new ≡ (end_step self.old).now }
        ensures given { result ≡ (end_step self.old).heard.moment }
    {
        self.flush()
    }

    /// A line that can't be read.
    pub fn fail(&mut self, why: Why) -> Heard
        ensures now { self.new ≡ (fails_step self.old why).now }
        ensures heard { result ≡ (fails_step self.old why).heard }
    {
        let moment = self.flush();
        self.levels = Levels {
            scl: None,
            sda: None,
        };
        self.value = None;
        Heard {
            moment,
            fault: Some(why),
        }
    }

    /// What the wires got at this time, which is over.
    #[tactic(auto, using(crate::proofs::Products::fits_wide))]
    fn flush(&mut self) -> Option<Moment>
        ensures now { self.new ≡ (end_step self.old).now }
        ensures given { result ≡ (end_step self.old).heard.moment }
    {
        let moment = Moment {
            time: self.number as u128 * self.scale as u128,
            scl: self.scl,
            sda: self.sda,
        };
        let is_blank = self.scl.is_none() && self.sda.is_none();
        self.scl = None;
        self.sda = None;
        if is_blank { None } else { Some(moment) }
    }

    /// Passes over a word of a section that says nothing.
    fn pass(&mut self, word: &[u8]) -> Heard
        ensures now { self.new ≡ (pass_step self.old word.now).now }
        ensures heard { result ≡ (pass_step self.old word.now).heard }
    {
        if word == b"$end".as_slice() {
            self.section = None;
        }
        NOTHING
    }

    /// Takes the ID behind a value.
    fn give(&mut self, value: Value, line: u64, id: &[u8]) -> Heard
        ensures now { self.new ≡ (give_step self.old value line id.now).now }
        ensures heard { result ≡ (give_step self.old value line id.now).heard }
    {
        self.value = None;
        match (self.wire(id), value) {
            (Some(wire), Value::Level(level)) => self.set(wire, level, line),
            (Some(_), Value::Vector) => self.fail(Why::MakesNoSense),
            (Some(_), Value::Other) | (None, _) => NOTHING,
        }
    }

    /// Takes a word that stands alone.
    fn take(&mut self, token: Token<'_>, line: u64) -> Heard
        ensures now { self.new ≡ (take_step self.old (word_of token.entry) line).now }
        ensures heard { result ≡ (take_step self.old (word_of token.entry) line).heard }
    {
        match token {
            Token::Time(number) => self.go_on(number),
            Token::Level(level, id) => self.set_by_id(level, id, line),
            Token::Value(value) => {
                self.value = Some(value);
                NOTHING
            }
            Token::Section(section) => {
                self.section = Some(section);
                NOTHING
            }
            Token::End => {
                self.section = None;
                NOTHING
            }
            Token::NoSense => self.fail(Why::MakesNoSense),
        }
    }

    /// Takes a time, in time units.
    fn go_on(&mut self, number: u64) -> Heard
        ensures now { self.new ≡ (at_time_step self.old number).now }
        ensures heard { result ≡ (at_time_step self.old number).heard }
    {
        if number < self.number {
            let heard = self.fail(Why::DoesNotFollow);
            self.number = number;
            return heard;
        }
        if number == self.number {
            return NOTHING;
        }
        let moment = self.flush();
        self.number = number;
        Heard {
            moment,
            fault: None,
        }
    }

    /// Takes a level of a signal.
    fn set_by_id(&mut self, level: Level, id: &[u8], line: u64) -> Heard
        ensures now { self.new ≡ (set_by_id_step self.old level id.now line).now }
        ensures heard { result ≡ (set_by_id_step self.old level id.now line).heard }
    {
        match self.wire(id) {
            Some(wire) => self.set(wire, level, line),
            None => NOTHING,
        }
    }

    /// Takes a level of a wire.
    fn set(&mut self, wire: Wire, level: Level, line: u64) -> Heard
        ensures now { self.new ≡ (set_step self.old wire level line).now }
        ensures heard { result ≡ (set_step self.old wire level line).heard }
    {
        if self.has(wire, level) && !self.may_repeat() {
            return self.fail(Why::DoesNotFollow);
        }
        let edge = Edge { line, level };
        match wire {
            Wire::Scl => {
                self.scl = Some(edge);
                self.levels.scl = Some(level);
            }
            Wire::Sda => {
                self.sda = Some(edge);
                self.levels.sda = Some(level);
            }
        }
        NOTHING
    }

    /// Whether a wire was written last with a level.
    fn has(&self, wire: Wire, level: Level) -> bool
        ensures { result ≡ has_level self.now.levels wire level }
    {
        match wire {
            Wire::Scl => has(self.levels.scl, level),
            Wire::Sda => has(self.levels.sda, level),
        }
    }

    /// Whether a level may be written that the wire has already.
    fn may_repeat(&self) -> bool
        ensures { result ≡ repeats self.now }
    {
        self.is_simulated || is_dump(self.section)
    }

    /// Which wire a signal is.
    fn wire(&self, id: &[u8]) -> Option<Wire>
        ensures { result ≡ wire_of self.now.scl_id.items self.now.sda_id.items id.now }
    {
        if self.scl_id.as_slice() == id {
            Some(Wire::Scl)
        } else if self.sda_id.as_slice() == id {
            Some(Wire::Sda)
        } else {
            None
        }
    }
}

/// Whether levels stand in a section that a wire has already.
fn is_dump(section: Option<Section>) -> bool
    ensures { result ≡ is_dump_section section }
{
    match section {
        Some(Section::Dump) => true,
        Some(Section::Other) | None => false,
    }
}

/// A word that gives nothing yet.
const NOTHING: Heard = Heard {
    moment: None,
    fault: None,
};
