//! The signals that SCL and SDA may be, as they come.

ghost use Rattle.std.specs.Prelude.{◌≡◌, ◌≤◌, [], length, option_copied, option_map};
ghost use Rattle.pmb_wire_names.specs.Choosing.{both as both_of, picked as picked_of};
ghost use Rattle.pmb_wire_names.specs.Kept.{choose as choose_step, found_for, fresh, kept_from, kept_name, none_yet, offered, signal_of, taken, vec_of, wanted_of, with_byte};
ghost use Rattle.pmb_wire_names.specs.Matching.{is_blank};
ghost use Rattle.pmb_wire_names.specs.Signals.{fits_first, fits_second, word_of};

use crate::found::{Id, MOST_ID, MOST_NAME, NamedSignal, Signals, add};
use crate::matching::{ends_in_word, ends_with_word, is_wanted};
use crate::reason::{Reason, none_of, one_for_both, several};
use arrayvec::ArrayVec;
use pmb_wires::Wire;

/// One byte more than the longest name has.
const MOST_WANTED: usize = 256;

/// A name that is given for a wire.
type Wanted = ArrayVec<u8, MOST_WANTED>;

/// The IDs of both wires.
#[derive(Drop)]
pub struct Wires {
    /// That of SCL.
    pub scl: Id,
    /// That of SDA.
    pub sda: Id,
}

/// The signals that a wire may be.
#[derive(Drop)]
pub struct OfWire {
    /// Which wire it is.
    pub wire: Wire,
    /// The name that is given for it, without blanks.
    pub wanted: Option<Wanted>,
    /// Those of the name that is given, or whose last part is the wire's word.
    pub first: Signals,
    /// Those whose last part contains the wire's word, where no name is given.
    pub second: Signals,
}

/// The signals of a recording so far, as many as are needed to choose.
#[derive(Drop)]
pub struct Names {
    /// All of them.
    pub all: Signals,
    /// Those that SCL may be.
    pub scl: OfWire,
    /// Those that SDA may be.
    pub sda: OfWire,
}

impl Names {
    /// No signal came yet. The wires have these names, or the usual ones.
    pub fn new(scl: Option<&[u8]>, sda: Option<&[u8]>) -> Names
        ensures { result ≡ fresh (option_copied scl.entry) (option_copied sda.entry) }
    {
        Names {
            all: Signals::new(),
            scl: OfWire::new(Wire::Scl, scl),
            sda: OfWire::new(Wire::Sda, sda),
        }
    }

    /// Takes the next signal.
    pub fn take(&mut self, id: &[u8], name: &[u8])
        requires id { length id.now ≤ MOST_ID }
        requires name { length name.now ≤ MOST_NAME }
        ensures { self.new ≡ taken self.old (signal_of id.now name.now) }
    {
        add(&mut self.all, id, name);
        self.scl.offer(id, name);
        self.sda.offer(id, name);
    }

    /// Which signals SCL and SDA are.
    ///
    /// # Errors
    ///
    /// Why that is not known, in words.
    pub fn choose(&self) -> Result<Wires, Reason>
        ensures { result ≡ choose_step self.now }
    {
        let scl = picked(Wire::Scl, self.all.as_slice(), self.scl.found())?;
        let sda = picked(Wire::Sda, self.all.as_slice(), self.sda.found())?;
        both(scl, sda)
    }
}

impl OfWire {
    /// No signal came yet.
    fn new(wire: Wire, name: Option<&[u8]>) -> OfWire
        ensures { result ≡ none_yet wire (option_map kept_name (option_copied name.entry)) }
    {
        OfWire {
            wire,
            wanted: match name {
                Some(name) => Some(wanted_name(name)),
                None => None,
            },
            first: Signals::new(),
            second: Signals::new(),
        }
    }

    /// Takes a signal that the wire may be.
    fn offer(&mut self, id: &[u8], name: &[u8])
        requires id { length id.now ≤ MOST_ID }
        requires name { length name.now ≤ MOST_NAME }
        ensures { self.new ≡ offered self.old (signal_of id.now name.now) }
    {
        if self.is_first(name) {
            add(&mut self.first, id, name);
        }
        if self.is_second(name) {
            add(&mut self.second, id, name);
        }
    }

    fn is_first(&self, name: &[u8]) -> bool
        ensures { result ≡ fits_first self.now.wire (wanted_of self.now) name.now }
    {
        match &self.wanted {
            Some(wanted) => is_wanted(wanted.as_slice(), name),
            None => ends_in_word(word(self.wire), name),
        }
    }

    fn is_second(&self, name: &[u8]) -> bool
        ensures { result ≡ fits_second self.now.wire (wanted_of self.now) name.now }
    {
        match &self.wanted {
            Some(_) => false,
            None => ends_with_word(word(self.wire), name),
        }
    }

    /// The signals that the wire may be.
    fn found(&self) -> &[NamedSignal]
        ensures { result.now ≡ found_for self.now }
    {
        if self.first.is_empty() {
            self.second.as_slice()
        } else {
            self.first.as_slice()
        }
    }
}

/// The word of a wire.
fn word(wire: Wire) -> &'static [u8]
    ensures { result.now ≡ word_of wire }
{
    match wire {
        Wire::Scl => b"scl",
        Wire::Sda => b"sda",
    }
}

/// A name without its blanks, or so much of it that it is longer than each signal's.
fn wanted_name(name: &[u8]) -> Wanted
    ensures { result ≡ vec_of (kept_name name.now) }
{
    kept_bytes(name)
}

/// The same, byte by byte.
fn kept_bytes(name: &[u8]) -> Wanted
    ensures { result.items ≡ kept_from [] name.now }
{
    let mut wanted = Wanted::new();
    let mut left = name;
    while let [byte, rest @ ..] = left {
        keep(&mut wanted, *byte);
        left = rest;
    }
    wanted
}

/// Keeps a byte of a name, unless it is a blank or there is no room.
fn keep(wanted: &mut Wanted, byte: u8)
    ensures { wanted.new.items ≡ with_byte wanted.old.items byte }
{
    if !wanted.is_full() && !blank(byte) {
        wanted.push(byte);
    }
}

fn blank(byte: u8) -> bool
    ensures { result ≡ is_blank byte }
{
    byte == b' ' || byte == b'\t'
}

/// The ID of a wire, by the signals that it may be.
fn picked(wire: Wire, all: &[NamedSignal], found: &[NamedSignal]) -> Result<Id, Reason>
    ensures { result ≡ picked_of wire all.now found.now }
{
    match found {
        [] => Err(none_of(wire, all)),
        [signal] => Ok(copied(signal.id.as_slice())),
        [_, _, ..] => Err(several(wire, found)),
    }
}

fn copied(bytes: &[u8]) -> Id
    requires { length bytes.now ≤ MOST_ID }
    ensures { result ≡ vec_of bytes.now }
{
    let mut id = Id::new();
    let _ = id.try_extend_from_slice(bytes);
    id
}

/// Both wires, unless they are one signal.
fn both(scl: Id, sda: Id) -> Result<Wires, Reason>
    ensures { result ≡ both_of scl sda }
{
    if scl.as_slice() == sda.as_slice() {
        return Err(one_for_both());
    }
    Ok(Wires { scl, sda })
}
