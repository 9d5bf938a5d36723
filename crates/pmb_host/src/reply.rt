//! The bytes that a host reads.
//!
//! Its rows: `tests_host`, `src/host/ends.rt`, `src/host/answers.rt`.

ghost use Rattle.std.specs.Prelude.{◌≡◌, ◌↔◌, ℕ, List, ◌<◌, ◌≤◌, ◌++◌, ◌∷◌, [], IsTrue, length};
ghost use Rattle.pmb_command.specs.Wire.{wire_length};
ghost use Rattle.pmb_host.specs.machine.Replies.{Holds, IsState, whole_length};

use arrayvec::ArrayVec;
use pmb_command::Form;

/// How far a reply is, after a byte of it.
#[derive(Clone, Copy, Debug, PartialEq, Eq)]
pub(crate) enum ReplyState {
    /// There is more to come.
    Short,
    /// The byte was the last one.
    Whole,
    /// The byte was the last one, a packet error code that is wrong.
    BadPec,
}

/// A reply under way: data in a form, and after them a packet error code where one was asked for.
#[derive(Clone, Debug, Drop)]
pub(crate) struct Incoming {
    form: Form,
    pec: bool,
    /// The bytes so far.
    bytes: ArrayVec<u8, 257>,
}

impl Incoming {
    /// A reply of which nothing was read.
    pub fn new(form: Form, pec: bool) -> Self
        ensures form { result.form ≡ form }
        ensures pec { result.pec ≡ pec }
        ensures empty { result.bytes.items ≡ [] }
    {
        Incoming {
            form,
            pec,
            bytes: ArrayVec::new(),
        }
    }

    /// How many bytes the data take on the wire, as far as it is known.
    fn wire_length(&self) -> usize
        ensures length { result ≡ wire_length self.now.form self.now.bytes.items }
        ensures short { result ≤ 256 }
    {
        self.form.wire_length(self.bytes.as_slice())
    }

    /// Whether all bytes were read.
    fn is_whole(&self) -> bool
        ensures { IsTrue result ↔ (whole_length self.now.form self.now.pec self.now.bytes.items ≤ length self.now.bytes.items) }
    {
        self.bytes.len() >= self.wire_length() + usize::from(self.pec)
    }

    /// Takes the next byte, after bytes with this packet error code.
    pub fn take(&mut self, byte: u8, crc: u8) -> ReplyState
        ensures form { self.new.form ≡ self.old.form }
        ensures pec { self.new.pec ≡ self.old.pec }
        ensures taken { length self.old.bytes.items < 257 → self.new.bytes.items ≡ self.old.bytes.items ++ byte ∷ [] }
        ensures state { IsState result self.new.form self.new.pec self.new.bytes.items byte crc }
    {
        let _ = self.bytes.try_push(byte);
        if !self.is_whole() {
            ReplyState::Short
        } else if self.pec && byte != crc {
            ReplyState::BadPec
        } else {
            ReplyState::Whole
        }
    }

    /// The data, where all bytes were read.
    pub fn data(&self) -> &[u8]
        ensures { (content : List ℕ) → Holds self.now.form content self.now.bytes.items → result.now ≡ content }
    {
        match self.bytes.as_slice().get(..self.wire_length()) {
            Some(wire) => self.form.data_within(wire),
            None => &[],
        }
    }
}
