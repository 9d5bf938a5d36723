//! The bytes of the legs that are told.
//!
//! Two legs are kept: the last one that is written, and the last one of all where it is read. A leg
//! of a packet has at most 258 bytes after its address, and there is room for no more.
//!
//! Its rows: `tests_packets`, `src/said/rows.rt`.

ghost use Rattle.std.specs.Prelude.{◌≡◌, ◌≤◌, ◌++◌, ◌∷◌, [], None, length, take};
ghost use Rattle.pmb_partial_packet.specs.machine.KeptLegs.{after_address, after_byte, after_start};

use arrayvec::ArrayVec;
use std::marker::Model;

/// How far the last leg has come.
#[derive(Clone, Copy)]
pub(crate) enum LastLeg {
    /// No START came.
    Absent,
    /// Its START came, and no byte.
    Begun,
    /// Its address byte is one for writing.
    Written,
    /// Its address byte is one for reading.
    Read,
}

/// The legs that are kept.
#[derive(Drop)]
pub(crate) struct KeptLegs {
    last: LastLeg,
    /// The address byte of the last leg that has one.
    address: Option<u8>,
    /// The address byte of the last written leg.
    written_address: Option<u8>,
    /// The bytes after it.
    written: ArrayVec<u8, 258>,
    /// The bytes after the address of the last leg, where that is read.
    reply: ArrayVec<u8, 258>,
}

impl Model for KeptLegs {
    ghost use Rattle.pmb_partial_packet.specs.machine.KeptLegs.{LegsData};

    ghost Value = { LegsData };

    ghost use Rattle.pmb_partial_packet.specs.machine.KeptLegs.{legs_data};

    ghost view = { legs_data };
}

/// Adds a byte, if there is room for it.
#[inline]
fn keep(bytes: &mut ArrayVec<u8, 258>, byte: u8)
    ensures { bytes.new.items ≡ take 258 (bytes.old.items ++ byte ∷ []) }
{
    if !bytes.is_full() {
        bytes.push(byte);
    }
}

impl KeptLegs {
    /// No leg.
    pub(crate) fn new() -> KeptLegs
        ensures { result ≡ record { last = LastLeg.Absent; address = None; written_address = None; written = []; reply = [] } }
    {
        KeptLegs {
            last: LastLeg::Absent,
            address: None,
            written_address: None,
            written: ArrayVec::new(),
            reply: ArrayVec::new(),
        }
    }

    /// Forgets all legs.
    #[inline]
    pub(crate) fn clear(&mut self)
        ensures { self.new ≡ record { last = LastLeg.Absent; address = None; written_address = None; written = []; reply = [] } }
    {
        self.start();
        self.last = LastLeg::Absent;
        self.address = None;
        self.written_address = None;
        self.written.clear();
    }

    #[inline]
    pub(crate) fn last(&self) -> LastLeg
        ensures { result ≡ self.now.last }
    {
        self.last
    }

    #[inline]
    pub(crate) fn address(&self) -> Option<u8>
        ensures { result ≡ self.now.address }
    {
        self.address
    }

    #[inline]
    pub(crate) fn written_address(&self) -> Option<u8>
        ensures { result ≡ self.now.written_address }
    {
        self.written_address
    }

    #[inline]
    pub(crate) fn written(&self) -> &[u8]
        ensures bytes { result.now ≡ self.now.written }
        ensures short { length result.now ≤ 258 }
    {
        self.written.as_slice()
    }

    #[inline]
    pub(crate) fn reply(&self) -> &[u8]
        ensures bytes { result.now ≡ self.now.reply }
        ensures short { length result.now ≤ 258 }
    {
        self.reply.as_slice()
    }

    /// Begins a leg.
    #[inline]
    pub(crate) fn start(&mut self)
        ensures { self.new ≡ after_start self.old }
    {
        self.last = LastLeg::Begun;
        self.reply.clear();
    }

    /// Takes the next byte of the last leg. Before all legs there is none, and it is dropped.
    #[inline]
    pub(crate) fn take(&mut self, byte: u8)
        ensures { self.new ≡ after_byte self.old byte }
    {
        match self.last {
            LastLeg::Absent => {}
            LastLeg::Begun => self.take_address(byte),
            LastLeg::Written => keep(&mut self.written, byte),
            LastLeg::Read => keep(&mut self.reply, byte),
        }
    }

    fn take_address(&mut self, byte: u8)
        ensures { self.new ≡ after_address self.old byte }
    {
        self.address = Some(byte);
        if byte % 2 == 0 {
            self.last = LastLeg::Written;
            self.written_address = Some(byte);
            self.written.clear();
        } else {
            self.last = LastLeg::Read;
        }
    }
}
