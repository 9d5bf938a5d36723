//! A time that is kept.
//!
//! Three are kept of each bit of each register, so one takes no more than its length and 40 bytes; an
//! `ArrayVec` has eight bytes for its length alone.
//!
//! Its rows: `tests/rows/stats.txt`.

ghost use Rattle.std.specs.Prelude.{◌≡◌, ◌≤◌, None, Some, length, option_map};
ghost use Rattle.std.specs.Option.{ForSome};

use pmb_times::TIME;
use std::marker::Model;

/// A time of at most 40 bytes, or none.
#[derive(Drop)]
pub struct KeptTime {
    /// How many bytes it has, if there is one.
    length: Option<u8>,
    /// Those bytes first.
    bytes: [u8; TIME],
}

impl Model for KeptTime {
    ghost use Rattle.std.specs.Prelude.{ℕ, List, Option};

    ghost Value = { Option (List ℕ) };

    ghost use Rattle.pmb_stats_bits.specs.machine.KeptTime.{IsWithin, kept_time};

    ghost view = { kept_time };

    ghost invariant = { IsWithin };
}

impl KeptTime {
    /// No time.
    pub fn new() -> KeptTime
        ensures { result ≡ None }
    {
        KeptTime {
            length: None,
            bytes: [0; TIME],
        }
    }

    /// The time, of at most 40 bytes.
    pub fn time(&self) -> Option<&[u8]>
        ensures time { option_map (λ time. time.now) result ≡ self.now }
        ensures short { ForSome result (λ time. length time.now ≤ 40) }
    {
        match self.length {
            Some(length) => Some(&self.bytes[..usize::from(length)]),
            None => None,
        }
    }

    /// Keeps a time in place of another, or none.
    pub fn keep(&mut self, time: Option<&[u8]>)
        requires { ForSome time (λ time. length time.now ≤ 40) }
        ensures { self.new ≡ option_map (λ time. time.now) time.entry }
    {
        match time {
            Some(time) => self.keep_bytes(time),
            None => self.forget(),
        }
    }

    /// Keeps no time.
    pub fn forget(&mut self)
        ensures { self.new ≡ None }
    {
        self.length = None;
    }

    fn keep_bytes(&mut self, time: &[u8])
        requires { length time.now ≤ 40 }
        ensures { self.new ≡ Some time.now }
    {
        let length = time.len();
        self.bytes[..length].copy_from_slice(time);
        self.length = Some(length as u8);
    }
}
