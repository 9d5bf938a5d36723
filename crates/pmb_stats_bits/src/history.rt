//! A bit of a status register.
//!
//! Its rows: `tests/rows/stats.txt`.

ghost use Rattle.std.specs.Prelude.{◌≡◌, ◌+◌, ◌≤◌, ◌++◌, ◌∷◌, [], ℕ, List, length, option_map};
ghost use Rattle.std.specs.Option.{ForSome};
ghost use Rattle.pmb_io.specs.Count.{capped};
ghost use Rattle.pmb_stats_bits.specs.Bits.{RegisterRead, found, first_time, gone_time, last_time, set_count};
ghost use Rattle.pmb_stats_bits.specs.Standing.{BitStandsAt};
ghost use Rattle.pmb_stats_bits.specs.machine.Standing.{after_clear, after_set};

use crate::kept_time::KeptTime;

/// What the reads of a status register said of one of its bits. It stands at the reads that it was
/// given since it was made.
#[derive(Drop)]
pub struct BitHistory {
    /// How many reads found it set; this stays at the greatest `u64`.
    count: u64,
    /// The times of the first and the last of them.
    first: KeptTime,
    last: KeptTime,
    /// The time of the first read after them.
    gone: KeptTime,
    /// Whether the last read found it set.
    is_set: bool,
}

impl BitHistory {
    /// No read came.
    pub fn new() -> BitHistory
        ensures { (bit : ℕ) → BitStandsAt result [] bit }
    {
        BitHistory {
            count: 0,
            first: KeptTime::new(),
            last: KeptTime::new(),
            gone: KeptTime::new(),
            is_set: false,
        }
    }

    /// Takes the next read: whether it found the bit set, and the time of its packet, of at most 40
    /// bytes, if one is known.
    pub fn see(&mut self, is_set: bool, time: Option<&[u8]>)
        requires { ForSome time (λ time. length time.now ≤ 40) }
        ensures { (reads : List RegisterRead) (read : RegisterRead) (bit : ℕ) → BitStandsAt self.old reads bit
            → is_set ≡ found bit read → option_map (λ time. time.now) time.entry ≡ read.time
            → BitStandsAt self.new (reads ++ read ∷ []) bit }
    {
        if is_set {
            self.see_set(time);
        } else {
            self.see_clear(time);
        }
    }

    /// How many reads found the bit set; this stays at the greatest `u64`.
    pub fn count(&self) -> u64
        ensures { (reads : List RegisterRead) (bit : ℕ) → BitStandsAt self.now reads bit → result ≡ capped (set_count reads bit) }
    {
        self.count
    }

    /// The time of the first of them, if it has one.
    pub fn first(&self) -> Option<&[u8]>
        ensures time { (reads : List RegisterRead) (bit : ℕ) → BitStandsAt self.now reads bit
            → option_map (λ time. time.now) result ≡ first_time reads bit }
        ensures short { ForSome result (λ time. length time.now ≤ 40) }
    {
        self.first.time()
    }

    /// The time of the last of them, if it has one.
    pub fn last(&self) -> Option<&[u8]>
        ensures time { (reads : List RegisterRead) (bit : ℕ) → BitStandsAt self.now reads bit
            → option_map (λ time. time.now) result ≡ last_time reads bit }
        ensures short { ForSome result (λ time. length time.now ≤ 40) }
    {
        self.last.time()
    }

    /// The time of the first read after the last of them, which found the bit clear: `None` if there is
    /// no such read, and if it has no time.
    pub fn gone(&self) -> Option<&[u8]>
        ensures time { (reads : List RegisterRead) (bit : ℕ) → BitStandsAt self.now reads bit
            → option_map (λ time. time.now) result ≡ gone_time reads bit }
        ensures short { ForSome result (λ time. length time.now ≤ 40) }
    {
        self.gone.time()
    }

    /// Takes a read that found the bit set.
    fn see_set(&mut self, time: Option<&[u8]>)
        requires { ForSome time (λ time. length time.now ≤ 40) }
        ensures { self.new ≡ after_set self.old (option_map (λ time. time.now) time.entry) }
    {
        if self.count == 0 {
            self.first.keep(time);
        }
        self.last.keep(time);
        self.gone.forget();
        self.count = self.count.saturating_add(1);
        self.is_set = true;
    }

    /// Takes a read that found the bit clear.
    fn see_clear(&mut self, time: Option<&[u8]>)
        requires { ForSome time (λ time. length time.now ≤ 40) }
        ensures { self.new ≡ after_clear self.old (option_map (λ time. time.now) time.entry) }
    {
        if self.is_set {
            self.gone.keep(time);
        }
        self.is_set = false;
    }
}
