//! The rate of a recording.

ghost use Rattle.std.specs.Prelude.{◌<◌, ◌≤◌};
ghost use Rattle.pmb_sigrok_line.specs.Time.{most_rate};

/// The highest rate: a billion times it fits 64 bits.
const MOST_RATE: u64 = 18_446_744_073;

/// How many samples were taken in a second: 1 to 18,446,744,073.
#[derive(Clone, Copy, Debug, PartialEq, Eq)]
pub struct Rate {
    hertz: u64,
    ghost some: { 0 < hertz },
    ghost fits: { hertz ≤ most_rate },
}

impl Rate {
    ghost use Rattle.std.specs.Prelude.{◌≡◌, ◌<◌, ◌≤◌, option_map};
    ghost use Rattle.pmb_sigrok_line.specs.Time.{most_rate, rate_of};
    ghost use Rattle.pmb_sigrok_line.specs.Shown.{hertz_of};

    /// The rate of so many samples in a second. `None` out of range.
    pub fn new(hertz: u64) -> Option<Rate>
        ensures { option_map hertz_of result ≡ rate_of hertz }
    {
        if hertz == 0 || hertz > MOST_RATE {
            return None;
        }
        Some(Rate { hertz })
    }

    /// The samples in a second.
    pub fn hertz(self) -> u64
        ensures same { result ≡ hertz_of self }
        ensures some { 0 < result }
        ensures fits { result ≤ most_rate }
    {
        self.hertz
    }
}
