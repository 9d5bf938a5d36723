//! Numbers that follow no pattern, the same in each run.

use pmb_table::Form;

/// Numbers from a fixed seed (Marsaglia's xorshift of 32 bits).
#[derive(Clone, Copy)]
pub struct Random(u32);

impl Random {
    /// The numbers after a seed, which is not 0.
    pub fn new(seed: u32) -> Random {
        Random(seed)
    }

    /// The next number.
    pub fn next(&mut self) -> u32 {
        self.0 ^= self.0 << 13;
        self.0 ^= self.0 >> 17;
        self.0 ^= self.0 << 5;
        self.0
    }

    /// A number below `most`, or 0.
    pub fn below(&mut self, most: usize) -> usize {
        (self.next() >> 8) as usize % most.max(1)
    }

    /// Whether a chance of one in so many comes.
    pub fn once_in(&mut self, most: usize) -> bool {
        self.below(most) == 0
    }

    /// Any byte.
    pub fn byte(&mut self) -> u8 {
        (self.next() >> 24) as u8
    }

    /// The number of data bytes in a form; of a block some.
    pub fn data_count(&mut self, form: Form) -> u8 {
        match form {
            Form::Zero => 0,
            Form::One => 1,
            Form::Two => 2,
            Form::Four => 4,
            Form::Eight => 8,
            Form::Block => self.byte() & 3,
        }
    }
}
