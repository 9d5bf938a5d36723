//! The histories of a status register's bits.
//!
//! Its rows: `tests/rows/stats.txt`.

ghost use Rattle.std.specs.Prelude.{◌≡◌, ◌≤◌, ◌++◌, ◌∷◌, [], IfOk, List, length, option_map};
ghost use Rattle.std.specs.Option.{ForSome};
ghost use Rattle.pmb_stats_bits.specs.Bits.{RegisterRead};
ghost use Rattle.pmb_stats_room.specs.machine.Slots.{HaveRead};

use pmb_stats_bits::{BitHistory, see_word};
use std::alloc::{AllocError, Global};
use std::marker::Model;

/// How many bits a register has; one of a byte has as many, of which the upper ones are clear.
const BITS: usize = 16;

/// The histories of a status register's bits, that of bit 0 first.
#[derive(Drop)]
pub(crate) struct Register {
    bits: Vec<BitHistory>,
}

impl Model for Register {
    ghost use Rattle.std.specs.Prelude.{◌≡◌, List, length};
    ghost use Rattle.pmb_stats_bits.specs.declared.history.BitHistory.{BitHistory};

    ghost Value = { List BitHistory };

    ghost view = { λ r. r.bits.items };

    ghost invariant = { λ r. length r.bits.items ≡ 16 };
}

impl Register {
    /// No read came.
    pub(crate) fn new(alloc: Global) -> Result<Register, AllocError>
        ensures { IfOk result (λ register. HaveRead register []) }
    {
        let mut bits = Vec::with_capacity(alloc, BITS)?;
        for _bit in 0..BITS {
            bits.push(BitHistory::new())?;
        }
        Ok(Register { bits })
    }

    /// Takes the next read: the word, and the time of its packet, of at most 40 bytes, if one is known.
    pub(crate) fn see(&mut self, word: u16, time: Option<&[u8]>)
        requires { ForSome time (λ time. length time.now ≤ 40) }
        ensures { (reads : List RegisterRead) → HaveRead self.old reads
            → HaveRead self.new (reads ++ record { word = word; time = option_map (λ time. time.now) time.entry } ∷ []) }
    {
        see_word(self.bits.as_mut_slice(), word, time);
    }

    /// The histories, that of bit 0 first.
    pub(crate) fn bits(&self) -> &[BitHistory]
        ensures bits { result.now ≡ self.now }
        ensures sixteen { length self.now ≡ 16 }
    {
        self.bits.as_slice()
    }
}
