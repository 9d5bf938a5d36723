//! The bits of a status register.
//!
//! Its rows: `tests/rows/stats.txt`.

ghost use Rattle.std.specs.Prelude.{◌≡◌, ◌<◌, ◌≤◌, ◌++◌, ◌∷◌, [], ℕ, List, length, option_map};
ghost use Rattle.std.specs.Option.{ForSome};
ghost use Rattle.pmb_note.specs.Note.{is_set};
ghost use Rattle.pmb_stats_bits.specs.Bits.{RegisterRead};
ghost use Rattle.pmb_stats_bits.specs.Standing.{RegisterStandsAt};

use crate::history::BitHistory;

/// Hands a read of a register to the histories of its lowest bits, of which there are at most 16: the
/// word that was read, and the time of its packet, of at most 40 bytes, if one is known.
pub fn see_word(bits: &mut [BitHistory], word: u16, time: Option<&[u8]>)
    requires few { length bits.old ≤ 16 }
    requires short { ForSome time (λ time. length time.now ≤ 40) }
    ensures { (reads : List RegisterRead) → RegisterStandsAt bits.old reads
        → RegisterStandsAt bits.new (reads ++ record { word = word; time = option_map (λ time. time.now) time.entry } ∷ []) }
{
    for (bit, history) in bits.iter_mut().enumerate() {
        history.see(is_set(word, bit), time);
    }
}

#[inline]
fn is_set(word: u16, bit: usize) -> bool
    requires { bit < 16 }
    ensures { result ≡ is_set word bit }
{
    (word >> bit) % 2 == 1
}
