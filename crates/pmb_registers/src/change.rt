//! What is done to the bytes of a register.

ghost use Rattle.std.specs.Prelude.{◌≡◌};
ghost use Rattle.pmb_registers.specs.machine.Registers.{HasRoom, change_of};

use crate::bits::{clear_bits, clear_each, set_in_each};
use arrayvec::ArrayVec;

/// A change of bytes.
#[derive(Clone, Copy, Debug)]
pub(crate) enum Change<'a> {
    /// These take their place.
    Take(&'a [u8]),
    /// The bits that are 1 in these become 0.
    ClearBits(&'a [u8]),
    /// All bits become 0.
    ClearEach,
    /// The bits of a mask become 1, in each byte.
    SetBits(u8),
}

/// Makes a change.
pub(crate) fn change_bytes(bytes: &mut ArrayVec<u8, 255>, change: &Change<'_>)
    requires { HasRoom change.now }
    ensures { bytes.new.items ≡ change_of change.now bytes.old.items }
{
    match change {
        Change::Take(written) => {
            bytes.clear();
            let _ = bytes.try_extend_from_slice(written);
        }
        Change::ClearBits(written) => clear_bits(bytes.as_mut_slice(), written),
        Change::ClearEach => clear_each(bytes.as_mut_slice()),
        Change::SetBits(mask) => set_in_each(bytes.as_mut_slice(), *mask),
    }
}
