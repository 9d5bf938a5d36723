//! Bits of registers, in place.

ghost use Rattle.std.specs.Prelude.{◌≡◌, map, bit_or};
ghost use Rattle.pmb_registers.specs.Apply.{cleared_bits};

/// Clears the bits that are 1 in what is written.
pub(crate) fn clear_bits(bytes: &mut [u8], written: &[u8])
    ensures { bytes.new ≡ cleared_bits written.now bytes.old }
{
    let count = bytes.len().min(written.len());
    for i in 0..count {
        bytes[i] &= !written[i];
    }
}

/// Clears all bits.
pub(crate) fn clear_each(bytes: &mut [u8])
    ensures { bytes.new ≡ map (λ byte. 0) bytes.old }
{
    for byte in bytes.iter_mut() {
        *byte = 0;
    }
}

/// Sets the bits of a mask in each byte.
pub(crate) fn set_in_each(bytes: &mut [u8], mask: u8)
    ensures { bytes.new ≡ map (λ byte. bit_or byte mask) bytes.old }
{
    for byte in bytes.iter_mut() {
        *byte |= mask;
    }
}
