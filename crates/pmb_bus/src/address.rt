//! The bytes that address a device, and the address at which alerts are answered.
//!
//! Its rows: `tests_bytes`, `src/bus/addresses.rt`.

ghost use Rattle.std.specs.Prelude.{◌≡◌, ◌<◌, ◌%◌};
ghost use Rattle.pmb_bus.specs.Address.{write_address, read_address};

/// The Alert Response Address, which is read (SMBus 3.0 appendix C): a device that has something to
/// tell answers there.
pub const ALERT_ADDRESS: u8 = 0x0c;

/// The byte that addresses a device for writing: the address, of seven bits, in bits 7 to 1, and 0 in
/// bit 0 (SMBus 3.0 section 6.5). Of an address from 0x80 on, which no device has, bit 7 is lost.
#[inline(always)]
pub const fn write_address(address: u8) -> u8
    ensures seven_bits { address < 128 → result ≡ write_address address }
    ensures low_bits { result ≡ write_address address % 256 }
{
    address.wrapping_mul(2)
}

/// The byte that addresses a device for reading: the address, of seven bits, in bits 7 to 1, and 1 in
/// bit 0 (SMBus 3.0 section 6.5). Of an address from 0x80 on, which no device has, bit 7 is lost.
#[inline(always)]
pub const fn read_address(address: u8) -> u8
    ensures seven_bits { address < 128 → result ≡ read_address address }
    ensures low_bits { result ≡ read_address address % 256 }
{
    write_address(address).wrapping_add(1)
}
