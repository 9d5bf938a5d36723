//! The packet error code (SMBus 3.0 section 6.4).
ghost use Rattle.std.specs.Prelude.{◌≡◌, ℕ, List, ◌++◌};
ghost use Rattle.pmb_bus.specs.Pec.{pec};

use pmb_bus::pec_next;

/// The packet error code of bytes before and these bytes, where `crc` is the code of those before, or
/// 0 if there are none.
pub fn pec_after(crc: u8, bytes: &[u8]) -> u8
    ensures { (before : List ℕ) → pec before ≡ crc → result ≡ pec (before ++ bytes.now) }
{
    let mut code = crc;
    for &byte in bytes {
        code = pec_next(code, byte);
    }
    code
}
