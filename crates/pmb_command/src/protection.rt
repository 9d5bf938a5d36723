//! WRITE_PROTECT (PMBus Part II 1.3 section 11.1).
//!
//! Its rows: `tests/rows/profiles.txt`, `tests/rows/requests.txt`.

ghost use Rattle.std.specs.Prelude.{◌≡◌};
ghost use Rattle.pmb_command.specs.Protection.{is_protection};

/// Whether WRITE_PROTECT may hold these bytes: 80h, 40h, 20h or 00h, one alone.
pub const fn is_protection(bytes: &[u8]) -> bool
    ensures { result ≡ is_protection bytes.now }
{
    matches!(bytes, [0x80 | 0x40 | 0x20 | 0x00])
}
