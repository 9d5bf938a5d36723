//! Which writes WRITE_PROTECT disables (PMBus Part II 1.3 section 11.1).
//!
//! Its rows: `tests_devices`, `src/registers/written.rt`; `tests/rows/requests.txt`.

ghost use Rattle.std.specs.Prelude.{◌≡◌};
ghost use Rattle.pmb_registers.specs.Protection.{enables, enables_by, takes};

use pmb_command::is_protection;

/// The code of WRITE_PROTECT.
pub(crate) const WRITE_PROTECT: u8 = 0x10;

/// The code of PAGE.
const PAGE: u8 = 0x00;

/// The code of OPERATION.
const OPERATION: u8 = 0x01;

/// The code of ON_OFF_CONFIG.
const ON_OFF_CONFIG: u8 = 0x02;

/// The code of VOUT_COMMAND.
const VOUT_COMMAND: u8 = 0x21;

/// Whether a value of WRITE_PROTECT leaves a command to be written.
fn enables(value: u8, code: u8) -> bool
    ensures { result ≡ enables value code }
{
    match value {
        0x80 => code == WRITE_PROTECT,
        0x40 => matches!(code, WRITE_PROTECT | OPERATION | PAGE),
        0x20 => matches!(
            code,
            WRITE_PROTECT | OPERATION | PAGE | ON_OFF_CONFIG | VOUT_COMMAND
        ),
        _ => true,
    }
}

/// The same, by what the register of WRITE_PROTECT holds.
pub(crate) fn enables_by(held: &[u8], code: u8) -> bool
    ensures { result ≡ enables_by held.now code }
{
    match held.first() {
        Some(value) => enables(*value, code),
        None => true,
    }
}

/// Whether a command takes these data under any protection: WRITE_PROTECT its four values alone.
pub(crate) fn takes(code: u8, bytes: &[u8]) -> bool
    ensures { result ≡ takes code bytes.now }
{
    code != WRITE_PROTECT || is_protection(bytes)
}
