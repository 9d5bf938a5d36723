//! What sets VOUT_MODE of a device to values that the bus doesn't show. It goes by the code, whatever
//! name a profile gives it.
//!
//! Its rows: `tests_lines`, `src/late/restores.rt`.

ghost use Rattle.std.specs.Prelude.{◌≡◌, ◌||◌, ◌&&◌};
ghost use Rattle.pmb_unknown_start.specs.Restores.{sets_mode_on_page, is_restore, untells_mode};

/// The codes of the commands with which a device takes what it has stored (PMBus Part II 1.3 section
/// 11).
const RESTORE_DEFAULT_ALL: u8 = 0x12;

const RESTORE_DEFAULT_CODE: u8 = 0x14;

const RESTORE_USER_ALL: u8 = 0x16;

const RESTORE_USER_CODE: u8 = 0x18;

/// The code of PAGE_PLUS_WRITE (section 11).
const PAGE_PLUS_WRITE: u8 = 0x05;

/// The code of VOUT_MODE (section 8).
const VOUT_MODE: u8 = 0x20;

/// Whether VOUT_MODE of a device is untold after a complete write with a code and these data.
pub(crate) fn untells_mode(code: u8, bytes: &[u8]) -> bool
    ensures { result ≡ untells_mode code bytes.now }
{
    is_restore(code) || code == PAGE_PLUS_WRITE && sets_mode_on_page(bytes)
}

// Whether a device takes what it has stored.
fn is_restore(code: u8) -> bool
    ensures { result ≡ is_restore code }
{
    code == RESTORE_DEFAULT_ALL
        || code == RESTORE_DEFAULT_CODE
        || code == RESTORE_USER_ALL
        || code == RESTORE_USER_CODE
}

// Whether data of PAGE_PLUS_WRITE, a page, a code and what is written there, set VOUT_MODE: they are
// for it, or have the device take what it has stored.
fn sets_mode_on_page(bytes: &[u8]) -> bool
    ensures { result ≡ sets_mode_on_page bytes.now }
{
    match bytes {
        [_, code, ..] => *code == VOUT_MODE || is_restore(*code),
        _ => false,
    }
}
