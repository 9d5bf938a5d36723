//! VOUT_MODE on the pages of a device, where it has one value for all of them.
//!
//! Its rows: `tests/rows/profiles.txt`.

ghost use Rattle.std.specs.Prelude.{◌≡◌, ◌<◌, true, IfOk, nat_eq};
ghost use Rattle.std.specs.List.{AllByRecursion, list_all};
ghost use Rattle.pmb_command.specs.Parts.{all_same, has_one_mode};
ghost use Rattle.pmb_keys.specs.Rules.{unless};
ghost use Rattle.pmb_table.specs.Profile.{modes_fit};

use crate::command_map::CommandMap;
use pmb_keys::FaultKind;

/// VOUT_MODE.
const VOUT_MODE: u8 = 0x20;

/// Whether VOUT_MODE is a command that has one value for all pages.
fn has_one_mode(commands: &CommandMap) -> bool
    ensures { result ≡ has_one_mode commands.now }
{
    match commands.get(VOUT_MODE) {
        Some(command) => !command.entry.paged,
        None => false,
    }
}

/// Whether all modes are one.
fn are_all(mode: u8, modes: &[u8]) -> bool
    ensures { result ≡ list_all (nat_eq mode) modes.now }
{
    modes.iter().all(|other| mode == *other)
}

/// Whether all modes are the same.
fn all_same(modes: &[u8]) -> bool
    ensures { result ≡ all_same modes.now }
{
    match modes.split_first() {
        Some((first, rest)) => are_all(*first, rest),
        None => true,
    }
}

/// Each mode is a byte.
pub(crate) const fn are_bytes(modes: &[u8])
    ensures { AllByRecursion (λ mode. mode < 256) modes.now }
{
    let _ = modes;
}

/// Refuses modes that differ, where VOUT_MODE has one value for all pages.
pub(crate) fn check_modes(commands: &CommandMap, modes: &[u8]) -> Result<(), FaultKind>
    ensures read { result ≡ unless FaultKind.BadValue (modes_fit commands.now modes.now) }
    ensures fits { IfOk result (λ _. modes_fit commands.now modes.now ≡ true) }
{
    if has_one_mode(commands) && !all_same(modes) {
        return Err(FaultKind::BadValue);
    }
    Ok(())
}
