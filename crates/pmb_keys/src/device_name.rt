//! The name of a device.
//!
//! Its rows: `tests/rows/profiles.txt`.

ghost use Rattle.std.specs.Prelude.{◌≡◌, Ok, IfOk, IfSome, codes, option_map};
ghost use Rattle.toml.specs.View.{table_view, view};
ghost use Rattle.pmb_command.specs.Names.{IsDeviceName};
ghost use Rattle.pmb_keys.specs.Rules.{bind, optional};
ghost use Rattle.pmb_keys.specs.DeviceKeys.{name_rule};

use crate::fault::FaultKind;
use crate::rules::{find, text_of};
use pmb_command::{Name, is_device_name};
use toml::{Table, Value};

/// The name that a value gives: 1 to 32 characters from 20h to 7eh, or BadName.
fn name_of(value: &Value) -> Result<Name, FaultKind>
    ensures read { bind result (λ name. Ok name.bytes) ≡ name_rule (view value.now) }
    ensures fits { IfOk result (λ name. IsDeviceName name.bytes) }
{
    let text = text_of(value)?;
    if !is_device_name(text) {
        return Err(FaultKind::BadName);
    }
    match Name::from(text) {
        Ok(name) => Ok(name),
        Err(_) => unreachable!(),
    }
}

/// The name of a device, where it has one.
pub(crate) fn read_name(table: &Table) -> Result<Option<Name>, FaultKind>
    ensures read { bind result (λ name. Ok (option_map (λ n. n.bytes) name)) ≡ optional name_rule (codes "name") (table_view table.now) }
    ensures fits { IfOk result (λ name. IfSome (option_map (λ n. n.bytes) name) IsDeviceName) }
{
    match find(table, "name") {
        Some(value) => Ok(Some(name_of(value)?)),
        None => Ok(None),
    }
}
