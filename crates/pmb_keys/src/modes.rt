//! VOUT_MODE of each page of a device at first.
//!
//! Its rows: `tests_tasks`, `src/profiles.rt`; `tests/rows/profiles.txt`.

ghost use Rattle.std.specs.Prelude.{◌≡◌, ◌≤◌, Ok, Some, IfOk, codes, length, option_map, replicate};
ghost use Rattle.toml.specs.Data.{Data, as_array};
ghost use Rattle.toml.specs.View.{array_view, items_view, table_view, view};
ghost use Rattle.pmb_keys.specs.Rules.{bind, defaulted, each_of};
ghost use Rattle.pmb_keys.specs.CommandRules.{byte_rule};
ghost use Rattle.pmb_keys.specs.DeviceKeys.{modes_of, modes_rule};

use crate::fault::FaultKind;
use crate::rules::{byte_rule, find};
use arrayvec::ArrayVec;
use toml::{Table, Value};

/// VOUT_MODE of each page, from page 0 on.
pub type Modes = ArrayVec<u8, 32>;

/// VOUT_MODE without the key: linear with the exponent -9.
const LINEAR: u8 = 0x17;

/// One VOUT_MODE for all pages.
fn same_mode(mode: u8, pages: u8) -> Modes
    requires { pages ≤ 32 }
    ensures { result.items ≡ replicate pages mode }
{
    let mut modes = Modes::new();
    for _ in 0..pages {
        modes.push(mode);
    }
    modes
}

/// Refuses the first item of an array that is no byte.
fn check_bytes(items: &[Value]) -> Result<(), FaultKind>
    ensures { result ≡ bind (each_of byte_rule (items_view items.now)) (λ _. Ok tt) }
{
    for item in items {
        byte_rule(item)?;
    }
    Ok(())
}

/// The bytes of an array.
fn bytes_of(items: &[Value]) -> Result<Modes, FaultKind>
    requires { length items.now ≤ 32 }
    ensures read { bind result (λ modes. Ok modes.items) ≡ each_of byte_rule (items_view items.now) }
    ensures count { IfOk result (λ modes. length modes.items ≡ length items.now) }
{
    let mut modes = Modes::new();
    for item in items {
        let mode = byte_rule(item)?;
        modes.push(mode);
    }
    Ok(modes)
}

/// The VOUT_MODE of each page by an array, which has an item for each, or BadValue. All of its items
/// are looked at first.
fn each_mode(items: &[Value], pages: u8) -> Result<Modes, FaultKind>
    requires { pages ≤ 32 }
    ensures read { (d : Data) → bind result (λ modes. Ok modes.items) ≡ modes_of pages d (Some (items_view items.now)) }
    ensures count { IfOk result (λ modes. length modes.items ≡ pages) }
{
    check_bytes(items)?;
    if items.len() != usize::from(pages) {
        return Err(FaultKind::BadValue);
    }
    bytes_of(items)
}

/// The VOUT_MODE of each page by a value, which is one for all pages, or an array.
fn modes_of(value: &Value, pages: u8) -> Result<Modes, FaultKind>
    requires { pages ≤ 32 }
    ensures read { bind result (λ modes. Ok modes.items) ≡ modes_rule pages (view value.now) }
    ensures count { IfOk result (λ modes. length modes.items ≡ pages) }
{
    match value.as_array() {
        Some(items) => each_mode(items.as_slice(), pages),
        None => Ok(same_mode(byte_rule(value)?, pages)),
    }
}

/// VOUT_MODE of each page at first: linear with the exponent -9, unless the device says another.
pub(crate) fn read_modes(table: &Table, pages: u8) -> Result<Modes, FaultKind>
    requires { pages ≤ 32 }
    ensures read { bind result (λ modes. Ok modes.items) ≡ defaulted (modes_rule pages) (replicate pages 0x17) (codes "vout_mode") (table_view table.now) }
    ensures count { IfOk result (λ modes. length modes.items ≡ pages) }
{
    match find(table, "vout_mode") {
        Some(value) => modes_of(value, pages),
        None => Ok(same_mode(LINEAR, pages)),
    }
}
