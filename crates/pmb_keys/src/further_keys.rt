//! The last keys of a command's table: the unit of its numbers, the names of its status bits, and
//! whether it has a value for each phase.
//!
//! Its rows: `tests/rows/forms.txt`.

ghost use Rattle.std.specs.Prelude.{◌≡◌, Ok, IfOk, IfSome, codes, false, map, option_map};
ghost use Rattle.toml.specs.Data.{as_bool};
ghost use Rattle.toml.specs.View.{table_view};
ghost use Rattle.pmb_command.specs.Bus.{AreBits, IsUnitOf};
ghost use Rattle.pmb_command.specs.Entry.{entry_parts};
ghost use Rattle.pmb_keys.specs.CommandView.{bit_parts};
ghost use Rattle.pmb_keys.specs.FurtherKeys.{further_keys};
ghost use Rattle.pmb_keys.specs.machine.FurtherView.{further_parts};
ghost use Rattle.pmb_keys.specs.Rules.{bind, defaulted, typed};

use crate::bits_key::{NamedBits, read_bits};
use crate::fault::FaultKind;
use crate::rules::{find, flag_of};
use crate::unit_key::read_unit;
use arrayvec::ArrayString;
use pmb_command::Entry;
use toml::Table;

/// What the last keys of a command's table say.
#[derive(Drop)]
pub(crate) struct FurtherKeys {
    pub unit: Option<ArrayString<16>>,
    pub bits: NamedBits,
    pub phased: bool,
}

/// Whether a command has a value for each phase: it hasn't, unless its table says so.
fn read_phased(table: &Table) -> Result<bool, FaultKind>
    ensures { result ≡ defaulted (typed as_bool) false (codes "phased") (table_view table.now) }
{
    match find(table, "phased") {
        Some(value) => flag_of(value),
        None => Ok(false),
    }
}

/// The last keys of a command's table, each ruled in its turn.
pub(crate) fn read_further(entry: &Entry, table: &Table) -> Result<FurtherKeys, FaultKind>
    ensures read { bind result (λ f. Ok (further_parts f)) ≡ further_keys (entry_parts entry.now) (table_view table.now) }
    ensures unit { IfOk result (λ f. IfSome (further_parts f).unit (IsUnitOf entry.now.kind)) }
    ensures bits { IfOk result (λ f. AreBits (entry_parts entry.now) (further_parts f).bits) }
{
    let unit = read_unit(entry, table)?;
    let bits = read_bits(entry, table)?;
    let phased = read_phased(table)?;
    Ok(FurtherKeys { unit, bits, phased })
}
