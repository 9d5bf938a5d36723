//! Whether a command is the standard's.
//!
//! Its rows: `tests_commands`, `src/command_data.rt`.

ghost use Rattle.std.specs.Prelude.{◌≡◌};
ghost use Rattle.pmb_command.specs.Commands.{standard_entry};
ghost use Rattle.pmb_command.specs.Entry.{entry_parts};
ghost use Rattle.pmb_command.specs.Fitting.{is_raw};
ghost use Rattle.pmb_command_data.specs.Standard.{has_name, has_standard_name, is_plain_standard};

use pmb_command::{Entry, Kind, standard};

/// Whether a command has the name that the standard gives its code.
pub(crate) fn has_standard_name(entry: &Entry) -> bool
    ensures { result ≡ has_standard_name (entry_parts entry.now) }
{
    match standard(entry.code) {
        Some(standard) => standard.name.as_bytes() == entry.name.as_bytes(),
        None => false,
    }
}

/// Whether a kind is `raw`.
fn is_raw(kind: Kind) -> bool
    ensures { result ≡ is_raw kind }
{
    matches!(kind, Kind::Raw)
}

/// Whether a command is the standard's, and its data are bytes: of some such commands the standard
/// says what the bytes mean.
pub fn is_plain_standard(entry: &Entry) -> bool
    ensures { result ≡ is_plain_standard (entry_parts entry.now) }
{
    is_raw(entry.kind) && has_standard_name(entry)
}
