//! The table of a profile's text, a TOML document.
//!
//! Its rows: `tests/rows/profiles.txt`.

ghost use Rattle.std.specs.Prelude.{◌≡◌, ◌⊎◌, ◌↔◌, IsUtf8, Err, IfOk, IfErr};
ghost use Rattle.toml.specs.Errors.{IsBlank, IsMemory};
ghost use Rattle.toml.specs.View.{table_view};
ghost use Rattle.pmb_table.specs.Profile.{HasNoDocument, IsDocument};

use pmb_keys::FaultKind;
use std::alloc::Global;
use toml::Table;

/// Why a text gave no table: the reader of TOML had no memory, or the text is no document.
fn fault_of(error: &toml::de::Error) -> FaultKind
    ensures memory { (result ≡ FaultKind.OutOfMemory) ↔ IsMemory error.now }
    ensures not_toml { (result ≡ FaultKind.NotToml) ↔ (¬ IsMemory error.now) }
{
    if error.is_memory() {
        FaultKind::OutOfMemory
    } else {
        FaultKind::NotToml
    }
}

/// Reads the table of a text. A text that is not UTF-8 is refused without memory, and white space
/// and comments take none.
pub(crate) fn read_table(alloc: Global, text: &[u8]) -> Result<Table, FaultKind>
    ensures found { IfOk result (λ table. IsDocument text.now (table_view table)) }
    ensures fault { IfErr result (λ what. (what ≡ FaultKind.OutOfMemory) ⊎ ((what ≡ FaultKind.NotToml) × HasNoDocument text.now)) }
    ensures utf8 { ¬ IsUtf8 text.now → result ≡ Err FaultKind.NotToml }
    ensures memory { result ≡ Err FaultKind.OutOfMemory → ¬ IsBlank text.now }
{
    let text = match std::str::from_utf8(text) {
        Ok(text) => text,
        Err(_) => return Err(FaultKind::NotToml),
    };
    match toml::table_from_str(alloc, text) {
        Ok(table) => Ok(table),
        Err(error) => Err(fault_of(&error)),
    }
}
