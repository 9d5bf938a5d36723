//! Whether words in DIRECT count as they stand.
//!
//! Its rows: `tests/rows/forms.txt`, `tests/rows/profiles.txt`.

ghost use Rattle.std.specs.Prelude.{◌≡◌, Ok, IfOk, codes, false};
ghost use Rattle.toml.specs.Data.{as_bool};
ghost use Rattle.toml.specs.View.{table_view};
ghost use Rattle.pmb_command.specs.Entry.{entry_parts};
ghost use Rattle.pmb_keys.specs.Rules.{bind, defaulted, typed};
ghost use Rattle.pmb_keys.specs.CommandRules.{kind_of_words, of_words, unsigned_rule, words_rule};

use crate::fault::FaultKind;
use crate::rules::{find, flag_of};
use pmb_coefficients::Direct;
use pmb_command::{Entry, Kind};
use pmb_value::{NumberFormat, VoutFormat};
use toml::Table;

/// Coefficients for words that count as they stand, or in two's complement.
pub(crate) fn of_words(unsigned: bool, direct: Direct) -> Direct
    ensures { result ≡ of_words unsigned direct }
{
    if unsigned {
        direct.unsigned()
    } else {
        direct.signed()
    }
}

/// Whether words count as they stand: they don't, unless a table says so.
pub(crate) fn read_flag(table: &Table) -> Result<bool, FaultKind>
    ensures { result ≡ defaulted (typed as_bool) false (codes "unsigned") (table_view table.now) }
{
    match find(table, "unsigned") {
        Some(value) => flag_of(value),
        None => Ok(false),
    }
}

/// A kind for such words: DIRECT alone has them.
fn kind_of_words(unsigned: bool, kind: &Kind) -> Result<Kind, FaultKind>
    ensures { result ≡ kind_of_words unsigned kind.now }
{
    match kind {
        Kind::Number(NumberFormat::Word(VoutFormat::Direct(direct))) => {
            let words = VoutFormat::Direct(of_words(unsigned, *direct));
            Ok(Kind::Number(NumberFormat::Word(words)))
        }
        _ => Err(FaultKind::UnknownKey),
    }
}

/// A command's kind, for the words that the key `unsigned` tells.
fn read_words(kind: Kind, table: &Table) -> Result<Kind, FaultKind>
    ensures { result ≡ words_rule kind (table_view table.now) }
{
    match find(table, "unsigned") {
        Some(value) => kind_of_words(flag_of(value)?, &kind),
        None => Ok(kind),
    }
}

/// A command, for the words that the key `unsigned` tells.
pub(crate) fn read_unsigned(entry: Entry, table: &Table) -> Result<Entry, FaultKind>
    ensures read { bind result (λ e. Ok (entry_parts e)) ≡ unsigned_rule (entry_parts entry) (table_view table.now) }
    ensures kept { IfOk result (λ e. (e.code ≡ entry.code) × (e.name ≡ entry.name)) }
{
    let kind = read_words(entry.kind, table)?;
    Ok(Entry { kind, ..entry })
}
